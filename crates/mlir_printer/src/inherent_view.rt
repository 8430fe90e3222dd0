//! What an operation says, and what is left of it.
ghost use Rattle.std.specs.Prelude.{◌≡◌, map, drop};
ghost use Rattle.hw_model.specs.TypeViews.{type_of};
ghost use Rattle.hw_model.specs.KindViews.{kind_of, reset_of};
ghost use Rattle.mlir_printer.specs.Elements.{operands_taken, types_taken};
ghost use Rattle.mlir_printer.specs.Texts.{reset_inherent, inherent_shown};
ghost use Rattle.mlir_printer.specs.Views.{inherent_of};

use crate::numbers::shown_by_first;
use assembly_format::elements::FormatElement;
use hw_model::kinds::{Instance, Integer, LiteralList, OpKind, Predicate, Reset};
use hw_model::types::Ty;
use ir_store::operation::Value;

/// What an operation says besides its operands and types.
#[derive(Clone, Copy)]
pub enum InherentView<'d> {
    /// Nothing.
    Nothing,
    /// That the register has a reset.
    WithReset,
    /// That the register has an asynchronous reset.
    WithAsyncReset,
    /// A predicate.
    Predicate(Predicate),
    /// A position.
    Position(u32),
    /// A number, as it is printed.
    Number(Integer),
    /// The constants of an aggregate.
    Literals(&'d LiteralList),
    /// The name of a field.
    FieldName(&'d [u8]),
    /// An instance.
    Child(&'d Instance),
}

/// What is left to print of an operation after its name.
#[derive(Clone, Copy)]
pub struct Pending<'d> {
    /// Its operands that are left.
    pub operands: &'d [Value],
    /// Its types that are left.
    pub types: &'d [Ty],
    /// The rest.
    pub inherent_view: InherentView<'d>,
}

// What a reset says.
fn reset_view<'d>(reset: Reset) -> InherentView<'d>
    ensures { inherent_of result ≡ reset_inherent (reset_of reset) }
{
    match reset {
        Reset::No => InherentView::Nothing,
        Reset::Sync => InherentView::WithReset,
    }
}

/// What a kind says besides operands and types, of operations with these types.
#[tactic(auto, unfolding(crate::specs::Texts::inherent_shown))]
pub fn inherent_view_of<'d>(kind: &'d OpKind, types: &[Ty]) -> InherentView<'d>
    ensures { inherent_of result ≡ inherent_shown (kind_of kind.now) (map type_of types.now) }
{
    match kind {
        OpKind::Icmp(predicate) => InherentView::Predicate(*predicate),
        OpKind::Extract(low) => InherentView::Position(*low),
        OpKind::Constant(value) => InherentView::Number(shown_by_first(types, *value)),
        OpKind::AggregateConstant(list) => InherentView::Literals(list),
        OpKind::StructExtract(name) | OpKind::StructInject(name) => {
            InherentView::FieldName(name.as_bytes())
        }
        OpKind::Instance(instance) => InherentView::Child(instance),
        OpKind::CompReg(reset) | OpKind::CompRegCe(reset) | OpKind::FirReg(reset) => {
            reset_view(*reset)
        }
        OpKind::AsyncFirReg => InherentView::WithAsyncReset,
        _ => InherentView::Nothing,
    }
}

// How many operands a piece takes.
fn operands_taken(element: FormatElement) -> usize
    ensures { result ≡ operands_taken element }
{
    match element {
        FormatElement::Operand => 1,
        _ => 0,
    }
}

// How many types a piece takes.
fn types_taken(element: FormatElement) -> usize
    ensures { result ≡ types_taken element }
{
    match element {
        FormatElement::Type => 1,
        _ => 0,
    }
}

impl<'d> Pending<'d> {
    /// Passes what is a piece.
    pub fn pass(&mut self, element: FormatElement)
        ensures operands { self.new.operands.now ≡ drop (operands_taken element) self.old.operands.now }
        ensures types { self.new.types.now ≡ drop (types_taken element) self.old.types.now }
        ensures inherent_view { self.new.inherent_view ≡ self.old.inherent_view }
    {
        match element {
            FormatElement::Operand => self.operands = after_first(self.operands),
            FormatElement::Type => self.types = after_first(self.types),
            _ => {}
        }
    }

    /// What is left after a piece.
    pub fn after(self, element: FormatElement) -> Pending<'d>
        ensures operands { result.operands.now ≡ drop (operands_taken element) self.entry.operands.now }
        ensures types { result.types.now ≡ drop (types_taken element) self.entry.types.now }
        ensures inherent_view { result.inherent_view ≡ self.entry.inherent_view }
    {
        let operands = operands_taken(element).min(self.operands.len());
        let types = types_taken(element).min(self.types.len());
        Pending {
            operands: &self.operands[operands..],
            types: &self.types[types..],
            inherent_view: self.inherent_view,
        }
    }
}

// The items after the first.
fn after_first<T>(items: &[T]) -> &[T]
    ensures { result.now ≡ drop 1 items.now }
{
    &items[1.min(items.len())..]
}
