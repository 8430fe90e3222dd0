//! The names that a module's text defines, in order.
ghost use Rattle.std.specs.Prelude.{◌≡◌, ◌<◌, ◌+◌, ◌^◌, ◌++◌, ◌∷◌, replicate, length, map, IfOk, OnOk};
ghost use Rattle.std.specs.Option.{option_map};
ghost use Rattle.hw_model.specs.TypeViews.{type_of, field_of, fields_of};
ghost use Rattle.hw_model.specs.Sound.{field_list};
ghost use Rattle.type_inference.specs.ResultTypes.{field_count, result_count};
ghost use Rattle.mlir_operations.specs.OperandText.{named_count};
ghost use Rattle.mlir_operations.specs.OperandText.ResultNames.{pack};
ghost use Rattle.mlir_reader.specs.Resolving.{kind_named, inherent_instance, names_from, with_definitions, port_definition, names_defined, operation_definitions, marks, is_marked};
ghost use Rattle.mlir_operations.specs.Views.{names_of, inherent_of, operation_of};
ghost use Rattle.mlir_reader.specs.Meanings.{meanings_of, HasFewNames};

use crate::names::{Defined, Names};
use hw_model::types::{Field, Ty};
use mlir_operations::syntax::{InherentAttributes, OperationText, ResultNames};
use opcode::listed::Listed;
use smallvec::SmallVec;
use std::alloc::{AllocError, Global};

/// Of each result that a name is given to, in order, whether that name stands for something earlier.
pub type Marks = SmallVec<bool, 24, Global>;

/// Defines the value name of a port, where it has one, and says whether it stands for something already.
pub fn define_port<'s>(
    names: &mut Names<'s>,
    position: u32,
    value: Option<&'s [u8]>,
) -> Result<bool, AllocError>
    ensures again { IfOk result (λ again. again ≡ is_marked (meanings_of names.old) (option_map (λ v. v.now) value.entry)) }
    ensures means { OnOk result (meanings_of names.new ≡ with_definitions (meanings_of names.old) (port_definition position (option_map (λ v. v.now) value.entry))) }
{
    match value {
        Some(name) => names.define(name, Defined::Port(position)),
        None => Ok(false),
    }
}

/// Defines the names of the results of an operation at a position, and puts after what is found of earlier ones of
/// each whether it stands for something already.
pub fn define_operation<'s>(
    names: &mut Names<'s>,
    position: u32,
    operation: &OperationText<'s>,
    found: &mut Marks,
) -> Result<(), AllocError>
    requires { HasFewNames operation.now }
    ensures marks { OnOk result (found.new.items ≡ found.old.items ++ marks (meanings_of names.old) (operation_definitions position (operation_of operation.now))) }
    ensures means { OnOk result (meanings_of names.new ≡ with_definitions (meanings_of names.old) (operation_definitions position (operation_of operation.now))) }
{
    let types = operation.gathered.types.as_slice();
    let own = result_count(operation.name, &operation.gathered.inherent, types);
    define_results(names, position, own, &operation.results, found)
}

// How many results an operation has of its own.
#[tactic(auto, using(crate::proofs::ResultCounts::firreg_count), unfolding(crate::specs::Resolving::inherent_kind, type_inference::specs::ResultTypes::result_count))]
fn result_count(name: Listed, inherent: &InherentAttributes, types: &[Ty]) -> usize
    ensures { result ≡ result_count (kind_named name (inherent_of inherent.now) (map type_of types.now)) (map type_of types.now) }
{
    match name {
        Listed::HwModule | Listed::HwOutput => 0,
        Listed::HwStructExplode => field_count(types.first()),
        Listed::HwInstance => types.len().saturating_sub(input_count(inherent)),
        _ => 1,
    }
}

// How many fields a struct has; what is no struct has none.
fn field_count(ty: Option<&Ty>) -> usize
    ensures { result ≡ field_count (option_map (λ t. type_of t.now) ty.entry) }
{
    match ty {
        Some(Ty::Struct(list)) => number_of_fields(&list.fields),
        Some(Ty::Int(_) | Ty::Clock | Ty::Array(..)) | None => 0,
    }
}

// How many fields there are.
fn number_of_fields(fields: &[Field]) -> usize
    ensures { result ≡ length (field_list (fields_of (map field_of fields.now))) }
{
    fields.len()
}

// How many inputs an instance names.
fn input_count(inherent: &InherentAttributes) -> usize
    ensures { result ≡ length (inherent_instance (inherent_of inherent.now)).inputs }
{
    match inherent {
        InherentAttributes::Child(instance) => instance.inputs.len(),
        _ => 0,
    }
}

// Defines the names of results, of which an operation at a position has so many of its own.
fn define_results<'s>(
    names: &mut Names<'s>,
    position: u32,
    own: usize,
    results: &ResultNames<'s>,
    found: &mut Marks,
) -> Result<(), AllocError>
    requires { named_count (names_of results.now) < 2 ^ 32 }
    ensures marks { OnOk result (found.new.items ≡ found.old.items ++ marks (meanings_of names.old) (names_defined position own (names_of results.now))) }
    ensures means { OnOk result (meanings_of names.new ≡ with_definitions (meanings_of names.old) (names_defined position own (names_of results.now))) }
{
    match results {
        ResultNames::Unnamed => Ok(()),
        ResultNames::Names(first, others) => define_each(names, position, first, others, found),
        ResultNames::Pack(name, count) => { define_pack(names, position, own, name, *count, found) }
    }
}

// Defines names of results one by one.
fn define_each<'s>(
    names: &mut Names<'s>,
    position: u32,
    first: &'s [u8],
    others: &[&'s [u8]],
    found: &mut Marks,
) -> Result<(), AllocError>
    requires { length others.now + 1 < 2 ^ 32 }
    ensures marks { OnOk result (found.new.items ≡ found.old.items ++ marks (meanings_of names.old) (names_from position 0 (first.now ∷ map (λ n. n.now) others.now))) }
    ensures means { OnOk result (meanings_of names.new ≡ with_definitions (meanings_of names.old) (names_from position 0 (first.now ∷ map (λ n. n.now) others.now))) }
{
    let again = names.define(first, Defined::Result(position, 0))?;
    found.push(again)?;
    for (index, name) in others.iter().enumerate() {
        let again = names.define(name, Defined::Result(position, index as u32 + 1))?;
        found.push(again)?;
    }
    Ok(())
}

// Defines the name of a pack of so many results.
fn define_pack<'s>(
    names: &mut Names<'s>,
    position: u32,
    own: usize,
    name: &'s [u8],
    count: u32,
    found: &mut Marks,
) -> Result<(), AllocError>
    ensures marks { OnOk result (found.new.items ≡ found.old.items ++ marks (meanings_of names.old) (names_defined position own (pack name.now count))) }
    ensures means { OnOk result (meanings_of names.new ≡ with_definitions (meanings_of names.old) (names_defined position own (pack name.now count))) }
{
    if count == 0 {
        return Ok(());
    }
    let own = u32::try_from(own).unwrap_or(u32::MAX);
    let count = count.min(own);
    let again = names.define(name, Defined::Pack(position, count))?;
    push_marks(found, count.max(1), again)
}

// Puts a mark after others, so many times.
fn push_marks(found: &mut Marks, count: u32, again: bool) -> Result<(), AllocError>
    ensures { OnOk result (found.new.items ≡ found.old.items ++ replicate count again) }
{
    for _ in 0..count {
        found.push(again)?;
    }
    Ok(())
}
