//! Operations, as they are printed.
ghost use Rattle.std.specs.Prelude.{◌≡◌, ◌+◌, ◌++◌, map, drop, min, OnOk, IfOk};
ghost use Rattle.hw_model.specs.TypeViews.{type_of};
ghost use Rattle.hw_model.specs.KindViews.{kind_of};
ghost use Rattle.ir_store.specs.Bodies.{ops_of, read_parts};
ghost use Rattle.ir_store.specs.OperationViews.{types_in};
ghost use Rattle.ir_store.specs.DictionaryViews.{entries_in};
ghost use Rattle.mlir_printer.specs.Commas.{commas};
ghost use Rattle.mlir_printer.specs.Elements.{value_name_bytes, elements_bytes};
ghost use Rattle.mlir_printer.specs.Operations.{results_bytes, bin_bytes, form_bytes, is_truth_view, format_shown, after_blank, left_after_all, operation_line, operation_lines, shaped_bytes};
ghost use Rattle.assembly_format.specs.Formats.{prefix_elements, type_elements};
ghost use Rattle.mlir_printer.specs.Naming.{first_name, firsts, listed_names, results_named};
ghost use Rattle.printing_laws.specs.NameHints.{name_count};
ghost use Rattle.mlir_printer.specs.Texts.{inherent_shown, entries_shown, operation_shown};
ghost use Rattle.mlir_printer.specs.Shown.{stored_shown};
ghost use Rattle.mlir_printer.specs.Views.{names_held, value_held, pending_of, inherent_of};

use crate::commas::{push_comma, push_few};
use crate::dictionaries::push_named_dictionary;
use crate::elements::{push_elements, push_value_name};
use crate::inherent_view::{InherentView, Pending, inherent_view_of};
use crate::numbers::{is_shown_as_truth, push_length};
use crate::value_names::ValueNames;
use crate::wanted::{is_pack, name_count};
use assembly_format::elements::{Format, FormatElement};
use assembly_format::formats::{format_of, prefix_elements, type_elements};
use hw_model::kinds::OpKind;
use hw_model::types::Ty;
use io_edge::byte_text::Text;
use ir_store::body::{Body, Op};
use opcode::listed::Listed;
use std::alloc::AllocError;

// Whether what is said of a constant is printed as `true` or `false`.
fn is_truth_view(types: &[Ty], inherent_view: InherentView<'_>) -> bool
    ensures { result ≡ is_truth_view (map type_of types.now) (inherent_of inherent_view.entry) }
{
    match (types.first(), inherent_view) {
        (Some(ty), InherentView::Number(value)) => is_shown_as_truth(ty, value),
        _ => false,
    }
}

// The form of an operation.
#[tactic(auto, unfolding(crate::specs::Operations::format_shown))]
fn format_shown(name: Listed, names: &ValueNames, pending: &Pending<'_>) -> Format
    ensures { result ≡ format_shown name (pending_of names.now pending.now) }
{
    match name {
        Listed::HwConstant if is_truth_view(pending.types, pending.inherent_view) => Format::Truth,
        Listed::HwConstant => Format::Integer,
        Listed::HwOutput if pending.operands.is_empty() => Format::Nothing,
        Listed::HwOutput => Format::Joined,
        _ => format_of(name, None),
    }
}

// Adds so many names of values, before which so many others stand, and `=` after them.
#[tactic(auto, unfolding(crate::specs::Operations::results_bytes))]
fn push_names(
    out: &mut Text,
    names: &ValueNames,
    first: u32,
    count: usize,
) -> Result<(), AllocError>
    ensures { OnOk result (out.new ≡ out.old ++ results_bytes (listed_names (firsts count (drop first (names_held names.now))))) }
{
    if count == 0 {
        return Ok(());
    }
    push_listed(out, names, first, count)?;
    push_few(out, b" = ")?;
    Ok(())
}

// Adds so many names of values, before which so many others stand, with commas between them.
fn push_listed(
    out: &mut Text,
    names: &ValueNames,
    first: u32,
    count: usize,
) -> Result<(), AllocError>
    ensures { OnOk result (out.new ≡ out.old ++ commas value_name_bytes (firsts count (drop first (names_held names.now)))) }
{
    for i in 0..count {
        push_comma(out, i)?;
        push_value_name(out, names.after(first, i))?;
    }
    Ok(())
}

// Adds the names of an operation's results.
#[tactic(auto, unfolding(crate::specs::Operations::results_bytes))]
fn push_results(
    out: &mut Text,
    names: &ValueNames,
    op: &Op<'_>,
    first: u32,
) -> Result<(), AllocError>
    ensures { OnOk result (out.new ≡ out.old ++ results_bytes (results_named (read_parts op.now) (drop first (names_held names.now)))) }
{
    let results = op.results.len();
    if !is_pack(op.kind, results) {
        push_names(out, names, first, name_count(op))?;
        return Ok(());
    }
    push_value_name(out, names.nth(first as usize))?;
    out.push_bytes(b":")?;
    push_length(out, results)?;
    out.push_bytes(b" = ")?;
    Ok(())
}

// Adds pieces after a name, with a blank before the first, and gives what is left after them.
fn push_front<'d>(
    out: &mut Text,
    names: &ValueNames,
    elements: &[FormatElement],
    pending: Pending<'d>,
) -> Result<Pending<'d>, AllocError>
    ensures bytes { OnOk result (out.new ≡ out.old ++ after_blank elements.now (elements_bytes elements.now (pending_of names.now pending.entry))) }
    ensures left { IfOk result (λ left. pending_of names.now left ≡ left_after_all elements.now (pending_of names.now pending.entry)) }
{
    if !elements.is_empty() {
        out.push(b' ')?;
    }
    push_elements(out, names, elements, pending)
}

// Adds a form: pieces, a dictionary, and the types.
#[tactic(auto, unfolding(crate::specs::Operations::form_bytes))]
fn push_form(
    out: &mut Text,
    names: &ValueNames,
    format: Format,
    pending: Pending<'_>,
    op: &Op<'_>,
    first: u32,
) -> Result<(), AllocError>
    ensures { OnOk result (out.new ≡ out.old ++ form_bytes (prefix_elements format) (type_elements format) (pending_of names.now pending.entry) (entries_shown op.now.name.now (first_name (drop first (names_held names.now))) (entries_in op.now.dictionary.now))) }
{
    let printed = names.nth(first as usize);
    let left = push_front(out, names, prefix_elements(format), pending)?;
    push_named_dictionary(out, op.name.as_bytes(), printed, &op.dictionary.entries)?;
    push_elements(out, names, type_elements(format), left)?;
    Ok(())
}

// What is left to print of an operation after its name.
fn pending_of<'d>(op: &Op<'d>) -> Pending<'d>
    ensures operands { result.operands.now ≡ op.now.operands.now }
    ensures types { map type_of result.types.now ≡ types_in op.now.types.now }
    ensures inherent_view { inherent_of result.inherent_view ≡ inherent_shown (kind_of op.now.kind.now) (types_in op.now.types.now) }
{
    Pending {
        operands: op.operands,
        types: op.types.as_slice(),
        inherent_view: inherent_view_of(op.kind, op.types.as_slice()),
    }
}

/// Adds a line of a body, of an operation before the names of whose results
/// so many others stand.
#[tactic(auto, unfolding(crate::specs::Operations::operation_line, crate::specs::Operations::operation_bytes, crate::specs::Operations::shaped_bytes))]
pub fn push_operation(
    out: &mut Text,
    names: &ValueNames,
    op: &Op<'_>,
    first: u32,
) -> Result<(), AllocError>
    ensures { OnOk result (out.new ≡ out.old ++ operation_line (operation_shown (read_parts op.now) (map (value_held names.now) op.now.operands.now) (drop first (names_held names.now)))) }
{
    let name = op.kind.listed();
    let pending = pending_of(op);
    let format = format_shown(name, names, &pending);
    push_few(out, b"    ")?;
    push_results(out, names, op, first)?;
    out.push_bytes(name.name())?;
    push_bin(out, op.bin)?;
    push_form(out, names, format, pending, op, first)?;
    out.push(b'\n')?;
    Ok(())
}

// Adds ` bin`, or nothing.
#[tactic(auto, unfolding(crate::specs::Operations::bin_bytes))]
fn push_bin(out: &mut Text, bin: bool) -> Result<(), AllocError>
    ensures { OnOk result (out.new ≡ out.old ++ bin_bytes bin) }
{
    if bin {
        out.push_bytes(b" bin")?;
    }
    Ok(())
}

/// Adds the lines of a body, before the names of whose results so many others stand.
pub fn push_operations(
    out: &mut Text,
    names: &ValueNames,
    start: u32,
    body: &Body,
) -> Result<(), AllocError>
    ensures { OnOk result (out.new ≡ out.old ++ operation_lines (stored_shown (value_held names.now) (drop start (names_held names.now)) (ops_of body.now))) }
{
    let mut first = start;
    for id in body.ops() {
        let op = body.op(id);
        push_operation(out, names, &op, first)?;
        first = saturating_add(first, name_count(&op));
    }
    Ok(())
}

/// A number and so many more, at most the greatest one.
pub fn saturating_add(first: u32, count: usize) -> u32
    ensures { result ≡ min (first + count) u32.MAX }
{
    match u32::try_from(count) {
        Ok(count) => first.saturating_add(count),
        Err(_) => u32::MAX,
    }
}
