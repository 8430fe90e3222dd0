//! Which modules of a design instances call: those are the modules whose ports are named beforehand. Naming is right
//! whatever the marks are.
ghost use Rattle.std.specs.Prelude.{◌≡◌, [], ◌∷◌, map, option_to_list, IfOk, OnOk};
ghost use Rattle.hw_model.specs.Design.{instance_in};
ghost use Rattle.hw_model.specs.KindViews.{kind_of};
ghost use Rattle.hw_model.specs.Hierarchy.{callee_symbols};
ghost use Rattle.ir_store.specs.Bodies.{ops_of};
ghost use Rattle.ir_store.specs.Numbered.{ops_by_position};
ghost use Rattle.ir_store.specs.Designs.{design_of, modules_of};
ghost use Rattle.design_cycles.specs.Calls.{call_lists, callee_number, numbers_of};
ghost use Rattle.graphs.specs.Graphs.{has_mark};
ghost use Rattle.design_cycles.specs.Graphs.{AreCalled};
ghost use Rattle.export_verilog.specs.Called.{with_marks};

use body_index::op_index::op_at;
use body_index::position_table::ids_in;
use hw_model::kinds::OpKind;
use ir_store::body::Body;
use ir_store::design::Design;
use std::alloc::{AllocError, Global};

// Marks a module by its number, where there is one.
fn mark(marks: &mut Vec<bool>, number: usize)
    ensures { marks.new.items ≡ with_marks (number ∷ []) marks.old.items }
{
    if number < marks.len() {
        marks[number] = true;
    }
}

// Marks the module that an operation of a kind calls.
fn mark_called(design: &Design, kind: &OpKind, marks: &mut Vec<bool>)
    ensures { marks.new.items ≡ with_marks (option_to_list (callee_number (map (λ m. m.symbol) (modules_of design.now)) (instance_in (kind_of kind.now)))) marks.old.items }
{
    if let OpKind::Instance(instance) = kind {
        if let Some(number) = design.find(instance.symbol.as_bytes()) {
            mark(marks, number as usize);
        }
    }
}

// Marks the modules that the instances of a body call.
fn mark_body(
    alloc: Global,
    design: &Design,
    body: &Body,
    marks: &mut Vec<bool>,
) -> Result<(), AllocError>
    ensures { OnOk result (marks.new.items ≡ with_marks (numbers_of (map (λ m. m.symbol) (modules_of design.now)) (callee_symbols (ops_by_position (ops_of body.now)))) marks.old.items) }
{
    let ids = ids_in(alloc, body)?;
    for position in 0..ids.len() {
        mark_called(design, op_at(body, ids.as_slice(), position).kind, marks);
    }
    Ok(())
}

/// Of each module of a design, in order, whether an instance of some module calls it. Of modules with the same symbol the
/// first is called. The error comes only when out of memory.
pub fn called_modules(alloc: Global, design: &Design) -> Result<Vec<bool>, AllocError>
    ensures { IfOk result (λ marks. AreCalled (call_lists (design_of design.now)) marks.items) }
{
    let mut marks = vec![in alloc; false; design.module_count() as usize]?;
    for number in 0..design.module_count() {
        mark_body(alloc, design, &design.module(number).body, &mut marks)?;
    }
    Ok(marks)
}

/// Whether a module is marked.
pub fn is_marked(marks: &[bool], number: u32) -> bool
    ensures { result ≡ has_mark marks.now number }
{
    match marks.get(number as usize) {
        Some(marked) => *marked,
        None => false,
    }
}
