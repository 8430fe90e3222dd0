//! The text of a design whose modules several threads print.
ghost use Rattle.std.specs.Prelude.{◌≡◌, ◌≤◌, ◌<◌, ◌-◌, ◌++◌, map, length, IfOk, OnOk};
ghost use Rattle.std.specs.Thread.{IsSync};
ghost use Rattle.ir_store.specs.Designs.{module_of};
ghost use Rattle.mlir_printer.specs.Texts.{stored_bytes};

use crate::modules::push_with_names;
use crate::value_names::ValueNames;
use io_edge::byte_text::Text;
use ir_store::design::Module;
use std::alloc::{AllocError, Global};
use std::thread::{Threads, join};

/// How many operations a thread gets at least.
const LEAST_OPERATIONS: usize = 4096;

/// Adds modules in order, each of which is dropped after its text.
pub(crate) fn push_and_drop(
    alloc: Global,
    out: &mut Text,
    modules: Vec<Module>,
) -> Result<(), AllocError>
    ensures { OnOk result (out.new ≡ out.old ++ stored_bytes (map module_of modules.items)) }
{
    let mut names = ValueNames::empty(alloc);
    for one in modules {
        names = push_with_names(alloc, names, out, &one)?;
    }
    Ok(())
}

/// Adds modules in order, and gives the text. With more than one of `workers` the modules are cut into runs of about as many
/// operations, each printed in a thread of its own, with no more threads than workers.
pub(crate) fn push_by_workers<R: Threads + Sync>(
    rt: &R,
    alloc: Global,
    mut out: Text,
    mut modules: Vec<Module>,
    workers: u32,
) -> Result<Text, AllocError>
    ensures { IfOk result (λ text. text ≡ out ++ stored_bytes (map module_of modules.items)) }
{
    if workers < 2 || modules.len() < 2 || operation_count(modules.as_slice()) < LEAST_OPERATIONS {
        push_and_drop(alloc, &mut out, modules)?;
        return Ok(out);
    }
    let others = modules.split_off(middle(modules.as_slice()))?;
    let half = workers / 2;
    let rest = workers - half;
    let (front, back) = join(
        rt,
        move || -> Result<Text, AllocError>
            requires { IsSync R.row }
            ensures { IfOk result (λ text. text ≡ out ++ stored_bytes (map module_of modules.items)) }
        { push_by_workers(rt, alloc, out, modules, rest) },
        move || -> Result<Text, AllocError>
            requires { IsSync R.row }
            ensures { IfOk result (λ text. text ≡ stored_bytes (map module_of others.items)) }
        { push_by_workers(rt, alloc, Text::new(alloc), others, half) },
    );
    let mut front = front?;
    let back = back?;
    front.push_bytes(back.as_bytes())?;
    Ok(front)
}

/// How many operations the modules have; where there are more than a usize can say, the greatest.
fn operation_count(modules: &[Module]) -> usize {
    let mut count: usize = 0;
    for one in modules {
        count = count.saturating_add(one.body.op_count());
    }
    count
}

/// The number of the module with which the second half of the operations begins: no first one.
fn middle(modules: &[Module]) -> usize
    requires { 1 ≤ length modules.now }
    ensures { result ≤ length modules.now }
{
    let half = operation_count(modules) / 2;
    let mut count: usize = 0;
    for (number, one) in modules.iter().enumerate() {
        count = count.saturating_add(one.body.op_count());
        if half < count {
            return number.max(1);
        }
    }
    1
}
