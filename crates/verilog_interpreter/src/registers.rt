//! What registers take at the rise of their clocks, and where second events come (IEEE 1364-2005, 9.2.2: nonblocking
//! assignments; 9.7.2 and 9.7.3: event control, event `or`).
use crate::fault::{Fault, require_some};
use crate::tree::{Always, Branch};
use crate::values::{Scope, assigned_value, is_true, value_under};
use bits_core::Bits;
use std::alloc::Global;

/// What a register takes: where the lowest bit of its clock is 1, the value of the first branch that holds.
pub fn next_value(
    alloc: Global,
    register: &Always,
    scope: &Scope,
    old: Bits,
) -> Result<Bits, Fault> {
    if !is_high(register.clock, scope)? {
        return Ok(old);
    }
    for branch in register.branches.as_slice() {
        if holds(alloc, branch, scope)? {
            return assigned_value(alloc, &branch.value, old.width(), scope);
        }
    }
    Ok(old)
}

/// What a register holds once its second event has come, if it has: where the lowest bit of the net was 0 before and is 1
/// now, the value of the first branch.
pub fn rise_value(
    alloc: Global,
    register: &Always,
    before: &Scope,
    now: &Scope,
    old: Bits,
) -> Result<Bits, Fault> {
    let Some(net) = register.second_event else {
        return Ok(old);
    };
    if is_high(net, before)? || !is_high(net, now)? {
        return Ok(old);
    }
    let branch = require_some(register.branches.first())?;
    assigned_value(alloc, &branch.value, old.width(), now)
}

// Whether the lowest bit of a net is 1.
fn is_high(net: usize, scope: &Scope) -> Result<bool, Fault> {
    let word = require_some(scope.value(net))?;
    Ok(word.value() % 2 == 1)
}

// Whether a branch has no condition, or one that holds.
fn holds(alloc: Global, branch: &Branch, scope: &Scope) -> Result<bool, Fault> {
    match &branch.condition {
        None => Ok(true),
        Some(condition) => {
            let word = value_under(alloc, condition, 1, scope)?;
            Ok(is_true(word))
        }
    }
}
