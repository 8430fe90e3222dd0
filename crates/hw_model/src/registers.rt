//! The operands of registers, by what they are to them, of whatever type a program's operands are.
ghost use Rattle.std.specs.Prelude.{◌≡◌, None, Some, true, false, cond, map, option_map, option_and_then};
ghost use Rattle.hw_model.specs.Design.{Ref, register_form};
ghost use Rattle.hw_model.specs.Flat.{register_parts, has_async_reset, async_parts};
ghost use Rattle.hw_model.specs.KindViews.{kind_of, reset_of};
ghost use Rattle.hw_model.specs.RegisterViews.{reset_by_of, register_of};

use crate::kinds::{OpKind, Reset};

/// What resets a register, and to what.
#[derive(Clone, Copy)]
pub struct ResetBy<V> {
    /// The signal.
    pub signal: V,
    /// The value that it then has.
    pub value: V,
}

/// The operands of a register.
#[derive(Clone, Copy)]
pub struct Register<V> {
    /// The next value.
    pub next: V,
    /// The clock.
    pub clock: V,
    /// The enable, where it has one.
    pub enable: Option<V>,
    /// What resets it, where something does.
    pub reset: Option<ResetBy<V>>,
}

/// The register that an operation of a kind with these operands is, however its operands are seen; none where its kind is no
/// register or has not so many operands.
pub fn register_of<V: Copy>(kind: &OpKind, operands: &[V]) -> Option<Register<V>>
    ensures { (see : V → Ref) → option_map (register_of see) result ≡ option_and_then (λ form. register_parts form.has_enable form.reset (map see operands.now)) (register_form (kind_of kind.now)) }
{
    match kind {
        OpKind::CompReg(reset) | OpKind::FirReg(reset) => plain_register(*reset, operands),
        OpKind::AsyncFirReg => plain_register(Reset::Sync, operands),
        OpKind::CompRegCe(reset) => enabled_register(*reset, operands),
        _ => None,
    }
}

/// A register without an enable, by its operands.
fn plain_register<V: Copy>(reset: Reset, operands: &[V]) -> Option<Register<V>>
    ensures { (see : V → Ref) → option_map (register_of see) result ≡ register_parts false (reset_of reset) (map see operands.now) }
{
    match reset {
        Reset::No => match operands {
            [next, clock] => Some(without_reset(*next, *clock, None)),
            _ => None,
        },
        Reset::Sync => match operands {
            [next, clock, signal, value] => Some(with_reset(*next, *clock, None, *signal, *value)),
            _ => None,
        },
    }
}

/// A register with an enable, by its operands.
fn enabled_register<V: Copy>(reset: Reset, operands: &[V]) -> Option<Register<V>>
    ensures { (see : V → Ref) → option_map (register_of see) result ≡ register_parts true (reset_of reset) (map see operands.now) }
{
    match reset {
        Reset::No => match operands {
            [next, clock, enable] => Some(without_reset(*next, *clock, Some(*enable))),
            _ => None,
        },
        Reset::Sync => match operands {
            [next, clock, enable, signal, value] => Some(with_reset(
                *next,
                *clock,
                Some(*enable),
                *signal,
                *value,
            )),
            _ => None,
        },
    }
}

fn without_reset<V: Copy>(next: V, clock: V, enable: Option<V>) -> Register<V>
    ensures { result ≡ record { next = next; clock = clock; enable = enable; reset = None } }
{
    Register {
        next,
        clock,
        enable,
        reset: None,
    }
}

fn with_reset<V: Copy>(next: V, clock: V, enable: Option<V>, signal: V, value: V) -> Register<V>
    ensures { result ≡ record { next = next; clock = clock; enable = enable; reset = Some (record { signal = signal; value = value }) } }
{
    Register {
        next,
        clock,
        enable,
        reset: Some(ResetBy { signal, value }),
    }
}

/// What resets an operation of a kind with these operands without its clock, and to what, however its operands are seen.
pub fn async_reset_of<V: Copy>(kind: &OpKind, operands: &[V]) -> Option<ResetBy<V>>
    ensures { (see : V → Ref) → option_map (reset_by_of see) result ≡ cond (has_async_reset (kind_of kind.now)) (async_parts (map see operands.now)) None }
{
    match kind {
        OpKind::AsyncFirReg => async_parts(operands),
        _ => None,
    }
}

/// The reset and its value among the operands of such a register.
fn async_parts<V: Copy>(operands: &[V]) -> Option<ResetBy<V>>
    ensures { (see : V → Ref) → option_map (reset_by_of see) result ≡ async_parts (map see operands.now) }
{
    match operands {
        [_, _, signal, value] => Some(ResetBy {
            signal: *signal,
            value: *value,
        }),
        _ => None,
    }
}
