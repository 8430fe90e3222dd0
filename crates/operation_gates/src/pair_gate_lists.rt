//! The gate lists of operations on two words.
ghost use Rattle.std.specs.Prelude.{◌≡◌, length, IfOk};
ghost use Rattle.gates.specs.Circuits.{Runs};
ghost use Rattle.gate_words.specs.GateLists.{unlike, less, signed_less};
ghost use Rattle.hw_model.specs.KindViews.{predicate_of};
ghost use Rattle.hw_model.specs.FamilyViews.{variadic_of, division_of, shift_of};
ghost use Rattle.operation_gates.specs.OperationGateLists.{pair_gate_list, division_gate_list, shift_gate_list, comparison, negation};

use gate_words::bitwise::{Bitwise, each, unlike};
use gate_words::divisions::{quotient, rest, signed_quotient, signed_rest};
use gate_words::products::product;
use gate_words::shifts::{shifted_left, shifted_right, shifted_right_signed};
use gate_words::sums::{add, less, signed_less};
use gates::circuit::Gates;
use gates::signal::Signal;
use hw_model::families::{Division, Shift, Variadic};
use hw_model::kinds::Predicate;
use std::alloc::{AllocError, Global};

/// The gate list of an operation of any number of operands on two words of one width.
pub fn pair_gate_list(
    alloc: Global,
    gates: &mut Gates,
    op: Variadic,
    x: &[Signal],
    y: &[Signal],
) -> Result<Vec<Signal>, AllocError>
    requires { length x.now ≡ length y.now }
    ensures { IfOk result (λ v. Runs (pair_gate_list (variadic_of op) x.now y.now) gates.old gates.new v.items) }
{
    match op {
        Variadic::Add => add(alloc, gates, x, y),
        Variadic::Mul => product(alloc, gates, x, y),
        Variadic::And => each(alloc, gates, Bitwise::And, x, y),
        Variadic::Or => each(alloc, gates, Bitwise::Or, x, y),
        Variadic::Xor => each(alloc, gates, Bitwise::Exclusive, x, y),
    }
}

/// The gate list of a quotient or a rest of two words of one width.
pub fn division_gate_list(
    alloc: Global,
    gates: &mut Gates,
    op: Division,
    x: &[Signal],
    y: &[Signal],
) -> Result<Vec<Signal>, AllocError>
    requires { length x.now ≡ length y.now }
    ensures { IfOk result (λ v. Runs (division_gate_list (division_of op) x.now y.now) gates.old gates.new v.items) }
{
    match op {
        Division::Divu => quotient(alloc, gates, x, y),
        Division::Modu => rest(alloc, gates, x, y),
        Division::Divs => signed_quotient(alloc, gates, x, y),
        Division::Mods => signed_rest(alloc, gates, x, y),
    }
}

/// The gate list of a shift of a word by the number of another.
pub fn shift_gate_list(
    alloc: Global,
    gates: &mut Gates,
    op: Shift,
    x: &[Signal],
    amount: &[Signal],
) -> Result<Vec<Signal>, AllocError>
    ensures { IfOk result (λ v. Runs (shift_gate_list (shift_of op) x.now amount.now) gates.old gates.new v.items) }
{
    match op {
        Shift::Shl => shifted_left(alloc, gates, x, amount),
        Shift::Shru => shifted_right(alloc, gates, x, amount),
        Shift::Shrs => shifted_right_signed(alloc, gates, x, amount),
    }
}

/// Whether two words of one width are equal.
fn alike(alloc: Global, gates: &mut Gates, x: &[Signal], y: &[Signal]) -> Result<Signal, AllocError>
    requires { length x.now ≡ length y.now }
    ensures { IfOk result (Runs (negation (unlike x.now y.now)) gates.old gates.new) }
{
    let differ = unlike(alloc, gates, x, y)?;
    Ok(differ.inverse())
}

/// Whether the first word is not less, as a number.
fn not_less(
    alloc: Global,
    gates: &mut Gates,
    x: &[Signal],
    y: &[Signal],
) -> Result<Signal, AllocError>
    requires { length x.now ≡ length y.now }
    ensures { IfOk result (Runs (negation (less x.now y.now)) gates.old gates.new) }
{
    let below = less(alloc, gates, x, y)?;
    Ok(below.inverse())
}

/// Whether the signed reading of the first word is not less.
fn not_signed_less(
    alloc: Global,
    gates: &mut Gates,
    x: &[Signal],
    y: &[Signal],
) -> Result<Signal, AllocError>
    requires { length x.now ≡ length y.now }
    ensures { IfOk result (Runs (negation (signed_less x.now y.now)) gates.old gates.new) }
{
    let below = signed_less(alloc, gates, x, y)?;
    Ok(below.inverse())
}

/// The gate list of a comparison of two words of one width.
pub fn comparison(
    alloc: Global,
    gates: &mut Gates,
    predicate: Predicate,
    x: &[Signal],
    y: &[Signal],
) -> Result<Signal, AllocError>
    requires { length x.now ≡ length y.now }
    ensures { IfOk result (Runs (comparison (predicate_of predicate) x.now y.now) gates.old gates.new) }
{
    match predicate {
        Predicate::Eq => alike(alloc, gates, x, y),
        Predicate::Ne => unlike(alloc, gates, x, y),
        Predicate::Slt => signed_less(alloc, gates, x, y),
        Predicate::Sle => not_signed_less(alloc, gates, y, x),
        Predicate::Sgt => signed_less(alloc, gates, y, x),
        Predicate::Sge => not_signed_less(alloc, gates, x, y),
        Predicate::Ult => less(alloc, gates, x, y),
        Predicate::Ule => not_less(alloc, gates, y, x),
        Predicate::Ugt => less(alloc, gates, y, x),
        Predicate::Uge => not_less(alloc, gates, x, y),
        Predicate::Ceq => alike(alloc, gates, x, y),
        Predicate::Cne => unlike(alloc, gates, x, y),
        Predicate::Weq => alike(alloc, gates, x, y),
        Predicate::Wne => unlike(alloc, gates, x, y),
    }
}
