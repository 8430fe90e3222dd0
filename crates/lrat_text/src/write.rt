//! Formulas and logs as texts.
ghost use Rattle.std.specs.Prelude.{◌≡◌, ◌+◌, ◌<◌, ◌^◌, ◌++◌, length, decimal, OnOk, IfOk, IsTrue, Ok};
ghost use Rattle.resolution_proof.specs.Formula.{are_clauses};
ghost use Rattle.resolution_proof.specs.Replay.{replay};
ghost use Rattle.resolution_proof.specs.Regular.{is_regular_log};
ghost use Rattle.resolution_proof.specs.Proof.{Refutes};
ghost use Rattle.lrat_text.specs.Dimacs.{dimacs};
ghost use Rattle.lrat_text.specs.Verified.{lrat, Verified};
ghost use Rattle.lrat_text.specs.Written.{literal_text, literals_text, clause_line, clause_lines, dimacs_text, header_text, hint_text, hints_text, step_line, step_lines, lrat_text};

use io_edge::byte_text::Text;
use itoa::Buffer;
use resolution_proof::clause::Clause;
use resolution_proof::cnf::Cnf;
use resolution_proof::literal::Literal;
use resolution_proof::log::{Hint, Log, Step};
use std::alloc::{AllocError, Global};

/// The text of a formula in the DIMACS CNF format: the header, then a line for each clause.
#[tactic(auto, unfolding(crate::specs::Written::dimacs_text))]
pub fn write_dimacs(alloc: Global, cnf: &Cnf) -> Result<Text, AllocError>
    ensures text { IfOk result (λ text. text ≡ dimacs_text cnf.now) }

    // The text is read as this formula.
    ensures read { IfOk result (λ text. dimacs text ≡ Ok cnf.now) }
{
    let mut text = Text::new(alloc);
    push_header(&mut text, cnf, clause_count(cnf))?;
    push_clauses(&mut text, cnf.clauses())?;
    Ok(text)
}

/// The text of a log over a formula in the LRAT format. The formula's clauses are numbered from 1 and the steps' go on from
/// there; a step's hints come in reverse.
#[tactic(auto, unfolding(crate::specs::Written::lrat_text))]
pub fn write_lrat(alloc: Global, cnf: &Cnf, log: &Log) -> Result<Text, AllocError>
    ensures text { IfOk result (λ text. text ≡ lrat_text cnf.now log.now) }

    // The text of a regular log that replays is a proof over the formula.
    ensures proof { IfOk result (λ text. IsTrue (replay cnf.now log.now) → IsTrue (is_regular_log cnf.now log.now) → IsTrue (lrat cnf.now text)) }

    // With the text of the formula, the text of a log that refutes it is a verified proof.
    ensures verified { IfOk result (λ text. Refutes cnf.now log.now → Verified (dimacs_text cnf.now) text) }
{
    let mut text = Text::new(alloc);
    push_steps(&mut text, clause_count(cnf), log.as_slice())?;
    Ok(text)
}

/// How many clauses the formula has.
fn clause_count(cnf: &Cnf) -> u64
    ensures count { result ≡ length cnf.now.clauses }
    ensures small { result < 2 ^ 63 }
    ensures few { cnf.now.variables < 2 ^ 64 }
    ensures within { IsTrue (are_clauses cnf.now.variables cnf.now.clauses) }
{
    let _variables = cnf.variables();
    cnf.clauses().len() as u64
}

/// Adds a number.
fn push_number(text: &mut Text, number: u64) -> Result<(), AllocError>
    ensures { OnOk result (text.new ≡ text.old ++ decimal number) }
{
    let mut buffer = Buffer::new();
    text.push_bytes(buffer.format(number).as_bytes())
}

/// Adds the header of a formula.
#[tactic(auto, unfolding(crate::specs::Written::header_text))]
fn push_header(text: &mut Text, cnf: &Cnf, count: u64) -> Result<(), AllocError>
    requires { count ≡ length cnf.now.clauses }
    ensures { OnOk result (text.new ≡ text.old ++ header_text cnf.now) }
{
    text.push_bytes(b"p cnf ")?;
    push_number(text, cnf.variables())?;
    text.push_bytes(b" ")?;
    push_number(text, count)?;
    text.push_bytes(b"\n")?;
    Ok(())
}

/// Adds a literal and a blank.
#[tactic(auto, unfolding(crate::specs::Written::literal_text))]
fn push_literal(text: &mut Text, literal: Literal) -> Result<(), AllocError>
    ensures { OnOk result (text.new ≡ text.old ++ literal_text literal) }
{
    if !literal.positive {
        text.push_bytes(b"-")?;
    }
    push_number(text, literal.variable)?;
    text.push_bytes(b" ")?;
    Ok(())
}

/// Adds the literals of a clause.
fn push_literals(text: &mut Text, literals: &[Literal]) -> Result<(), AllocError>
    ensures { OnOk result (text.new ≡ text.old ++ literals_text literals.now) }
{
    for literal in literals {
        push_literal(text, *literal)?;
    }
    Ok(())
}

/// Adds the line of a clause.
#[tactic(auto, unfolding(crate::specs::Written::clause_line))]
fn push_clause(text: &mut Text, clause: &[Literal]) -> Result<(), AllocError>
    ensures { OnOk result (text.new ≡ text.old ++ clause_line clause.now) }
{
    push_literals(text, clause)?;
    text.push_bytes(b"0\n")?;
    Ok(())
}

/// Adds the lines of clauses.
fn push_clauses(text: &mut Text, clauses: &[Clause]) -> Result<(), AllocError>
    ensures { OnOk result (text.new ≡ text.old ++ clause_lines clauses.now) }
{
    for clause in clauses {
        push_clause(text, clause.as_slice())?;
    }
    Ok(())
}

/// Adds the number of a hint's clause and a blank.
#[tactic(auto, unfolding(crate::specs::Written::hint_text))]
fn push_hint(text: &mut Text, hint: Hint) -> Result<(), AllocError>
    ensures { OnOk result (text.new ≡ text.old ++ hint_text hint) }
{
    push_number(text, hint.clause)?;
    text.push_bytes(b" ")?;
    Ok(())
}

/// Adds the numbers of the hints' clauses, the last first.
#[tactic(auto, using(crate::proofs::Walking::hints_last, std::proofs::Common::append_assoc))]
fn push_hints(text: &mut Text, hints: &[Hint]) -> Result<(), AllocError>
    ensures { OnOk result (text.new ≡ text.old ++ hints_text hints.now) }
{
    let mut rest = hints;
    while let Some((last, earlier)) = rest.split_last() {
        push_hint(text, *last)?;
        rest = earlier;
    }
    Ok(())
}

/// Adds the line of a step.
#[tactic(auto, unfolding(crate::specs::Written::step_line))]
fn push_step(text: &mut Text, number: u64, step: &Step) -> Result<(), AllocError>
    ensures { OnOk result (text.new ≡ text.old ++ step_line number step.now) }
{
    push_number(text, number)?;
    text.push_bytes(b" ")?;
    push_literals(text, step.clause.as_slice())?;
    text.push_bytes(b"0 ")?;
    push_hints(text, step.hints.as_slice())?;
    text.push_bytes(b"0\n")?;
    Ok(())
}

/// Adds the lines of steps, which are numbered on from `last`.
fn push_steps(text: &mut Text, last: u64, steps: &[Step]) -> Result<(), AllocError>
    requires { last < 2 ^ 63 }
    ensures text { OnOk result (text.new ≡ text.old ++ step_lines (last + 1) steps.now) }
    ensures short { length steps.now < 2 ^ 63 }
{
    for (i, step) in steps.iter().enumerate() {
        push_step(text, last + (i as u64 + 1), step)?;
    }
    Ok(())
}
