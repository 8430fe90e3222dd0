//! Formulas as whole texts.
ghost use Rattle.std.specs.Prelude.{◌≡◌, ◌≤◌, ◌+◌, ◌^◌, length, Ok, IfOk, IfErr};
ghost use Rattle.diag.specs.declared.cause.Cause.TheVariants.{BadFormula};
ghost use Rattle.lrat_text.specs.declared.fail.CheckFail.TheVariants.{Refused};
ghost use Rattle.text_lines.specs.Lines.{lines};
ghost use Rattle.lrat_text.specs.Dimacs.{dimacs, formula_of, clauses_from, IsReadFail, IsLineFail};

use crate::check::MOST_BYTES;
use crate::dimacs_cnf::DimacsCnf;
use crate::fail::{CheckFail, CheckRefusal};
use crate::reading::{CnfReading, header_of, is_skipped};
use diag::cause::Cause;
use std::alloc::Global;
use text_lines::lines::first_line;

/// Reads a formula in the DIMACS CNF format.
#[tactic(auto, unfolding(crate::specs::Dimacs::formula_of))]
pub fn read_cnf(alloc: Global, source: &[u8]) -> Result<DimacsCnf, CheckFail>
    ensures ok { IfOk result (λ cnf. formula_of source.now ≡ Ok cnf) }
    ensures err { IfErr result (IsReadFail source.now) }
    ensures read { IfOk result (λ cnf. dimacs source.now ≡ Ok cnf) }
{
    if MOST_BYTES < source.len() {
        return Err(CheckFail::Refused(CheckRefusal {
            line: 1,
            cause: Cause::TooLong,
        }));
    }
    read_formula(alloc, source)
}

/// The refusal of a line.
fn bad_formula(line: u32) -> CheckFail
    ensures { result ≡ Refused (record { line = line; cause = BadFormula }) }
{
    CheckFail::Refused(CheckRefusal {
        line,
        cause: Cause::BadFormula,
    })
}

/// Reads up to the header and on.
#[tactic(auto, using(text_lines::proofs::Splitting::no_lines))]
fn read_formula(alloc: Global, source: &[u8]) -> Result<DimacsCnf, CheckFail>
    requires { length source.now ≤ 2 ^ 26 }
    ensures ok { IfOk result (λ cnf. dimacs source.now ≡ Ok cnf) }
    ensures err { IfErr result (IsLineFail (dimacs source.now)) }
{
    let mut line = 1;
    let mut rest = source;
    while !rest.is_empty() {
        let (first, others) = first_line(rest);
        if !is_skipped(first) {
            return match header_of(first) {
                Some(header) => read_clauses(CnfReading::new(alloc, header), line + 1, others),
                None => Err(bad_formula(line)),
            };
        }
        line += 1;
        rest = others;
    }
    Err(bad_formula(line))
}

/// Reads the lines behind the header, of which the first has the number `line`.
#[tactic(auto, using(text_lines::proofs::Splitting::no_lines))]
fn read_clauses(
    mut reading: CnfReading,
    mut line: u32,
    source: &[u8],
) -> Result<DimacsCnf, CheckFail>
    requires { line + length source.now ≤ 2 ^ 26 + 1 }
    ensures ok { IfOk result (λ cnf. clauses_from line reading (lines source.now) ≡ Ok cnf) }
    ensures err { IfErr result (IsLineFail (clauses_from line reading (lines source.now))) }
{
    let mut rest = source;
    while !rest.is_empty() {
        let (first, others) = first_line(rest);
        if !reading.read_line(first)? {
            return Err(bad_formula(line));
        }
        line += 1;
        rest = others;
    }
    if reading.is_finished() {
        Ok(reading.into_cnf())
    } else {
        Err(bad_formula(line))
    }
}
