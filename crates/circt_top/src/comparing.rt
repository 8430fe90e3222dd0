//! The verdict on a module of the first input and one of the last.
ghost use Rattle.std.specs.Prelude.{◌≡◌, ◌++◌, string_bytes, option_map, IfOk, OnOk};
ghost use Rattle.resolution_proof.specs.Proof.{Refutes};
ghost use Rattle.ir_store.specs.Designs.{design_of};
ghost use Rattle.command_line.specs.Line.Work.{comparison};
ghost use Rattle.circt_top.specs.Accepting.{first_input};
ghost use Rattle.circt_top.specs.Comparing.{last_input, in_pair, value_lines, difference_text, AreProofFiles};
ghost use Rattle.circt_top.specs.Outcome.{Gives, files_of};
ghost use Rattle.circt_top.specs.Conclusions.{IsConcluded, comparison_failure};

use crate::accepting::accept;
use crate::made::{FileText, Finding, Made, OutcomeFail, ProofTexts, first_input};
use bits_core::Bits;
use command_line::comparison::{Comparison, ProofFiles};
use diag::refusal::Refusal;
use io_edge::byte_text::Text;
use lec_tool::MiterFail;
use lec_tool::names::leaf_names;
use lec_tool::verdict::{Decision, Verdict, decide};
use lrat_text::write::{write_dimacs, write_lrat};
use op_verifier::Verified;
use resolution_proof::cnf::Cnf;
use resolution_proof::log::Log;
use std::alloc::{AllocError, Global};
use verilog_model::push_literal;

/// The verdict on the module of a name of the first input, and of that of another name of the last one. More than 2^32 inputs
/// want more memory than there is.
pub(crate) fn compare<'a>(
    alloc: Global,
    pair: &'a Comparison,
    sources: &[Text],
) -> Result<Made<'a>, OutcomeFail>
    ensures { Gives (comparison (string_bytes pair.entry.now.left) (string_bytes pair.entry.now.right) pair.entry.now.conflict_limit (option_map (λ p. string_bytes p.proof) pair.entry.now.proof)) sources.now result }
{
    let left = match accept(alloc, first_input(sources)) {
        Ok(verified) => verified,
        Err(fail) => return Err(fail.in_file(0)),
    };
    if sources.len() < 2 {
        return conclude(alloc, pair, &left, &left, 0);
    }
    let Ok(number) = u32::try_from(sources.len() - 1) else {
        return Err(OutcomeFail::NoMemory);
    };
    match accept(alloc, last_input(sources)) {
        Ok(right) => conclude(alloc, pair, &left, &right, number),
        Err(fail) => Err(fail.in_file(number)),
    }
}

// The text of the last input.
fn last_input(sources: &[Text]) -> &[u8]
    ensures { result.now ≡ last_input sources.now }
{
    match sources {
        [.., source] => source.as_bytes(),
        [] => b"",
    }
}

// The verdict on modules of two designs, of which the second is of the input of this number.
fn conclude<'a>(
    alloc: Global,
    pair: &'a Comparison,
    left: &Verified,
    right: &Verified,
    number: u32,
) -> Result<Made<'a>, OutcomeFail>
    ensures { IsConcluded pair.entry.now (design_of left.now.design) (design_of right.now.design) number result }
{
    let a = pair.left.as_bytes();
    let b = pair.right.as_bytes();
    let Decision {
        comparison,
        verdict,
    } = match decide(alloc, left, a, right, b, pair.conflict_limit) {
        Ok(decision) => decision,
        Err(fail) => return Err(comparison_failure(number, fail)),
    };
    match verdict {
        Verdict::Same(log) => Ok(Made {
            proof: proof_texts(alloc, &pair.proof, comparison.cnf(), &log)?,
            text: Text::of(alloc, b"c1 == c2\n")?,
            finding: Finding::Given,
        }),
        Verdict::Differ(input) => {
            let names = leaf_names(alloc, left, a)?;
            Ok(Made {
                proof: None,
                text: difference_text(alloc, names.as_slice(), input.as_slice())?,
                finding: Finding::Different(input),
            })
        }
        Verdict::Unknown(log) => Ok(Made {
            proof: None,
            text: Text::of(alloc, b"unknown\n")?,
            finding: Finding::Unknown(log),
        }),
    }
}

// The formula and the log that refutes it, as texts for the files of these names.
fn proof_texts<'a>(
    alloc: Global,
    files: &'a Option<ProofFiles>,
    cnf: &Cnf,
    log: &Log,
) -> Result<Option<ProofTexts<'a>>, AllocError>
    requires { Refutes cnf.now log.now }
    ensures { IfOk result (λ texts. AreProofFiles (option_map (λ p. string_bytes p.proof) files.entry.now) cnf.now log.now (files_of texts)) }
{
    match files {
        Some(names) => Ok(Some(ProofTexts {
            formula: FileText {
                name: &names.formula,
                text: write_dimacs(alloc, cnf)?,
            },
            proof: FileText {
                name: &names.proof,
                text: write_lrat(alloc, cnf, log)?,
            },
        })),
        None => Ok(None),
    }
}

// Why modules are not compared, file 1 being the input of this number.
fn comparison_failure(number: u32, fail: MiterFail) -> OutcomeFail
    ensures { result ≡ comparison_failure number fail }
{
    match fail {
        MiterFail::Refused(refusal) => OutcomeFail::Refused(in_pair(number, refusal)),
        MiterFail::NoMemory => OutcomeFail::NoMemory,
    }
}

// The refusal of a comparison, of which file 1 is the input of this number.
fn in_pair(number: u32, refusal: Refusal) -> Refusal
    ensures { result ≡ in_pair number refusal }
{
    let file = if refusal.file == 0 { 0 } else { number };
    Refusal { file, ..refusal }
}

// That modules differ, and a line for each leaf.
fn difference_text(alloc: Global, names: &[Text], values: &[Bits]) -> Result<Text, AllocError>
    ensures { IfOk result (λ text. text ≡ difference_text names.now values.now) }
{
    let mut text = Text::of(alloc, b"c1 != c2\n")?;
    push_lines(&mut text, names, values)?;
    Ok(text)
}

// Adds a line for each leaf.
fn push_lines(text: &mut Text, names: &[Text], values: &[Bits]) -> Result<(), AllocError>
    ensures { OnOk result (text.new ≡ text.old ++ value_lines names.now values.now) }
{
    for (name, value) in names.iter().zip(values) {
        text.push_bytes(name.as_bytes())?;
        text.push_bytes(b" = ")?;
        push_literal(text, u64::from(value.width()), false, value.value())?;
        text.push_bytes(b"\n")?;
    }
    Ok(())
}
