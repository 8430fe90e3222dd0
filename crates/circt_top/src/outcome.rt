//! What is made of the texts of the inputs.
ghost use Rattle.std.specs.Prelude.{◌≡◌, ℕ, List, ◌++◌, codes, map, IfOk, IfErr, OnOk};
ghost use Rattle.ir_store.specs.Designs.{design_of};
ghost use Rattle.command_line.specs.Invocations.{work_of};
ghost use Rattle.command_line.specs.Line.Work.{mlir, mlir_pieces, verilog};
ghost use Rattle.circt_top.specs.Accepting.{Accepted, first_input};
ghost use Rattle.circt_top.specs.Reprint.{IsReprint, IsReprintOf};
ghost use Rattle.circt_top.specs.Outcome.{Gives, GivesText};
ghost use Rattle.circt_top.specs.OutcomeParts.{IsPrinted, IsFailOfPiece, GivesPieces};
ghost use Rattle.circt_top.specs.PieceViews.{piece_of};
ghost use Rattle.diag.specs.Location.{start_location};
ghost use Rattle.diag.specs.declared.refusal.OpName.TheVariants as op;
ghost use Rattle.diag.specs.declared.cause.Cause.TheVariants.{TooLong};
ghost use Rattle.mlir_syntax.specs.Stream.{refusal};

use crate::accepting::accept;
use crate::checking::check_proof;
use crate::comparing::compare;
use crate::exporting::export_whole;
use crate::generation::{generate_verilog, summarise};
use crate::importing::import_whole;
use crate::made::{Finding, Made, OutcomeFail, first_input};
use crate::pieces::{Piece, pieces_of};
use crate::simulating::run_module;
use crate::translation::{Means, passes_result, translate};
use command_line::invocation::Work;
use diag::cause::Cause;
use diag::refusal::{Location, OpName, Refusal};
use hw_model::{heights_are_acyclic, locations_decide_nothing};
use io_edge::byte_text::Text;
use lowering_options::lowering::Lowering;
use mlir_printer::design_text::print_and_drop;
use mlir_printer::laws::what_is_printed_is_read_again;
use mlir_reader::read::MOST_BYTES;
use op_verifier::{Verified, accepted_designs_are_sound, locations_decide_no_verdict};
use pass_manager::gate::Gate;
use pass_manager::results_follow;
use pass_pipeline::pipeline::Pipeline;
use printing_laws::what_is_canonical_is_printable;
use std::alloc::AllocError;
use std::thread::Threads;

/// What a work makes of the texts of its inputs: the text that it prints with what that says, or what is refused.
pub(crate) fn outcome<'a, R: Threads + Sync, G: Gate + Copy + Send>(
    means: &Means<'_, R, G>,
    work: &'a Work,
    sources: &[Text],
) -> Result<Made<'a>, OutcomeFail>
    ensures { Gives (work_of work.entry.now) sources.now result }
{
    let source = first_input(sources);
    match work {
        Work::Mlir(passes) => without_finding(print_whole(means, source, passes)),
        Work::MlirPieces(passes) => without_finding(print_pieces(means, source, passes)),
        Work::Verilog(passes, options) => {
            without_finding(translate_whole(means, source, passes, *options))
        }
        Work::ExportAiger(passes) => without_finding(export_whole(means, source, passes)),
        Work::ImportAiger(passes) => without_finding(import_whole(means, source, passes)),
        Work::GeneratedSummary(recipe) => without_finding(summarise(means, *recipe)),
        Work::GeneratedVerilog(recipe) => without_finding(generate_verilog(means, *recipe)),
        Work::Verdict(pair) => compare(means.alloc, pair, sources),
        Work::ProofCheck => without_finding(check_proof(means.alloc, sources)),
        Work::Simulation(top) => without_finding(run_module(means.alloc, top, sources)),
    }
}

/// A text alone, as what is made.
fn without_finding<'a>(text: Result<Text, OutcomeFail>) -> Result<Made<'a>, OutcomeFail>
    ensures { (work : _) (contents : List (List ℕ)) → GivesText work contents text → Gives work contents result }
{
    match text {
        Ok(text) => Ok(Made {
            proof: None,
            text,
            finding: Finding::Given,
        }),
        Err(fail) => Err(fail),
    }
}

/// The text of what passes make of the design that a text says.
fn print_whole<R: Threads + Sync, G: Gate + Copy + Send>(
    means: &Means<'_, R, G>,
    source: &[u8],
    passes: &Pipeline,
) -> Result<Text, OutcomeFail>
    ensures { (contents : List (List ℕ)) → first_input contents ≡ source.now → GivesText (mlir passes.now) contents result }
{
    match accept(means.alloc, source) {
        Ok(verified) => Ok(reprint(means, source, verified, passes)?),
        Err(fail) => Err(fail.in_file(0)),
    }
}

/// The Verilog of what passes make of the design that a text says, its expressions written as `options` say.
fn translate_whole<R: Threads + Sync, G: Gate + Copy + Send>(
    means: &Means<'_, R, G>,
    source: &[u8],
    passes: &Pipeline,
    options: Lowering,
) -> Result<Text, OutcomeFail>
    ensures { (contents : List (List ℕ)) → first_input contents ≡ source.now → GivesText (verilog passes.now options) contents result }
{
    match accept(means.alloc, source) {
        Ok(verified) => Ok(translate(means, verified, passes, options)?),
        Err(fail) => Err(fail.in_file(0)),
    }
}

/// The texts of what passes make of the designs that the pieces of a text say, joined. The whole text may not be too long.
fn print_pieces<R: Threads + Sync, G: Gate + Copy + Send>(
    means: &Means<'_, R, G>,
    source: &[u8],
    passes: &Pipeline,
) -> Result<Text, OutcomeFail>
    ensures { (contents : List (List ℕ)) → first_input contents ≡ source.now → GivesText (mlir_pieces passes.now) contents result }
{
    if source.len() > MOST_BYTES {
        return Err(OutcomeFail::Refused(too_long()));
    }
    let pieces = pieces_of(means.alloc, source)?;
    print_each(means, pieces.as_slice(), passes)
}

/// The refusal of a text that is too long.
fn too_long() -> Refusal
    ensures { result ≡ refusal start_location op.File TooLong }
{
    Refusal {
        file: 0,
        location: Location::start(),
        op: OpName::File,
        cause: Cause::TooLong,
    }
}

/// The texts of what passes make of the designs that pieces say, joined, or the first refusal.
fn print_each<R: Threads + Sync, G: Gate + Copy + Send>(
    means: &Means<'_, R, G>,
    pieces: &[Piece<'_>],
    passes: &Pipeline,
) -> Result<Text, OutcomeFail>
    ensures { GivesPieces passes.now (map piece_of pieces.now) result }
{
    let Some((first, others)) = pieces.split_first() else {
        return Ok(Text::new(means.alloc));
    };
    let mut text = print_piece(means, first, passes)?;
    for piece in others {
        match push_piece(means, &mut text, piece, passes) {
            Ok(()) => {}
            Err(fail) => return Err(fail),
        }
    }
    Ok(text)
}

/// Adds a line `// -----` and the text of what passes make of the design that a piece says.
fn push_piece<R: Threads + Sync, G: Gate + Copy + Send>(
    means: &Means<'_, R, G>,
    text: &mut Text,
    piece: &Piece<'_>,
    passes: &Pipeline,
) -> Result<(), OutcomeFail>
    ensures printed { OnOk result ((more : List ℕ) × IsReprint passes.now (piece_of piece.now).bytes more × (text.new ≡ text.old ++ (codes "// -----\n" ++ more))) }
    ensures refused { IfErr result (IsFailOfPiece (piece_of piece.now)) }
{
    let more = print_piece(means, piece, passes)?;
    text.push_bytes(b"// -----\n")?;
    text.push_bytes(more.as_bytes())?;
    Ok(())
}

/// The text of what passes make of the design that a piece says.
fn print_piece<R: Threads + Sync, G: Gate + Copy + Send>(
    means: &Means<'_, R, G>,
    piece: &Piece<'_>,
    passes: &Pipeline,
) -> Result<Text, OutcomeFail>
    ensures printed { IfOk result (IsReprint passes.now (piece_of piece.now).bytes) }
    ensures refused { IfErr result (IsFailOfPiece (piece_of piece.now)) }
{
    match accept(means.alloc, piece.bytes) {
        Ok(verified) => Ok(reprint(means, piece.bytes, verified, passes)?),
        Err(fail) => Err(fail.in_whole(piece)),
    }
}

/// The text of what passes make of the accepted design that a text says.
fn reprint<R: Threads + Sync, G: Gate + Copy + Send>(
    means: &Means<'_, R, G>,
    source: &[u8],
    verified: Verified,
    passes: &Pipeline,
) -> Result<Text, AllocError>
    requires { Accepted source.now (design_of verified.design) }
    ensures { IfOk result (IsReprint passes.now source.now) }
{
    print_made(means, verified, passes)
}

/// The text of what passes make of an accepted design.
pub(crate) fn print_made<R: Threads + Sync, G: Gate + Copy + Send>(
    means: &Means<'_, R, G>,
    verified: Verified,
    passes: &Pipeline,
) -> Result<Text, AllocError>
    ensures { IfOk result (IsReprintOf passes.now (design_of verified.design)) }
{
    results_follow();
    what_is_canonical_is_printable();
    what_is_printed_is_read_again();
    accepted_designs_are_sound();
    locations_decide_no_verdict();
    heights_are_acyclic();
    locations_decide_nothing();
    print_result(means, verified, passes)
}

/// The text of what passes make of a verified design. Each body's memory is given back as soon as it is printed.
fn print_result<R: Threads + Sync, G: Gate + Copy + Send>(
    means: &Means<'_, R, G>,
    verified: Verified,
    passes: &Pipeline,
) -> Result<Text, AllocError>
    ensures { IfOk result (IsPrinted passes.now (design_of verified.design)) }
{
    let made = passes_result(means, verified, passes)?;
    print_and_drop(means.rt, means.alloc, made, means.workers.count)
}
