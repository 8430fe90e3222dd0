//! Where texts go.
ghost use Rattle.std.specs.Prelude.{◌≡◌, ◌≤◌, List, ℕ, option_map, [], Ok, IfErr, OnOk};
ghost use Rattle.hw_model.specs.Types.{Name};
ghost use Rattle.io_edge.specs.declared.file_access.FileFail.TheVariants as fail;
ghost use Rattle.circt_top.specs.Answer.{WritesWhole, WritesFiles, StarvesIn, Delivers, DeliversPrefix, DeliversText, DeliversTextPrefix};
ghost use Rattle.circt_top.specs.Outcome.{file_of, files_of, texts_of};
ghost use Rattle.circt_top.specs.ReadOrder.{WritesEach, WritesOnce, FailsAt};
ghost use Rattle.circt_top.specs.Delivery.{OnDelivered, OnFault, OnNoMemory, HasOutputFault, HasWriteFault};
ghost use Rattle.circt_top.specs.Stops.{names_in, IsStopped, IsUnwrittenFile};

use crate::made::{FileText, Made, ProofTexts};
use io_edge::file_access::{FileFail, Files};
use io_edge::sinks::{Sink, put_all};
use std::alloc::Global;

/// How a delivery ended.
#[derive(Clone, Copy)]
pub(crate) enum Delivery<'a> {
    /// All went out.
    Whole,
    /// The file of this name, or, without one, the output could not be written.
    Fault(Option<&'a str>),
    /// There was no memory. Nothing went out, and no file was written but those before the one that there was no memory for.
    NoMemory,
}

/// The file that was not written, and why.
#[derive(Clone, Copy)]
pub(crate) struct UnwrittenFile<'a> {
    /// Its name.
    pub(crate) name: &'a str,
    /// Why it was not written.
    pub(crate) fail: FileFail,
}

/// Gives each file its whole text, in order, and then sends the whole text to the file of a name, or to `out` in pieces.
pub(crate) fn deliver<'a, F: Files, O: Sink>(
    alloc: Global,
    made: &Made<'a>,
    output: Option<&'a str>,
    files: &mut F,
    out: &mut O,
) -> Delivery<'a>
    ensures whole { OnDelivered result (Delivers F.writes F.files O.puts O.told (option_map (λ s. s.now) output.entry) files.old files.new out.old out.new (texts_of made.now)) }
    ensures written { OnDelivered result ((between : F) × WritesEach F.writes (names_in (files_of made.now.proof)) files.old between × WritesOnce F.writes (option_map (λ s. s.now) output.entry) (Ok tt) between files.new) }
    ensures prefix { OnFault result (λ target. DeliversPrefix F.writes F.files O.puts O.told (option_map (λ s. s.now) output.entry) files.old files.new out.old out.new (texts_of made.now)) }
    ensures failed { OnFault result (λ target. FailsAt F.writes fail.Failed (names_in (files_of made.now.proof)) (option_map (λ s. s.now) output.entry) target files.old files.new) }
    ensures fault { OnFault result (λ target. HasWriteFault (names_in (files_of made.now.proof)) (option_map (λ s. s.now) output.entry) (O.faults out.old) (O.faults out.new) (F.write_faults files.old) (F.write_faults files.new)) }
    ensures nothing { OnNoMemory result ((out.new ≡ out.old) × StarvesIn F.writes F.files (files_of made.now.proof) files.old files.new) }
    ensures starved { OnNoMemory result ((target : _) × FailsAt F.writes fail.NoMemory (names_in (files_of made.now.proof)) (option_map (λ s. s.now) output.entry) target files.old files.new) }
    ensures reads { F.read_faults files.new ≡ F.read_faults files.old }
{
    match write_files(alloc, &made.proof, files) {
        Ok(()) => deliver_text(alloc, output, made.text.as_bytes(), files, out),
        Err(unwritten) => match unwritten.fail {
            FileFail::Failed => Delivery::Fault(Some(unwritten.name)),
            FileFail::NoMemory => Delivery::NoMemory,
        },
    }
}

// Gives each file its whole text, in order, up to the first that is not written.
fn write_files<'a, F: Files>(
    alloc: Global,
    proof: &Option<ProofTexts<'a>>,
    files: &mut F,
) -> Result<(), UnwrittenFile<'a>>
    ensures ok { OnOk result (WritesFiles F.writes F.files (files_of proof.now) files.old files.new) }
    ensures err { IfErr result (λ u. IsStopped F.writes F.files F.write_faults (files_of proof.now) u files.old files.new) }
    ensures kept { (name : Name) → F.write_faults files.old name ≤ F.write_faults files.new name }
    ensures reads { F.read_faults files.new ≡ F.read_faults files.old }
{
    match proof {
        Some(texts) => {
            match write_file(alloc, &texts.formula, files) {
                Ok(()) => {}
                Err(unwritten) => return Err(unwritten),
            }
            write_file(alloc, &texts.proof, files)
        }
        None => Ok(()),
    }
}

// Gives a file its whole text.
fn write_file<'a, F: Files>(
    alloc: Global,
    file: &FileText<'a>,
    files: &mut F,
) -> Result<(), UnwrittenFile<'a>>
    ensures ok { OnOk result (WritesWhole F.writes F.files (file_of file.now).0 (file_of file.now).1 files.old files.new) }
    ensures err { IfErr result (λ u. IsUnwrittenFile F.writes F.files F.write_faults (file_of file.now) u files.old files.new) }
    ensures kept { (name : Name) → F.write_faults files.old name ≤ F.write_faults files.new name }
    ensures reads { F.read_faults files.new ≡ F.read_faults files.old }
{
    match files.write(alloc, file.name, file.text.as_bytes()) {
        Ok(()) => Ok(()),
        Err(fail) => Err(UnwrittenFile {
            name: file.name,
            fail,
        }),
    }
}

// Sends a whole text to the file of a name, or to `out` in pieces.
fn deliver_text<'a, F: Files, O: Sink>(
    alloc: Global,
    output: Option<&'a str>,
    text: &[u8],
    files: &mut F,
    out: &mut O,
) -> Delivery<'a>
    ensures whole { OnDelivered result (DeliversText F.writes F.files O.puts O.told (option_map (λ s. s.now) output.entry) files.old files.new out.old out.new text.now) }
    ensures written { OnDelivered result (WritesOnce F.writes (option_map (λ s. s.now) output.entry) (Ok tt) files.old files.new) }
    ensures prefix { OnFault result (λ target. DeliversTextPrefix F.writes F.files O.puts O.told (option_map (λ s. s.now) output.entry) files.old files.new out.old out.new text.now) }
    ensures failed { OnFault result (λ target. FailsAt F.writes fail.Failed [] (option_map (λ s. s.now) output.entry) target files.old files.new) }
    ensures fault { OnFault result (λ target. HasOutputFault (option_map (λ s. s.now) output.entry) (O.faults out.old) (O.faults out.new) (F.write_faults files.old) (F.write_faults files.new)) }
    ensures nothing { OnNoMemory result ((out.new ≡ out.old) × (F.files files.new ≡ F.files files.old)) }
    ensures starved { OnNoMemory result (FailsAt F.writes fail.NoMemory [] (option_map (λ s. s.now) output.entry) (option_map (λ s. s.now) output.entry) files.old files.new) }
    ensures reads { F.read_faults files.new ≡ F.read_faults files.old }
{
    match output {
        Some(name) => match files.write(alloc, name, text) {
            Ok(()) => Delivery::Whole,
            Err(FileFail::Failed) => Delivery::Fault(Some(name)),
            Err(FileFail::NoMemory) => Delivery::NoMemory,
        },
        None => match put_all(out, text) {
            Ok(()) => Delivery::Whole,
            Err(_) => Delivery::Fault(None),
        },
    }
}
