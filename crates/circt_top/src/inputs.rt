//! The files that a command reads.
ghost use Rattle.std.specs.Prelude.{◌≡◌, ℕ, List, [], ◌∷◌, ◌++◌, Ok, IfOk, IfErr, OnOk, map, string_bytes};
ghost use Rattle.wiring.specs.Wiring.{In};
ghost use Rattle.io_edge.specs.Faults.{HasRisen};
ghost use Rattle.io_edge.specs.Reading.{Reads, HasNamedCause};
ghost use Rattle.circt_top.specs.Inputs.{read_limit, HasRead, AreReads, OnFault};
ghost use Rattle.circt_top.specs.ReadOrder.{StopsFor, Misses};

use io_edge::byte_text::Text;
use io_edge::file_access::{FileFail, Files};
use mlir_reader::read::MOST_BYTES;
use std::alloc::Global;

/// How many bytes of an input are read at most: one more than a text may have.
const READ_LIMIT: u64 = MOST_BYTES as u64 + 1;

/// Why the inputs were not read.
#[derive(Clone, Copy)]
pub(crate) enum Unread<'a> {
    /// The file of this name could not be read.
    Fault(&'a str),
    /// There was no memory for them.
    NoMemory,
}

/// What is read of the files of these names, in order, up to the first that cannot be read.
pub(crate) fn read_inputs<'a, F: Files>(
    alloc: Global,
    names: &'a [String],
    files: &mut F,
) -> Result<Vec<Text>, Unread<'a>>
    ensures read { IfOk result (λ v. HasRead F.reads F.files files.old (map string_bytes names.entry.now) v.items files.new) }
    ensures told { IfOk result (λ v. AreReads (F.files files.old) (map string_bytes names.entry.now) v.items) }
    ensures fault { IfErr result (λ u. OnFault u (λ name. In name (map string_bytes names.entry.now) × HasRisen (F.read_faults files.old name) (F.read_faults files.new name))) }
    ensures stops { IfErr result (λ u. StopsFor F.reads F.files u files.old (map string_bytes names.entry.now) files.new) }
    ensures unchanged { F.files files.new ≡ F.files files.old }
    ensures writes { F.write_faults files.new ≡ F.write_faults files.old }
{
    let mut sources = Vec::new(alloc);
    for name in names {
        match read_one(alloc, name, files, &mut sources) {
            Ok(()) => {}
            Err(FileFail::Failed) => return Err(Unread::Fault(name)),
            Err(FileFail::NoMemory) => return Err(Unread::NoMemory),
        }
    }
    Ok(sources)
}

// Adds what is read of one more file.
fn read_one<F: Files>(
    alloc: Global,
    name: &str,
    files: &mut F,
    sources: &mut Vec<Text>,
) -> Result<(), FileFail>
    ensures read { OnOk result ((source : List ℕ) × (sources.new.items ≡ sources.old.items ++ source ∷ []) × F.reads files.old name.now read_limit (Ok source) files.new × Reads (F.files files.old) name.now read_limit (Ok source)) }
    ensures misses { IfErr result (λ fail. Misses F.reads F.files files.old name.now fail files.new) }
    ensures cause { HasNamedCause name.now (F.read_faults files.old) (F.read_faults files.new) result }
    ensures unchanged { F.files files.new ≡ F.files files.old }
    ensures writes { F.write_faults files.new ≡ F.write_faults files.old }
{
    let source = files.read(alloc, name, READ_LIMIT)?;
    match sources.push(source) {
        Ok(()) => Ok(()),
        Err(_) => Err(FileFail::NoMemory),
    }
}
