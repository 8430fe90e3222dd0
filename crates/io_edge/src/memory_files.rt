//! Files in memory.
ghost use Rattle.std.specs.Prelude.{◌≡◌, ◌≤◌, Some, take, length, option_copied, IfOk, OnOk, OnErr};
ghost use Rattle.io_edge.specs.Reading.{file_at};
ghost use Rattle.io_edge.specs.Writing.{with_file, position_in};
ghost use Rattle.io_edge.specs.FilesState.{without_faults, expected_read, after_read, IsAnswer, fails_next, after_write, IsWriteAnswer};
ghost use Rattle.io_edge.specs.Listed.{file_list};

use crate::byte_text::Text;
use crate::file_access::{FileFail, Files};
use std::alloc::{AllocError, Global};
use std::marker::Model;

/// A file: its name and its bytes.
#[derive(Drop)]
pub struct MemoryFile {
    pub name: Text,
    pub bytes: Text,
}

impl MemoryFile {
    /// The file of this name with these bytes.
    pub fn of(alloc: Global, name: &str, bytes: &[u8]) -> Result<MemoryFile, AllocError>
        ensures name { IfOk result (λ file. file.name ≡ name.now) }
        ensures bytes { IfOk result (λ file. file.bytes ≡ bytes.now) }
    {
        Ok(MemoryFile {
            name: Text::of(alloc, name.as_bytes())?,
            bytes: Text::of(alloc, bytes)?,
        })
    }
}

/// Stated files, of which stated reads and writes fail. They are told.
#[derive(Drop)]
pub struct MemoryFiles {
    files: Vec<MemoryFile>,
    failing: Vec<u64>,
    reads: u64,
    read_faults: u64,
    failing_writes: Vec<u64>,
    writes: u64,
    write_faults: u64,
}

impl Model for MemoryFiles {
    ghost use Rattle.io_edge.specs.FilesState.{FilesState};
    ghost use Rattle.io_edge.specs.Listed.{file_list};

    ghost Value = { FilesState };

    ghost view = { λ s. record {
      files = file_list s.files.items;
      failing = s.failing.items;
      reads = s.reads;
      read_faults = s.read_faults;
      failing_writes = s.failing_writes.items;
      writes = s.writes;
      write_faults = s.write_faults;
    } };
}

impl MemoryFiles {
    /// These files, of which no read and no write is to fail; `alloc` gives no memory here. The first
    /// of a name counts, and the file named `-` is standard input.
    pub fn new(alloc: Global, files: Vec<MemoryFile>) -> MemoryFiles
        ensures { result ≡ without_faults (file_list files.items) }
    {
        MemoryFiles {
            files,
            failing: Vec::new(alloc),
            reads: 0,
            read_faults: 0,
            failing_writes: Vec::new(alloc),
            writes: 0,
            write_faults: 0,
        }
    }

    /// The same files, of which the reads at these positions are to fail. Positions are counted from 0,
    /// over the reads of all names.
    pub fn failing_at(self, positions: Vec<u64>) -> MemoryFiles
        ensures { result ≡ record self { failing = positions.items } }
    {
        let mut files = self;
        files.failing = positions;
        files
    }

    /// The same files, of which the writes at these positions are to fail. Positions are counted from 0,
    /// over the writes of all names.
    pub fn failing_writes_at(self, positions: Vec<u64>) -> MemoryFiles
        ensures { result ≡ record self { failing_writes = positions.items } }
    {
        let mut files = self;
        files.failing_writes = positions;
        files
    }

    /// How many reads failed. The count saturates at its type's end.
    pub fn read_faults(&self) -> u64
        ensures { result ≡ self.now.read_faults }
    {
        self.read_faults
    }

    /// How many writes failed. The count saturates at its type's end.
    pub fn write_faults(&self) -> u64
        ensures { result ≡ self.now.write_faults }
    {
        self.write_faults
    }

    /// The bytes of the first file of this name, where there is one.
    pub fn contents(&self, name: &str) -> Option<&[u8]>
        ensures { option_copied result ≡ file_at name.now self.now.files }
    {
        bytes_of(&self.files, name.as_bytes())
    }
}

impl Files for MemoryFiles {
    ghost files = { λ state. Some state.files };

    ghost read_faults = { λ state name. state.read_faults };

    ghost write_faults = { λ state name. state.write_faults };

    ghost reads = { λ state name limit answer after. IsAnswer (expected_read state name limit) answer × (after ≡ after_read state name limit) };

    ghost writes = { λ state name bytes answer after. IsWriteAnswer (fails_next state) answer × (after ≡ after_write state name bytes answer) };

    /// Fails with `Failed` exactly at a read that is to fail and at an unknown name.
    fn read(&mut self, alloc: Global, name: &str, limit: u64) -> Result<Text, FileFail> {
        let is_to_fail = self.failing.contains(&self.reads);
        self.reads = self.reads.saturating_add(1);
        if is_to_fail {
            self.read_faults = self.read_faults.saturating_add(1);
            return Err(FileFail::Failed);
        }
        match bytes_of(&self.files, name.as_bytes()) {
            None => {
                self.read_faults = self.read_faults.saturating_add(1);
                Err(FileFail::Failed)
            }
            Some(bytes) => Ok(Text::of(alloc, prefix(bytes, limit))?),
        }
    }

    /// Fails with `Failed` exactly at a write that is to fail, which changes no file.
    fn write(&mut self, alloc: Global, name: &str, bytes: &[u8]) -> Result<(), FileFail> {
        let is_to_fail = self.failing_writes.contains(&self.writes);
        self.writes = self.writes.saturating_add(1);
        if is_to_fail {
            self.write_faults = self.write_faults.saturating_add(1);
            return Err(FileFail::Failed);
        }
        let file = MemoryFile::of(alloc, name, bytes)?;
        put_file(&mut self.files, file)?;
        Ok(())
    }
}

// Puts the file in the place of the first of its name, or at the end.
#[tactic(auto, using(crate::proofs::Written::listed_last, crate::proofs::Written::listed_there))]
fn put_file(files: &mut Vec<MemoryFile>, file: MemoryFile) -> Result<(), AllocError>
    ensures ok { OnOk result (file_list files.new.items ≡ with_file file.name file.bytes (file_list files.old.items)) }
    ensures err { OnErr result (files.new.items ≡ files.old.items) }
{
    let position = position_of(files, file.name.as_bytes());
    if position == files.len() {
        files.reserve(1)?;
        files.push_reserved(file);
    } else {
        files[position] = file;
    }
    Ok(())
}

// The position of the first file of this name, or the position after the last.
fn position_of(files: &[MemoryFile], name: &[u8]) -> usize
    ensures position { result ≡ position_in name.now (file_list files.now) }
    ensures within { result ≤ length files.now }
{
    for (position, one) in files.iter().enumerate() {
        if one.name.as_bytes() == name {
            return position;
        }
    }
    files.len()
}

// The bytes of the first file of this name.
fn bytes_of<'a>(files: &'a [MemoryFile], name: &[u8]) -> Option<&'a [u8]>
    ensures { option_copied result ≡ file_at name.now (file_list files.now) }
{
    for file in files {
        if file.name.as_bytes() == name {
            return Some(file.bytes.as_bytes());
        }
    }
    None
}

// The first `limit` bytes, or all where there are fewer.
fn prefix(bytes: &[u8], limit: u64) -> &[u8]
    ensures { result.now ≡ take limit bytes.now }
{
    let limit = limit as usize;
    if bytes.len() <= limit {
        bytes
    } else {
        bytes.split_at(limit).0
    }
}
