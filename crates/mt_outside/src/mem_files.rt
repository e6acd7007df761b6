// Files in memory, whose numbered calls can fail.
ghost use Rattle.std.specs.Prelude.{◌≡◌, ◌≢◌, ◌≤◌, ◌↔◌, List, ℕ, Option, Some, Contains, OnOk, OnErr, IfSome, slice_get, string_bytes};
ghost use Rattle.mt_outside.specs.Told.{Rose, WhereTold};
ghost use Rattle.mt_outside.specs.Counts.{one_more};
ghost use Rattle.mt_outside.specs.Files.{Contents, OthersStay, ReadGives, WriteGives};
ghost use Rattle.mt_outside.specs.MemFiles.{first_bytes, first_place, files_content, files_calls, files_failing, files_read_faults, files_write_faults};

use crate::calls::{Calls, one_more};
use crate::{Files, ReadAnswer, WriteAnswer};
use std::alloc::{AllocError, Global};

/// A file in memory.
#[derive(Drop)]
pub struct MemFile {
    pub name: String,
    pub bytes: Vec<u8>,
}

/// Files in memory. Calls are numbered from 0 over reads and writes together, those that find no memory included. A call
/// whose number stands in `failing` answers Failed.
#[derive(Drop)]
pub struct MemFiles {
    files: Vec<MemFile>,
    calls: Calls,
    read_faults: u64,
    write_faults: u64,
}

impl MemFiles {
    /// These files. Where a name is given twice, its first file counts.
    pub fn new(files: Vec<MemFile>, failing: Vec<u64>) -> MemFiles
        ensures content { files_content result ≡ first_bytes files.items }
        ensures calls { files_calls result ≡ 0 }
        ensures failing { files_failing result ≡ failing.items }
        ensures read_faults { files_read_faults result ≡ 0 }
        ensures write_faults { files_write_faults result ≡ 0 }
    {
        MemFiles {
            files,
            calls: Calls::new(failing),
            read_faults: 0,
            write_faults: 0,
        }
    }

    /// How many reads have failed. The count stops at the last number of 64 bits.
    pub fn read_faults(&self) -> u64
        ensures { result ≡ files_read_faults self.now }
    {
        self.read_faults
    }

    /// How many writes have failed. The count stops at the last number of 64 bits.
    pub fn write_faults(&self) -> u64
        ensures { result ≡ files_write_faults self.now }
    {
        self.write_faults
    }
}

impl Files for MemFiles {
    ghost told = { λ files. Some (files_content files) };

    ghost read_faults = { files_read_faults };

    ghost write_faults = { files_write_faults };

    fn read(&mut self, alloc: Global, name: &str) -> ReadAnswer
        ensures content { ReadGives (files_content self.old) name.now result }
        ensures kept { files_content self.new ≡ files_content self.old }

        // It fails exactly where the call's number stands in `failing`, and then alone it counts.
        ensures fails { (result ≡ ReadAnswer.Failed) ↔
            Contains (files_failing self.old) (files_calls self.old) }
        ensures counted { result ≡ ReadAnswer.Failed
            → files_read_faults self.new ≡ one_more (files_read_faults self.old) }
        ensures uncounted { result ≢ ReadAnswer.Failed
            → files_read_faults self.new ≡ files_read_faults self.old }
        ensures writes { files_write_faults self.new ≡ files_write_faults self.old }

        ensures calls { files_calls self.new ≡ one_more (files_calls self.old) }
        ensures failing { files_failing self.new ≡ files_failing self.old }
    {
        if self.calls.next_fails() {
            self.read_faults = one_more(self.read_faults);
            return ReadAnswer::Failed;
        }
        match place_of(&self.files, name) {
            None => ReadAnswer::Absent,
            Some(place) => match Vec::from_slice(alloc, &self.files[place].bytes) {
                Ok(bytes) => ReadAnswer::Got(bytes),
                Err(AllocError) => ReadAnswer::NoMemory,
            },
        }
    }

    fn write(&mut self, name: &str, bytes: &[u8]) -> WriteAnswer
        ensures content { WriteGives name.now bytes.now result
            (files_content self.old) (files_content self.new) }

        // It fails exactly where the call's number stands in `failing`, and then it counts and changes nothing else.
        ensures fails { (result ≡ WriteAnswer.Failed) ↔
            Contains (files_failing self.old) (files_calls self.old) }
        ensures unchanged { result ≡ WriteAnswer.Failed
            → files_content self.new ≡ files_content self.old }
        ensures counted { result ≡ WriteAnswer.Failed
            → files_write_faults self.new ≡ one_more (files_write_faults self.old) }
        ensures uncounted { result ≢ WriteAnswer.Failed
            → files_write_faults self.new ≡ files_write_faults self.old }
        ensures reads { files_read_faults self.new ≡ files_read_faults self.old }

        ensures calls { files_calls self.new ≡ one_more (files_calls self.old) }
        ensures failing { files_failing self.new ≡ files_failing self.old }
    {
        if self.calls.next_fails() {
            self.write_faults = one_more(self.write_faults);
            return WriteAnswer::Failed;
        }
        match put_bytes(&mut self.files, name, bytes) {
            Ok(()) => WriteAnswer::Done,
            Err(AllocError) => WriteAnswer::NoMemory,
        }
    }
}

// The place of the first file of a name.
fn place_of(files: &[MemFile], name: &str) -> Option<usize>
    ensures { result ≡ first_place files.now name.now }
{
    files.iter().position(|file| file.name.as_str() == name)
}

// Gives a name these bytes: in its first file, or else in a new one behind the others.
fn put_bytes(files: &mut Vec<MemFile>, name: &str, bytes: &[u8]) -> Result<(), AllocError>
    ensures named { OnOk result (first_bytes files.new.items name.now ≡ Some bytes.now) }
    ensures others { OnOk result
        (OthersStay name.now (first_bytes files.old.items) (first_bytes files.new.items)) }
    ensures err { OnErr result (files.new.items ≡ files.old.items) }
{
    let alloc = *files.allocator();
    let bytes = Vec::from_slice(alloc, bytes)?;
    match place_of(files, name) {
        Some(place) => files[place].bytes = bytes,
        None => {
            let name = String::from_str(alloc, name)?;
            files.push(MemFile { name, bytes })?;
        }
    }
    Ok(())
}
