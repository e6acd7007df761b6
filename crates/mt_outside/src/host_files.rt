// The files of the host.
ghost use Rattle.std.specs.Prelude.{IfOk, OnOk, IfSome, length, ◌≡◌, ◌≢◌, ◌≤◌, ℕ, List, Option, None};
ghost use Rattle.mt_outside.specs.Told.{Rose, WhereTold};
ghost use Rattle.mt_outside.specs.Counts.{one_more};
ghost use Rattle.mt_outside.specs.Files.{Contents, ReadGives, WriteGives};
ghost use Rattle.mt_outside.specs.HostFiles.{host_read_faults, host_write_faults, IsWithin, GotWhole, WroteWhole, TookWhole};

use crate::calls::one_more;
use crate::{Files, ReadAnswer, WriteAnswer};
use std::alloc::Global;
use std::fs::OpenFile;
use std::io::{ErrorKind, Read, Write};
use std::{fs, io, rt};

/// The most bytes that a file may have which is read.
const MOST_BYTES: u64 = 536_870_912;

/// The files of the host, read and written whole. They tell no content.
#[derive(Drop)]
pub struct HostFiles<R> {
    runtime: R,
    read_faults: u64,
    write_faults: u64,
}

impl<R: rt::Files> HostFiles<R> {
    /// The files that this runtime reaches, with no fault counted.
    pub fn new(runtime: R) -> HostFiles<R>
        ensures read_faults { host_read_faults result ≡ 0 }
        ensures write_faults { host_write_faults result ≡ 0 }
    {
        HostFiles {
            runtime,
            read_faults: 0,
            write_faults: 0,
        }
    }
}

impl<R: rt::Files> Files for HostFiles<R> {
    ghost told = { λ _. None };

    ghost read_faults = { host_read_faults };

    ghost write_faults = { host_write_faults };

    fn read(&mut self, alloc: Global, name: &str) -> ReadAnswer
        ensures counted { result ≡ ReadAnswer.Failed
            → host_read_faults self.new ≡ one_more (host_read_faults self.old) }
        ensures uncounted { result ≢ ReadAnswer.Failed
            → host_read_faults self.new ≡ host_read_faults self.old }
        ensures writes { host_write_faults self.new ≡ host_write_faults self.old }

        // What it gives are all the bytes of a file of the host, and no file of more bytes than the limit is given.
        ensures whole { GotWhole R.File.remaining result }
        ensures limit { IsWithin MOST_BYTES result }
    {
        let read = match fs::open(&self.runtime, name) {
            Ok(file) => read_whole(alloc, file),
            Err(error) if error.kind() == ErrorKind::NotFound => return ReadAnswer::Absent,
            Err(error) => Err(error),
        };
        match read {
            Ok(bytes) => ReadAnswer::Got(bytes),
            Err(error) if error.kind() == ErrorKind::OutOfMemory => ReadAnswer::NoMemory,
            Err(_) => {
                self.read_faults = one_more(self.read_faults);
                ReadAnswer::Failed
            }
        }
    }

    fn write(&mut self, name: &str, bytes: &[u8]) -> WriteAnswer
        ensures takes_no_memory { result ≢ WriteAnswer.NoMemory }
        ensures counted { result ≡ WriteAnswer.Failed
            → host_write_faults self.new ≡ one_more (host_write_faults self.old) }
        ensures uncounted { result ≢ WriteAnswer.Failed
            → host_write_faults self.new ≡ host_write_faults self.old }
        ensures reads { host_read_faults self.new ≡ host_read_faults self.old }

        // Where it is done, a file of the host took all the bytes.
        ensures whole { WroteWhole R.File.contents bytes.now result }
    {
        match write_new(&self.runtime, name, bytes) {
            Ok(()) => WriteAnswer::Done,
            Err(_) => {
                self.write_faults = one_more(self.write_faults);
                WriteAnswer::Failed
            }
        }
    }
}

// All the bytes of an open file. One that is too large fails before it is read, where its size is known, and else at
// the limit.
fn read_whole<F: Read + OpenFile + Drop>(alloc: Global, file: F) -> io::Result<Vec<u8>>
    ensures whole { IfOk result (λ bytes. IfSome (F.remaining file) (λ left. bytes.items ≡ left)) }
    ensures limit { IfOk result (λ bytes. length bytes.items ≤ MOST_BYTES) }
{
    if file.metadata()?.len() > MOST_BYTES {
        return Err(ErrorKind::FileTooLarge.into());
    }
    let mut bytes = Vec::new(alloc);
    file.take(MOST_BYTES + 1).read_to_end(&mut bytes)?;
    if bytes.len() as u64 > MOST_BYTES {
        return Err(ErrorKind::FileTooLarge.into());
    }
    Ok(bytes)
}

// Writes the bytes to a file of this name, which is made or emptied before.
fn write_new<R: rt::Files>(runtime: &R, name: &str, bytes: &[u8]) -> io::Result<()>
    ensures taken { OnOk result (TookWhole R.File.contents bytes.now) }
{
    fs::create(runtime, name)?.write_all(bytes)
}
