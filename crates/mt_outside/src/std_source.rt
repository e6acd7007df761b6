// A source that reads from a reader, as the standard input.
ghost use Rattle.std.specs.Prelude.{◌≡◌, ◌≢◌, ◌≤◌, ◌<◌, ℕ, List, Option, None, IfOk, OnOk, OnErr, length, take};
ghost use Rattle.std.specs.Io.{ReadsAtMost};
ghost use Rattle.std.specs.Io.KnownBytes.{Consumes, Keeps, IsAtEnd};
ghost use Rattle.mt_outside.specs.Counts.{one_more};

use crate::calls::one_more;
use crate::{NextAnswer, Source};
use std::io;
use std::io::{ErrorKind, Read};

/// How many bytes one read asks for.
const BUFFER_LEN: usize = 4096;

/// A source that reads from a reader, ahead of the bytes that were asked for. It tells no content, since the
/// standard input does not.
#[derive(Drop)]
pub struct StdSource<R> {
    reader: R,
    buffer: [u8; BUFFER_LEN],
    start: usize,
    end: usize,
    faults: u64,
    ghost in_order: { start ≤ end },
    ghost in_buffer: { end ≤ 4096 },
}

impl<R: Read> StdSource<R> {
    ghost use Rattle.mt_outside.specs.StdSource.{std_source_faults, std_source_left};

    /// A source of what this reader reads, with no fault counted.
    pub fn new(reader: R) -> StdSource<R>
        ensures left { std_source_left R.remaining result ≡ R.remaining reader }
        ensures faults { std_source_faults result ≡ 0 }
    {
        StdSource {
            reader,
            buffer: [0; BUFFER_LEN],
            start: 0,
            end: 0,
            faults: 0,
        }
    }

    // Reads more bytes where none is unread, so that then one is, or the end has come.
    fn read_ahead(&mut self) -> io::Result<()>
        ensures keeps { Keeps (std_source_left R.remaining self.old) (std_source_left R.remaining self.new) }
        ensures end { OnOk result (self.new.start ≡ self.new.end
            → IsAtEnd (std_source_left R.remaining self.new)) }
        ensures faults { std_source_faults self.new ≡ std_source_faults self.old }
    {
        if self.start == self.end {
            self.end = read_some(&mut self.reader, &mut self.buffer)?;
            self.start = 0;
        }
        Ok(())
    }
}

impl<R: Read> Source for StdSource<R> {
    ghost use Rattle.mt_outside.specs.StdSource.{std_source_faults, std_source_left, NextKnown};

    ghost told = { λ _. None };

    ghost faults = { std_source_faults };

    fn next(&mut self) -> NextAnswer
        ensures counted { result ≡ NextAnswer.Failed
            → std_source_faults self.new ≡ one_more (std_source_faults self.old) }
        ensures uncounted { result ≢ NextAnswer.Failed
            → std_source_faults self.new ≡ std_source_faults self.old }

        // At a reader that tells its bytes, they come one by one and in order.
        ensures known { NextKnown (std_source_left R.remaining self.old)
            (std_source_left R.remaining self.new) result }
    {
        if self.read_ahead().is_err() {
            self.faults = one_more(self.faults);
            return NextAnswer::Failed;
        }
        if self.start == self.end {
            return NextAnswer::End;
        }
        let byte = self.buffer[self.start];
        self.start += 1;
        NextAnswer::Byte(byte)
    }
}

// One read, tried again where a signal interrupts it. It answers how many bytes of the buffer were read, 0 at the end.
fn read_some<R: Read>(reader: &mut R, buffer: &mut [u8]) -> io::Result<usize>
    ensures bound { ReadsAtMost result buffer.new }
    ensures ok { IfOk result (λ count.
        Consumes (R.remaining reader.old) (R.remaining reader.new) (take count buffer.new)) }
    ensures end { IfOk result (λ count.
        count ≡ 0 → 0 < length buffer.old → IsAtEnd (R.remaining reader.new)) }
    ensures err { OnErr result (Keeps (R.remaining reader.old) (R.remaining reader.new)) }
{
    for _ in 0..u64::MAX {
        match reader.read(buffer) {
            Ok(count) => return Ok(count),
            Err(error) if error.kind() == ErrorKind::Interrupted => {}
            Err(error) => return Err(error),
        }
    }
    Err(ErrorKind::TimedOut.into())
}
