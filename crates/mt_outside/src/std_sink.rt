// A sink that writes to a writer, as the standard output.
ghost use Rattle.std.specs.Prelude.{◌≡◌, ◌≢◌, ◌≤◌, ℕ, List, Option, None, OnOk, OnErr, length, take};
ghost use Rattle.std.specs.Io.KnownBytes.{Appends};
ghost use Rattle.mt_outside.specs.Counts.{one_more};
ghost use Rattle.mt_outside.specs.StdSink.{std_sink_faults, std_sink_writer, AppendsPart};

use crate::calls::one_more;
use crate::{PutAnswer, Sink};
use std::io;
use std::io::{ErrorKind, Write};

/// A sink that writes each piece to a writer at once. It tells no content, since the standard output does not.
#[derive(Drop)]
pub struct StdSink<W> {
    writer: W,
    faults: u64,
}

impl<W: Write> StdSink<W> {
    /// A sink that writes to this writer, with no fault counted.
    pub fn new(writer: W) -> StdSink<W>
        ensures writer { std_sink_writer result ≡ writer }
        ensures faults { std_sink_faults result ≡ 0 }
    {
        StdSink { writer, faults: 0 }
    }
}

impl<W: Write> Sink for StdSink<W> {
    ghost told = { λ _. None };

    ghost faults = { std_sink_faults };

    fn put(&mut self, bytes: &[u8]) -> PutAnswer
        ensures counted { result ≡ PutAnswer.Failed
            → std_sink_faults self.new ≡ one_more (std_sink_faults self.old) }
        ensures uncounted { result ≢ PutAnswer.Failed
            → std_sink_faults self.new ≡ std_sink_faults self.old }

        // At a writer that tells its bytes, the piece or a prefix of it stands behind them.
        ensures written { result ≡ PutAnswer.Done → Appends (W.contents (std_sink_writer self.old))
            (W.contents (std_sink_writer self.new)) bytes.now }
        ensures part { result ≡ PutAnswer.Failed → AppendsPart (W.contents (std_sink_writer self.old))
            (W.contents (std_sink_writer self.new)) bytes.now }
    {
        match write_whole(&mut self.writer, bytes) {
            Ok(()) => PutAnswer::Done,
            Err(_) => {
                self.faults = one_more(self.faults);
                PutAnswer::Failed
            }
        }
    }
}

// Writes all the bytes. A write that a signal interrupts is tried again, and one that takes nothing of some bytes fails.
fn write_whole<W: Write>(writer: &mut W, bytes: &[u8]) -> io::Result<()>
    ensures ok { OnOk result (Appends (W.contents writer.old) (W.contents writer.new) bytes.now) }
    ensures err { OnErr result (AppendsPart (W.contents writer.old) (W.contents writer.new) bytes.now) }
{
    let mut rest = bytes;
    for _ in 0..u64::MAX {
        if rest.is_empty() {
            return Ok(());
        }
        match writer.write(rest) {
            Ok(0) => return Err(ErrorKind::WriteZero.into()),
            Ok(count) => rest = &rest[count..],
            Err(error) if error.kind() == ErrorKind::Interrupted => {}
            Err(error) => return Err(error),
        }
    }
    Err(ErrorKind::TimedOut.into())
}
