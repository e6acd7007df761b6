// A reader and a writer that are interrupted, do less than they are asked, and fail.
use crate::trace;
use mt_outside::{StdSink, StdSource};
use std::alloc::{AllocError, Global};
use std::io;
use std::io::{ErrorKind, Read, Write};

// A reader whose first read is interrupted and whose third one fails.
#[derive(Drop)]
struct Faltering {
    reads: u8,
}

impl Read for Faltering {
    fn read(&mut self, buffer: &mut [u8]) -> io::Result<usize> {
        if buffer.len() < 2 {
            return Ok(0);
        }
        self.reads = self.reads.saturating_add(1);
        match self.reads {
            1 => Err(ErrorKind::Interrupted.into()),
            2 => {
                buffer[0] = b'a';
                buffer[1] = b'b';
                Ok(2)
            }
            3 => Err(ErrorKind::Other.into()),
            4 => {
                buffer[0] = b'c';
                Ok(1)
            }
            _ => Ok(0),
        }
    }
}

// A writer that takes two bytes at most, is interrupted at its second write, and takes nothing from the fifth on.
#[derive(Drop)]
struct Narrow {
    writes: u8,
    taken: Vec<u8>,
}

impl Write for Narrow {
    fn write(&mut self, bytes: &[u8]) -> io::Result<usize> {
        self.writes = self.writes.saturating_add(1);
        match self.writes {
            2 => Err(ErrorKind::Interrupted.into()),
            1 | 3 | 4 => {
                let count = bytes.len().min(2);
                self.taken.extend_from_slice(&bytes[..count])?;
                Ok(count)
            }
            _ => Ok(0),
        }
    }

    fn flush(&mut self) -> io::Result<()> {
        Ok(())
    }
}

/// What a source makes of the reader: it reads again where it was interrupted, and goes on after a fault.
pub(crate) fn source(alloc: Global) -> Result<String, AllocError> {
    let mut source = StdSource::new(Faltering { reads: 0 });
    trace::source(alloc, &mut source, 6)
}

/// What a sink makes of the writer: it writes piece by piece, and fails where nothing more is taken.
pub(crate) fn sink(alloc: Global) -> Result<String, AllocError> {
    let mut writer = Narrow {
        writes: 0,
        taken: Vec::new(alloc),
    };
    let trace = trace::sink(alloc, &mut StdSink::new(&mut writer), &["hello", "", "x"])?;
    let taken = str::from_utf8(&writer.taken).unwrap_or("other");
    format!(in alloc; "{trace}taken {taken}")
}
