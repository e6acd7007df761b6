// Objects in memory, whose numbered calls fail.
use crate::trace;
use mt_outside::{MemFile, MemFiles, MemSink, MemSource};
use std::alloc::{AllocError, Global};

fn file(alloc: Global, name: &str, bytes: &[u8]) -> Result<MemFile, AllocError> {
    Ok(MemFile {
        name: String::from_str(alloc, name)?,
        bytes: Vec::from_slice(alloc, bytes)?,
    })
}

/// Reads and writes of two names, one of which two files have. The calls 3 and 5 fail.
pub(crate) fn files(alloc: Global) -> Result<String, AllocError> {
    let held = vec![in alloc; file(alloc, "a", b"first")?, file(alloc, "a", b"second")?]?;
    let mut files = MemFiles::new(held, vec![in alloc; 3, 5]?);
    let calls = [
        ("a", None),
        ("b", None),
        ("b", Some("new")),
        ("b", None),
        ("b", None),
        ("a", Some("lost")),
        ("a", None),
        ("b", Some("newer")),
        ("b", None),
        ("a", Some("changed")),
        ("a", None),
        ("b", None),
    ];
    let trace = trace::files(alloc, &mut files, &calls)?;
    let (reads, writes) = (files.read_faults(), files.write_faults());
    format!(in alloc; "{trace}, faults {reads} {writes}")
}

/// A source of two bytes, whose calls 1 and 4 fail.
pub(crate) fn source(alloc: Global) -> Result<String, AllocError> {
    let mut source = MemSource::new(Vec::from_slice(alloc, b"ab")?, vec![in alloc; 1, 4]?);
    trace::source(alloc, &mut source, 6)
}

/// A sink that can take three bytes, whose call 1 fails.
pub(crate) fn sink(alloc: Global) -> Result<String, AllocError> {
    let mut sink = MemSink::new(alloc, 3, vec![in alloc; 1]?)?;
    let trace = trace::sink(alloc, &mut sink, &["ab", "c", "cd", "c", "", "d"])?;
    let taken = str::from_utf8(sink.taken()).unwrap_or("other");
    format!(in alloc; "{trace}taken {taken}")
}
