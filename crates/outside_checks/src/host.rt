// Files of the host. What they hold is read and written a second time by std, beside the calls that are checked.
use crate::trace;
use mt_outside::{Files, HostFiles, ReadAnswer};
use std::alloc::{AllocError, Global};
use std::{fs, io};

/// How many bytes a long file has: more than one read or write of the host moves.
const LONG: u64 = 300_007;

// The bytes of a long file. They come back after 251, so that a piece of a power of two that is lost or moved shows.
fn long_bytes(alloc: Global, first: u8) -> Result<Vec<u8>, AllocError> {
    let mut bytes = Vec::new(alloc);
    for place in 0..LONG {
        bytes.push(first ^ (place % 251) as u8)?;
    }
    Ok(bytes)
}

/// Reads and writes of short files, of a folder, and of a name in a folder that there is not.
pub(crate) fn small(rt: &HostRuntime, alloc: Global) -> io::Result<String> {
    fs::create_dir(rt, "folder")?;
    let calls = [
        ("folder/file", None),
        ("folder/file", Some("long")),
        ("folder/file", Some("new")),
        ("folder/file", None),
        ("folder", None),
        ("folder/none/file", Some("lost")),
        ("folder/none/file", None),
    ];
    let trace = trace::files(alloc, &mut HostFiles::new(rt), &calls)?;
    fs::remove_file(rt, "folder/file")?;
    fs::remove_dir(rt, "folder")?;
    Ok(trace)
}

/// A long file is written, and read by std.
pub(crate) fn long_written(rt: &HostRuntime, alloc: Global) -> io::Result<String> {
    let bytes = long_bytes(alloc, 0)?;
    let answer = trace::written(HostFiles::new(rt).write("long", &bytes));
    let held = fs::read(rt, "long")?;
    fs::remove_file(rt, "long")?;
    let (count, same) = (held.len(), held == bytes);
    Ok(format!(in alloc; "{answer}, {count} bytes, the same: {same}")?)
}

/// A long file is written by std, and read.
pub(crate) fn long_read(rt: &HostRuntime, alloc: Global) -> io::Result<String> {
    let bytes = long_bytes(alloc, 0xFF)?;
    fs::write(rt, "long", bytes.as_slice())?;
    let answer = HostFiles::new(rt).read(alloc, "long");
    fs::remove_file(rt, "long")?;
    let ReadAnswer::Got(held) = answer else {
        return Ok(String::from_str(alloc, "not read")?);
    };
    let (count, same) = (held.len(), held == bytes);
    Ok(format!(in alloc; "{count} bytes, the same: {same}")?)
}

/// A file of one byte more than may be read, all of them 0 and none of them stored.
pub(crate) fn over_the_limit(rt: &HostRuntime, alloc: Global) -> io::Result<String> {
    fs::create(rt, "large")?.set_len(536_870_913)?;
    let trace = trace::files(alloc, &mut HostFiles::new(rt), &[("large", None)])?;
    fs::remove_file(rt, "large")?;
    Ok(trace)
}
