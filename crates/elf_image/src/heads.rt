// The headers of a file, and its dynamic entries, whatever they say.
ghost use Rattle.std.specs.Prelude.{◌≡◌, ◌+◌, ◌*◌, ◌≤◌, length};
ghost use Rattle.elf_base.specs.Standing.{phdr_at};
ghost use Rattle.elf_image.specs.Heads.{heads_of, entry_at};

use elf_base::{Dyn, Ehdr, Phdr, read_dyn, read_phdr};

// The file's header, and four program headers.
#[derive(Clone, Copy)]
pub(crate) struct Heads {
    pub(crate) header: Ehdr,
    pub(crate) read_only: Phdr,
    pub(crate) code: Phdr,
    pub(crate) writable: Phdr,
    pub(crate) dynamic: Phdr,
}

// The program header at a place.
fn segment_at(bytes: &[u8], at: u64) -> Phdr
    requires { at + 56 ≤ length bytes.now }
    ensures { result ≡ phdr_at at bytes.now }
{
    match read_phdr(bytes, at) {
        Ok(segment) => segment,
        Err(_) => unreachable!(),
    }
}

// A header, and the program headers that it names.
pub(crate) fn heads_of(header: Ehdr, bytes: &[u8]) -> Heads
    requires { header.phoff + 224 ≤ length bytes.now }
    ensures { result ≡ heads_of header bytes.now }
{
    let at = header.phoff;
    Heads {
        header,
        read_only: segment_at(bytes, at),
        code: segment_at(bytes, at + 56),
        writable: segment_at(bytes, at + 112),
        dynamic: segment_at(bytes, at + 168),
    }
}

// The dynamic entry of a number.
pub(crate) fn entry_at(bytes: &[u8], heads: &Heads, i: u32) -> Dyn
    requires { heads.now.dynamic.offset + 16 * i + 16 ≤ length bytes.now }
    ensures { result ≡ entry_at bytes.now heads.now i }
{
    match read_dyn(bytes, heads.dynamic.offset + 16 * u64::from(i)) {
        Ok(entry) => entry,
        Err(_) => unreachable!(),
    }
}
