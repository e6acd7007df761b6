ghost use Rattle.std.specs.Prelude.{◌≡◌, ◌+◌, ◌<◌, ◌≤◌, ◌&&◌, length, take, drop};
ghost use Rattle.std.specs.Str.{bytes_eq};
ghost use Rattle.elf_obj.specs.Claimed.{headers_at, offset_of, size_of, content_of};
ghost use Rattle.elf_obj.specs.ObjectFault.{is_held, all_held};

use elf_base::u64_at;

// Where the section headers begin, by the file's header.
#[tactic(auto, unfolding(crate::specs::Claimed::headers_at))]
pub(crate) fn headers_at(file: &[u8]) -> u64
    requires { 64 ≤ length file.now }
    ensures { result ≡ headers_at file.now }
{
    u64_at(file, 40)
}

// Where a section's content begins, by its header.
#[tactic(auto, unfolding(crate::specs::Claimed::offset_of))]
pub(crate) fn offset_of(file: &[u8], index: u64) -> u64
    requires start { 64 ≤ length file.now }
    requires headers { headers_at file.now + 768 ≤ length file.now }
    requires index { index < 12 }
    ensures { result ≡ offset_of file.now index }
{
    let here = headers_at(file) + 64 * index;
    u64_at(file, (here + 24) as usize)
}

// How long a section's content is, by its header.
#[tactic(auto, unfolding(crate::specs::Claimed::size_of))]
pub(crate) fn size_of(file: &[u8], index: u64) -> u64
    requires start { 64 ≤ length file.now }
    requires headers { headers_at file.now + 768 ≤ length file.now }
    requires index { index < 12 }
    ensures { result ≡ size_of file.now index }
{
    let here = headers_at(file) + 64 * index;
    u64_at(file, (here + 32) as usize)
}

// The content of a section does not pass the end.
#[tactic(auto, unfolding(crate::specs::ObjectFault::is_held))]
fn is_held(file: &[u8], index: u64) -> bool
    requires start { 64 ≤ length file.now }
    requires headers { headers_at file.now + 768 ≤ length file.now }
    requires index { index < 12 }
    ensures { result ≡ is_held file.now index }
{
    let len = file.len() as u64;
    let offset = offset_of(file, index);
    let size = size_of(file, index);
    offset <= len && size <= len - offset
}

// The section headers and the contents that have bytes do not.
#[tactic(auto, unfolding(crate::specs::ObjectFault::all_held))]
pub(crate) fn all_held(file: &[u8]) -> bool
    requires { 64 ≤ length file.now }
    ensures { result ≡ all_held file.now }
{
    let len = file.len() as u64;
    if len < 768 || headers_at(file) > len - 768 {
        return false;
    }
    is_held(file, 1)
        && is_held(file, 2)
        && is_held(file, 3)
        && is_held(file, 5)
        && is_held(file, 6)
        && is_held(file, 7)
        && is_held(file, 8)
        && is_held(file, 9)
        && is_held(file, 11)
}

// The content of a section that does not pass the end.
#[tactic(auto, unfolding(crate::specs::Claimed::content_of))]
pub(crate) fn content_of(file: &[u8], index: u64) -> &[u8]
    requires start { 64 ≤ length file.now }
    requires headers { headers_at file.now + 768 ≤ length file.now }
    requires index { index < 12 }
    requires held { offset_of file.now index + size_of file.now index ≤ length file.now }
    ensures { result.now ≡ content_of file.now index }
{
    let start = offset_of(file, index) as usize;
    let size = size_of(file, index) as usize;
    &file[start..start + size]
}

// These bytes stand at a place.
pub(crate) fn stand_at(file: &[u8], at: u64, bytes: &[u8]) -> bool
    requires { at + length bytes.now ≤ length file.now }
    ensures { result ≡ bytes_eq (take (length bytes.now) (drop at file.now)) bytes.now }
{
    let start = at as usize;
    &file[start..start + bytes.len()] == bytes
}

// Both tests hold.
pub(crate) fn both(first: bool, second: bool) -> bool
    ensures { result ≡ (first && second) }
{
    first && second
}
