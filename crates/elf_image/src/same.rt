// Whether two records have the same fields.
ghost use Rattle.std.specs.Prelude.{◌≡◌};
ghost use Rattle.elf_image.specs.Faults.{same_header, same_segment, same_entry};

use crate::bytes::agrees;
use elf_base::{Dyn, Ehdr, Phdr};

#[tactic(auto, unfolding(crate::specs::Faults::same_header))]
pub(crate) fn same_header(h: &Ehdr, g: &Ehdr) -> bool
    ensures { result ≡ same_header h.now g.now }
{
    agrees(&h.ident, &g.ident)
        && h.kind == g.kind
        && h.machine == g.machine
        && h.version == g.version
        && h.entry == g.entry
        && h.phoff == g.phoff
        && h.shoff == g.shoff
        && h.flags == g.flags
        && h.ehsize == g.ehsize
        && h.phentsize == g.phentsize
        && h.phnum == g.phnum
        && h.shentsize == g.shentsize
        && h.shnum == g.shnum
        && h.shstrndx == g.shstrndx
}

#[tactic(auto, unfolding(crate::specs::Faults::same_segment))]
pub(crate) fn same_segment(p: &Phdr, q: &Phdr) -> bool
    ensures { result ≡ same_segment p.now q.now }
{
    p.kind == q.kind
        && p.flags == q.flags
        && p.offset == q.offset
        && p.vaddr == q.vaddr
        && p.paddr == q.paddr
        && p.filesz == q.filesz
        && p.memsz == q.memsz
        && p.align == q.align
}

#[tactic(auto, unfolding(crate::specs::Faults::same_entry))]
pub(crate) fn same_entry(d: &Dyn, e: &Dyn) -> bool
    ensures { result ≡ same_entry d.now e.now }
{
    d.tag == e.tag && d.value == e.value
}
