use elf_base::{
    DYN_BYTES, EHDR_BYTES, PHDR_BYTES, RELA_BYTES, SHDR_BYTES, SYM_BYTES, read_dyn, read_ehdr,
    read_phdr, read_rela, read_shdr, read_sym, write_dyn, write_ehdr, write_phdr, write_rela,
    write_shdr, write_sym,
};
use std::alloc::{AllocError, Global};
use std::fmt::Write;
use test_rows::bytes_of;

// What the record of a row is read as: its fields in order, or how many bytes there are where it is cut off. It has to be written as the
// same bytes again.
pub(crate) fn answer(alloc: Global, text: &str) -> Result<String, AllocError> {
    let mut words = text.split_whitespace();
    let kind = words.next().unwrap_or("");
    let bytes = bytes_of(alloc, words.next().unwrap_or(""))?;
    match kind {
        "ehdr" => header(alloc, &bytes),
        "phdr" => segment(alloc, &bytes),
        "shdr" => section(alloc, &bytes),
        "sym" => symbol(alloc, &bytes),
        "rela" => relocation(alloc, &bytes),
        "dyn" => entry(alloc, &bytes),
        _ => String::from_str(alloc, "no record"),
    }
}

fn short(alloc: Global, at: u64) -> Result<String, AllocError> {
    format!(in alloc; "Short {at}")
}

// The fields, where the record was written as the bytes that it was read from.
fn if_same(alloc: Global, out: &[u8], bytes: &[u8], fields: String) -> Result<String, AllocError> {
    if bytes.get(..out.len()) == Some(out) {
        Ok(fields)
    } else {
        String::from_str(alloc, "written otherwise")
    }
}

fn header(alloc: Global, bytes: &[u8]) -> Result<String, AllocError> {
    match read_ehdr(bytes, 0) {
        Err(cut) => short(alloc, cut.at),
        Ok(h) => {
            let mut out = [0xff; EHDR_BYTES as usize];
            write_ehdr(&h, &mut out);
            let fields = format!(in alloc;
                "{} {} {} {} {} {} {} {} {} {} {} {} {}",
                h.kind,
                h.machine,
                h.version,
                h.entry,
                h.phoff,
                h.shoff,
                h.flags,
                h.ehsize,
                h.phentsize,
                h.phnum,
                h.shentsize,
                h.shnum,
                h.shstrndx
            )?;
            if_same(alloc, &out, bytes, fields)
        }
    }
}

fn segment(alloc: Global, bytes: &[u8]) -> Result<String, AllocError> {
    match read_phdr(bytes, 0) {
        Err(cut) => short(alloc, cut.at),
        Ok(p) => {
            let mut out = [0xff; PHDR_BYTES as usize];
            write_phdr(&p, &mut out);
            let fields = format!(in alloc;
                "{} {} {} {} {} {} {} {}",
                p.kind, p.flags, p.offset, p.vaddr, p.paddr, p.filesz, p.memsz, p.align
            )?;
            if_same(alloc, &out, bytes, fields)
        }
    }
}

fn section(alloc: Global, bytes: &[u8]) -> Result<String, AllocError> {
    match read_shdr(bytes, 0) {
        Err(cut) => short(alloc, cut.at),
        Ok(s) => {
            let mut out = [0xff; SHDR_BYTES as usize];
            write_shdr(&s, &mut out);
            let fields = format!(in alloc;
                "{} {} {} {} {} {} {} {} {} {}",
                s.name,
                s.kind,
                s.flags,
                s.addr,
                s.offset,
                s.size,
                s.link,
                s.info,
                s.addralign,
                s.entsize
            )?;
            if_same(alloc, &out, bytes, fields)
        }
    }
}

fn symbol(alloc: Global, bytes: &[u8]) -> Result<String, AllocError> {
    match read_sym(bytes, 0) {
        Err(cut) => short(alloc, cut.at),
        Ok(s) => {
            let mut out = [0xff; SYM_BYTES as usize];
            write_sym(&s, &mut out);
            let fields = format!(in alloc;
                "{} {} {} {} {} {}",
                s.name, s.info, s.other, s.shndx, s.value, s.size
            )?;
            if_same(alloc, &out, bytes, fields)
        }
    }
}

fn relocation(alloc: Global, bytes: &[u8]) -> Result<String, AllocError> {
    match read_rela(bytes, 0) {
        Err(cut) => short(alloc, cut.at),
        Ok(r) => {
            let mut out = [0xff; RELA_BYTES as usize];
            write_rela(&r, &mut out);
            let fields = format!(in alloc; "{} {} {}", r.offset, r.info, r.addend)?;
            if_same(alloc, &out, bytes, fields)
        }
    }
}

fn entry(alloc: Global, bytes: &[u8]) -> Result<String, AllocError> {
    match read_dyn(bytes, 0) {
        Err(cut) => short(alloc, cut.at),
        Ok(d) => {
            let mut out = [0xff; DYN_BYTES as usize];
            write_dyn(&d, &mut out);
            let fields = format!(in alloc; "{} {}", d.tag, d.value)?;
            if_same(alloc, &out, bytes, fields)
        }
    }
}
