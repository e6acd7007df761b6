use crate::draft::{Draft, put_u32, put_u64};
use std::alloc::{AllocError, Global};

// The names of the sections, each with a zero behind it.
const NAMES: &[u8] =
    b"\0.text\0.rodata\0.data\0.bss\0.symtab\0.strtab\0.shstrtab\0.rela.text\0.rela.data\0.memtag.globals.static\0.rela.memtag.globals.static\0";

/// The object file of a draft: a header, the contents of the sections and their headers.
pub(crate) fn file_of(alloc: Global, draft: &Draft) -> Result<Vec<u8>, AllocError> {
    let mut file = vec![in alloc; 0; 64]?;
    let mut heads = vec![in alloc; 0; 64]?;
    let zeros = draft.zero_bytes;
    let symbols = draft.first_global;
    lay(&mut file, &mut heads, [1, 1, 6, 0, 0, 0], &draft.text)?;
    lay(&mut file, &mut heads, [7, 1, 2, 0, 0, 0], &draft.rodata)?;
    lay(&mut file, &mut heads, [15, 1, 3, 0, 0, 0], &draft.data)?;
    lay_head(&mut file, &mut heads, [21, 8, 3, 0, 0, 0], zeros)?;
    lay(
        &mut file,
        &mut heads,
        [26, 2, 0, 6, symbols, 24],
        &draft.symbols,
    )?;
    lay(&mut file, &mut heads, [34, 3, 0, 0, 0, 0], &draft.names)?;
    lay(&mut file, &mut heads, [42, 3, 0, 0, 0, 0], NAMES)?;
    lay(
        &mut file,
        &mut heads,
        [52, 4, 0, 5, 1, 24],
        &draft.text_relocs,
    )?;
    lay(
        &mut file,
        &mut heads,
        [63, 4, 0, 5, 3, 24],
        &draft.data_relocs,
    )?;
    lay_head(&mut file, &mut heads, [74, 0x7000_0007, 0, 0, 0, 0], 0)?;
    lay(&mut file, &mut heads, [97, 4, 0, 5, 10, 24], &draft.tagged)?;
    pad(&mut file)?;
    let header = header(alloc, file.len() as u64)?;
    for (place, byte) in header.iter().enumerate() {
        if let Some(old) = file.get_mut(place) {
            *old = *byte;
        }
    }
    file.extend_from_slice(&heads)?;
    Ok(file)
}

// The header of a file whose section headers begin at a place.
fn header(alloc: Global, place: u64) -> Result<Vec<u8>, AllocError> {
    let mut header = Vec::from_slice(alloc, b"\x7fELF\x02\x01\x01\0\0\0\0\0\0\0\0\0")?;
    put_u32(&mut header, 1 | 183 << 16)?;
    put_u32(&mut header, 1)?;
    put_u64(&mut header, 0)?;
    put_u64(&mut header, 0)?;
    put_u64(&mut header, place)?;
    put_u32(&mut header, 0)?;
    put_u32(&mut header, 64)?;
    put_u32(&mut header, 64 << 16)?;
    put_u32(&mut header, 12 | 7 << 16)?;
    Ok(header)
}

// Lays a section out: its header, of the place of its name, its kind, flags, link, info and the size of an entry; and its content.
fn lay(
    file: &mut Vec<u8>,
    heads: &mut Vec<u8>,
    fields: [u64; 6],
    content: &[u8],
) -> Result<(), AllocError> {
    lay_head(file, heads, fields, content.len() as u64)?;
    file.extend_from_slice(content)
}

// Lays out the header of a section of a size, at the next multiple of 16.
fn lay_head(
    file: &mut Vec<u8>,
    heads: &mut Vec<u8>,
    fields: [u64; 6],
    size: u64,
) -> Result<(), AllocError> {
    let [name, kind, flags, link, info, entry] = fields;
    pad(file)?;
    put_u32(heads, name)?;
    put_u32(heads, kind)?;
    put_u64(heads, flags)?;
    put_u64(heads, 0)?;
    put_u64(heads, file.len() as u64)?;
    put_u64(heads, size)?;
    put_u32(heads, link)?;
    put_u32(heads, info)?;
    put_u64(heads, 16)?;
    put_u64(heads, entry)
}

// Zeros up to the next multiple of 16.
fn pad(file: &mut Vec<u8>) -> Result<(), AllocError> {
    let behind = file.len() % 16;
    if behind != 0 {
        for _ in behind..16 {
            file.push(0)?;
        }
    }
    Ok(())
}
