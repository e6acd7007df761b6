use crate::runs::items_of;
use std::alloc::{AllocError, Global};
use test_rows::unquoted;

/// What the sections of an object file hold, from the parts of a row. Whether they are valid is not asked.
#[derive(Drop)]
pub(crate) struct Draft {
    pub(crate) text: Vec<u8>,
    pub(crate) rodata: Vec<u8>,
    pub(crate) data: Vec<u8>,
    pub(crate) zero_bytes: u64,
    pub(crate) symbols: Vec<u8>,
    pub(crate) names: Vec<u8>,
    /// The number of the first symbol that is not local.
    pub(crate) first_global: u64,
    pub(crate) text_relocs: Vec<u8>,
    pub(crate) data_relocs: Vec<u8>,
    pub(crate) tagged: Vec<u8>,
}

impl Draft {
    /// The parts that a text writes, each a letter and a word.
    pub(crate) fn of(alloc: Global, text: &str) -> Result<Draft, AllocError> {
        let mut draft = Draft {
            text: Vec::new(alloc),
            rodata: Vec::new(alloc),
            data: Vec::new(alloc),
            zero_bytes: 0,
            symbols: vec![in alloc; 0; 24]?,
            names: vec![in alloc; 0]?,
            first_global: 1,
            text_relocs: Vec::new(alloc),
            data_relocs: Vec::new(alloc),
            tagged: Vec::new(alloc),
        };
        let mut letter = None;
        for word in text.split_whitespace() {
            match letter {
                None => letter = word.bytes().next(),
                Some(part) => {
                    draft.put(alloc, part, word)?;
                    letter = None;
                }
            }
        }
        Ok(draft)
    }

    fn put(&mut self, alloc: Global, letter: u8, word: &str) -> Result<(), AllocError> {
        match letter {
            b'w' => put_words(&mut self.text, &items_of(alloc, word)?),
            b'r' => put_bytes(&mut self.rodata, &items_of(alloc, word)?),
            b'i' => put_bytes(&mut self.data, &items_of(alloc, word)?),
            b's' => self.put_symbol(alloc, word),
            b'c' => put_reloc(&mut self.text_relocs, word),
            b'd' => put_reloc(&mut self.data_relocs, word),
            b't' => put_record(&mut self.tagged, 0, 0, number(word), 0),
            _ => {
                self.zero_bytes = number(word);
                Ok(())
            }
        }
    }

    // Puts a symbol and its name: `NAME:HOME:VALUE:SIZE:FLAGS`.
    fn put_symbol(&mut self, alloc: Global, word: &str) -> Result<(), AllocError> {
        let mut fields = word.split(':');
        let name = unquoted(alloc, fields.next().unwrap_or(""))?;
        let home = home_of(fields.next().unwrap_or(""));
        let value = number(fields.next().unwrap_or(""));
        let size = number(fields.next().unwrap_or(""));
        let flags = fields.next().unwrap_or("");
        let binding = if flags.contains('l') { 0 } else { 16 };
        let kind = if home == 0 {
            0
        } else if flags.contains('f') {
            2
        } else {
            1
        };
        if binding == 0 {
            self.first_global = self.first_global.saturating_add(1);
        }
        put_u32(&mut self.symbols, self.names.len() as u64)?;
        self.symbols.push(binding + kind)?;
        self.symbols.push(0)?;
        self.symbols.push(home)?;
        self.symbols.push(0)?;
        put_u64(&mut self.symbols, value)?;
        put_u64(&mut self.symbols, size)?;
        self.names.extend_from_slice(&name)?;
        self.names.push(0)?;
        Ok(())
    }
}

/// The four bytes of a number.
pub(crate) fn put_u32(out: &mut Vec<u8>, value: u64) -> Result<(), AllocError> {
    let value = u32::try_from(value).unwrap_or(u32::MAX);
    out.extend_from_slice(&value.to_le_bytes())
}

/// The eight bytes of a number.
pub(crate) fn put_u64(out: &mut Vec<u8>, value: u64) -> Result<(), AllocError> {
    out.extend_from_slice(&value.to_le_bytes())
}

fn put_words(out: &mut Vec<u8>, words: &[u64]) -> Result<(), AllocError> {
    for word in words {
        put_u32(out, *word)?;
    }
    Ok(())
}

fn put_bytes(out: &mut Vec<u8>, bytes: &[u64]) -> Result<(), AllocError> {
    for byte in bytes {
        out.push(u8::try_from(*byte).unwrap_or(u8::MAX))?;
    }
    Ok(())
}

// Puts a relocation: `OFFSET:KIND:SYMBOL:ADDEND`.
fn put_reloc(out: &mut Vec<u8>, word: &str) -> Result<(), AllocError> {
    let mut fields = word.split(':');
    let offset = number(fields.next().unwrap_or(""));
    let kind = number(fields.next().unwrap_or(""));
    let symbol = number(fields.next().unwrap_or(""));
    let text = fields.next().unwrap_or("");
    let addend = match text.strip_prefix('-') {
        Some(digits) => 0u64.wrapping_sub(number(digits)),
        None => number(text),
    };
    put_record(out, offset, kind, symbol, addend)
}

// Puts the record of a relocation; symbols are counted from 1 in the file.
fn put_record(
    out: &mut Vec<u8>,
    offset: u64,
    kind: u64,
    symbol: u64,
    addend: u64,
) -> Result<(), AllocError> {
    put_u64(out, offset)?;
    put_u32(out, kind)?;
    put_u32(out, symbol.saturating_add(1))?;
    put_u64(out, addend)
}

// The number of the section in which a symbol lies.
fn home_of(letter: &str) -> u8 {
    match letter {
        "T" => 1,
        "R" => 2,
        "I" => 3,
        "Z" => 4,
        _ => 0,
    }
}

fn number(digits: &str) -> u64 {
    digits.parse().unwrap_or(0)
}
