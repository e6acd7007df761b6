use std::alloc::{AllocError, Global};

// The most bytes that a row may have.
const MOST: usize = 1 << 20;

// The bytes of a row, or None where a word is none of its forms.
pub(crate) fn bytes_of(alloc: Global, text: &str) -> Result<Option<Vec<u8>>, AllocError> {
    let mut bytes = Vec::new(alloc);
    for word in text.split_whitespace() {
        if let Some(place) = word.strip_prefix('@') {
            let Ok(place) = place.parse::<usize>() else {
                return Ok(None);
            };
            if place > MOST {
                return Ok(None);
            }
            for _ in bytes.len()..place {
                bytes.push(0)?;
            }
        } else {
            let Ok(byte) = u8::from_str_radix(word, 16) else {
                return Ok(None);
            };
            bytes.push(byte)?;
        }
    }
    Ok(Some(bytes))
}
