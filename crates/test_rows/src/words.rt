use std::alloc::{AllocError, Global};

/// The words of a row that stand between quotes, with a space between two of them.
pub fn words_of(alloc: Global, row: &str) -> Result<Vec<&str>, AllocError> {
    let mut words = Vec::new(alloc);
    if let Some(inner) = row
        .strip_prefix('"')
        .and_then(|rest| rest.strip_suffix('"'))
    {
        for word in inner.split("\" \"") {
            words.push(word)?;
        }
    }
    Ok(words)
}
