// Rows of keywords and punctuators: their numbers and names.
use c_ast::{Keyword, Punctuator, keyword_of, punctuator_of};
use std::alloc::{AllocError, Global};

/// What a word is: a keyword or a punctuator with its number and name, or none.
pub fn word(alloc: Global, spelling: &[u8]) -> Result<String, AllocError> {
    if let Some(number) = keyword_of(spelling) {
        return keyword(alloc, number);
    }
    match punctuator_of(spelling) {
        Some(number) => punctuator(alloc, number),
        None => String::from_str(alloc, "none"),
    }
}

fn keyword(alloc: Global, number: u8) -> Result<String, AllocError> {
    match Keyword::from_number(number) {
        Some(name) => format!(in alloc; "keyword {number} {name:?} {}", name.number()),
        None => String::from_str(alloc, "none"),
    }
}

fn punctuator(alloc: Global, number: u8) -> Result<String, AllocError> {
    match Punctuator::from_number(number) {
        Some(name) => format!(in alloc; "punctuator {number} {name:?} {}", name.number()),
        None => String::from_str(alloc, "none"),
    }
}

/// The keyword and the punctuator of a number.
pub fn named(alloc: Global, number: &str) -> Result<String, AllocError> {
    match number.parse::<u8>().ok() {
        Some(number) => {
            let keyword = keyword(alloc, number)?;
            let punctuator = punctuator(alloc, number)?;
            format!(in alloc; "{keyword}, {punctuator}")
        }
        None => String::from_str(alloc, "no number"),
    }
}
