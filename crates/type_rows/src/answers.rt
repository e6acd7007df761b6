// What the check of types says of a text.
use c_ast::Program;
use c_lex::lex;
use c_parse::parse;
use c_types::check;
use std::alloc::{AllocError, Global};
use test_rows::unquoted;

/// A text has no more tokens than bytes, and these are few.
const MOST_TOKENS: usize = 65_536;

/// `typed`, or the number of the first broken rule with the bytes of its construct.
pub fn answer(alloc: Global, quoted: &str) -> Result<String, AllocError> {
    let text = unquoted(alloc, quoted)?;
    let tokens = match lex(alloc, &text) {
        Ok(tokens) => tokens,
        Err(refusal) => return format!(in alloc; "{refusal}"),
    };
    let tokens = tokens.as_slice();
    if tokens.len() > MOST_TOKENS {
        return String::from_str(alloc, "too many tokens");
    }
    match parse(alloc, tokens) {
        Ok(program) => checked(alloc, &program),
        Err(refusal) => format!(in alloc; "{refusal}"),
    }
}

fn checked(alloc: Global, program: &Program) -> Result<String, AllocError> {
    match check(alloc, program) {
        Ok(_) => String::from_str(alloc, "typed"),
        Err(refusal) => {
            let span = refusal.span();
            format!(in alloc; "{} {}-{}", refusal.number(), span.start, span.end)
        }
    }
}

/// What a row wants: what was found, where its answer is that, or that with the text of the construct behind it, and else its answer.
pub fn line_wanted<'a>(answer: &'a str, found: &'a str) -> &'a str {
    match answer.strip_prefix(found) {
        Some(rest) if rest.is_empty() || rest.starts_with(' ') => found,
        _ => answer,
    }
}
