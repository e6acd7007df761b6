//! The shape of a tree as a text: `(- (- a b) c)`, `(return 1)`, `(x [3]*int = {1 2})`.

use c_ast::{Name, Program, Span};
use std::alloc::{AllocError, Global};
use std::fmt::Write;

mod declaration;
mod expr;
mod statement;

/// A text that grows, and whether spans are told: `@3-9` behind the word that opens a node. It keeps in mind that memory was
/// wanting, so that no step of it can fail.
#[derive(Drop)]
pub struct Shape {
    spans: bool,
    text: String,
    cut: bool,
}

impl Shape {
    pub fn new(alloc: Global, spans: bool) -> Shape {
        Shape {
            spans,
            text: String::new(alloc),
            cut: false,
        }
    }

    /// The text, unless memory was wanting.
    pub fn told(self) -> Result<String, AllocError> {
        match self.cut {
            true => Err(AllocError),
            false => Ok(self.text),
        }
    }

    fn put(&mut self, text: &str) {
        if self.text.push_str(text).is_err() {
            self.cut = true;
        }
    }

    fn number(&mut self, value: u64) {
        if write!(self.text, "{value}").is_err() {
            self.cut = true;
        }
    }

    /// Bytes, those that are no plain characters as `\x` and two digits.
    fn bytes(&mut self, bytes: &[u8]) {
        for byte in bytes {
            self.byte(*byte);
        }
    }

    fn byte(&mut self, byte: u8) {
        let failed = if (b' '..=b'~').contains(&byte) {
            self.text.push(char::from(byte)).is_err()
        } else {
            write!(self.text, "\\x{byte:02x}").is_err()
        };
        if failed {
            self.cut = true;
        }
    }

    fn name(&mut self, name: &Name) {
        self.bytes(name.as_slice());
    }

    fn span(&mut self, span: Span) {
        if self.spans {
            self.put("@");
            self.number(u64::from(span.start));
            self.put("-");
            self.number(u64::from(span.end));
        }
    }

    /// The parts of a translation unit, with a space between them.
    pub fn program(&mut self, program: &Program) {
        for (index, part) in program.items.as_slice().iter().enumerate() {
            if index > 0 {
                self.put(" ");
            }
            declaration::external(self, part);
        }
    }
}
