//! The lengths of an array of arrays.

ghost use Rattle.std.specs.Prelude.{◌≡◌, ◌<◌, ◌+◌, ◌^◌, IfOk, suc};
ghost use Rattle.c_grammar.specs.Declarators as grammar;
ghost use Rattle.c_parse_decl.specs.Reading.Declarators as spec;

use crate::declarators::declared::Declared;
use c_ast::{CType, Expr, Span};
use c_parse_expr::Measured;
use sqlite_items::{Boxed, Items};
use std::alloc::{AllocError, Global};

/// The lengths between pairs of brackets, as far as they are read.
#[derive(Drop)]
pub struct Lengths {
    /// In their order, of which the first belongs to the whole.
    pub trees: Items<Option<Expr>>,
    /// How many levels the last pair is below the declaration.
    pub level: u32,
    /// How many levels there are in all below the declaration.
    pub height: u32,
    /// The number of the byte behind the last token.
    pub end: u32,
}

impl Lengths {
    /// Before the first pair.
    pub fn none(alloc: Global, declared: &Declared) -> Lengths
        ensures { result ≡ spec.no_lengths declared.now }
    {
        Lengths {
            trees: Items::new(alloc),
            level: declared.height,
            height: declared.height,
            end: declared.span.end,
        }
    }

    /// With one more pair, whose last token is this.
    pub fn with(self, length: Option<Measured>, right: Span) -> Result<Lengths, AllocError>
        requires { self.level + 1 + spec.levels_of length < 2 ^ 32 }
        ensures { IfOk result (λ made. made ≡ spec.more_lengths self (length, right)) }
    {
        let Lengths {
            mut trees,
            level,
            height,
            ..
        } = self;
        let level = level + 1;
        let (tree, levels) = match length {
            None => (None, 0),
            Some(length) => (Some(length.tree), length.height + 1),
        };
        trees.push(tree)?;
        Ok(Lengths {
            trees,
            level,
            height: height.max(level + levels),
            end: right.end,
        })
    }
}

/// The array of arrays with these lengths (C11 6.7.6.2p3).
fn arrays(
    alloc: Global,
    element: CType,
    mut trees: Items<Option<Expr>>,
) -> Result<CType, AllocError>
    ensures { IfOk result (λ made. made ≡ grammar.arrays element trees) }
{
    let mut ty = element;
    while let Some(length) = trees.pop() {
        ty = CType::Array(Boxed::new(alloc, ty)?, length);
    }
    Ok(ty)
}

/// What was declared, with all lengths.
pub fn with_lengths(alloc: Global, read: Declared, lengths: Lengths) -> Result<Declared, AllocError>
    ensures { IfOk result (λ made. made ≡ spec.arrays_of read lengths) }
{
    let span = Span {
        start: read.span.start,
        end: lengths.end,
    };
    Ok(Declared {
        name: read.name,
        ty: arrays(alloc, read.ty, lengths.trees)?,
        height: lengths.height,
        span,
    })
}
