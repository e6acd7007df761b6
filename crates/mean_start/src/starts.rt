//! The numbers of the first blocks of each file.

ghost use Rattle.std.specs.Prelude.{◌≡◌, ◌+◌, length, IfOk};
ghost use Rattle.mean_start.specs.Numbers.{AreStarts};

use c_type_base::Typed;
use std::alloc::{AllocError, Global};

/// The blocks of a file's first object, text and function, where it has them.
#[derive(Clone, Copy)]
pub struct Starts {
    pub objects: u64,
    pub texts: u64,
    pub functions: u64,
}

/// So many further on. A sum that is no number of 64 bits finds no memory.
pub fn further(block: u64, count: usize) -> Result<u64, AllocError>
    ensures { IfOk result (λ n. n ≡ block + count) }
{
    match block.checked_add(count as u64) {
        Some(block) => Ok(block),
        None => Err(AllocError),
    }
}

/// Those of a file whose blocks begin at a number.
fn starts_at(first: u64, typed: &Typed) -> Result<Starts, AllocError>
    ensures objects { IfOk result (λ s. s.objects ≡ first) }
    ensures texts { IfOk result (λ s. s.texts ≡ first + length typed.now.globals) }
    ensures functions { IfOk result (λ s. s.functions ≡ first + (length typed.now.globals + length typed.now.texts)) }
{
    let texts = further(first, typed.globals.len())?;
    let functions = further(texts, typed.texts.len())?;
    Ok(Starts {
        objects: first,
        texts,
        functions,
    })
}

/// Those of all files, in their order.
pub fn starts_of(alloc: Global, units: &[Typed]) -> Result<Vec<Starts>, AllocError>
    ensures { IfOk result (λ made. AreStarts made.items units.now) }
{
    let mut made = Vec::new(alloc);
    let mut next = 1;
    for typed in units {
        let starts = starts_at(next, typed)?;
        next = further(starts.functions, typed.functions.len())?;
        made.push(starts)?;
    }
    Ok(made)
}
