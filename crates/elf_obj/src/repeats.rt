ghost use Rattle.std.specs.Prelude.{◌≡◌, [], IfOk};
ghost use Rattle.elf_obj.specs.Repeats.{first_repeat};

use crate::parts::Symbol;
use std::alloc::{AllocError, Global};
use std::collections::HashSet;

/// The number, from 0, of the first symbol whose name an earlier one has too, where other objects see both; the number of
/// symbols where there is none.
pub(crate) fn first_repeat(alloc: Global, symbols: &[Symbol]) -> Result<usize, AllocError>
    ensures { IfOk result (λ n. n ≡ first_repeat 0 [] symbols.now) }
{
    let mut names = HashSet::new(alloc);
    for index in 0..symbols.len() {
        let symbol = &symbols[index];
        if !symbol.local {
            let added = names.insert(symbol.name.as_slice())?;
            if !added {
                return Ok(index);
            }
        }
    }
    Ok(symbols.len())
}
