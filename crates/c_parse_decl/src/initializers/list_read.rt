//! Initializers between braces.

ghost use Rattle.std.specs.Prelude.{◌≡◌, ◌<◌, ◌+◌, ◌^◌, IfOk};
ghost use Rattle.c_parse_decl.specs.Reading.Initializers as spec;

use crate::initializers::init_read::InitRead;
use c_ast::Init;
use sqlite_items::Items;
use std::alloc::{AllocError, Global};

/// The initializers of a list as far as they are read.
#[derive(Drop)]
pub struct ListRead {
    pub inits: Items<Init>,
    /// How many levels they have below the list.
    pub height: u32,
    /// Whether a comma stands behind the last one.
    pub comma: bool,
}

impl ListRead {
    /// The first initializer.
    pub fn one(alloc: Global, first: InitRead) -> Result<ListRead, AllocError>
        requires { first.height + 1 < 2 ^ 32 }
        ensures { IfOk result (λ read. read ≡ spec.one_item first) }
    {
        let height = first.height + 1;
        let mut inits = Items::new(alloc);
        inits.push(first.init)?;
        Ok(ListRead {
            inits,
            height,
            comma: false,
        })
    }

    /// One more initializer behind them.
    pub fn with(self, next: InitRead) -> Result<ListRead, AllocError>
        requires { next.height + 1 < 2 ^ 32 }
        ensures { IfOk result (λ read. read ≡ spec.more_items self next) }
    {
        let height = self.height.max(next.height + 1);
        let mut inits = self.inits;
        inits.push(next.init)?;
        Ok(ListRead {
            inits,
            height,
            comma: false,
        })
    }

    /// A comma behind them.
    pub fn with_comma(self) -> ListRead
        ensures { result ≡ spec.comma_behind self }
    {
        ListRead {
            inits: self.inits,
            height: self.height,
            comma: true,
        }
    }
}
