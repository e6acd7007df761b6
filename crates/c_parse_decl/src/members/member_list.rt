//! Members as far as they are read.

ghost use Rattle.std.specs.Prelude.{◌≡◌, IfOk};
ghost use Rattle.c_parse_decl.specs.Reading.Members as spec;

use crate::declarators::Declared;
use c_ast::Decl;
use sqlite_items::Items;
use std::alloc::{AllocError, Global};

/// Members, and the number of levels below the deepest one.
#[derive(Drop)]
pub struct MemberList {
    pub decls: Items<Decl>,
    pub height: u32,
}

impl MemberList {
    /// No member.
    pub fn none(alloc: Global) -> MemberList
        ensures { result ≡ spec.no_members }
    {
        MemberList {
            decls: Items::new(alloc),
            height: 0,
        }
    }

    /// One more member behind them.
    pub fn with(self, next: Declared) -> Result<MemberList, AllocError>
        ensures { IfOk result (λ read. read ≡ spec.extended self next) }
    {
        let MemberList { mut decls, height } = self;
        decls.push(Decl {
            name: next.name,
            ty: next.ty,
            init: None,
            span: next.span,
        })?;
        Ok(MemberList {
            decls,
            height: height.max(next.height),
        })
    }
}
