//! What parsers of declarations give.

ghost use Rattle.std.specs.Prelude.{◌≡◌, ◌+◌, ◌<◌, ◌^◌, IfOk};
ghost use Rattle.c_parse_decl.specs.Reading.Objects as spec;

use crate::declarators::Declared;
use crate::initializers::InitRead;
use c_ast::{Decl, Span};
use sqlite_items::Items;
use std::alloc::{AllocError, Global};

/// An object.
#[derive(Drop)]
pub struct ObjectRead {
    pub decl: Decl,
    /// How many levels it has below the declaration.
    pub height: u32,
}

/// The objects of a declaration.
#[derive(Drop)]
pub struct ObjectsRead {
    pub decls: Items<Decl>,
    /// How many levels they have below the declaration.
    pub height: u32,
}

impl ObjectRead {
    /// A declarator alone.
    pub fn plain(read: Declared) -> ObjectRead
        ensures { result ≡ spec.plain_of read }
    {
        ObjectRead {
            decl: Decl {
                name: read.name,
                ty: read.ty,
                init: None,
                span: read.span,
            },
            height: read.height,
        }
    }

    /// A declarator with an initializer behind it.
    pub fn valued(read: Declared, initial: InitRead) -> ObjectRead
        requires { initial.height + 2 < 2 ^ 32 }
        ensures { result ≡ spec.valued (spec.plain_of read) initial }
    {
        let span = Span {
            start: read.span.start,
            end: initial.end,
        };
        ObjectRead {
            decl: Decl {
                name: read.name,
                ty: read.ty,
                init: Some(initial.init),
                span,
            },
            height: read.height.max(initial.height + 2),
        }
    }
}

impl ObjectsRead {
    /// The first object.
    pub fn one(alloc: Global, first: ObjectRead) -> Result<ObjectsRead, AllocError>
        ensures { IfOk result (λ read. read ≡ spec.one_object first) }
    {
        let mut decls = Items::new(alloc);
        decls.push(first.decl)?;
        Ok(ObjectsRead {
            decls,
            height: first.height,
        })
    }

    /// One more object behind them.
    pub fn with(self, next: ObjectRead) -> Result<ObjectsRead, AllocError>
        ensures { IfOk result (λ read. read ≡ spec.more_objects self next) }
    {
        let height = self.height.max(next.height);
        let mut decls = self.decls;
        decls.push(next.decl)?;
        Ok(ObjectsRead { decls, height })
    }
}
