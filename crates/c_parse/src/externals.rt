//! External declarations made of their parts.

ghost use Rattle.std.specs.Prelude.{◌≡◌, ◌<◌, ◌+◌, ◌^◌, max, IfOk};
ghost use Rattle.c_parse.specs.Reading.Values as spec;

use crate::behind::{Behind, FunctionRead};
use crate::head::{Head, Specifiers};
use c_ast::{Decl, External, Function, Name, Program, Span, StructDecl};
use c_parse_decl::ObjectsRead;
use sqlite_items::Items;
use std::alloc::{AllocError, Global};

/// External declarations (C11 6.9).
#[derive(Drop)]
pub struct Externals {
    pub items: Items<External>,
    /// How many levels they have.
    pub height: u32,
}

/// A struct's declaration.
fn declared(
    alloc: Global,
    tag: Option<Name>,
    members: Option<Items<Decl>>,
    span: Span,
) -> Result<Items<External>, AllocError>
    ensures { IfOk result (λ items. items ≡ spec.struct_at tag members span) }
{
    let mut items = Items::new(alloc);
    let Some(name) = tag else {
        return Ok(items);
    };
    items.push(External::Struct(StructDecl {
        name,
        members,
        span,
    }))?;
    Ok(items)
}

/// The struct that a type declares with its body (C11 6.7.2).
fn before(
    alloc: Global,
    tag: Option<Name>,
    members: Option<Items<Decl>>,
    span: Span,
) -> Result<Items<External>, AllocError>
    ensures { IfOk result (λ items. items ≡ spec.before_at tag members span) }
{
    match members {
        Some(members) => declared(alloc, tag, Some(members), span),
        None => Ok(Items::new(alloc)),
    }
}

/// A struct that stands alone.
fn lone(alloc: Global, head: Head) -> Result<Externals, AllocError>
    ensures { IfOk result (λ made. made ≡ record { items = spec.struct_at head.tag head.members head.span; height = max head.height 1 }) }
{
    let height = head.height.max(1);
    let items = declared(alloc, head.tag, head.members, head.span)?;
    Ok(Externals { items, height })
}

/// Objects behind their type.
fn objects(
    alloc: Global,
    specifiers: Specifiers,
    read: ObjectsRead,
) -> Result<Externals, AllocError>
    requires { read.height + 1 < 2 ^ 32 }
    ensures { IfOk result (λ made. made ≡ spec.external_of (specifiers, Behind.Objects read)) }
{
    let Specifiers { storage, head, .. } = specifiers;
    let height = head.height.max(read.height + 1);
    let mut items = before(alloc, head.tag, head.members, head.span)?;
    items.push(External::Objects(storage, read.decls))?;
    Ok(Externals { items, height })
}

/// A function behind the first words of its type.
fn function(
    alloc: Global,
    specifiers: Specifiers,
    read: FunctionRead,
) -> Result<Externals, AllocError>
    requires { read.height + 1 < 2 ^ 32 }
    ensures { IfOk result (λ made. made ≡ spec.external_of (specifiers, Behind.Function read)) }
{
    let Specifiers {
        storage,
        start,
        head,
    } = specifiers;
    let height = head.height.max(read.height + 1);
    let mut items = before(alloc, head.tag, head.members, head.span)?;
    items.push(External::Function(Function {
        storage,
        name: read.name,
        result: read.result,
        params: read.params,
        body: read.body,
        span: Span {
            start,
            end: read.end,
        },
    }))?;
    Ok(Externals { items, height })
}

impl Externals {
    /// A type and what stands behind it.
    pub fn one(
        alloc: Global,
        specifiers: Specifiers,
        behind: Behind,
    ) -> Result<Externals, AllocError>
        requires { spec.height_behind behind + 1 < 2 ^ 32 }
        ensures { IfOk result (λ made. made ≡ spec.external_of (specifiers, behind)) }
    {
        match behind {
            Behind::Lone => lone(alloc, specifiers.head),
            Behind::Objects(read) => objects(alloc, specifiers, read),
            Behind::Function(read) => function(alloc, specifiers, read),
        }
    }

    /// The line `#include <stdio.h>` (C11 6.10.2).
    pub fn include(alloc: Global) -> Result<Externals, AllocError>
        ensures { IfOk result (λ made. made ≡ spec.include_line) }
    {
        let mut items = Items::new(alloc);
        items.push(External::Include)?;
        Ok(Externals { items, height: 0 })
    }

    /// More of them behind these.
    pub fn with(self, next: Externals) -> Result<Externals, AllocError>
        ensures { IfOk result (λ made. made ≡ spec.more_externals self next) }
    {
        let Externals { mut items, height } = self;
        items.append(next.items)?;
        Ok(Externals {
            items,
            height: height.max(next.height),
        })
    }

    /// The program that they are.
    pub fn program(self) -> Program
        ensures { result ≡ spec.program_of self.items }
    {
        Program { items: self.items }
    }
}
