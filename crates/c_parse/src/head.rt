//! What stands before a name at file scope.

ghost use Rattle.std.specs.Prelude.{◌≡◌, ◌<◌, ◌+◌, ◌^◌, IfOk};
ghost use Rattle.c_parse.specs.Reading.Values as spec;

use c_ast::{CType, Decl, Name, Span, Storage};
use c_parse_base::TypeRead;
use c_parse_decl::BodyRead;
use sqlite_items::Items;
use std::alloc::{AllocError, Global};

/// A type at file scope, and the struct that it declares (C11 6.7.2).
#[derive(Drop)]
pub struct Head {
    pub base: CType,
    /// The tag, where the type is a struct.
    pub tag: Option<Name>,
    /// The members of the struct's body, where it has one.
    pub members: Option<Items<Decl>>,
    /// From the first token to the last one.
    pub span: Span,
    /// How many levels it has at file scope: two and those below a member, and none without a body.
    pub height: u32,
}

/// A storage class, if there is one, and a type (C11 6.7).
#[derive(Drop)]
pub struct Specifiers {
    pub storage: Storage,
    /// The number of the first byte.
    pub start: u32,
    pub head: Head,
}

/// The tag of a struct's type.
fn tag_of(alloc: Global, ty: &CType) -> Result<Option<Name>, AllocError>
    ensures { IfOk result (λ found. found ≡ spec.tag_of ty.now) }
{
    Ok(match ty {
        CType::Struct(tag) => Some(tag.copy(alloc)?),
        _ => None,
    })
}

impl Head {
    /// A type without a body.
    pub fn plain(alloc: Global, start: u32, read: TypeRead) -> Result<Head, AllocError>
        ensures { IfOk result (λ made. made ≡ spec.plain_head (start, read)) }
    {
        let tag = tag_of(alloc, &read.ty)?;
        let span = Span {
            start,
            end: read.end,
        };
        Ok(Head {
            base: read.ty,
            tag,
            members: None,
            span,
            height: 0,
        })
    }

    /// With the body that stands behind it.
    pub fn with_body(self, body: BodyRead) -> Head
        requires { body.height + 2 < 2 ^ 32 }
        ensures { result ≡ spec.with_body self body }
    {
        Head {
            base: self.base,
            tag: self.tag,
            members: Some(body.members),
            span: Span {
                start: self.span.start,
                end: body.end,
            },
            height: self.height.max(body.height + 2),
        }
    }
}

impl Specifiers {
    /// Whether a semicolon alone may follow: behind a struct without a storage class (C11 6.7 paragraph 2).
    pub fn is_lone(&self) -> bool
        ensures { result ≡ spec.is_lone self.now }
    {
        matches!(self.storage, Storage::None) && self.head.tag.is_some()
    }
}
