//! What a parser of parameters gives.

ghost use Rattle.std.specs.Prelude.{◌≡◌, ◌<◌, ◌+◌, ◌^◌, IfOk};
ghost use Rattle.c_parse_decl.specs.Reading.Parameters as spec;

use crate::declarators::Declared;
use c_ast::{CType, Decl, Name, Span};
use sqlite_items::Items;
use std::alloc::{AllocError, Global};

/// Parameters without their parentheses.
#[derive(Drop)]
pub struct ListRead {
    pub decls: Items<Decl>,
    /// How many levels they have.
    pub height: u32,
    /// Whether each has a name.
    pub all_named: bool,
}

/// A function's parameters.
#[derive(Drop)]
pub struct ParametersRead {
    pub decls: Items<Decl>,
    /// How many levels they have, none where there are none.
    pub height: u32,
    /// The number of the byte behind the last token.
    pub end: u32,
    /// Whether each has a name.
    pub all_named: bool,
}

/// Whether a parameter has a name.
fn has_name(name: &Name) -> bool
    ensures { result ≡ spec.has_name name.now }
{
    match name.as_slice() {
        [] => false,
        _ => true,
    }
}

/// Whether the parameters are one alone, of type `void` and without a name, so that there are none (C11 6.7.6.3 paragraph 10).
#[tactic(auto, unfolding(crate::specs::Reading::Parameters::is_void))]
fn is_void(decls: &[Decl]) -> bool
    ensures { result ≡ spec.is_void decls.now }
{
    match decls {
        [only] => !has_name(&only.name) && matches!(only.ty, CType::Void),
        _ => false,
    }
}

/// The declaration of a parameter.
fn decl_of(read: Declared) -> Decl
    ensures { result ≡ spec.decl_of read }
{
    Decl {
        name: read.name,
        ty: read.ty,
        init: None,
        span: read.span,
    }
}

impl ListRead {
    /// The first parameter.
    pub fn one(alloc: Global, first: Declared) -> Result<ListRead, AllocError>
        requires { first.height + 1 < 2 ^ 32 }
        ensures { IfOk result (λ made. made ≡ spec.one_parameter first) }
    {
        let height = first.height + 1;
        let all_named = has_name(&first.name);
        let mut decls = Items::new(alloc);
        decls.push(decl_of(first))?;
        Ok(ListRead {
            decls,
            height,
            all_named,
        })
    }

    /// One more parameter behind them.
    pub fn with(self, next: Declared) -> Result<ListRead, AllocError>
        requires { next.height + 1 < 2 ^ 32 }
        ensures { IfOk result (λ made. made ≡ spec.more_parameters self next) }
    {
        let height = self.height.max(next.height + 1);
        let all_named = self.all_named && has_name(&next.name);
        let mut decls = self.decls;
        decls.push(decl_of(next))?;
        Ok(ListRead {
            decls,
            height,
            all_named,
        })
    }

    /// With the parenthesis behind them.
    pub fn closed(self, alloc: Global, right: Span) -> ParametersRead
        ensures { result ≡ spec.closed (self, right) }
    {
        if is_void(self.decls.as_slice()) {
            return ParametersRead::none(alloc, right);
        }
        ParametersRead {
            decls: self.decls,
            height: self.height,
            end: right.end,
            all_named: self.all_named,
        }
    }
}

impl ParametersRead {
    /// No parameter, and where the parenthesis stands.
    pub fn none(alloc: Global, right: Span) -> ParametersRead
        ensures { result ≡ spec.no_parameter right }
    {
        ParametersRead {
            decls: Items::new(alloc),
            height: 0,
            end: right.end,
            all_named: true,
        }
    }
}
