//! Copies of trees.

ghost use Rattle.std.specs.Prelude.{◌≡◌, IfOk};

use crate::copying::declaration::{copy_decls, copy_struct};
use crate::copying::statement::copy_stmt;
use crate::program::{External, Function, Program};
use sqlite_items::Items;
use std::alloc::{AllocError, Global};

mod declaration;
mod expr;
mod statement;

pub use expr::copy_type;

/// An equal program in memory of its own. The error is want of memory.
pub fn copy(alloc: Global, program: &Program) -> Result<Program, AllocError>
    ensures { IfOk result (λ copied. copied ≡ program.now) }
{
    let mut items = Items::new(alloc);
    for external in program.items.as_slice() {
        items.push(copy_external(alloc, external)?)?;
    }
    Ok(Program { items })
}

fn copy_external(alloc: Global, external: &External) -> Result<External, AllocError>
    ensures { IfOk result (λ copied. copied ≡ external.now) }
{
    match external {
        External::Include => Ok(External::Include),
        External::Struct(declared) => Ok(External::Struct(copy_struct(alloc, declared)?)),
        External::Objects(storage, decls) => Ok(External::Objects(
            *storage,
            copy_decls(alloc, decls.as_slice())?,
        )),
        External::Function(function) => Ok(External::Function(copy_function(alloc, function)?)),
    }
}

fn copy_function(alloc: Global, function: &Function) -> Result<Function, AllocError>
    ensures { IfOk result (λ copied. copied ≡ function.now) }
{
    let name = function.name.copy(alloc)?;
    let result = copy_type(alloc, &function.result)?;
    let params = copy_decls(alloc, function.params.as_slice())?;
    let body = match &function.body {
        None => None,
        Some(body) => Some(copy_stmt(alloc, body)?),
    };
    Ok(Function {
        storage: function.storage,
        name,
        result,
        params,
        body,
        span: function.span,
    })
}
