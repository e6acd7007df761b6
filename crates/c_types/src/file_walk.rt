//! What the walk over a file has found so far.

ghost use Rattle.std.specs.Prelude.{◌≡◌, [], OnOk};
ghost use Rattle.c_type_expr.specs.Environment.{binds};
ghost use Rattle.c_type_expr.specs.Scoping.{with_binding};
ghost use Rattle.c_types.specs.Standing.{FileStands};
ghost use Rattle.c_types.specs.Starting.{first_walk};
ghost use Rattle.c_types.specs.Units.{start};

use crate::redeclared::Redeclared;
use c_ast::Name;
use c_type_base::{GlobalInfo, TFunction};
use c_type_expr::{Binding, Meaning, Scopes, Walk};
use sqlite_items::Items;
use std::alloc::{AllocError, Global};

/// What stands before a part of a file.
#[derive(Drop)]
pub struct FileWalk {
    pub walk: Walk,
    /// What is declared at file scope.
    pub declared: Redeclared,
    /// The objects that are defined, in the order of their definitions.
    pub globals: Items<GlobalInfo>,
    /// The functions that are defined, likewise.
    pub functions: Items<TFunction>,
}

fn first_walk(alloc: Global) -> Walk
    ensures { result ≡ first_walk }
{
    Walk {
        structs: Items::new(alloc),
        scopes: Scopes::new(alloc),
        texts: Items::new(alloc),
        locals: Items::new(alloc),
        result: None,
        stdio: false,
        first: None,
    }
}

/// Before the first part.
pub fn first_files(alloc: Global) -> FileWalk
    ensures { FileStands result start }
{
    FileWalk {
        walk: first_walk(alloc),
        declared: Redeclared::new(alloc),
        globals: Items::new(alloc),
        functions: Items::new(alloc),
    }
}

/// Leaves what was passed at file scope: nothing there is a local of a function.
pub fn leave(walk: &mut Walk, alloc: Global)
    ensures { walk.new ≡ record walk.old { locals = [] } }
{
    walk.locals = Items::new(alloc);
}

/// Declares a name in the innermost scope.
pub fn declare(
    walk: &mut Walk,
    alloc: Global,
    name: &[u8],
    means: Meaning,
) -> Result<(), AllocError>
    ensures { OnOk result (walk.new ≡ record walk.old { scopes = with_binding walk.old.scopes (binds name.now means) }) }
{
    let name = Name::from_slice(alloc, name)?;
    walk.scopes.add(Binding { name, means })?;
    Ok(())
}
