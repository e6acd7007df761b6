//! What stands behind a type at file scope.

ghost use Rattle.std.specs.Prelude.{◌≡◌};
ghost use Rattle.c_parse.specs.Reading.Values as spec;

use c_ast::{CType, Decl, Name, Stmt};
use c_parse_decl::{Declared, ObjectsRead, ParametersRead};
use c_parse_stmt::BlockRead;
use sqlite_items::Items;

/// What ends a function's declaration: a block, or a semicolon alone (C11 6.9.1).
#[derive(Drop)]
pub struct Ending {
    pub body: Option<Stmt>,
    /// How many levels the block has below it, none where there is none.
    pub height: u32,
    /// The number of the byte behind the last token.
    pub end: u32,
}

impl Ending {
    /// A block.
    pub fn block(read: BlockRead) -> Ending
        ensures { result ≡ spec.body_of read }
    {
        Ending {
            body: Some(read.tree),
            height: read.height,
            end: read.end,
        }
    }
}

/// A function from its stars on (C11 6.7.6.3).
#[derive(Drop)]
pub struct FunctionRead {
    pub name: Name,
    pub result: CType,
    pub params: Items<Decl>,
    pub body: Option<Stmt>,
    /// How many levels there are below the function's own.
    pub height: u32,
    /// The number of the byte behind the last token.
    pub end: u32,
}

/// What stands behind a type at file scope.
#[derive(Drop)]
pub enum Behind {
    /// A semicolon alone.
    Lone,
    Objects(ObjectsRead),
    Function(FunctionRead),
}

impl Behind {
    /// A function by its name, its parameters and its end.
    pub fn function(first: Declared, params: ParametersRead, ending: Ending) -> Behind
        ensures { result ≡ spec.function_of first (params, ending) }
    {
        Behind::Function(FunctionRead {
            name: first.name,
            result: first.ty,
            params: params.decls,
            body: ending.body,
            height: first.height.max(params.height).max(ending.height),
            end: ending.end,
        })
    }
}
