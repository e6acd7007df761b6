// Tells whether a program is of the one form that is taken today.
ghost use Rattle.std.specs.Prelude.{◌≡◌, ◌≤◌, ◌↔◌, ℕ, IsTrue, IfSome, IfNone};
ghost use Rattle.c_ast.specs.declared.expr.CType.{out-CType};
ghost use Rattle.c_ast.specs.declared.expr.Node.{out-Node};
ghost use Rattle.c_ast.specs.declared.statement.Item.{out-Item};
ghost use Rattle.c_ast.specs.declared.statement.Stmt.{out-Stmt};
ghost use Rattle.mt_compile.specs.Constant.{IsConstant, IsReturn, IsReturnItem, IsBlock, IsInt, IsMain, IsConstantProgram};

use c_ast::{CType, External, Function, IntType, Item, Node, Program, Stmt, Storage};

/// The largest value of type int (C11 5.2.4.2.1, where int has 32 bits).
const INT_MAX: u64 = 2147483647;

/// The constant that a program returns: it is `int main(void)` with the one statement `return N;`, where N is a constant
/// of type int and nothing else. `None` where the program is any other.
pub fn constant_of(program: &Program) -> Option<u32>
    ensures some { IfSome result (IsConstantProgram program.now) }
    ensures none { IfNone result ((n : ℕ) → ¬ IsConstantProgram program.now n) }
{
    match program.items.as_slice() {
        [External::Function(function)] => of_main(function),
        _ => None,
    }
}

// The constant of a function, where it is such a `main`.
fn of_main(function: &Function) -> Option<u32>
    ensures some { IfSome result (IsMain function.now) }
    ensures none { IfNone result ((n : ℕ) → ¬ IsMain function.now n) }
{
    let Storage::None = function.storage else {
        return None;
    };
    if function.name.as_slice() != b"main".as_slice()
        || !is_int(&function.result)
        || !function.params.is_empty()
    {
        return None;
    }
    match &function.body {
        Some(body) => of_block(body),
        None => None,
    }
}

// Whether the type is int.
fn is_int(ty: &CType) -> bool
    ensures { IsTrue result ↔ IsInt (out-CType ty.now) }
{
    matches!(ty, CType::Int(IntType::Int))
}

// The constant of `{ return N; }`.
fn of_block(body: &Stmt) -> Option<u32>
    ensures some { IfSome result (IsBlock (out-Stmt body.now)) }
    ensures none { IfNone result ((n : ℕ) → ¬ IsBlock (out-Stmt body.now) n) }
{
    let Stmt::Block(items) = body else {
        return None;
    };
    match items.as_slice() {
        [item] => of_item(item),
        _ => None,
    }
}

// The constant of `return N;` as a part of a block.
fn of_item(item: &Item) -> Option<u32>
    ensures some { IfSome result (IsReturnItem (out-Item item.now)) }
    ensures none { IfNone result ((n : ℕ) → ¬ IsReturnItem (out-Item item.now) n) }
{
    match item {
        Item::Stmt(statement) => of_return(statement),
        Item::Local(_) => None,
    }
}

// The constant of `return N;`.
fn of_return(statement: &Stmt) -> Option<u32>
    ensures some { IfSome result (IsReturn (out-Stmt statement.now)) }
    ensures none { IfNone result ((n : ℕ) → ¬ IsReturn (out-Stmt statement.now) n) }
{
    match statement {
        Stmt::Return(Some(value), _) => of_node(value.node.get()),
        _ => None,
    }
}

// The value of a constant of type int.
fn of_node(node: &Node) -> Option<u32>
    ensures some { IfSome result (IsConstant (out-Node node.now)) }
    ensures none { IfNone result ((n : ℕ) → ¬ IsConstant (out-Node node.now) n) }
{
    match node {
        Node::Constant(value, IntType::Int) if *value <= INT_MAX => Some(*value as u32),
        _ => None,
    }
}
