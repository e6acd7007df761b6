//! Which externs an expression refers to.

ghost use Rattle.std.specs.Prelude.{◌≡◌, map, slice_set, true};
ghost use Rattle.slot_safety.specs.Kinds.{put};
ghost use Rattle.mean_link.specs.Uses as spec;

use c_type_base::{Callee, TExpr, TNode};

/// Marks the extern of a number.
pub fn mark(number: u32, used: &mut [bool])
    ensures { used.new ≡ slice_set used.old number true }
{
    if (number as usize) < used.len() {
        used[number as usize] = true;
    }
}

/// Marks the extern that is called.
fn use_callee(callee: Callee, used: &mut [bool])
    ensures { used.new ≡ put true used.old (spec.callee_uses callee) }
{
    match callee {
        Callee::Extern(number) => mark(number, used),
        Callee::Function(_) | Callee::Putchar | Callee::Getchar => {}
    }
}

/// Marks the externs to which an expression refers.
#[cycle(expr)]
pub fn use_expr(expr: &TExpr, used: &mut [bool])
    ensures { used.new ≡ put true used.old (spec.expr_uses expr.now) }
{
    use_node(expr.node.get(), used)
}

/// Marks those of the arguments of a call.
#[cycle(expr)]
fn use_all(arguments: &[TExpr], used: &mut [bool])
    ensures { used.new ≡ put true used.old (spec.joined (map spec.expr_uses arguments.now)) }
{
    for argument in arguments {
        use_expr(argument, used);
    }
}

/// Marks those of a node.
#[cycle(expr)]
fn use_node(node: &TNode, used: &mut [bool])
    ensures { used.new ≡ put true used.old (spec.node_uses node.now) }
{
    match node {
        TNode::Constant(_, _)
        | TNode::Text(_)
        | TNode::Local(_)
        | TNode::Global(_)
        | TNode::SizeofName(_) => {}
        TNode::SizeofExpr(_) => {}
        TNode::Extern(number) => mark(*number, used),
        TNode::Paren(operand) => use_expr(operand, used),
        TNode::Unary(_, operand) => use_expr(operand, used),
        TNode::Binary(_, left, right) => {
            use_expr(left, used);
            use_expr(right, used)
        }
        TNode::Assign(_, left, right) => {
            use_expr(left, used);
            use_expr(right, used)
        }
        TNode::Cond(condition, then, other) => {
            use_expr(condition, used);
            use_expr(then, used);
            use_expr(other, used)
        }
        TNode::Cast(_, operand) => use_expr(operand, used),
        TNode::Call(callee, arguments) => {
            use_callee(*callee, used);
            use_all(arguments.as_slice(), used)
        }
        TNode::Index(array, index) => {
            use_expr(array, used);
            use_expr(index, used)
        }
        TNode::Member(object, _) => use_expr(object, used),
        TNode::Arrow(pointer, _) => use_expr(pointer, used),
        TNode::Step(_, operand) => use_expr(operand, used),
        TNode::Read(object) => use_expr(object, used),
        TNode::Decay(array) => use_expr(array, used),
        TNode::Convert(operand) => use_expr(operand, used),
    }
}
