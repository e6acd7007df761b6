//! What is known of an expression before its code is made.

ghost use Rattle.std.specs.Prelude.{◌≡◌, ◌<◌, List, IfSome};
ghost use Rattle.c_type_base.specs.declared.typed.StructInfo.{StructInfo};
ghost use Rattle.frame_layout.specs.declared.frame.Frame.{Frame};
ghost use Rattle.gen_expr.specs.Expressions.{coded};

use c_type_base::{TExpr, TNode};
use frame_layout::Frame;
use gen_base::reached;
use sqlite_items::at;

/// Whether the code of an expression changes the flags and no register but its own.
pub fn is_alone(expr: &TExpr) -> bool
    ensures { (structs : List StructInfo) (frame : Frame) → result ≡ (coded structs frame expr.now).alone }
{
    match expr.node.get() {
        TNode::Constant(_, _)
        | TNode::Text(_)
        | TNode::Local(_)
        | TNode::Global(_)
        | TNode::Extern(_)
        | TNode::SizeofExpr(_)
        | TNode::SizeofName(_) => true,
        TNode::Paren(inner) => is_alone(inner),
        TNode::Unary(_, operand) => is_alone(operand),
        TNode::Cast(_, operand) => is_alone(operand),
        TNode::Read(object) => is_alone(object),
        TNode::Decay(array) => is_alone(array),
        TNode::Convert(operand) => is_alone(operand),
        _ => false,
    }
}

/// The start of the safe slot that an expression designates, where loads and stores reach it from SP.
pub fn slot_of(frame: &Frame, expr: &TExpr) -> Option<u64>
    ensures is { (structs : List StructInfo) → result ≡ (coded structs frame.now expr.now).slot }
    ensures near { IfSome result (λ start. start < 32768) }
{
    match expr.node.get() {
        TNode::Local(number) => reached(&expr.ty, at(frame.slots.as_slice(), *number as usize)),
        TNode::Paren(inner) => slot_of(frame, inner),
        _ => None,
    }
}
