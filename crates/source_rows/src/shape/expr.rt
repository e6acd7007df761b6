//! Expressions and types.

use super::Shape;
use c_ast::{
    AssignOperator, BinaryOperator, CType, Expr, IntType, Node, Span, Step, UnaryOperator,
};

fn integer(ty: IntType) -> &'static str {
    match ty {
        IntType::Char => "char",
        IntType::SignedChar => "schar",
        IntType::UnsignedChar => "uchar",
        IntType::Short => "short",
        IntType::UShort => "ushort",
        IntType::Int => "int",
        IntType::UInt => "uint",
        IntType::Long => "long",
        IntType::ULong => "ulong",
    }
}

fn unary(operator: UnaryOperator) -> &'static str {
    match operator {
        UnaryOperator::AddressOf => "&",
        UnaryOperator::Dereference => "*",
        UnaryOperator::Plus => "+",
        UnaryOperator::Minus => "-",
        UnaryOperator::Complement => "~",
        UnaryOperator::Not => "!",
    }
}

fn binary(operator: BinaryOperator) -> &'static str {
    match operator {
        BinaryOperator::Multiply => "*",
        BinaryOperator::Divide => "/",
        BinaryOperator::Remainder => "%",
        BinaryOperator::Add => "+",
        BinaryOperator::Subtract => "-",
        BinaryOperator::ShiftLeft => "<<",
        BinaryOperator::ShiftRight => ">>",
        BinaryOperator::Less => "<",
        BinaryOperator::Greater => ">",
        BinaryOperator::LessEqual => "<=",
        BinaryOperator::GreaterEqual => ">=",
        BinaryOperator::Equal => "==",
        BinaryOperator::NotEqual => "!=",
        BinaryOperator::BitAnd => "&",
        BinaryOperator::BitXor => "^",
        BinaryOperator::BitOr => "|",
        BinaryOperator::And => "&&",
        BinaryOperator::Or => "||",
    }
}

fn assigned(operator: Option<AssignOperator>) -> &'static str {
    match operator {
        None => "=",
        Some(AssignOperator::Multiply) => "*=",
        Some(AssignOperator::Divide) => "/=",
        Some(AssignOperator::Remainder) => "%=",
        Some(AssignOperator::Add) => "+=",
        Some(AssignOperator::Subtract) => "-=",
        Some(AssignOperator::ShiftLeft) => "<<=",
        Some(AssignOperator::ShiftRight) => ">>=",
        Some(AssignOperator::BitAnd) => "&=",
        Some(AssignOperator::BitXor) => "^=",
        Some(AssignOperator::BitOr) => "|=",
    }
}

fn step(step: Step) -> &'static str {
    match step {
        Step::PreIncrement => "++_",
        Step::PreDecrement => "--_",
        Step::PostIncrement => "_++",
        Step::PostDecrement => "_--",
    }
}

/// A type: `*int`, `[3]*struct s`, `[]char`.
#[cycle(expr)]
pub fn ctype(to: &mut Shape, ty: &CType) {
    match ty {
        CType::Void => to.put("void"),
        CType::Int(int) => to.put(integer(*int)),
        CType::Struct(tag) => {
            to.put("struct ");
            to.name(tag);
        }
        CType::Pointer(target) => {
            to.put("*");
            ctype(to, target.get());
        }
        CType::Array(element, length) => {
            to.put("[");
            if let Some(length) = length {
                expr(to, length);
            }
            to.put("]");
            ctype(to, element.get());
        }
    }
}

#[cycle(expr)]
pub fn expr(to: &mut Shape, e: &Expr) {
    node(to, e.span, e.node.get())
}

/// A leaf as it is spelled, and any other node in parentheses behind a word.
#[cycle(expr)]
fn node(to: &mut Shape, span: Span, node: &Node) {
    match node {
        Node::Constant(value, ty) => {
            to.number(*value);
            if *ty != IntType::Int {
                to.put(":");
                to.put(integer(*ty));
            }
            to.span(span);
        }
        Node::Text(bytes) => {
            to.put("\"");
            to.bytes(bytes.as_slice());
            to.put("\"");
            to.span(span);
        }
        Node::Variable(name) => {
            to.name(name);
            to.span(span);
        }
        Node::SizeofName(ty) => {
            open(to, "sizeof", span);
            ctype(to, ty);
            to.put(")");
        }
        Node::Cast(ty, operand) => {
            open(to, "cast", span);
            ctype(to, ty);
            last(to, operand);
        }
        Node::Call(called, arguments) => {
            open(to, "call", span);
            expr(to, called);
            for argument in arguments.as_slice() {
                to.put(" ");
                expr(to, argument);
            }
            to.put(")");
        }
        Node::Member(operand, name) => {
            open(to, ".", span);
            expr(to, operand);
            to.put(" ");
            to.name(name);
            to.put(")");
        }
        Node::Arrow(operand, name) => {
            open(to, "->", span);
            expr(to, operand);
            to.put(" ");
            to.name(name);
            to.put(")");
        }
        Node::Paren(operand) => alone(to, "paren", span, operand),
        Node::SizeofExpr(operand) => alone(to, "sizeof", span, operand),
        Node::Unary(operator, operand) => alone(to, unary(*operator), span, operand),
        Node::Step(by, operand) => alone(to, step(*by), span, operand),
        Node::Binary(operator, left, right) => {
            open(to, binary(*operator), span);
            expr(to, left);
            last(to, right);
        }
        Node::Assign(operator, left, right) => {
            open(to, assigned(*operator), span);
            expr(to, left);
            last(to, right);
        }
        Node::Index(left, right) => {
            open(to, "index", span);
            expr(to, left);
            last(to, right);
        }
        Node::Cond(condition, chosen, other) => {
            open(to, "?", span);
            expr(to, condition);
            to.put(" ");
            expr(to, chosen);
            last(to, other);
        }
    }
}

fn open(to: &mut Shape, word: &str, span: Span) {
    to.put("(");
    to.put(word);
    to.span(span);
    to.put(" ");
}

#[cycle(expr)]
fn last(to: &mut Shape, operand: &Expr) {
    to.put(" ");
    expr(to, operand);
    to.put(")");
}

#[cycle(expr)]
fn alone(to: &mut Shape, word: &str, span: Span, operand: &Expr) {
    open(to, word, span);
    expr(to, operand);
    to.put(")");
}
