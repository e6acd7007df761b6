//! The lexemes of expressions.

ghost use Rattle.std.specs.Prelude.{◌≡◌, ◌++◌, ◌∷◌, [], OnOk, map};
ghost use Rattle.c_print.specs.Words.{punct, with_commas};
ghost use Rattle.c_print.specs.Expressions.{lexemes_of, lexemes_of_node, step_at};
ghost use Rattle.c_grammar.specs.Operators.{step_side};
ghost use Rattle.c_ast.specs.Operators.{step_punctuator};
ghost use Rattle.c_ast.specs.Words.{punctuator_number};
ghost use Rattle.c_grammar.specs.Operators as spec;

use crate::types::print_type_name;
use crate::words::{
    print_mark, print_name, print_number, print_punct, print_separator, print_text, print_word,
};
use c_ast::{AssignOperator, Expr, Keyword, Lexeme, Name, Node, Punctuator, Step};
use std::alloc::{AllocError, Global};

/// Appends an expression (C11 6.5).
#[cycle(expr)]
pub fn print_expr(alloc: Global, expr: &Expr, out: &mut Vec<Lexeme>) -> Result<(), AllocError>
    ensures { OnOk result (out.new.items ≡ out.old.items ++ lexemes_of expr.now) }
{
    print_node(alloc, expr.node.get(), out)
}

/// Appends a punctuator and the operand behind it.
#[cycle(expr)]
fn print_behind(
    alloc: Global,
    mark: u8,
    expr: &Expr,
    out: &mut Vec<Lexeme>,
) -> Result<(), AllocError>
    ensures { OnOk result (out.new.items ≡ out.old.items ++ Lexeme.Punct mark ∷ lexemes_of expr.now) }
{
    print_mark(mark, out)?;
    print_expr(alloc, expr, out)
}

/// Appends an expression between two punctuators.
#[cycle(expr)]
pub fn print_between(
    alloc: Global,
    left: Punctuator,
    expr: &Expr,
    right: Punctuator,
    out: &mut Vec<Lexeme>,
) -> Result<(), AllocError>
    ensures { OnOk result (out.new.items ≡ out.old.items ++ (punct left ∷ lexemes_of expr.now ++ punct right ∷ [])) }
{
    print_punct(left, out)?;
    print_expr(alloc, expr, out)?;
    print_punct(right, out)
}

/// Appends expressions with commas between them.
#[cycle(expr)]
fn print_exprs(alloc: Global, exprs: &[Expr], out: &mut Vec<Lexeme>) -> Result<(), AllocError>
    ensures { OnOk result (out.new.items ≡ out.old.items ++ with_commas (map lexemes_of exprs.now)) }
{
    for (index, expr) in exprs.iter().enumerate() {
        print_separator(index, out)?;
        print_expr(alloc, expr, out)?;
    }
    Ok(())
}

/// Appends the arguments of a call in their parentheses (C11 6.5.2.2).
#[cycle(expr)]
fn print_arguments(alloc: Global, exprs: &[Expr], out: &mut Vec<Lexeme>) -> Result<(), AllocError>
    ensures { OnOk result (out.new.items ≡ out.old.items ++ (punct Punctuator.LeftParen ∷ with_commas (map lexemes_of exprs.now) ++ punct Punctuator.RightParen ∷ [])) }
{
    print_punct(Punctuator::LeftParen, out)?;
    print_exprs(alloc, exprs, out)?;
    print_punct(Punctuator::RightParen, out)
}

/// Appends a step by one and its operand (C11 6.5.2.4, 6.5.3.1).
#[cycle(expr)]
fn print_step(
    alloc: Global,
    step: Step,
    expr: &Expr,
    out: &mut Vec<Lexeme>,
) -> Result<(), AllocError>
    ensures { OnOk result (out.new.items ≡ out.old.items ++ step_at (step_side step) (punct (step_punctuator step)) (lexemes_of expr.now)) }
{
    match step {
        Step::PreIncrement => print_behind(alloc, Punctuator::PlusPlus.number(), expr, out),
        Step::PreDecrement => print_behind(alloc, Punctuator::MinusMinus.number(), expr, out),
        Step::PostIncrement => {
            print_expr(alloc, expr, out)?;
            print_punct(Punctuator::PlusPlus, out)
        }
        Step::PostDecrement => {
            print_expr(alloc, expr, out)?;
            print_punct(Punctuator::MinusMinus, out)
        }
    }
}

/// Appends a member's name behind `.` or `->` (C11 6.5.2.3).
fn print_member(
    alloc: Global,
    mark: Punctuator,
    name: &Name,
    out: &mut Vec<Lexeme>,
) -> Result<(), AllocError>
    ensures { OnOk result (out.new.items ≡ out.old.items ++ punct mark ∷ Lexeme.Name name.now ∷ []) }
{
    print_punct(mark, out)?;
    print_name(alloc, name, out)
}

/// The number of the punctuator of an assignment (C11 6.5.16).
fn assign_mark(operator: Option<AssignOperator>) -> u8
    ensures { result ≡ punctuator_number (spec.assign_mark operator) }
{
    match operator {
        None => Punctuator::Equal.number(),
        Some(operator) => operator.number(),
    }
}

#[cycle(expr)]
fn print_node(alloc: Global, node: &Node, out: &mut Vec<Lexeme>) -> Result<(), AllocError>
    ensures { OnOk result (out.new.items ≡ out.old.items ++ lexemes_of_node node.now) }
{
    match node {
        Node::Constant(value, ty) => print_number(*value, *ty, out),
        Node::Text(bytes) => print_text(alloc, bytes, out),
        Node::Variable(name) => print_name(alloc, name, out),
        Node::Paren(inner) => print_between(
            alloc,
            Punctuator::LeftParen,
            inner,
            Punctuator::RightParen,
            out,
        ),
        Node::Unary(operator, operand) => print_behind(alloc, operator.number(), operand, out),
        Node::Binary(operator, left, right) => {
            print_expr(alloc, left, out)?;
            print_behind(alloc, operator.number(), right, out)
        }
        Node::Assign(operator, left, right) => {
            print_expr(alloc, left, out)?;
            print_behind(alloc, assign_mark(*operator), right, out)
        }
        Node::Cond(condition, then, other) => {
            print_expr(alloc, condition, out)?;
            print_behind(alloc, Punctuator::Question.number(), then, out)?;
            print_behind(alloc, Punctuator::Colon.number(), other, out)
        }
        Node::Cast(ty, operand) => {
            print_type_name(alloc, ty, out)?;
            print_expr(alloc, operand, out)
        }
        Node::SizeofExpr(operand) => {
            print_word(Keyword::Sizeof, out)?;
            print_expr(alloc, operand, out)
        }
        Node::SizeofName(ty) => {
            print_word(Keyword::Sizeof, out)?;
            print_type_name(alloc, ty, out)
        }
        Node::Call(function, arguments) => {
            print_expr(alloc, function, out)?;
            print_arguments(alloc, arguments.as_slice(), out)
        }
        Node::Index(array, index) => {
            print_expr(alloc, array, out)?;
            print_between(
                alloc,
                Punctuator::LeftBracket,
                index,
                Punctuator::RightBracket,
                out,
            )
        }
        Node::Member(object, member) => {
            print_expr(alloc, object, out)?;
            print_member(alloc, Punctuator::Dot, member, out)
        }
        Node::Arrow(pointer, member) => {
            print_expr(alloc, pointer, out)?;
            print_member(alloc, Punctuator::Arrow, member, out)
        }
        Node::Step(step, operand) => print_step(alloc, *step, operand, out),
    }
}
