//! The tables of operators: which operands fit, and what comes of them (C11 6.5).

pub mod additive;
pub mod assign;
pub mod binary;
pub mod call;
pub mod compare;
pub mod cond;
pub mod leaf;
pub mod operand;
pub mod postfix;
pub mod unary;
