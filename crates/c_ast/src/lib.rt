//! The tokens and the syntax tree of the C profile: what the lexer gives, what the parser reads and makes, and what printing spells.
#![tactic(auto)]

mod copying;
mod declaration;
mod expr;
mod int_type;
mod keyword;
mod names;
mod operator;
mod program;
mod punctuator;
mod statement;
mod table;
mod token;

pub use copying::{copy, copy_type};
pub use declaration::{Decl, Init, Storage, StructDecl};
pub use expr::{CType, Expr, Node};
pub use int_type::IntType;
pub use keyword::{Keyword, keyword_of};
pub use names::{Bytes, Name};
pub use operator::{AssignOperator, BinaryOperator, Step, UnaryOperator};
pub use program::{External, Function, Program};
pub use punctuator::{Punctuator, punctuator_of};
pub use statement::{Item, Stmt};
pub use token::{Lexeme, Span, Token};
