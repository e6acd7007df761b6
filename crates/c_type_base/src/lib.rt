//! What typed programs are made of: types and their sizes, typed trees, and the arithmetic of constants.
#![tactic(auto)]

mod arithmetic;
mod constant;
mod expr;
mod kinds;
mod known;
mod size;
mod statement;
mod ty;
mod typed;
mod values;

pub use arithmetic::{
    binary_value, is_negative, negated, promoted, quotient, unary_value, usual, wrap,
};
pub use constant::{chosen, constant_of, constant_of_one, moved, wrapped};
pub use expr::{Callee, TExpr, TNode};
pub use kinds::{
    copy_ty, has_body, int_of, is_array, is_char_type, is_complete, is_integer, is_pointer,
    is_scalar, is_struct, is_void, same_type, struct_of, target_of, wrapped_size,
};
pub use known::{Constancy, Fixed, Known, Written};
pub use size::{align_of, capped_size, int_size, member_offset, size_of};
pub use statement::{TDecl, TInit, TItem, TStmt};
pub use ty::Ty;
pub use typed::{
    ExternInfo, GlobalInfo, InitPiece, InitValue, LocalInfo, MemberInfo, StructInfo, TFunction,
    Target, Typed,
};
pub use values::{
    assignable, converted, designates, is_changeable, is_null, is_value, plain, texpr, value,
};
