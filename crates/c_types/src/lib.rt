//! The types of the C profile: which programs keep the rules, and the typed program.
#![tactic(auto)]

mod body;
mod file_walk;
mod functions;
mod names;
mod objects;
mod ordered;
mod parameters;
mod parts;
mod program;
mod redeclared;
mod refusal;
mod structs;
mod types;

pub use c_type_base::{
    Callee, ExternInfo, GlobalInfo, InitPiece, InitValue, LocalInfo, MemberInfo, StructInfo, TDecl,
    TExpr, TFunction, TInit, TItem, TNode, TStmt, Target, Ty, Typed, align_of, member_offset,
    size_of,
};
pub use program::check;
pub use refusal::TypeRefusal;
