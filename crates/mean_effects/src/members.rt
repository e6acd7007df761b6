//! Members of structs.

ghost use Rattle.std.specs.Prelude.{◌≡◌, option_copied, slice_get};
ghost use Rattle.block_meaning.specs.Blocks as block;
ghost use Rattle.block_meaning.specs.Expressions as spec;
ghost use Rattle.block_meaning.specs.Running.{Context, State, gives, with_some};
ghost use Rattle.c_type_base.specs.Layout.{members_of};
ghost use Rattle.c_type_base.specs.Types.{struct_of};
ghost use Rattle.mean_effects.specs.Shown.{IsNow, IsHere, Gives};
ghost use Rattle.mean_effects.specs.declared.now.Now.{Now as Code};

use crate::here::Here;
use crate::now::Ending;
use block_meaning::Pointer;
use c_type_base::{MemberInfo, StructInfo, Ty};
use mean_memory::moved;
use sqlite_items::at;

/// A member of a struct, both by their numbers.
fn member_in(structs: &[StructInfo], which: u32, member: u32) -> Option<&MemberInfo>
    ensures { option_copied result ≡ slice_get (members_of (slice_get structs.now which)) member }
{
    match at(structs, which as usize) {
        Some(info) => at(info.members.as_slice(), member as usize),
        None => None,
    }
}

/// Where a member stands in a struct at a place.
fn member_at(m: Option<&MemberInfo>, p: Pointer) -> Result<Pointer, Ending>
    ensures { (n : Code) (now : State) → IsNow n now
        → Gives n now result (with_some (option_copied m.entry) (λ it. gives (block.moved p it.offset)) now) }
{
    match m {
        Some(m) => Ok(moved(p, m.offset)),
        None => Err(Ending::NoMemory),
    }
}

/// A member of an object of a type.
fn member_of_type(h: Here, ty: &Ty, member: u32, p: Pointer) -> Result<Pointer, Ending>
    ensures { (here : Context) (n : Code) (now : State) → IsHere h.entry here → IsNow n now
        → Gives n now result (with_some (spec.member_in here (struct_of ty.now) member) (λ it. gives (block.moved p it.offset)) now) }
{
    match ty {
        Ty::Struct(which) => member_at(member_in(h.structs, *which, member), p),
        _ => Err(Ending::NoMemory),
    }
}

/// A member of the struct of a type that stands at a place.
pub fn member_of(h: Here, ty: Option<&Ty>, member: u32, p: Pointer) -> Result<Pointer, Ending>
    ensures { (here : Context) (n : Code) (now : State) → IsHere h.entry here → IsNow n now
        → Gives n now result (spec.member_of here (option_copied ty.entry) member p now) }
{
    match ty {
        Some(ty) => member_of_type(h, ty, member, p),
        None => Err(Ending::NoMemory),
    }
}
