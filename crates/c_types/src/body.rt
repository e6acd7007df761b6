//! Where the members of a struct stand in it (C11 6.7.2.1 paragraphs 14 to 17).

ghost use Rattle.std.specs.Prelude.{◌≡◌, ◌+◌, IfOk};
ghost use Rattle.c_type_base.specs.Layout.{round_up};
ghost use Rattle.c_types.specs.Structs.{capped, struct_with};

use c_ast::Name;
use c_type_base::{MemberInfo, StructInfo, Ty, align_of, capped_size};
use sqlite_items::Items;
use std::alloc::{AllocError, Global};

/// A member by its name and its type, before it has a place.
#[derive(Drop)]
pub struct Member {
    pub name: Name,
    pub ty: Ty,
}

/// The first multiple of a number at or behind a place, or the greatest number where that is more.
fn rounded(place: u64, unit: u64) -> u64
    ensures { result ≡ capped (round_up place unit) }
{
    if unit == 0 {
        return 0;
    }
    let over = place % unit;
    if over == 0 {
        place
    } else {
        place.saturating_add(unit - over)
    }
}

/// A struct of a tag with these members, each at its place.
pub fn struct_with(
    alloc: Global,
    structs: &[StructInfo],
    name: Name,
    members: Vec<Member>,
) -> Result<StructInfo, AllocError>
    ensures { IfOk result (λ info. info ≡ struct_with structs.now name members.items) }
{
    let mut placed = Items::new(alloc);
    let mut end = 0;
    let mut align = 1;
    for member in members {
        let Member { name, ty } = member;
        let unit = align_of(&ty, structs);
        let offset = rounded(end, unit);
        end = offset.saturating_add(capped_size(&ty, structs));
        align = unit.max(align);
        placed.push(MemberInfo { name, ty, offset })?;
    }
    Ok(StructInfo {
        name,
        members: placed,
        bytes: rounded(end, align),
        align,
    })
}
