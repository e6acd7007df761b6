//! What a file defines, in the order in which its names are first declared.

ghost use Rattle.std.specs.Prelude.{◌≡◌, ◌++◌, List, ℕ, None, length, flat_map, IfOk, OnOk};
ghost use Rattle.std.proofs.Common.{replicate};
ghost use Rattle.c_types.specs.Ordered as spec;
ghost use Rattle.c_types.specs.Ordered.{by_names, option_list};
ghost use Rattle.c_types.specs.Placed.{put, placed};
ghost use Rattle.c_types.specs.Recalled.{Recalls, recalled, told_of};
ghost use Rattle.c_types.specs.declared.redeclared.Declared.{Declared};

use crate::names::NameTable;
use crate::redeclared::Redeclared;
use c_type_base::{ExternInfo, GlobalInfo, TFunction};
use sqlite_items::Items;
use std::alloc::{AllocError, Global};

/// What a file defines under a name.
pub trait Named {
    ghost name_of: { Self → List ℕ };

    fn name(&self) -> &[u8]
        ensures { result.now ≡ name_of self.now };
}

impl Named for GlobalInfo {
    ghost name_of = { λ g. g.name };

    fn name(&self) -> &[u8] {
        self.name.as_slice()
    }
}

impl Named for TFunction {
    ghost name_of = { λ f. f.name };

    fn name(&self) -> &[u8] {
        self.name.as_slice()
    }
}

/// As many places with nothing in them.
fn blank<T: Drop>(alloc: Global, count: usize) -> Result<Vec<Option<T>>, AllocError>
    ensures { IfOk result (λ made. made.items ≡ replicate count None) }
{
    let mut made = Vec::new(alloc);
    for _ in 0..count {
        made.push(None)?;
    }
    Ok(made)
}

/// Puts it at a number, in the place of what stands there.
fn put<T: Drop>(places: &mut Vec<Option<T>>, number: Option<usize>, item: T)
    ensures { places.new.items ≡ put places.old.items number item }
{
    if let Some(number) = number {
        if number < places.len() {
            places[number] = Some(item);
        }
    }
}

/// Puts each at the number of its name, of those with one name the first; what has another name is left out.
fn at_numbers<T: Named + Drop>(
    names: &NameTable,
    mut places: Vec<Option<T>>,
    mut gathered: Items<T>,
) -> Vec<Option<T>>
    ensures { result.items ≡ placed T.name_of names.now places.items gathered }
{
    while let Some(item) = gathered.pop() {
        let number = names.number(item.name());
        put(&mut places, number, item);
    }
    places
}

fn push_there<T: Drop>(made: &mut Items<T>, item: Option<T>) -> Result<(), AllocError>
    ensures { OnOk result (made.new ≡ made.old ++ option_list item) }
{
    match item {
        Some(item) => made.push(item),
        None => Ok(()),
    }
}

/// Those that are there, in order.
fn all_there<T: Drop>(alloc: Global, places: Vec<Option<T>>) -> Result<Items<T>, AllocError>
    ensures { IfOk result (λ made. made ≡ flat_map option_list places.items) }
{
    let mut made = Items::new(alloc);
    for place in places {
        push_there(&mut made, place)?;
    }
    Ok(made)
}

/// The first of each name, in the order of the names.
fn ordered<T: Named + Drop>(
    alloc: Global,
    names: &NameTable,
    gathered: Items<T>,
) -> Result<Items<T>, AllocError>
    ensures { IfOk result (λ made. made ≡ by_names T.name_of names.now gathered) }
{
    let places = blank(alloc, names.len())?;
    all_there(alloc, at_numbers(names, places, gathered))
}

/// The objects that a file defines, by the order of their names.
pub fn globals_by(
    alloc: Global,
    names: &NameTable,
    gathered: Items<GlobalInfo>,
) -> Result<Items<GlobalInfo>, AllocError>
    ensures { IfOk result (λ made. made ≡ spec.globals_by names.now gathered) }
{
    ordered(alloc, names, gathered)
}

/// The functions that a file defines, likewise.
pub fn functions_by(
    alloc: Global,
    names: &NameTable,
    gathered: Items<TFunction>,
) -> Result<Items<TFunction>, AllocError>
    ensures { IfOk result (λ made. made ≡ spec.functions_by names.now gathered) }
{
    ordered(alloc, names, gathered)
}

/// What another file defines under the names, as their latest declarations tell.
fn told(
    alloc: Global,
    names: &NameTable,
    declared: &Redeclared,
) -> Result<Items<ExternInfo>, AllocError>
    ensures { IfOk result (λ made. made ≡ flat_map (λ n. option_list (told_of n (recalled declared.now n))) names.now) }
{
    let mut made = Items::new(alloc);
    let list = names.as_slice();
    for name in list {
        let told = declared.told(alloc, name.as_slice())?;
        push_there(&mut made, told)?;
    }
    Ok(made)
}

/// What the file declares and another defines, by the order of their names.
pub fn externs_by(
    alloc: Global,
    names: &NameTable,
    declared: &Redeclared,
) -> Result<Items<ExternInfo>, AllocError>
    ensures { (ds : List Declared) → Recalls declared.now ds → IfOk result (λ made. made ≡ spec.externs_by names.now ds) }
{
    told(alloc, names, declared)
}
