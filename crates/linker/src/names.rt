ghost use Rattle.std.specs.Prelude.{◌≡◌, ◌≤◌, List, ◌++◌, length, OnOk, IfOk, IfErr, IfSome, IfNone, find, None};
ghost use Rattle.std.specs.List.{list_any};
ghost use Rattle.std.specs.Option.{option_copied, option_map};
ghost use Rattle.linker.specs.declared.refusal.LinkRefusal.TheVariants.{NoMemory};
ghost use Rattle.linker.specs.Names.{NumberedSymbol, numbered_from, all_numbered, is_defined, is_global};
ghost use Rattle.linker.specs.LinkFault.{AreBound, first_repeated, has_main, first_missing};
ghost use Rattle.linker.specs.Known.{objects_of, Refuses, Knows, is_known, is_unknown, is_main};

use crate::refusal::LinkRefusal;
use elf_base::Name;
use elf_obj::{Home, ObjectParts, Symbol};
use indexmap::IndexMap;
use std::alloc::Global;

/// A symbol of some objects: the number of its object, and its own there, both from 0.
#[derive(Clone, Copy, PartialEq, Eq, Hash)]
pub(crate) struct Numbers {
    pub object: usize,
    pub number: usize,
}

/// The symbols that objects define for all objects, by their names, in the order in which they are first seen.
pub(crate) type Names<'a> = IndexMap<&'a [u8], Numbers>;

// The symbol has a place in its object.
pub(crate) fn is_defined(home: Home) -> bool
    ensures { result ≡ is_defined home }
{
    match home {
        Home::Undef => false,
        Home::Text | Home::Rodata | Home::Init | Home::Zero => true,
    }
}

// The symbol defines its name for all objects.
fn is_global(symbol: &Symbol) -> bool
    ensures { result ≡ is_global symbol.now }
{
    is_defined(symbol.home) && !symbol.local
}

// The first of the symbols that defines for all objects a name that is there already.
fn first_known<'a>(names: &Names<'a>, symbols: &'a [Symbol]) -> Option<&'a Symbol>
    ensures { (seen : List NumberedSymbol) → Knows names.now seen → option_copied result ≡ find (is_known seen) symbols.now }
{
    for symbol in symbols {
        if is_global(symbol) && names.contains_key(&symbol.name.as_slice()) {
            return Some(symbol);
        }
    }
    None
}

// Adds the names that an object's symbols define for all objects; a name that is there keeps its symbol.
fn add_names<'a>(
    names: &mut Names<'a>,
    object: usize,
    symbols: &'a [Symbol],
) -> Result<(), LinkRefusal>
    ensures known { OnOk result ((seen : List NumberedSymbol) → Knows names.old seen
        → Knows names.new (seen ++ numbered_from object 0 symbols.now)) }
    ensures memory { IfErr result (λ r. r ≡ NoMemory) }
{
    for number in 0..symbols.len() {
        let symbol = &symbols[number];
        if is_global(symbol) && !names.contains_key(&symbol.name.as_slice()) {
            names.insert(symbol.name.as_slice(), Numbers { object, number })?;
        }
    }
    Ok(())
}

// The name of a symbol as a text of its own.
fn name_of(alloc: Global, symbol: &Symbol) -> Result<Name, LinkRefusal>
    ensures same { IfOk result (λ n. n ≡ symbol.now.name) }
    ensures memory { IfErr result (λ r. r ≡ NoMemory) }
{
    Ok(Name::from_slice(alloc, symbol.name.as_slice())?)
}

// The names that the objects define for all objects. It is Duplicate where an earlier object has defined one.
fn names_of<'a>(alloc: Global, objects: &'a [ObjectParts]) -> Result<Names<'a>, LinkRefusal>
    requires few { length objects.now ≤ 16 }
    ensures known { IfOk result (λ m. Knows m (all_numbered (objects_of objects.now))) }
    ensures once { IfOk result (λ _. first_repeated (objects_of objects.now) ≡ None) }
    ensures refused { IfErr result (Refuses (objects_of objects.now)) }
{
    let mut names = IndexMap::new(alloc);
    for object in 0..objects.len() {
        let symbols = objects[object].symbols.as_slice();
        if let Some(symbol) = first_known(&names, symbols) {
            let name = name_of(alloc, symbol)?;
            return Err(LinkRefusal::Duplicate { name });
        }
        add_names(&mut names, object, symbols)?;
    }
    Ok(names)
}

// The symbol is a function `main` for all objects.
fn is_main(symbol: &Symbol) -> bool
    ensures { result ≡ is_main symbol.now }
{
    symbol.function && is_global(symbol) && symbol.name.as_slice() == b"main".as_slice()
}

// One of the symbols is a function `main` for all objects.
fn has_main(symbols: &[Symbol]) -> bool
    ensures { result ≡ list_any is_main symbols.now }
{
    for symbol in symbols {
        if is_main(symbol) {
            return true;
        }
    }
    false
}

// An object defines a function `main` for all objects.
fn main_is_there(objects: &[ObjectParts]) -> bool
    ensures { result ≡ has_main (objects_of objects.now) }
{
    for object in objects {
        if has_main(&object.symbols) {
            return true;
        }
    }
    false
}

// The first of the symbols that is not defined and whose name is not there.
fn first_unknown<'a>(names: &Names<'a>, symbols: &'a [Symbol]) -> Option<&'a Symbol>
    ensures { (seen : List NumberedSymbol) → Knows names.now seen → option_copied result ≡ find (is_unknown seen) symbols.now }
{
    for symbol in symbols {
        if !is_defined(symbol.home) && !names.contains_key(&symbol.name.as_slice()) {
            return Some(symbol);
        }
    }
    None
}

// The first symbol that no object defines.
fn first_missing<'a>(names: &Names<'a>, objects: &'a [ObjectParts]) -> Option<&'a Symbol>
    requires { Knows names.now (all_numbered (objects_of objects.now)) }
    ensures { option_copied result ≡ option_map (λ e. e.symbol) (first_missing (objects_of objects.now)) }
{
    for object in objects {
        if let Some(symbol) = first_unknown(names, &object.symbols) {
            return Some(symbol);
        }
    }
    None
}

/// The names that the objects define for all objects, where no condition on names refuses them.
pub(crate) fn bound_names<'a>(
    alloc: Global,
    objects: &'a [ObjectParts],
) -> Result<Names<'a>, LinkRefusal>
    ensures known { IfOk result (λ m. Knows m (all_numbered (objects_of objects.now))) }
    ensures bound { IfOk result (λ _. AreBound (objects_of objects.now)) }
    ensures refused { IfErr result (Refuses (objects_of objects.now)) }
{
    if objects.len() > 16 {
        return Err(LinkRefusal::TooManyObjects {
            count: objects.len() as u64,
        });
    }
    let names = names_of(alloc, objects)?;
    if !main_is_there(objects) {
        return Err(LinkRefusal::NoMain);
    }
    if let Some(symbol) = first_missing(&names, objects) {
        let name = name_of(alloc, symbol)?;
        return Err(LinkRefusal::Undefined { name });
    }
    Ok(names)
}
