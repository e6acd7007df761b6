//! The symbols of a file's object.

ghost use Rattle.std.specs.Prelude.{◌≡◌, ◌++◌, [], ◌∷◌, map, filter, slice_get, Some, IfOk, OnOk};
ghost use Rattle.c_types.specs.Files.{number_among};
ghost use Rattle.c_types.specs.Ordered.{by_names};
ghost use Rattle.elf_obj.specs.declared.parts.Home.TheVariants.{Init, Zero, Undef};
ghost use Rattle.unit_object.specs.Order.{chosen};
ghost use Rattle.unit_object.specs.Scopes as scope;
ghost use Rattle.unit_object.specs.Scopes.{at_number};
ghost use Rattle.unit_object.specs.Symbols as spec;
ghost use Rattle.unit_object.specs.Symbols.{name_of};

use crate::names::NameTable;
use crate::objects::push_objects;
use c_type_base::{GlobalInfo, StructInfo};
use elf_base::Name;
use elf_obj::{Home, Symbol};
use gen_unit::Place;
use sqlite_items::Items;
use std::alloc::{AllocError, Global};

fn function_symbol(alloc: Global, place: &Place) -> Result<Symbol, AllocError>
    ensures { IfOk result (λ s. s ≡ spec.function_symbol place.now) }
{
    let name = Name::from_slice(alloc, place.name.as_slice())?;
    Ok(Symbol {
        name,
        home: Home::Text,
        value: place.start,
        size: place.bytes,
        local: place.local,
        function: true,
    })
}

fn push_functions(
    alloc: Global,
    made: &mut Vec<Symbol>,
    functions: &[Place],
) -> Result<(), AllocError>
    ensures { OnOk result (made.new.items ≡ made.old.items ++ map spec.function_symbol functions.now) }
{
    for place in functions {
        made.push(function_symbol(alloc, place)?)?;
    }
    Ok(())
}

/// What a file defines, by sections: objects with a first value and those without, by their numbers, and functions.
pub fn defined(
    alloc: Global,
    structs: &[StructInfo],
    globals: &[GlobalInfo],
    filled: &[usize],
    unfilled: &[usize],
    functions: &[Place],
) -> Result<Vec<Symbol>, AllocError>
    ensures { IfOk result (λ made. made.items
        ≡ spec.object_symbols structs.now Init 0 (chosen globals.now filled.now)
        ++ spec.object_symbols structs.now Zero 0 (chosen globals.now unfilled.now) ++ map spec.function_symbol functions.now) }
{
    let mut made = Vec::new(alloc);
    push_objects(alloc, &mut made, structs, Home::Init, globals, filled)?;
    push_objects(alloc, &mut made, structs, Home::Zero, globals, unfilled)?;
    push_functions(alloc, &mut made, functions)?;
    Ok(made)
}

/// The names of symbols, which are all different.
pub fn symbol_names(alloc: Global, symbols: &[Symbol]) -> Result<NameTable, AllocError>
    ensures { IfOk result (λ names. names ≡ map name_of symbols.now) }
{
    let mut names = NameTable::new(alloc);
    for symbol in symbols {
        names.add_new(alloc, symbol.name.as_slice())?;
    }
    Ok(names)
}

fn copied(alloc: Global, symbol: &Symbol) -> Result<Symbol, AllocError>
    ensures { IfOk result (λ s. s ≡ symbol.now) }
{
    let name = Name::from_slice(alloc, symbol.name.as_slice())?;
    Ok(Symbol {
        name,
        home: symbol.home,
        value: symbol.value,
        size: symbol.size,
        local: symbol.local,
        function: symbol.function,
    })
}

// Whether it is local, where that is asked, and otherwise whether it is not.
fn is_of_scope(symbol: &Symbol, local: bool) -> bool
    ensures { result ≡ scope.is_of_scope local symbol.now }
{
    if local { symbol.local } else { !symbol.local }
}

// Appends a symbol, where it is of the scope.
fn push_symbol(
    alloc: Global,
    made: &mut Vec<Symbol>,
    symbol: &Symbol,
    local: bool,
) -> Result<(), AllocError>
    ensures { OnOk result (made.new.items ≡ made.old.items ++ filter (scope.is_of_scope local) (symbol.now ∷ [])) }
{
    if is_of_scope(symbol, local) {
        made.push(copied(alloc, symbol)?)?;
    }
    Ok(())
}

fn symbol_at(symbols: &[Symbol], number: usize) -> Result<&Symbol, AllocError>
    ensures { IfOk result (λ s. slice_get symbols.now number ≡ Some s.now) }
{
    symbols.get(number).ok_or(AllocError)
}

// Appends the symbol of a number, where it is of the scope.
fn push_number(
    alloc: Global,
    made: &mut Vec<Symbol>,
    defined: &[Symbol],
    number: Option<usize>,
    local: bool,
) -> Result<(), AllocError>
    ensures { OnOk result (made.new.items
        ≡ made.old.items ++ filter (scope.is_of_scope local) (at_number defined.now number)) }
{
    match number {
        None => Ok(()),
        Some(number) => push_symbol(alloc, made, symbol_at(defined, number)?, local),
    }
}

/// Appends those that are local, or those that are not, in the order of some names.
pub fn push_by_names(
    alloc: Global,
    made: &mut Vec<Symbol>,
    defined: &[Symbol],
    places: &NameTable,
    names: &[Vec<u8>],
    local: bool,
) -> Result<(), AllocError>
    requires { places.now ≡ map name_of defined.now }
    ensures { OnOk result (made.new.items
        ≡ made.old.items ++ filter (scope.is_of_scope local) (by_names name_of (map (λ n. n.items) names.now) defined.now)) }
{
    for name in names {
        push_number(alloc, made, defined, places.number(name.as_slice()), local)?;
    }
    Ok(())
}

fn undefined_symbol(alloc: Global, name: &c_ast::Name) -> Result<Symbol, AllocError>
    ensures { IfOk result (λ s. s ≡ spec.undefined_symbol name.now) }
{
    let name = Name::from_slice(alloc, name.as_slice())?;
    Ok(Symbol {
        name,
        home: Home::Undef,
        value: 0,
        size: 0,
        local: false,
        function: false,
    })
}

/// Appends those of what the file refers to and leaves to others.
pub fn push_undefined(
    alloc: Global,
    made: &mut Vec<Symbol>,
    names: &[c_ast::Name],
) -> Result<(), AllocError>
    ensures { OnOk result (made.new.items ≡ made.old.items ++ map spec.undefined_symbol names.now) }
{
    for name in names {
        made.push(undefined_symbol(alloc, name)?)?;
    }
    Ok(())
}

// Whether it is an object at file scope.
fn is_object(home: Home) -> bool
    ensures { result ≡ spec.is_object_home home }
{
    match home {
        Home::Undef => false,
        Home::Text => false,
        Home::Rodata => false,
        Home::Init => true,
        Home::Zero => true,
    }
}

/// The numbers of the objects at file scope.
pub fn tagged(alloc: Global, symbols: &[Symbol]) -> Result<Vec<u32>, AllocError>
    ensures { IfOk result (λ made. made.items ≡ spec.objects_from 0 symbols.now) }
{
    let mut made = Vec::new(alloc);
    let mut number = 0u32;
    for symbol in symbols {
        if is_object(symbol.home) {
            made.push(number)?;
        }
        number = number.checked_add(1).ok_or(AllocError)?;
    }
    Ok(made)
}
