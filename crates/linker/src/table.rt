ghost use Rattle.std.specs.Prelude.{◌≡◌, List, ◌++◌, OnOk, IfOk, IfErr, map, filter_map};
ghost use Rattle.std.specs.Option.{option_map};
ghost use Rattle.elf_obj.specs.Object.{Object};
ghost use Rattle.elf_obj.specs.Rules.{is_got_kind};
ghost use Rattle.linker.specs.declared.refusal.LinkRefusal.TheVariants.{NoMemory};
ghost use Rattle.linker.specs.Names.{NumberedSymbol, all_numbered, target};
ghost use Rattle.linker.specs.Got.{used_by, got};
ghost use Rattle.linker.specs.Known.{objects_of, numbers_of, Knows, HasWords};

use crate::names::{Names, Numbers, is_defined};
use crate::refusal::LinkRefusal;
use elf_obj::{ObjectParts, Reloc, Symbol};
use indexmap::IndexSet;
use std::alloc::Global;

/// The symbols that have a word in the global offset table, in its order.
pub(crate) type Table = IndexSet<Numbers>;

/// The symbol that the symbol of a number stands for, in the object of a number with these symbols.
pub(crate) fn target<'a>(
    names: &Names<'a>,
    object: usize,
    symbols: &'a [Symbol],
    number: u32,
) -> Option<Numbers>
    ensures { (objects : List Object) → Knows names.now (all_numbered objects)
        → result ≡ option_map numbers_of (target objects object symbols.now number) }
{
    match symbols.get(number as usize) {
        None => None,
        Some(symbol) => {
            if is_defined(symbol.home) {
                return Some(Numbers {
                    object,
                    number: number as usize,
                });
            }
            match names.get(&symbol.name.as_slice()) {
                None => None,
                Some(numbers) => Some(*numbers),
            }
        }
    }
}

// R_AARCH64_ADR_GOT_PAGE and LD64_GOT_LO12_NC.
fn is_got_kind(kind: u32) -> bool
    ensures { result ≡ is_got_kind kind }
{
    kind == 311 || kind == 312
}

// The symbol that a relocation uses through the table.
fn used_by<'a>(
    names: &Names<'a>,
    object: usize,
    symbols: &'a [Symbol],
    reloc: &Reloc,
) -> Option<Numbers>
    ensures { (objects : List Object) → Knows names.now (all_numbered objects)
        → result ≡ option_map numbers_of (used_by objects object symbols.now reloc.now) }
{
    if is_got_kind(reloc.kind) {
        target(names, object, symbols, reloc.symbol)
    } else {
        None
    }
}

// Adds the symbols that the relocations of an object use through the table.
fn add_uses<'a>(
    table: &mut Table,
    names: &Names<'a>,
    object: usize,
    symbols: &'a [Symbol],
    relocs: &[Reloc],
) -> Result<(), LinkRefusal>
    ensures uses { OnOk result ((objects : List Object) (uses : List NumberedSymbol) → Knows names.now (all_numbered objects)
        → HasWords table.old uses
        → HasWords table.new (uses ++ filter_map (used_by objects object symbols.now) relocs.now)) }
    ensures memory { IfErr result (λ r. r ≡ NoMemory) }
{
    for reloc in relocs {
        if let Some(numbers) = used_by(names, object, symbols, reloc) {
            table.insert(numbers)?;
        }
    }
    Ok(())
}

/// The symbols that the objects use through the table.
pub(crate) fn table_of<'a>(
    alloc: Global,
    names: &Names<'a>,
    objects: &'a [ObjectParts],
) -> Result<Table, LinkRefusal>
    requires { Knows names.now (all_numbered (objects_of objects.now)) }
    ensures words { IfOk result (λ t. t.keys ≡ map numbers_of (got (objects_of objects.now))) }
    ensures memory { IfErr result (λ r. r ≡ NoMemory) }
{
    let mut table = IndexSet::new(alloc);
    for object in 0..objects.len() {
        let parts = &objects[object];
        add_uses(
            &mut table,
            names,
            object,
            &parts.symbols,
            &parts.text_relocs,
        )?;
    }
    Ok(table)
}
