//! The object of a file.

ghost use Rattle.std.specs.Prelude.{◌≡◌, ◌++◌, map, length, IfOk};
ghost use Rattle.elf_obj.specs.Object.{object_of};
ghost use Rattle.elf_obj.specs.declared.parts.Home.TheVariants.{Init, Zero};
ghost use Rattle.unit_object.specs.Counted as counted;
ghost use Rattle.unit_object.specs.Data as bytes;
ghost use Rattle.unit_object.specs.Named.{named_of, named_by};
ghost use Rattle.unit_object.specs.Order as order_spec;
ghost use Rattle.unit_object.specs.Parts.{parts_of, parts_by, code_reloc, code_symbol, data_relocs, data_symbol};
ghost use Rattle.unit_object.specs.Symbols as spec;
ghost use Rattle.unit_object.specs.Symbols.{name_of};

use crate::counted::numbers;
use crate::names::{NameTable, first_declared};
use crate::numbers::Numbers;
use crate::objects::{all_bytes, rooms};
use crate::order::{by_definition, global_names};
use crate::relocs::{code_relocs, data_relocs};
use crate::symbols::{defined, push_by_names, push_undefined, symbol_names, tagged};
use crate::texts::{push_texts, text_bytes};
use c_ast::Program;
use c_type_base::Typed;
use elf_base::Bytes;
use elf_obj::{ObjectParts, Reloc, Symbol};
use gen_unit::{Place, UnitCode};
use mean_link::names_of;
use std::alloc::{AllocError, Global};

// The objects that a text defines, by their numbers.
#[derive(Drop)]
struct Defined {
    filled: Vec<usize>,
    unfilled: Vec<usize>,
}

fn objects_of(alloc: Global, program: &Program, typed: &Typed) -> Result<Defined, AllocError>
    ensures filled { IfOk result (λ o. order_spec.chosen typed.now.globals o.filled.items ≡ order_spec.filled program.now typed.now) }
    ensures unfilled { IfOk result (λ o. order_spec.chosen typed.now.globals o.unfilled.items ≡ order_spec.unfilled program.now typed.now) }
{
    let globals = typed.globals.as_slice();
    let names = global_names(alloc, globals)?;
    let filled = by_definition(alloc, program, globals, &names, true)?;
    let unfilled = by_definition(alloc, program, globals, &names, false)?;
    Ok(Defined { filled, unfilled })
}

// What the file defines, by sections.
fn defined_symbols(
    alloc: Global,
    typed: &Typed,
    functions: &[Place],
    order: &Defined,
) -> Result<Vec<Symbol>, AllocError>
    ensures { IfOk result (λ made. made.items
        ≡ spec.object_symbols typed.now.structs Init 0 (order_spec.chosen typed.now.globals order.now.filled.items)
        ++ spec.object_symbols typed.now.structs Zero 0 (order_spec.chosen typed.now.globals order.now.unfilled.items)
        ++ map spec.function_symbol functions.now) }
{
    let structs = typed.structs.as_slice();
    let globals = typed.globals.as_slice();
    defined(
        alloc,
        structs,
        globals,
        &order.filled,
        &order.unfilled,
        functions,
    )
}

// The symbols that have names.
fn named_symbols(
    alloc: Global,
    there: &[Symbol],
    declared: &NameTable,
    undefined: &[c_ast::Name],
) -> Result<Vec<Symbol>, AllocError>
    ensures { IfOk result (λ made. made.items ≡ named_of there.now declared.now undefined.now) }
{
    let places = symbol_names(alloc, there)?;
    let mut made = Vec::new(alloc);
    push_by_names(alloc, &mut made, there, &places, declared.as_slice(), true)?;
    push_by_names(alloc, &mut made, there, &places, declared.as_slice(), false)?;
    push_undefined(alloc, &mut made, undefined)?;
    Ok(made)
}

// All symbols: those of the texts come first.
fn symbols(
    alloc: Global,
    texts: &[c_ast::Bytes],
    named: Vec<Symbol>,
) -> Result<Vec<Symbol>, AllocError>
    ensures { IfOk result (λ made. made.items ≡ spec.text_symbols 0 texts.now ++ named.items) }
{
    let mut made = Vec::new(alloc);
    push_texts(alloc, &mut made, texts)?;
    for symbol in named {
        made.push(symbol)?;
    }
    Ok(made)
}

fn numbers_of(
    alloc: Global,
    typed: &Typed,
    functions: &[Place],
    named: &[Symbol],
) -> Result<Numbers, AllocError>
    ensures functions { IfOk result (λ n. n.functions.items
        ≡ counted.function_numbers (length typed.now.texts) (map name_of named.now) functions.now) }
    ensures globals { IfOk result (λ n. n.globals.items
        ≡ counted.global_numbers (length typed.now.texts) (map name_of named.now) typed.now.globals) }
    ensures externs { IfOk result (λ n. n.externs.items
        ≡ counted.extern_numbers (length typed.now.texts) (map name_of named.now) typed.now.externs) }
{
    let from = u32::try_from(typed.texts.as_slice().len()).map_err(|_| AllocError)?;
    let names = symbol_names(alloc, named)?;
    let globals = typed.globals.as_slice();
    let externs = typed.externs.as_slice();
    numbers(alloc, &names, from, functions, globals, externs)
}

// The symbols of a file that have names.
fn named(
    alloc: Global,
    program: &Program,
    typed: &Typed,
    functions: &[Place],
    order: &Defined,
) -> Result<Vec<Symbol>, AllocError>
    ensures { IfOk result (λ made. made.items
        ≡ named_by program.now typed.now functions.now (order_spec.chosen typed.now.globals order.now.filled.items)
        (order_spec.chosen typed.now.globals order.now.unfilled.items)) }
{
    let there = defined_symbols(alloc, typed, functions, order)?;
    let declared = first_declared(alloc, program)?;
    let names = names_of(alloc, program, typed)?;
    named_symbols(alloc, &there, &declared, names.undefined.as_slice())
}

// The places that wait for addresses: in the words, and in the filled data.
#[derive(Drop)]
struct Waiting {
    text: Vec<Reloc>,
    init: Vec<Reloc>,
}

fn relocs(
    alloc: Global,
    typed: &Typed,
    code: &UnitCode,
    filled: &[usize],
    named: &[Symbol],
) -> Result<Waiting, AllocError>
    ensures text { IfOk result (λ w. w.text.items
        ≡ map (code_reloc (code_symbol (spec.number_of (length typed.now.texts) named.now) typed.now code.now)) code.now.relocs.items) }
    ensures init { IfOk result (λ w. w.init.items
        ≡ data_relocs (data_symbol (spec.number_of (length typed.now.texts) named.now) typed.now) typed.now.structs 0
        (order_spec.chosen typed.now.globals filled.now)) }
{
    let numbers = numbers_of(alloc, typed, &code.functions, named)?;
    let structs = typed.structs.as_slice();
    let globals = typed.globals.as_slice();
    let text = code_relocs(alloc, &numbers, &code.relocs)?;
    let init = data_relocs(alloc, &numbers, structs, globals, filled)?;
    Ok(Waiting { text, init })
}

// The bytes of texts and objects.
#[derive(Drop)]
struct Data {
    texts: Vec<u8>,
    filled: Vec<u8>,
    zeros: u64,
}

fn bytes_of(alloc: Global, typed: &Typed, order: &Defined) -> Result<Data, AllocError>
    ensures texts { IfOk result (λ d. d.texts.items ≡ bytes.text_bytes typed.now.texts) }
    ensures filled { IfOk result (λ d. d.filled.items
        ≡ bytes.all_bytes typed.now.structs (order_spec.chosen typed.now.globals order.now.filled.items)) }
    ensures zeros { IfOk result (λ d. d.zeros
        ≡ bytes.rooms typed.now.structs (order_spec.chosen typed.now.globals order.now.unfilled.items)) }
{
    let structs = typed.structs.as_slice();
    let globals = typed.globals.as_slice();
    let texts = text_bytes(alloc, typed.texts.as_slice())?;
    let filled = all_bytes(alloc, structs, globals, &order.filled)?;
    let zeros = rooms(structs, globals, &order.unfilled)?;
    Ok(Data {
        texts,
        filled,
        zeros,
    })
}

fn joined(
    alloc: Global,
    words: Vec<u32>,
    made: Data,
    waiting: Waiting,
    symbols: Vec<Symbol>,
) -> Result<ObjectParts, AllocError>
    ensures { IfOk result (λ parts. object_of parts ≡ record {
      words = words.items;
      rodata = made.texts.items;
      init_bytes = made.filled.items;
      zero_bytes = made.zeros;
      symbols = symbols.items;
      text_relocs = waiting.text.items;
      init_relocs = waiting.init.items;
      tagged = spec.objects_from 0 symbols.items;
    }) }
{
    let tagged = tagged(alloc, &symbols)?;
    let Data {
        texts,
        filled,
        zeros,
    } = made;
    let Waiting { text, init } = waiting;
    Ok(ObjectParts {
        words,
        rodata: Bytes::new(texts),
        init_bytes: Bytes::new(filled),
        zero_bytes: zeros,
        symbols,
        text_relocs: text,
        init_relocs: init,
        tagged,
    })
}

// The object of a file that defines these objects, and has these symbols with names.
fn object(
    alloc: Global,
    typed: &Typed,
    code: UnitCode,
    order: &Defined,
    named: Vec<Symbol>,
) -> Result<ObjectParts, AllocError>
    ensures { IfOk result (λ parts. object_of parts
        ≡ parts_by typed.now code (order_spec.chosen typed.now.globals order.now.filled.items)
        (order_spec.chosen typed.now.globals order.now.unfilled.items) named.items) }
{
    let data = bytes_of(alloc, typed, order)?;
    let waiting = relocs(alloc, typed, &code, &order.filled, &named)?;
    let symbols = symbols(alloc, typed.texts.as_slice(), named)?;
    joined(alloc, code.words, data, waiting, symbols)
}

/// The parts of the object of a file: of its text, of what it is with types, and of its code.
///
/// # Errors
///
/// Out of memory, and nothing else for a file that keeps the rules on types, with less than 2^32 symbols.
pub fn object_parts(
    alloc: Global,
    program: &Program,
    typed: &Typed,
    code: UnitCode,
) -> Result<ObjectParts, AllocError>
    ensures { IfOk result (λ parts. object_of parts ≡ parts_of program.now typed.now code) }
{
    let order = objects_of(alloc, program, typed)?;
    let named = named(alloc, program, typed, &code.functions, &order)?;
    object(alloc, typed, code, &order, named)
}
