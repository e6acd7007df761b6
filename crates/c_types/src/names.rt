//! The names that a file declares, and their numbers (C11 6.2.2, 6.9).

ghost use Rattle.std.specs.Prelude.{◌≡◌, [], ◌++◌, ◌&&◌, List, ℕ, length, map, flat_map, if◌then◌else◌, IfOk, OnOk, not};
ghost use Rattle.std.specs.List.{filter, list_any};
ghost use Rattle.std.specs.Str.{bytes_eq};
ghost use Rattle.c_types.specs.Files as spec;
ghost use Rattle.c_types.specs.Files.{number_among, mentions, mentioned_object, name_in, once, defined_as};
ghost use Rattle.c_types.specs.Tables.{with_name, IsDistinct, is_elsewhere};

use c_ast::{Decl, External, Name, Program, Storage};
use c_type_base::Callee;
use c_type_expr::Place;
use indexmap::IndexSet;
use sqlite_items::Items;
use std::alloc::{AllocError, Global};
use std::marker::Model;

/// Names without repeats, numbered in the order in which they came: contracts see their list.
#[derive(Drop)]
pub struct NameTable {
    names: IndexSet<Vec<u8>>,
}

impl Model for NameTable {
    ghost use Rattle.std.specs.Prelude.{ℕ, List, map};
    ghost use Rattle.std.specs.Coded.{coded_list, coded_ℕ};

    ghost Value = { List (List ℕ) };

    ghost coded = { coded_list (coded_list coded_ℕ) };

    ghost view = { λ t. map (λ k. k.items) t.names.keys };
}

impl NameTable {
    pub fn new(alloc: Global) -> NameTable
        ensures { result ≡ [] }
    {
        NameTable {
            names: IndexSet::new(alloc),
        }
    }

    /// How many names there are, of which no two are equal.
    pub fn len(&self) -> usize
        ensures count { result ≡ length self.now }
        ensures distinct { IsDistinct self.now }
    {
        self.names.len()
    }

    /// The names, in order.
    pub fn as_slice(&self) -> &[Vec<u8>]
        ensures { map (λ k. k.items) result.now ≡ self.now }
    {
        self.names.as_slice()
    }

    /// The number of a name.
    pub fn number(&self, name: &[u8]) -> Option<usize>
        ensures { result ≡ number_among self.now name.now }
    {
        self.names.get_index_of(name)
    }

    /// Whether a name is there.
    pub fn has(&self, name: &[u8]) -> bool
        ensures { result ≡ list_any (bytes_eq name.now) self.now }
    {
        self.names.contains(name)
    }

    /// Adds a name, where it is not there yet.
    pub fn add(&mut self, alloc: Global, name: &[u8]) -> Result<(), AllocError>
        ensures { OnOk result (self.new ≡ with_name self.old name.now) }
    {
        let name = Vec::from_slice(alloc, name)?;
        self.names.insert(name)?;
        Ok(())
    }

    /// Adds it where a test held.
    fn add_where(&mut self, alloc: Global, holds: bool, name: &[u8]) -> Result<(), AllocError>
        ensures { OnOk result (self.new ≡ (if holds then with_name self.old name.now else self.old)) }
    {
        if holds { self.add(alloc, name) } else { Ok(()) }
    }
}

/// A declaration at file scope: of a function or of an object, and whether it defines it.
#[derive(Drop)]
pub struct Mention {
    pub name: Name,
    pub function: bool,
    pub defines: bool,
}

/// The names that a file declares, by what they are, each table in the order of first declarations; and whether it has the include line.
#[derive(Drop)]
pub struct FileNames {
    pub globals: NameTable,
    pub functions: NameTable,
    pub externs: NameTable,
    pub includes: bool,
}

/// Whether the storage class is `extern`.
pub fn is_extern(storage: Storage) -> bool
    ensures { result ≡ spec.is_extern storage }
{
    match storage {
        Storage::Extern => true,
        _ => false,
    }
}

/// Whether the storage class is `static`.
pub fn is_static(storage: Storage) -> bool
    ensures { result ≡ spec.is_static storage }
{
    match storage {
        Storage::Static => true,
        _ => false,
    }
}

fn mention_objects(
    alloc: Global,
    into: &mut Items<Mention>,
    storage: Storage,
    decls: &[Decl],
) -> Result<(), AllocError>
    ensures { OnOk result (into.new ≡ into.old ++ map (mentioned_object storage) decls.now) }
{
    let defines = !is_extern(storage);
    for d in decls {
        let name = d.name.copy(alloc)?;
        into.push(Mention {
            name,
            function: false,
            defines,
        })?;
    }
    Ok(())
}

fn mention_part(alloc: Global, into: &mut Items<Mention>, part: &External) -> Result<(), AllocError>
    ensures { OnOk result (into.new ≡ into.old ++ mentions part.now) }
{
    match part {
        External::Include => Ok(()),
        External::Struct(_) => Ok(()),
        External::Objects(storage, decls) => {
            mention_objects(alloc, into, *storage, decls.as_slice())
        }
        External::Function(f) => {
            let name = f.name.copy(alloc)?;
            into.push(Mention {
                name,
                function: true,
                defines: f.body.is_some(),
            })
        }
    }
}

/// The declarations of a file, in order.
fn mentioned(alloc: Global, parts: &[External]) -> Result<Items<Mention>, AllocError>
    ensures { IfOk result (λ made. made ≡ flat_map mentions parts.now) }
{
    let mut made = Items::new(alloc);
    for part in parts {
        mention_part(alloc, &mut made, part)?;
    }
    Ok(made)
}

/// Whether it defines a function, or else an object.
fn defines_as(mention: &Mention, function: bool) -> bool
    ensures { result ≡ (mention.now.defines && (if mention.now.function then function else not function)) }
{
    let fits = if mention.function {
        function
    } else {
        !function
    };
    mention.defines && fits
}

/// The names that are defined as functions, or else as objects.
fn defined(alloc: Global, mentions: &[Mention], function: bool) -> Result<NameTable, AllocError>
    ensures { IfOk result (λ names. (name : List ℕ) → list_any (bytes_eq name) names ≡ defined_as function mentions.now name) }
{
    let mut names = NameTable::new(alloc);
    for mention in mentions {
        let defines = defines_as(mention, function);
        names.add_where(alloc, defines, mention.name.as_slice())?;
    }
    Ok(names)
}

/// The names that a table has, in the order of first declarations.
fn among(alloc: Global, mentions: &[Mention], chosen: &NameTable) -> Result<NameTable, AllocError>
    ensures { IfOk result (λ names. names ≡ once [] (filter (λ n. list_any (bytes_eq n) chosen.now) (map name_in mentions.now))) }
{
    let mut names = NameTable::new(alloc);
    for mention in mentions {
        let there = chosen.has(mention.name.as_slice());
        names.add_where(alloc, there, mention.name.as_slice())?;
    }
    Ok(names)
}

/// Whether a name is one of the include line's functions.
fn is_library(name: &[u8]) -> bool
    ensures { result ≡ spec.is_library name.now }
{
    name == b"putchar".as_slice() || name == b"getchar".as_slice()
}

/// Whether a name, which is not defined here, is one of another file.
fn is_elsewhere(objects: &NameTable, functions: &NameTable, includes: bool, name: &[u8]) -> bool
    ensures { result ≡ is_elsewhere objects.now functions.now includes name.now }
{
    !objects.has(name) && !functions.has(name) && !(includes && is_library(name))
}

/// The names that another file defines, in the order of first declarations.
fn elsewhere(
    alloc: Global,
    mentions: &[Mention],
    objects: &NameTable,
    functions: &NameTable,
    includes: bool,
) -> Result<NameTable, AllocError>
    ensures { IfOk result (λ names.
        names ≡ once [] (filter (is_elsewhere objects.now functions.now includes) (map name_in mentions.now))) }
{
    let mut names = NameTable::new(alloc);
    for mention in mentions {
        let away = is_elsewhere(objects, functions, includes, mention.name.as_slice());
        names.add_where(alloc, away, mention.name.as_slice())?;
    }
    Ok(names)
}

/// The names that are declared so, by what they are.
fn names_by(alloc: Global, mentions: &[Mention], includes: bool) -> Result<FileNames, AllocError>
    ensures { IfOk result (λ names. names ≡ spec.names_by mentions.now includes) }
{
    let objects = defined(alloc, mentions, false)?;
    let bodies = defined(alloc, mentions, true)?;
    let externs = elsewhere(alloc, mentions, &objects, &bodies, includes)?;
    let globals = among(alloc, mentions, &objects)?;
    let functions = among(alloc, mentions, &bodies)?;
    Ok(FileNames {
        globals,
        functions,
        externs,
        includes,
    })
}

/// Whether it is the include line.
fn is_include(part: &External) -> bool
    ensures { result ≡ spec.is_include part.now }
{
    match part {
        External::Include => true,
        _ => false,
    }
}

/// Whether a file has the include line.
fn has_include(parts: &[External]) -> bool
    ensures { result ≡ list_any spec.is_include parts.now }
{
    parts.iter().any(|part| is_include(part))
}

/// The names that a file declares.
pub fn file_names(alloc: Global, program: &Program) -> Result<FileNames, AllocError>
    ensures { IfOk result (λ names. names ≡ spec.file_names program.now) }
{
    let mentions = mentioned(alloc, program.items.as_slice())?;
    let includes = has_include(program.items.as_slice());
    names_by(alloc, mentions.as_slice(), includes)
}

/// A number as the typed program has it. One that it cannot tell counts as want of memory.
fn small(number: usize) -> Result<u32, AllocError>
    ensures { IfOk result (λ n. n ≡ number) }
{
    match u32::try_from(number) {
        Ok(number) => Ok(number),
        Err(_) => Err(AllocError),
    }
}

fn extern_number(names: &FileNames, name: &[u8]) -> Result<u32, AllocError>
    ensures { IfOk result (λ n. n ≡ spec.number_in names.now.externs name.now) }
{
    match names.externs.number(name) {
        Some(number) => small(number),
        None => Ok(0),
    }
}

/// Where an object at file scope is found.
pub fn object_place(names: &FileNames, name: &[u8]) -> Result<Place, AllocError>
    ensures { IfOk result (λ place. place ≡ spec.object_place names.now name.now) }
{
    match names.globals.number(name) {
        Some(number) => Ok(Place::Global(small(number)?)),
        None => Ok(Place::Extern(extern_number(names, name)?)),
    }
}

/// What a function's name calls.
pub fn function_callee(names: &FileNames, name: &[u8]) -> Result<Callee, AllocError>
    ensures { IfOk result (λ callee. callee ≡ spec.function_callee names.now name.now) }
{
    if names.includes && name == b"putchar".as_slice() {
        return Ok(Callee::Putchar);
    }
    if names.includes && name == b"getchar".as_slice() {
        return Ok(Callee::Getchar);
    }
    match names.functions.number(name) {
        Some(number) => Ok(Callee::Function(small(number)?)),
        None => Ok(Callee::Extern(extern_number(names, name)?)),
    }
}
