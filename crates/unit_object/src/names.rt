//! The names that a text declares.

ghost use Rattle.std.specs.Prelude.{◌≡◌, ◌++◌, [], ◌∷◌, map, flat_map, OnOk, IfOk};
ghost use Rattle.std.specs.List.{list_any};
ghost use Rattle.std.specs.Str.{bytes_eq};
ghost use Rattle.c_types.specs.Files.{number_among};
ghost use Rattle.c_types.specs.Tables.{with_name};
ghost use Rattle.mean_link.specs.Names as spec;
ghost use Rattle.unit_object.specs.Order as order;
ghost use Rattle.unit_object.specs.Order.{each_once};

use c_ast::{Decl, External, Program};
use indexmap::IndexSet;
use std::alloc::{AllocError, Global};
use std::marker::Model;

/// Names without repeats, numbered in the order in which they came: contracts see their list.
#[derive(Drop)]
pub struct NameTable {
    names: IndexSet<Vec<u8>>,
}

impl Model for NameTable {
    ghost use Rattle.std.specs.Prelude.{ℕ, List, map};
    ghost use Rattle.std.specs.Coded.{coded_list, coded_ℕ};

    ghost Value = { List (List ℕ) };

    ghost coded = { coded_list (coded_list coded_ℕ) };

    ghost view = { λ t. map (λ k. k.items) t.names.keys };
}

impl NameTable {
    pub fn new(alloc: Global) -> NameTable
        ensures { result ≡ [] }
    {
        NameTable {
            names: IndexSet::new(alloc),
        }
    }

    /// The number of a name.
    pub fn number(&self, name: &[u8]) -> Option<usize>
        ensures { result ≡ number_among self.now name.now }
    {
        self.names.get_index_of(name)
    }

    /// Adds a name, where it is not there yet.
    pub fn add(&mut self, alloc: Global, name: &[u8]) -> Result<(), AllocError>
        ensures { OnOk result (self.new ≡ with_name self.old name.now) }
    {
        let name = Vec::from_slice(alloc, name)?;
        self.names.insert(name)?;
        Ok(())
    }

    /// Whether a name is there.
    fn has(&self, name: &[u8]) -> bool
        ensures { result ≡ list_any (bytes_eq name.now) self.now }
    {
        self.names.contains(name)
    }

    /// Adds a name that is not there yet; of one that is there, nothing more is said.
    pub fn add_new(&mut self, alloc: Global, name: &[u8]) -> Result<(), AllocError>
        ensures { OnOk result (self.new ≡ self.old ++ name.now ∷ []) }
    {
        if self.has(name) {
            return Err(AllocError);
        }
        self.add(alloc, name)
    }

    /// The names, in order.
    pub fn as_slice(&self) -> &[Vec<u8>]
        ensures { map (λ k. k.items) result.now ≡ self.now }
    {
        self.names.as_slice()
    }
}

fn add_decls(alloc: Global, names: &mut NameTable, decls: &[Decl]) -> Result<(), AllocError>
    ensures { OnOk result (names.new ≡ each_once names.old (map spec.name_of decls.now)) }
{
    for d in decls {
        names.add(alloc, d.name.as_slice())?;
    }
    Ok(())
}

// Adds the names that a part of a text declares.
fn add_part(alloc: Global, names: &mut NameTable, part: &External) -> Result<(), AllocError>
    ensures { OnOk result (names.new ≡ each_once names.old (spec.declared_by part.now)) }
{
    match part {
        External::Include => Ok(()),
        External::Struct(_) => Ok(()),
        External::Objects(_, decls) => add_decls(alloc, names, decls.as_slice()),
        External::Function(f) => names.add(alloc, f.name.as_slice()),
    }
}

// The names that the parts of a text declare, each once.
fn names_of(alloc: Global, parts: &[External]) -> Result<NameTable, AllocError>
    ensures { IfOk result (λ names. names ≡ each_once [] (flat_map spec.declared_by parts.now)) }
{
    let mut names = NameTable::new(alloc);
    for part in parts {
        add_part(alloc, &mut names, part)?;
    }
    Ok(names)
}

/// The names of a text's functions and objects, in the order of their first declarations.
pub fn first_declared(alloc: Global, program: &Program) -> Result<NameTable, AllocError>
    ensures { IfOk result (λ names. names ≡ order.first_declared program.now) }
{
    names_of(alloc, program.items.as_slice())
}
