//! What names stand for, by scopes (C11 6.2.1).

ghost use Rattle.std.specs.Prelude.{◌≡◌, [], ◌∷◌, ◌++◌, List, OnOk, option_copied};
ghost use Rattle.c_type_expr.specs.declared.scopes.Binding.{Binding as Bound};
ghost use Rattle.c_type_expr.specs.Environment.{in_scope, in_scopes, with_innermost};
ghost use Rattle.c_type_expr.specs.Scoping.{no_names, with_binding, opened_names, closed_names};

use c_ast::Name;
use c_type_base::{Callee, Ty};
use sqlite_items::{Items, at};
use std::alloc::{AllocError, Global};
use std::collections::HashMap;
use std::marker::Model;
use std::mem;

/// Where an object is found.
#[derive(Clone, Copy)]
pub enum Place {
    /// By its number among the parameters and locals of the function.
    Local(u32),
    /// By its number among the objects of the program.
    Global(u32),
    /// By its number among the externs.
    Extern(u32),
}

/// A function's type: its result and its parameters.
#[derive(Drop)]
pub struct Signature {
    pub result: Ty,
    pub params: Items<Ty>,
}

/// What a name stands for. A declaration that breaks a rule declares its name all the same, and may leave its type unknown.
#[derive(Drop)]
pub enum Meaning {
    Object(Place, Option<Ty>),
    Function(Callee, Option<Signature>),
    /// The constant of the include line.
    Eof,
}

/// A function that is called by its name.
#[derive(Drop)]
pub struct Called {
    pub callee: Callee,
    pub signature: Option<Signature>,
}

/// A declaration in scope.
#[derive(Drop)]
pub struct Binding {
    pub name: Name,
    pub means: Meaning,
}

/// The declarations of one scope: contracts see them, the latest first.
#[derive(Drop)]
struct Scope {
    alloc: Global,
    /// The earliest first.
    bindings: Items<Binding>,
    /// By name the place of the latest.
    places: HashMap<Vec<u8>, usize>,
}

impl Model for Scope {
    ghost use Rattle.std.specs.Prelude.{List};
    ghost use Rattle.std.specs.Coded.{codes};
    ghost use Rattle.c_type_base.specs.contracts.ty.Ty as t;
    ghost use Rattle.c_type_expr.specs.declared.scopes.Binding.{Binding as Bound};

    ghost Value = { List Bound };

    ghost coded = { Prim.hlevel (codes, t.the_row.coded) };

    ghost use Rattle.std.specs.Prelude.{reverse};
    ghost use Rattle.c_type_expr.specs.Places.{HasPlaces};

    ghost view = { λ s. reverse s.bindings };

    ghost invariant = { λ s. HasPlaces s.places (λ k. k.items) s.bindings };
}

impl Scope {
    /// Without names.
    fn new(alloc: Global) -> Scope
        ensures { result ≡ [] }
    {
        Scope {
            alloc,
            bindings: Items::new(alloc),
            places: HashMap::new(alloc),
        }
    }

    /// The latest declaration of a name.
    fn find(&self, name: &[u8]) -> Option<&Binding>
        ensures { option_copied result ≡ in_scope name.now self.now }
    {
        match self.places.get(name) {
            None => None,
            Some(place) => at(self.bindings.as_slice(), *place),
        }
    }

    /// Declares a name.
    fn add(&mut self, binding: Binding) -> Result<(), AllocError>
        ensures { OnOk result (self.new ≡ binding ∷ self.old) }
    {
        let key = Vec::from_slice(self.alloc, binding.name.as_slice())?;
        let place = self.bindings.len();
        self.bindings.push(binding)?;
        match self.places.insert(key, place) {
            Ok(_) => Ok(()),
            Err(_) => {
                drop_last(&mut self.bindings);
                Err(AllocError)
            }
        }
    }
}

/// Without the last one.
fn drop_last(bindings: &mut Items<Binding>)
    ensures { (kept : List Bound) (last : Bound) → bindings.old ≡ kept ++ last ∷ [] → bindings.new ≡ kept }
{
    let _ = bindings.pop();
}

/// The declarations in scope: contracts see the innermost scope, and the others from the inside out, each with the latest first.
#[derive(Drop)]
pub struct Scopes {
    inner: Scope,
    outer: Items<Scope>,
}

impl Model for Scopes {
    ghost use Rattle.c_type_expr.specs.Names.{Names};
    ghost use Rattle.std.specs.Coded.{codes};
    ghost use Rattle.c_type_base.specs.contracts.ty.Ty as t;

    ghost Value = { Names };

    ghost coded = { Prim.hlevel (codes, t.the_row.coded) };

    ghost use Rattle.std.specs.Prelude.{reverse};

    ghost view = { λ s. record { inner = s.inner; outer = reverse s.outer } };
}

impl Scopes {
    /// One scope without names.
    pub fn new(alloc: Global) -> Scopes
        ensures { result ≡ no_names }
    {
        Scopes {
            inner: Scope::new(alloc),
            outer: Items::new(alloc),
        }
    }

    /// The innermost declaration of a name.
    pub fn find(&self, name: &[u8]) -> Option<&Binding>
        ensures { option_copied result ≡ in_scopes name.now (self.now.inner ∷ self.now.outer) }
    {
        if let Some(found) = self.inner.find(name) {
            return Some(found);
        }
        let mut left = self.outer.len();
        while left > 0 {
            left -= 1;
            if let Some(scope) = at(self.outer.as_slice(), left) {
                if let Some(found) = scope.find(name) {
                    return Some(found);
                }
            }
        }
        None
    }

    /// The declaration of a name in the innermost scope.
    pub fn find_inner(&self, name: &[u8]) -> Option<&Binding>
        ensures { option_copied result ≡ in_scope name.now self.now.inner }
    {
        self.inner.find(name)
    }

    /// Declares a name.
    pub fn add(&mut self, binding: Binding) -> Result<(), AllocError>
        ensures { OnOk result (self.new ≡ with_binding self.old binding) }
    {
        self.inner.add(binding)
    }

    /// Declares a name in the scope around the innermost.
    #[tactic(auto, using(crate::proofs::ScopeLaws::declared_around, crate::proofs::ScopeLaws::declared_alone))]
    pub fn add_around(&mut self, alloc: Global, binding: Binding) -> Result<(), AllocError>
        ensures { OnOk result (self.new ≡ record self.old { outer = with_innermost (binding ∷ []) self.old.outer }) }
    {
        match self.outer.pop() {
            Some(mut scope) => {
                scope.add(binding)?;
                self.outer.push(scope)
            }
            None => {
                let mut scope = Scope::new(alloc);
                scope.add(binding)?;
                self.outer.push(scope)
            }
        }
    }

    /// Opens a scope of its own inside.
    pub fn open(&mut self, alloc: Global) -> Result<(), AllocError>
        ensures { OnOk result (self.new ≡ opened_names self.old) }
    {
        let scope = mem::replace(&mut self.inner, Scope::new(alloc));
        self.outer.push(scope)
    }

    /// Closes the innermost scope; the outermost has no names then.
    pub fn close(&mut self, alloc: Global)
        ensures { self.new ≡ closed_names self.old }
    {
        self.inner = match self.outer.pop() {
            Some(scope) => scope,
            None => Scope::new(alloc),
        };
    }
}
