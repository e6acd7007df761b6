//! Declarations and the parts of a translation unit.

use super::Shape;
use super::expr::{ctype, expr};
use super::statement::stmt;
use c_ast::{Decl, External, Function, Init, Storage, StructDecl};

#[cycle(init)]
fn init(to: &mut Shape, value: &Init) {
    match value {
        Init::One(e) => expr(to, e),
        Init::List(values, span) => {
            to.put("{");
            to.span(*span);
            for (index, value) in values.as_slice().iter().enumerate() {
                if index > 0 || to.spans {
                    to.put(" ");
                }
                init(to, value);
            }
            to.put("}");
        }
    }
}

/// `(x int)`, `(x int = 1)`; a parameter without a name is `( int)`.
fn decl(to: &mut Shape, declared: &Decl) {
    to.put("(");
    to.name(&declared.name);
    to.span(declared.span);
    to.put(" ");
    ctype(to, &declared.ty);
    if let Some(value) = &declared.init {
        to.put(" = ");
        init(to, value);
    }
    to.put(")");
}

pub fn decls(to: &mut Shape, declared: &[Decl]) {
    to.put("[");
    for (index, one) in declared.iter().enumerate() {
        if index > 0 {
            to.put(" ");
        }
        decl(to, one);
    }
    to.put("]");
}

fn storage(storage: Storage) -> &'static str {
    match storage {
        Storage::None => "",
        Storage::Static => "static ",
        Storage::Extern => "extern ",
    }
}

fn structure(to: &mut Shape, declared: &StructDecl) {
    to.put("(struct ");
    to.name(&declared.name);
    to.span(declared.span);
    if let Some(members) = &declared.members {
        to.put(" ");
        decls(to, members.as_slice());
    }
    to.put(")");
}

fn function(to: &mut Shape, declared: &Function) {
    to.put("(");
    to.put(storage(declared.storage));
    to.put("fn ");
    to.name(&declared.name);
    to.span(declared.span);
    to.put(" ");
    decls(to, declared.params.as_slice());
    to.put(" ");
    ctype(to, &declared.result);
    if let Some(body) = &declared.body {
        to.put(" ");
        stmt(to, body);
    }
    to.put(")");
}

pub fn external(to: &mut Shape, part: &External) {
    match part {
        External::Include => to.put("(include)"),
        External::Struct(declared) => structure(to, declared),
        External::Objects(class, declared) => {
            to.put("(");
            to.put(storage(*class));
            to.put("objects ");
            decls(to, declared.as_slice());
            to.put(")");
        }
        External::Function(declared) => function(to, declared),
    }
}
