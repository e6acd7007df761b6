//! Types of two files that are one (after C11 6.2.7), and functions that have the type by which another file declares them.

ghost use Rattle.std.specs.Prelude.{◌≡◌, map, take, slice_get, Some};
ghost use Rattle.block_meaning.specs.Linkage as spec;
ghost use Rattle.block_meaning.specs.Linkage.{name_of_struct, type_of_local};
ghost use Rattle.c_type_base.specs.Types as types;

use c_ast::IntType;
use c_type_base::{ExternInfo, LocalInfo, StructInfo, TFunction, Ty};
use sqlite_items::at;

/// The name of a struct, by its number.
fn struct_name(structs: &[StructInfo], number: u32) -> &[u8]
    ensures { result.now ≡ name_of_struct (slice_get structs.now number) }
{
    match at(structs, number as usize) {
        Some(info) => info.name.as_slice(),
        None => b"".as_slice(),
    }
}

/// Whether two integer types are one.
fn same_int(s: IntType, t: IntType) -> bool
    ensures { result ≡ types.same_int s t }
{
    s == t
}

/// The structs of two files, by which their types are compared.
#[derive(Clone, Copy)]
pub struct Across<'a> {
    pub these: &'a [StructInfo],
    pub those: &'a [StructInfo],
}

/// Whether two types of two files are one, where structs are one by their names.
pub fn same_across(structs: Across, s: &Ty, t: &Ty) -> bool
    ensures { result ≡ spec.same_across structs.entry.these.now structs.entry.those.now s.now t.now }
{
    match s {
        Ty::Void => match t {
            Ty::Void => true,
            _ => false,
        },
        Ty::Int(s) => match t {
            Ty::Int(t) => same_int(*s, *t),
            _ => false,
        },
        Ty::Pointer(s) => match t {
            Ty::Pointer(t) => same_across(structs, s.get(), t.get()),
            _ => false,
        },
        Ty::Array(s, n) => match t {
            Ty::Array(t, m) => same_across(structs, s.get(), t.get()) && *n == *m,
            _ => false,
        },
        Ty::Struct(n) => match t {
            Ty::Struct(m) => struct_name(structs.these, *n) == struct_name(structs.those, *m),
            _ => false,
        },
    }
}

/// Whether types are one by one those of parameters of another file.
fn all_same_across(structs: Across, params: &[Ty], locals: &[LocalInfo]) -> bool
    ensures { result ≡ spec.all_same_across structs.entry.these.now structs.entry.those.now params.now (map type_of_local locals.now) }
{
    if params.len() != locals.len() {
        return false;
    }
    for i in 0..params.len() {
        if !same_across(structs, &params[i], &locals[i].ty) {
            return false;
        }
    }
    true
}

/// The parameters of a function.
fn parameters(f: &TFunction) -> &[LocalInfo]
    ensures { result.now ≡ take f.now.params f.now.locals }
{
    let locals = f.locals.as_slice();
    let count = f.params as usize;
    if count < locals.len() {
        &locals[..count]
    } else {
        locals
    }
}

/// Whether a function has the type by which another file declares it.
pub fn agrees_with(structs: Across, e: &ExternInfo, f: &TFunction) -> bool
    ensures { result ≡ spec.agrees_with structs.entry.these.now structs.entry.those.now e.now (Some f.now) }
{
    same_across(structs, &e.result, &f.result)
        && all_same_across(structs, e.params.as_slice(), parameters(f))
}
