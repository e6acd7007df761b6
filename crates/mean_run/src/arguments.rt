//! The parameters of a call with their arguments.

ghost use Rattle.std.specs.Prelude.{◌≡◌, ◌<◌, ◌+◌, ◌∷◌, ◌++◌, [], List, length, replicate, take, IfOk, OnOk};
ghost use Rattle.block_meaning.specs.Meaning.{with_arguments};
ghost use Rattle.block_meaning.specs.Running.{gives};
ghost use Rattle.block_meaning.specs.Values as values;
ghost use Rattle.c_type_base.specs.declared.typed.LocalInfo.{LocalInfo as Info};
ghost use Rattle.block_meaning.specs.declared.value.Value.{Value as Argument};
ghost use Rattle.mean_memory.specs.Filled.{Fills};
ghost use Rattle.mean_run.specs.Entering.{Origin, Passed};

use crate::locals::keep;
use block_meaning::{Cell, Kind, Value};
use c_type_base::{LocalInfo, TFunction, Ty, int_size};
use mean_effects::{Here, Now};
use mean_memory::put_value;
use sqlite_items::at;
use std::alloc::{AllocError, Global};

/// The parameters of a function.
pub fn parameters(f: &TFunction) -> &[LocalInfo]
    ensures { result.now ≡ take f.now.params f.now.locals }
{
    let locals = f.locals.as_slice();
    let count = f.params as usize;
    if count < locals.len() {
        &locals[..count]
    } else {
        locals
    }
}

/// One more call, and a window of locals without blocks.
pub fn count_call(
    n: &mut Now,
    locals: &mut Vec<Option<u64>>,
    count: usize,
) -> Result<(), AllocError>
    ensures now { OnOk result (n.new ≡ record n.old { calls = n.old.calls + 1 }) }
    ensures locals { OnOk result (locals.new.items ≡ locals.old.items ++ replicate count None) }
{
    let Some(calls) = n.calls.checked_add(1) else {
        return Err(AllocError);
    };
    widen(locals, count)?;
    n.calls = calls;
    Ok(())
}

/// More locals without blocks.
fn widen(locals: &mut Vec<Option<u64>>, count: usize) -> Result<(), AllocError>
    ensures { OnOk result (locals.new.items ≡ locals.old.items ++ replicate count None) }
{
    for _ in 0..count {
        locals.push(None)?;
    }
    Ok(())
}

/// How many cells a scalar of a type has.
fn filled(ty: &Ty) -> usize
    ensures { Fills ty.now result }
{
    match ty {
        Ty::Int(t) => int_size(*t) as usize,
        Ty::Pointer(_) => 8,
        _ => 0,
    }
}

/// A value of a type as cells.
fn cells_of(alloc: Global, ty: &Ty, v: Value) -> Result<Vec<Cell>, AllocError>
    ensures { IfOk result (λ cells. cells.items ≡ values.cells_of ty.now v) }
{
    let mut cells = vec![in alloc; Cell::Nothing; filled(ty)]?;
    put_value(&mut cells, ty, v);
    Ok(cells)
}

/// The number of a parameter as blocks have it. One that it cannot tell counts as want of memory.
fn small(number: usize) -> Result<u32, AllocError>
    ensures { IfOk result (λ n. n ≡ number) }
{
    match u32::try_from(number) {
        Ok(number) => Ok(number),
        Err(_) => Err(AllocError),
    }
}

/// A block for the parameter of a number, with these cells.
fn put_block(
    n: &mut Now,
    locals: &mut [Option<u64>],
    h: Here,
    number: usize,
    cells: Vec<Cell>,
) -> Result<(), AllocError>
    ensures { OnOk result ((o : Origin) (ls : List Info) (vs : List Argument) (l : Info) (v : Argument)
        → length ls ≡ number → length vs ≡ number → cells.items ≡ values.cells_of l.ty v
        → Passed h.entry o (with_arguments o.here 0 ls vs o.start) n.old locals.old
        → Passed h.entry o (with_arguments o.here 0 (ls ++ l ∷ []) (vs ++ v ∷ []) o.start) n.new locals.new) }
{
    let k = small(number)?;
    let block = n.memory.push(Kind::Local(h.call, k), cells)?;
    keep(locals, h.base, k, block)?;
    Ok(())
}

/// Blocks for parameters, which hold their arguments.
pub fn pass(
    n: &mut Now,
    locals: &mut Vec<Option<u64>>,
    h: Here,
    parameters: &[LocalInfo],
    values: &[Value],
) -> Result<(), AllocError>
    requires { length values.now ≡ length parameters.now }
    ensures { OnOk result ((o : Origin) → Passed h.entry o (gives o.here o.start) n.old locals.old.items
        → Passed h.entry o (with_arguments o.here 0 parameters.now values.now o.start) n.new locals.new.items) }
{
    let alloc = *locals.allocator();
    for k in 0..parameters.len() {
        let Some(v) = at(values, k) else {
            return Err(AllocError);
        };
        let cells = cells_of(alloc, &parameters[k].ty, *v)?;
        put_block(n, locals, h, k, cells)?;
    }
    Ok(())
}
