//! The symbolic code of a function.

ghost use Rattle.std.specs.Prelude.{◌≡◌, ◌≤◌, ◌<◌, ◌^◌, length, IfOk, OnOk};
ghost use Rattle.c_type_base.specs.declared.statement.TStmt.{out-TStmt};
ghost use Rattle.frame_layout.specs.StatementNeeds.{stmt_need};
ghost use Rattle.gen_base.specs.Code.{Appends};
ghost use Rattle.gen_stmt.specs.Statements.{body_code};
ghost use Rattle.gen_unit.specs.Functions as spec;

use c_type_base::{LocalInfo, TFunction, TStmt, Typed};
use frame_layout::Frame;
use gen_base::{RETURNED, argument, push_moves};
use gen_stmt::{Around, body, store_local};
use std::alloc::{AllocError, Global};
use sym_code::SymCode;

// Appends: the arguments come into the slots of the parameters.
fn store_arguments(
    frame: &Frame,
    params: &[LocalInfo],
    code: &mut SymCode,
) -> Result<(), AllocError>
    requires { length params.now < 2 ^ 32 }
    ensures { OnOk result (Appends code.old (spec.store_arguments frame.now 0 params.now) code.new) }
{
    let mut number: u32 = 0;
    for param in params {
        store_local(frame, number, &param.ty, argument(number as u64), code)?;
        number += 1;
    }
    Ok(())
}

// Appends the parts of a function's body.
fn push_body(
    alloc: Global,
    unit: &Typed,
    frame: &Frame,
    stmt: &TStmt,
    code: &mut SymCode,
) -> Result<(), AllocError>
    requires { stmt_need stmt.now ≤ 32765 }
    ensures { OnOk result (Appends code.old
        (body_code unit.now.structs frame.now (spec.parts_of (out-TStmt stmt.now)) spec.no_loop) code.new) }
{
    match stmt {
        TStmt::Block(items) => {
            let around = Around {
                broke: 0,
                continued: 0,
                opened: None,
            };
            body(alloc, unit, frame, around, items.as_slice(), code)
        }
        _ => Ok(()),
    }
}

// The parameters among the locals of a function.
fn params_of(function: &TFunction) -> &[LocalInfo]
    ensures is { result.now ≡ spec.params_of function.now }
    ensures few { length result.now < 2 ^ 32 }
{
    let locals = function.locals.as_slice();
    let count = (function.params as usize).min(locals.len());
    &locals[..count]
}

/// The code of a function with this frame.
pub fn function_code(
    alloc: Global,
    unit: &Typed,
    frame: &Frame,
    function: &TFunction,
) -> Result<SymCode, AllocError>
    requires { stmt_need function.now.body ≤ 32765 }
    ensures { IfOk result (λ code. code.items.items ≡ spec.function_code unit.now.structs function.now frame.now 0) }
{
    let mut code = SymCode {
        items: Vec::new(alloc),
    };
    store_arguments(frame, params_of(function), &mut code)?;
    push_body(alloc, unit, frame, &function.body, &mut code)?;
    push_moves(&mut code, RETURNED, 0)?;
    Ok(code)
}
