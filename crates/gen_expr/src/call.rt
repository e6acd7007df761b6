//! Calls: each argument is kept, and then all come into their registers.

ghost use Rattle.std.specs.Prelude.{◌≡◌, ◌≤◌, ◌+◌, length, map, OnOk};
ghost use Rattle.frame_layout.specs.Needs.{arguments as arguments_need, need};
ghost use Rattle.gen_base.specs.Code.{Appends, plain};
ghost use Rattle.gen_expr.specs.Expressions.{coded};
ghost use Rattle.gen_expr.specs.Laws.ArgumentLaws.{fetches};
ghost use Rattle.gen_expr.specs.Nodes as nodes;

use crate::destination::Destination;
use crate::value::value;
use a64_code::Instr;
use c_type_base::{Callee, TExpr, Typed};
use frame_layout::Frame;
use gen_base::{RETURNED, argument, push, push_fetch, push_instr, push_keep, push_move};
use std::alloc::AllocError;
use sym_code::{SymCode, SymItem};

// Appends: so many arguments, which temps from one on keep, come into their registers.
fn fetch_arguments(temp: u64, count: u64, code: &mut SymCode) -> Result<(), AllocError>
    requires { temp + count ≤ 32765 }
    ensures { OnOk result (Appends code.old (plain (fetches temp 0 count)) code.new) }
{
    for number in 0..count {
        push_fetch(code, temp + number, argument(number))?;
    }
    Ok(())
}

// Appends the call itself.
fn push_called(callee: Callee, code: &mut SymCode) -> Result<(), AllocError>
    ensures { OnOk result (Appends code.old (nodes.called callee) code.new) }
{
    match callee {
        Callee::Function(number) => push(code, SymItem::CallFunction(number)),
        Callee::Extern(number) => push(code, SymItem::CallExtern(number)),
        Callee::Putchar => push_instr(code, Instr::Svc { imm16: 1 }),
        Callee::Getchar => push_instr(code, Instr::Svc { imm16: 2 }),
    }
}

// Appends: the arguments are evaluated one by one, and kept.
#[cycle(value)]
fn keep_arguments(
    unit: &Typed,
    frame: &Frame,
    arguments: &[TExpr],
    to: Destination,
    code: &mut SymCode,
) -> Result<(), AllocError>
    requires { to.temp + arguments_need (map need arguments.now) ≤ 32765 }
    ensures { OnOk result (Appends code.old
        (nodes.keep_arguments to.temp to.reg (map (coded unit.now.structs frame.now) arguments.now)) code.new) }
{
    let mut temp = to.temp;
    for argument in arguments {
        value(
            unit,
            frame,
            argument,
            Destination { temp, reg: to.reg },
            code,
        )?;
        push_keep(code, temp, to.reg)?;
        temp += 1;
    }
    Ok(())
}

// Appends a call.
#[cycle(value)]
pub fn call(
    unit: &Typed,
    frame: &Frame,
    callee: Callee,
    arguments: &[TExpr],
    to: Destination,
    code: &mut SymCode,
) -> Result<(), AllocError>
    requires { to.temp + arguments_need (map need arguments.now) ≤ 32765 }
    ensures { OnOk result (Appends code.old
        (nodes.call_value callee (map (coded unit.now.structs frame.now) arguments.now) to.temp to.reg) code.new) }
{
    keep_arguments(unit, frame, arguments, to, code)?;
    fetch_arguments(to.temp, arguments.len() as u64, code)?;
    push_called(callee, code)?;
    push_move(code, RETURNED, to.reg)
}
