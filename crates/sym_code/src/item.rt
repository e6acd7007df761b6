//! What symbolic code is made of.

use a64_code::{Instr, Reg};
use frame_layout::Slots;

/// An instruction, or a few of them that wait for a place: that of a label, of a slot, of an object, a text or a function.
#[derive(Drop)]
pub enum SymItem {
    Plain(Instr),
    /// The place where the jumps with this number go. It has no instruction.
    Label(u32),
    Jump(u32),
    /// Where all 64 bits of the register are zero.
    JumpIfZero(Reg, u32),
    JumpIfNotZero(Reg, u32),
    /// The pointer to a parameter or local, with its tag, by its number among the function's.
    SlotAddress(u32, Reg),
    /// The pointer to an object, with its tag, by its number among those that the file defines.
    GlobalAddress(u32, Reg),
    /// The pointer to what another file defines, by its number among the externs.
    ExternAddress(u32, Reg),
    /// The pointer to a text, by its number.
    TextAddress(u32, Reg),
    /// The call of a function that the file defines, by its number, with its arguments in X0 and on, and its value in X0 after it.
    CallFunction(u32),
    /// The same of a function that another file defines, by its number among the externs.
    CallExtern(u32),
    /// The function ends, with its value in X0.
    Leave,
    /// An inner scope is entered, whose tagged slots these are.
    EnterScope(Slots),
    /// Inner scopes are left, whose slots are those from one number to another.
    LeaveScope(u32, u32),
}

/// Symbolic code, in its order.
#[derive(Drop)]
pub struct SymCode {
    pub items: Vec<SymItem>,
}
