ghost use Rattle.std.specs.Prelude.{◌≡◌};
ghost use Rattle.a64_alu.specs.Condition.{base_condition, condition_holds};

use crate::flags::Flags;

/// What the upper three bits of a condition ask.
fn base_condition(base: u8, flags: Flags) -> bool
    ensures { result ≡ base_condition base flags }
{
    match base {
        0 => flags.zero,
        1 => flags.carry,
        2 => flags.negative,
        3 => flags.overflow,
        4 => flags.carry && !flags.zero,
        5 => flags.negative == flags.overflow,
        6 => flags.negative == flags.overflow && !flags.zero,
        _ => true,
    }
}

/// Whether the condition of an instruction holds, `ConditionHolds` of the Arm ARM. From 14 on all hold.
pub fn condition_holds(cond: u8, flags: Flags) -> bool
    ensures { result ≡ condition_holds cond flags }
{
    let holds = base_condition(cond / 2, flags);
    if cond < 14 && cond % 2 == 1 {
        !holds
    } else {
        holds
    }
}
