/// The condition flags N, Z, C and V of PSTATE (Arm ARM).
#[derive(Clone, Copy)]
pub struct Flags {
    pub negative: bool,
    pub zero: bool,
    pub carry: bool,
    pub overflow: bool,
}
