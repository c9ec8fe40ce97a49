//! Why an instruction cannot be done.

/// Why an instruction cannot be done. The machine stops there, and the instruction changes nothing.
#[derive(Clone, Copy, Debug, PartialEq, Eq)]
pub enum TrapKind {
    /// The word is no instruction of RV64IM.
    Illegal,
    /// A fetch, a load, a store or the buffer of an environment call has a byte outside the segment
    /// in which it begins, or that segment does not permit it.
    Access,
    /// A jump or a taken branch to an address that is no multiple of 4.
    Jump,
    /// EBREAK.
    Break,
    /// An environment call whose number is not known.
    Call,
}

impl TrapKind {
    ghost use Rattle.std.specs.Prelude.{◌≡◌};
    ghost use Rattle.rv_sim.specs.Trap.{trap_number};

    /// The number by which a trap is told, 1 to 5.
    pub fn number(self) -> u8
        ensures { result ≡ trap_number self }
    {
        match self {
            TrapKind::Illegal => 1,
            TrapKind::Access => 2,
            TrapKind::Jump => 3,
            TrapKind::Break => 4,
            TrapKind::Call => 5,
        }
    }
}

/// What one step comes to.
#[derive(Clone, Copy, Debug, PartialEq, Eq)]
pub enum Action {
    /// The instruction was done.
    Done,
    /// ECALL: the environment is asked, and the state is as it was.
    Ask,
    /// The instruction cannot be done, and the state is as it was.
    Refuse(TrapKind),
}
