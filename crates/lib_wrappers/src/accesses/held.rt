//! Registers that hold the value of a scalar.

ghost use Rattle.std.specs.Prelude.{◌≡◌, ◌≤◌};
ghost use Rattle.obj_memory.specs.Access.{scalar_size};
ghost use Rattle.lib_wrappers.specs.AccessRoutines.Holding.{scalar_in};

use flat_code::Held;
use obj_memory::IntType;

/// A scalar type, and the registers that hold a value of it.
#[derive(Clone, Copy)]
pub enum HeldScalar {
    /// An integer type, and the register.
    Integer(IntType, u32),
    /// A pointer, with its metadata.
    Pointer(Held),
}

impl HeldScalar {
    /// The number of bytes of the scalar.
    pub fn size(self) -> u64
        ensures value { result ≡ scalar_size (scalar_in self) }
        ensures some { 1 ≤ result }
        ensures few { result ≤ 8 }
    {
        match self {
            HeldScalar::Integer(of, _) => of.size(),
            HeldScalar::Pointer(_) => 8,
        }
    }
}
