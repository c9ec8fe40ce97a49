//! The sizes of loads and stores.

/// How many bytes a load or a store has, as the RISC-V manual names them.
#[derive(Clone, Copy, Debug, PartialEq, Eq)]
pub enum Width {
    /// 1 byte.
    Byte,
    /// 2 bytes.
    Half,
    /// 4 bytes.
    Word,
    /// 8 bytes.
    Double,
}

impl Width {
    ghost use Rattle.std.specs.Prelude.{◌≡◌};
    ghost use Rattle.rv_sim.specs.Width.{byte_count};

    /// The size in bytes: 1, 2, 4 or 8.
    pub fn bytes(self) -> usize
        ensures { result ≡ byte_count self }
    {
        match self {
            Width::Byte => 1,
            Width::Half => 2,
            Width::Word => 4,
            Width::Double => 8,
        }
    }
}
