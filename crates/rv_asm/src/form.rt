//! The forms of branches, jumps and calls, by how far they reach.
ghost use Rattle.std.specs.Prelude.{◌≡◌, ◌≤◌};
ghost use Rattle.rv_asm.specs.Forms.{size_of, shortest};

use crate::item::Item;

/// How far a branch, a jump or a call reaches (RISC-V unprivileged ISA manual, "Unconditional Jumps" and "Conditional
/// Branches").
#[derive(Clone, Copy, PartialEq, Eq)]
pub enum Form {
    /// A branch of one word, which reaches 4 KiB; a jump or a call as `Near`.
    Short,
    /// JAL, which reaches 1 MiB; a branch is the opposite branch over a JAL.
    Near,
    /// AUIPC and JALR, which reach 2 GiB and change x31; a branch is the opposite branch over both.
    Far,
}

impl Form {
    /// The shortest form in which a branch, a jump or a call from one place to another, in words, is in reach.
    pub(crate) fn shortest(from: u128, to: u128) -> Self
        ensures { result ≡ shortest from to }
    {
        let distance = from.abs_diff(to);
        if distance < 1024 {
            Form::Short
        } else if distance < 262_143 {
            Form::Near
        } else {
            Form::Far
        }
    }

    /// How many words an item has in this form.
    pub(crate) fn size(self, item: &Item) -> u32
        ensures value { result ≡ size_of self item.now }
        ensures small { result ≤ 3 }
    {
        match (item, self) {
            (Item::Label(_), _) => 0,
            (Item::Instr(_), _) => 1,
            (Item::Branch { .. }, Form::Short) => 1,
            (Item::Branch { .. }, Form::Near) => 2,
            (Item::Branch { .. }, Form::Far) => 3,
            (Item::Jump { .. } | Item::Call { .. }, Form::Far) => 2,
            (Item::Jump { .. } | Item::Call { .. }, _) => 1,
        }
    }
}
