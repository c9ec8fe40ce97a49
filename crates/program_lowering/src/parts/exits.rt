//! Where a statement is left for.

ghost use Rattle.std.specs.Prelude.{◌≡◌};

/// Where a statement is left for: the node behind it, that of a `break`, of a `continue`, and of a `return` with its
/// value in temporary 0.
#[derive(Clone, Copy)]
pub struct Exits {
    pub next: usize,
    pub breaks: usize,
    pub continues: usize,
    pub returns: usize,
}

/// Where the statements of a block are left for, and the number of the block in the table of its function, which it has
/// where it has objects.
#[derive(Clone, Copy)]
pub struct BlockExits {
    pub block: Option<usize>,
    pub exits: Exits,
}

impl Exits {
    ghost use Rattle.std.specs.Prelude.{◌≡◌};
    ghost use Rattle.program_lowering.specs.StatementParts.Leaving.{exits_of, before};
    ghost use Rattle.c_lower.specs.Statements.{in_loop, in_switch};

    /// Those of the body of a loop whose turn ends at a node.
    pub fn in_loop(self, step: usize) -> Exits
        ensures { exits_of result ≡ in_loop (exits_of self) step }
    {
        Exits {
            next: step,
            breaks: self.next,
            continues: step,
            returns: self.returns,
        }
    }

    /// Those of the items of a switch.
    pub fn in_switch(self) -> Exits
        ensures { exits_of result ≡ in_switch (exits_of self) }
    {
        Exits {
            next: self.next,
            breaks: self.next,
            continues: self.continues,
            returns: self.returns,
        }
    }

    /// Those of a statement behind which another stands.
    pub fn before(self, next: usize) -> Exits
        ensures { exits_of result ≡ before (exits_of self) next }
    {
        Exits {
            next,
            breaks: self.breaks,
            continues: self.continues,
            returns: self.returns,
        }
    }
}
