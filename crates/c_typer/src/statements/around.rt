//! What a statement stands in.

ghost use Rattle.std.specs.Prelude.{◌≡◌};
ghost use Rattle.c_unit_typing.specs.Constructs as constructs;
ghost use Rattle.c_typer.specs.Around.{around_of};

use c_tree::TypeWord;

/// What a statement stands in: whether `break` and `continue` may stand there (C99 6.8.6), and the type of what the
/// function gives.
#[derive(Clone, Copy)]
pub struct Around<'t> {
    /// Whether `break` may stand there.
    pub may_break: bool,
    /// Whether `continue` may stand there.
    pub may_continue: bool,
    /// The type of what the function gives.
    pub result: &'t [TypeWord],
}

impl<'t> Around<'t> {
    /// The same inside a loop.
    pub(crate) fn looping(self) -> Around<'t>
        ensures { around_of result ≡ constructs.looping (around_of self.entry) }
    {
        Around {
            may_break: true,
            may_continue: true,
            result: self.result,
        }
    }

    /// The same inside a switch.
    pub(crate) fn switching(self) -> Around<'t>
        ensures { around_of result ≡ constructs.switching (around_of self.entry) }
    {
        Around {
            may_break: true,
            may_continue: self.may_continue,
            result: self.result,
        }
    }
}
