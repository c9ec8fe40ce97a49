//! Lines of a source text.

use std::marker::Model;

/// The number of a line, from 1 to 2^32 - 1.
#[derive(Clone, Copy, Debug, PartialEq, Eq)]
pub struct Line {
    number: u32,
}

impl Model for Line {
    ghost use Rattle.std.specs.Prelude.{ℕ, ◌<◌};

    ghost Value = { ℕ };

    ghost view = { λ line. line.number };

    ghost invariant = { λ line. 0 < line.number };

    ghost inverse = { λ n. record { number = n } };
}

impl Line {
    ghost use Rattle.std.specs.Prelude.{◌≡◌, ◌+◌, ◌<◌, ◌^◌};

    /// The line with this number, which is not 0.
    pub fn new(number: u32) -> Self
        requires { 0 < number }
        ensures { result ≡ number }
    {
        Line { number }
    }

    /// The line of the first byte.
    pub fn first() -> Self
        ensures { result ≡ 1 }
    {
        Line { number: 1 }
    }

    /// The line after this one. The caller shows that its number is below 2^32.
    pub fn next(self) -> Self
        requires { self + 1 < 2 ^ 32 }
        ensures { result ≡ self + 1 }
    {
        Line {
            number: self.number + 1,
        }
    }

    /// The number of this line, at least 1.
    pub fn number(self) -> u32
        ensures value { result ≡ self }
        ensures some { 0 < result }
    {
        self.number
    }
}
