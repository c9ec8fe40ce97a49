//! The endings of a source's run.

ghost use Rattle.std.specs.Prelude.{◌≡◌, ◌≤◌, ◌+◌, ◌++◌, length, take, drop};
ghost use Rattle.sb_base.specs.Endings.{code_of, report_at, report_of};

use crate::line::Line;
use itoa::Buffer;

/// The bytes that a report is given to be put in. The longest has 46.
pub const REPORT_ROOM: usize = 64;

/// How the run of a source ended: by its own exit, or at a line, where it was stopped or called `abort`.
#[derive(Clone, Copy)]
pub enum Ending {
    /// `main` returned this value, or `exit` was called with it.
    Exit(i32),
    /// An access out of the bounds of its pointer, or through a pointer that has no object.
    Spatial(Line),
    /// A use of an object within its bounds, at a time at which it is no longer live.
    Temporal(Line),
    /// A call through a pointer that is not a function's own address, or is one of another type.
    BadCall(Line),
    /// A call of `free` with what is not the start of an object that `malloc` gave.
    BadFree(Line),
    /// A division or a remainder by zero.
    Divide(Line),
    /// A call for which the budget `calls` or `stack` had no room.
    Stack(Line),
    /// A call, of a function or of `malloc`, that needed a key where the budget `keys` was used up.
    Keys(Line),
    /// A call of `abort`.
    Abort(Line),
}

impl Ending {
    /// The exit status: at `Exit` its value modulo 256, else 120 to 126 in the order of the variants, and 134 at
    /// `Abort`.
    pub fn code(&self) -> u8
        ensures { result ≡ code_of self.now }
    {
        match *self {
            Ending::Exit(status) => status.rem_euclid(256).unsigned_abs() as u8,
            Ending::Spatial(_) => 120,
            Ending::Temporal(_) => 121,
            Ending::BadCall(_) => 122,
            Ending::BadFree(_) => 123,
            Ending::Divide(_) => 124,
            Ending::Stack(_) => 125,
            Ending::Keys(_) => 126,
            Ending::Abort(_) => 134,
        }
    }

    /// Puts the report at the front of `text`, as `sbcets: bad call at line 7` and a newline, and gives the number of
    /// its bytes, at most 46. The rest of `text` stays. Of `Exit` nothing is reported. It takes no memory.
    pub fn report_into(&self, text: &mut [u8; REPORT_ROOM]) -> usize
        ensures count { result ≡ length (report_of self.now) }
        ensures short { result ≤ 46 }
        ensures put { text.new ≡ report_of self.now ++ drop result text.old }
    {
        match *self {
            Ending::Exit(_) => 0,
            Ending::Spatial(line) => put_report(text, b"spatial violation", line),
            Ending::Temporal(line) => put_report(text, b"temporal violation", line),
            Ending::BadCall(line) => put_report(text, b"bad call", line),
            Ending::BadFree(line) => put_report(text, b"bad free", line),
            Ending::Divide(line) => put_report(text, b"division by zero", line),
            Ending::Stack(line) => put_report(text, b"stack exhausted", line),
            Ending::Keys(line) => put_report(text, b"keys exhausted", line),
            Ending::Abort(line) => put_report(text, b"abort", line),
        }
    }
}

// Puts the report of what happened at a line at the front, and gives the number of its bytes.
#[tactic(auto, unfolding(crate::specs::Endings::report_at))]
fn put_report(text: &mut [u8], what: &[u8], line: Line) -> usize
    requires short { length what.now ≤ 18 }
    requires room { 46 ≤ length text.old }
    ensures count { result ≡ length (report_at what.now line) }
    ensures short { result ≤ 46 }
    ensures put { text.new ≡ report_at what.now line ++ drop result text.old }
{
    let mut buffer = Buffer::new();
    let number = buffer.format(line.number()).as_bytes();
    let mut end = put(text, 0, b"sbcets: ");
    end = put(text, end, what);
    end = put(text, end, b" at line ");
    end = put(text, end, number);
    put(text, end, b"\n")
}

// Puts a piece at this place, and gives the place behind it. The other bytes stay.
fn put(text: &mut [u8], at: usize, piece: &[u8]) -> usize
    requires { at + length piece.now ≤ length text.old }
    ensures end { result ≡ at + length piece.now }
    ensures put { text.new ≡ take at text.old ++ (piece.now ++ drop result text.old) }
{
    let end = at + piece.len();
    text[at..end].copy_from_slice(piece);
    end
}
