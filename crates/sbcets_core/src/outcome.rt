//! What the program comes to, and its exit status.
ghost use Rattle.std.specs.Prelude.{◌≡◌};
ghost use Rattle.sbcets_core.specs.Outcomes.{status_of};

use crate::refusal::SourceRefusal;
use elf_image::ImageFault;
use rv_listing::ListFault;
use rv_sim::TrapKind;

/// Why a file was not read.
#[derive(Clone, Copy, Debug, PartialEq, Eq)]
pub enum ReadFault {
    /// The outside failed, or there is no file of the name.
    Failed,
    /// It has so many bytes, which is more than `max`, the most that are read. Where the files do not
    /// tell their content, the number is only above `max`.
    TooLong { len: u64, max: u64 },
}

/// What the program comes to.
#[derive(Debug, Drop)]
pub enum Outcome {
    /// The run ended with this status.
    Exited(u8),
    /// The image was written, and the line about it.
    Built,
    /// The listing was put to the output, or the image that a listing spells was written.
    Done,
    /// The words are no command.
    Usage,
    /// The source or the image was not read.
    ReadFault(ReadFault),
    /// The image file, the output or the error output took no more.
    WriteFault,
    /// The input failed.
    InputFault,
    /// There was not enough memory.
    Memory,
    /// The run had not ended after so many instructions.
    Limit(u64),
    /// What a source means had not ended after so many turns: each entry into a loop's body is one, and each call of a
    /// function of the source.
    Running(u64),
    /// The source was refused.
    Refused(SourceRefusal),
    /// The image was refused: the first of its tests that fails.
    ImageRefused(ImageFault),
    /// The listing was refused: the first line at fault, counted from 1, and the lowest fault that it has.
    ListRefused { kind: ListFault, line: u64 },
    /// The run met a trap of the machine at this pc. An image that was built here never does.
    Trap { kind: TrapKind, pc: u64 },
}

impl Outcome {
    /// The exit status of the program.
    pub fn status(&self) -> u8
        ensures { result ≡ status_of self.now }
    {
        match self {
            Outcome::Exited(code) => *code,
            Outcome::Built | Outcome::Done => 0,
            Outcome::Usage => 101,
            Outcome::ReadFault(_) => 102,
            Outcome::WriteFault => 103,
            Outcome::InputFault => 104,
            Outcome::Memory => 105,
            Outcome::Limit(_) => 106,
            Outcome::Running(_) => 107,
            Outcome::Refused(_) => 110,
            Outcome::ImageRefused(_) => 111,
            Outcome::Trap { .. } => 112,
            Outcome::ListRefused { .. } => 113,
        }
    }
}
