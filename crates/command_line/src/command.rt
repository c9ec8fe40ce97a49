//! What the words ask for.
ghost use Rattle.std.specs.Prelude.{◌≡◌, ◌≢◌};
ghost use Rattle.clap.specs.Words.{kind_of};
ghost use Rattle.clap.specs.declared.error.kind.ErrorKind.TheVariants.{OutOfMemory};
ghost use Rattle.command_line.specs.declared.command.WordsFault.TheVariants.{Memory, Usage};

use clap::error::ErrorKind;
use sb_base::Budgets;
use std::alloc::AllocError;

/// What the tool is asked to do. A source and an image are names of files, as the words give them.
#[derive(Clone, Copy, Debug, PartialEq, Eq)]
pub enum Command<'a> {
    /// Compile the source to an image.
    Build {
        /// The file to compile.
        source: &'a str,
        /// The file to write.
        image: &'a str,
        /// What the compiled program may use.
        budgets: Budgets,
    },
    /// Run an image.
    Run {
        /// The file to run.
        image: &'a str,
        /// How many instructions the run may take, at most 2^62.
        limit: u64,
    },
    /// Compile the source and run its image.
    Go {
        /// The file to compile.
        source: &'a str,
        /// What the compiled program may use.
        budgets: Budgets,
        /// How many instructions the run may take, at most 2^62.
        limit: u64,
    },
    /// List an image.
    List {
        /// The file to list.
        image: &'a str,
    },
    /// Put the bytes of a listing together.
    Assemble {
        /// The file with the listing.
        listing: &'a str,
        /// The file to write.
        image: &'a str,
    },
    /// Compile and run the source that a seed draws (`work_source`).
    Work {
        /// The seed.
        seed: u64,
        /// How many functions the source has, 1 to 64.
        count: u64,
    },
}

/// Why there is no command.
#[derive(Clone, Copy, Debug, PartialEq, Eq)]
pub enum WordsFault {
    /// The words are no command, ask for help, or give a budget that is out of its range.
    Usage,
    /// Memory ran out.
    Memory,
}

impl From<AllocError> for WordsFault {
    ghost from_gives = { λ _ fault. fault ≡ Memory };

    fn from(_error: AllocError) -> WordsFault {
        WordsFault::Memory
    }
}

impl From<clap::Error> for WordsFault {
    ghost from_gives = { λ error fault. fault ≡ Usage → kind_of error ≢ OutOfMemory };

    fn from(error: clap::Error) -> WordsFault {
        match error.kind() {
            ErrorKind::OutOfMemory => WordsFault::Memory,
            _ => WordsFault::Usage,
        }
    }
}
