//! The command line of the tool: from the words after the program's name to a command.
//!
//!     build SOURCE IMAGE [--heap N] [--stack N] [--calls N] [--blocks N] [--keys N]
//!     run IMAGE [--limit N]
//!     go SOURCE [--heap N] [--stack N] [--calls N] [--blocks N] [--keys N] [--limit N]
//!     list IMAGE
//!     asm LISTING IMAGE
//!     work SEED COUNT
//!
//! The words are read as `clap` reads them: an option stands before or after the operands, as
//! `--heap N` or `--heap=N`, at most once, and after `--` each word is an operand. A request for
//! help is no command.
#![tactic(auto)]

mod command;
mod command_words;
mod generator;
mod number;
mod program;

pub use command::{Command, WordsFault};
pub use command_words::command_of;
pub use generator::work_source;
