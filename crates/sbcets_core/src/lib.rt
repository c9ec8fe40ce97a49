//! The compiler, and the call that does all that the program does.
//!
//! A source is accepted where it has a typed program within the limits. Programs of integers alone
//! (`compiled_programs`) are built, unless they are too large; all others are, where the back end covers their code and
//! its tests pass. What an accepted source means is what `source_meaning` says of its typed program
//! (`specs/Accepted.antt`).
#![tactic(auto)]

mod alone;
mod commands;
mod compiler;
pub mod laws;
mod listings;
mod outcome;
mod refusal;
mod report;
mod top;
mod typed_program;
mod works;

pub use command_line::work_source;
pub use compiler::{MAX_SOURCE, compile};
pub use image_compiler::Built;
pub use outcome::{Outcome, ReadFault};
pub use refusal::{Counted, RefusedWord, SourceRefusal};
pub use top::{finish, sbcets};
