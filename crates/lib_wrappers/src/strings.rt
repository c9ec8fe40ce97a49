//! Strings in flat code: the library's routines on them as whole actions, by functions of the runtime.
//!
//! A string is scanned by a loop that judges its first byte as an access of its own and each other against the bound
//! alone: its object cannot die in between.

pub mod bounded;
pub mod copying;
pub mod lengths;
pub mod printing;
pub mod scanning;

pub use crate::strings::bounded::strncpy;
pub use crate::strings::copying::{strcat, strcpy};
pub use crate::strings::lengths::strlen;
pub use crate::strings::printing::{put_bytes, puts};
pub use crate::strings::scanning::{scan, scan_at_most};
