//! Checks, loads and stores in flat code, put inline into the functions of the program: the run ends, and objects and
//! accesses change, just as in the source.

pub mod checked;
pub mod held;
pub mod laws;
pub mod loading;
pub mod storing;

pub use crate::accesses::checked::{checked_load, checked_store};
pub use crate::accesses::held::HeldScalar;
pub use crate::accesses::loading::{load, load_operator};
pub use crate::accesses::storing::store;
pub use flat_actions::{spatial_check, temporal_check};
