//! What statements are made of, to three-address code: initializers, conditions, blocks that are entered and left, and
//! loops, also those that count.

pub mod assigned;
pub mod block;
pub mod counted;
pub mod exits;
pub mod initializer;
pub mod loops;
