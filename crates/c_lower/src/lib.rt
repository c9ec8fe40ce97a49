//! Lowering: when code in three-address form stands for a typed program, and that it then does what the program means.
//!
//! `laws::liveness`: where temporaries of lowered code are needed.
#![tactic(auto)]

pub mod laws;
