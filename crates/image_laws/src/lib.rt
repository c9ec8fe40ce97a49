//! What stands between a typed program and its image: laws alone, a module a subject.
//!
//! `lowering`: what code a compiled program has. `propagation`: what propagated programs keep. `plans`: its flat code
//! can be planned. `assignment`: functions whose code assigns what it reads can be planned, and so expanded programs.
//! `definite`: functions of checked code do so. `encoding`: expanded programs are encodable. `images` and `expansions`:
//! its image does what the program means. `code_sizes` and `sizes`: how large its code is.
#![tactic(auto)]

pub mod laws;
