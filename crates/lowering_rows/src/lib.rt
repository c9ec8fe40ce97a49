//! Worked rows of lowering: a program, its code in three-address form, that the one is the other lowered, and the run
//! of
//! both, computed from the definitions by the check. The rows stand in `proofs/`.
#![tactic(auto)]
