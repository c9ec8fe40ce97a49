//! Worked rows of the meaning of typed programs: small programs, whose run is computed from the definitions by the
//! check. The rows
//! stand in `proofs/`, the C texts in `rows/` at the top of the repository.
#![tactic(auto)]
