//! Worked rows of typing, computed from the definitions by the check: expressions with their types, sizes and first
//! violated rules; whole sources with what their typed programs hold, or the first violated rule; and whole sources
//! with all rules that they violate. The rows stand in `proofs/`; `rows/units.py` and `rows/violations.py` make the
//! trees of whole sources from C texts.
#![tactic(auto)]
