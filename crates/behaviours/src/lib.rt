//! Behaviours: what a run has shown for each budget, and when one behaviour follows another.
//!
//! The meaning of a source, of every language between, and of the machine are behaviours, so each
//! pass of the compiler has one statement, and the statements compose. The definitions stand in
//! `specs/`. The functions of this crate do nothing: each has a law of the definitions as its
//! contract. Laws over all step functions speak of all types and relations, which no contract can:
//! they are the public lemmas of `proofs/Running.antt`, for the proofs of the crates above. A
//! simulation gives for each moment of the one run a moment of the other that matches it
//! (`matched`), and so that the other follows it (`follows_by_steps`); and what follows a source is
//! never stuck (`never_stuck`).
#![tactic(auto)]

ghost use Rattle.std.specs.Prelude.{◌≡◌, ◌*◌, ◌≤◌, ℕ, List, [], None, Some};
ghost use Rattle.behaviours.specs.Shown.{Shown, IsPrefix, IsEarlier, nothing_shown};
ghost use Rattle.behaviours.specs.Behaviour.{Behaviour, Follows, IsSource, IsMachine, Faithful};

/// What is shown is an earlier moment of itself, and an earlier moment of an earlier moment is one.
pub fn earlier_moments_are_ordered()
    ensures first { (x : Shown) → IsEarlier nothing_shown x }
    ensures same { (x : Shown) → IsEarlier x x }
    ensures transitive { (x y z : Shown) → IsEarlier x y → IsEarlier y z → IsEarlier x z }
{}

/// Passes compose: where `y` follows `x` with the factor of cost `c`, and `z` follows `y` with `d`,
/// `z` follows `x` with their product.
pub fn following_composes()
    ensures { (c d : ℕ) (x y z : Behaviour) → Follows c x y → Follows d y z → Follows (d * c) x z }
{}

/// A machine that follows a source is faithful to it: it is never ahead, ends as the source,
/// reaches all within the bound on instructions, and makes the same accesses.
pub fn following_is_faithful()
    ensures { (c : ℕ) (source machine : Behaviour) →
        Follows c source machine → IsSource source → IsMachine machine → Faithful c source machine }
{}
