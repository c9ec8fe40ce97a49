//! Sets of temporaries, as bits.

ghost use Rattle.std.specs.Prelude.{◌≡◌, ◌≢◌, ◌<◌, ◌*◌, ◌↔◌, ◌||◌, ℕ, IfOk, IsTrue, true, false};
ghost use Rattle.std.specs.Int.{bit_at};
ghost use Rattle.metadata_expansion.specs.TemporarySets.{is_in, room};

use std::alloc::{AllocError, Global};

/// A set of temporaries: a bit for each, 64 in a word.
#[derive(Drop)]
pub struct TemporarySet {
    words: Vec<u64>,
}

// Whether a word has a bit wherever another has one.
fn is_subset(left: u64, right: u64) -> bool
    ensures { IsTrue result ↔ ((i : ℕ) → i < 64 → bit_at left i ≡ 1 → bit_at right i ≡ 1) }
{
    left | right == right
}

impl TemporarySet {
    /// The empty set, with room for 64 temporaries a word.
    pub fn new(alloc: Global, words: usize) -> Result<TemporarySet, AllocError>
        ensures room { IfOk result (λ s. room s ≡ 64 * words) }
        ensures empty { IfOk result (λ s. (y : ℕ) → is_in s y ≡ false) }
    {
        let words = vec![in alloc; 0; words]?;
        Ok(TemporarySet { words })
    }

    /// Whether a temporary is in the set.
    pub fn contains(&self, temporary: usize) -> bool
        ensures { result ≡ is_in self.now temporary }
    {
        match self.words.get(temporary / 64) {
            Some(word) => (*word >> (temporary % 64)) & 1 == 1,
            None => false,
        }
    }

    /// Puts a temporary in.
    pub fn insert(&mut self, temporary: usize)
        requires { temporary < room self.old }
        ensures room { room self.new ≡ room self.old }
        ensures has { is_in self.new temporary ≡ true }
        ensures others { (y : ℕ) → y ≢ temporary → is_in self.new y ≡ is_in self.old y }
    {
        self.words[temporary / 64] |= 1 << (temporary % 64);
    }

    /// Takes a temporary out.
    pub fn remove(&mut self, temporary: usize)
        requires { temporary < room self.old }
        ensures room { room self.new ≡ room self.old }
        ensures gone { is_in self.new temporary ≡ false }
        ensures others { (y : ℕ) → y ≢ temporary → is_in self.new y ≡ is_in self.old y }
    {
        self.words[temporary / 64] &= !(1 << (temporary % 64));
    }

    /// Puts all of another set in, which has as much room.
    pub fn insert_all(&mut self, other: &TemporarySet)
        requires { room other.now ≡ room self.old }
        ensures room { room self.new ≡ room self.old }
        ensures both { (y : ℕ) → is_in self.new y ≡ (is_in self.old y || is_in other.now y) }
    {
        for i in 0..self.words.len() {
            self.words[i] |= other.words[i];
        }
    }

    /// Whether another set, which has as much room, has all that this one has.
    pub fn is_within(&self, other: &TemporarySet) -> bool
        requires { room other.now ≡ room self.now }
        ensures { IsTrue result ↔ ((y : ℕ) → is_in self.now y ≡ true → is_in other.now y ≡ true) }
    {
        for i in 0..self.words.len() {
            if !is_subset(self.words[i], other.words[i]) {
                return false;
            }
        }
        true
    }
}
