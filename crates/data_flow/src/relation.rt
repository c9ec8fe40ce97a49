//! Relations of numbers, as adjacency lists.

ghost use Rattle.std.specs.Prelude.{◌≡◌, ◌<◌, ◌≢◌, ◌++◌, ◌∷◌, [], ℕ, IfOk, OnOk, length};
ghost use Rattle.data_flow.specs.Relations.{images};

use std::alloc::{AllocError, Global};

/// A relation of numbers: for each number below a bound, the numbers to which it is related.
#[derive(Drop)]
pub struct Relation {
    pub rows: Vec<Vec<u32>>,
}

impl Relation {
    /// The relation of so many numbers in which none is related to any.
    pub fn new(alloc: Global, count: usize) -> Result<Relation, AllocError>
        ensures size { IfOk result (λ r. length r.rows.items ≡ count) }
        ensures none { IfOk result (λ r. (a : ℕ) → images r a ≡ []) }
    {
        let mut rows = Vec::new(alloc);
        for _ in 0..count {
            rows.push(Vec::new(alloc))?;
        }
        Ok(Relation { rows })
    }

    /// Relates a number to one more.
    pub fn relate(&mut self, from: usize, to: u32) -> Result<(), AllocError>
        requires { from < length self.old.rows.items }
        ensures added { OnOk result (images self.new from ≡ images self.old from ++ to ∷ []) }
        ensures others { OnOk result ((a : ℕ) → a ≢ from → images self.new a ≡ images self.old a) }
        ensures size { length self.new.rows.items ≡ length self.old.rows.items }
    {
        let row = &mut self.rows[from];
        row.push(to)?;
        Ok(())
    }

    /// The numbers to which a number is related.
    pub fn images(&self, from: usize) -> &[u32]
        ensures { result.now ≡ images self.now from }
    {
        match self.rows.get(from) {
            Some(row) => row.as_slice(),
            None => &[],
        }
    }
}
