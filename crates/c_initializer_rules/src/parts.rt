//! The parts of an initializer in order (C99 6.7.8 paragraphs 19 and 22).

ghost use Rattle.std.specs.Prelude.{◌≡◌, ◌||◌, ◌++◌, ◌∷◌, [], OnOk, not, true, map};
ghost use Rattle.c_initializer_rules.specs.Order.{are_in_order};

use crate::order::{leads_behind, overrides};
use crate::placed::{PlacedPart, count_with};
use c_current_object::Step;
use c_tree::Part;
use std::alloc::{AllocError, Global};

/// The parts so far. While the steps of each part lead behind those of the part before, as they do where no
/// designator goes back, an initializer that leads behind the last overrides nothing, and no other part is looked at.
#[derive(Drop)]
pub struct Parts {
    placed: Vec<PlacedPart>,
    is_in_order: bool,
    ghost in_order: { (not is_in_order || are_in_order (map (λ p. p.path) placed.items)) ≡ true },
}

impl Parts {
    ghost use Rattle.std.specs.Prelude.{◌≡◌, [], ◌++◌, ◌∷◌, IfOk, OnOk};
    ghost use Rattle.c_initializer_rules.specs.Order.{leads_behind_last};
    ghost use Rattle.c_initializer_rules.specs.Parts.{parts_of};
    ghost use Rattle.c_initializer_rules.specs.Placed.{count_of, parts_in, placed_of, without};
    ghost use Rattle.c_tree.specs.View.{part_of};

    /// None yet.
    pub fn new(alloc: Global) -> Self
        ensures { parts_of result ≡ [] }
    {
        Parts {
            placed: Vec::new(alloc),
            is_in_order: true,
        }
    }

    // Whether steps lead behind those of the last part, if there is one.
    fn leads_behind_last(&self, path: &[Step]) -> bool
        ensures { result ≡ leads_behind_last path.now (map (λ p. p.path) self.now.placed.items) }
    {
        match self.placed.last() {
            Some(last) => leads_behind(path, last.path.as_slice()),
            None => true,
        }
    }

    // Removes what an initializer of the subobject at a path overrides, wherever it stands.
    fn remove(&mut self, path: &[Step])
        ensures { parts_of self.new ≡ without path.now (parts_of self.old) }
    {
        self.is_in_order = false;
        self.placed
            .retain(|placed| !overrides(path, placed.path.as_slice()));
        self.is_in_order = self.placed.is_empty();
    }

    /// Removes what an initializer of the subobject at a path overrides.
    pub fn make_room(&mut self, path: &[Step])
        ensures { parts_of self.new ≡ without path.now (parts_of self.old) }
    {
        if !self.is_in_order || !self.leads_behind_last(path) {
            self.remove(path);
        }
    }

    /// Adds a part behind the others.
    pub fn add(&mut self, placed: PlacedPart) -> Result<(), AllocError>
        ensures { OnOk result (parts_of self.new ≡ parts_of self.old ++ placed_of placed ∷ []) }
    {
        let is_in_order = self.is_in_order && self.leads_behind_last(placed.path.as_slice());
        self.is_in_order = false;
        push(&mut self.placed, placed)?;
        self.is_in_order = is_in_order;
        Ok(())
    }

    /// The number of elements of an array of unknown size, of which these are the parts: the greatest index and 1, or
    /// the bytes of a literal.
    pub fn count(&self) -> u64
        ensures { result ≡ count_of (parts_of self.now) }
    {
        let mut count = 0;
        for placed in &self.placed {
            count = count.max(count_with(placed.path.as_slice(), &placed.part.content));
        }
        count
    }

    /// The parts in order.
    pub fn into_parts(self, alloc: Global) -> Result<Vec<Part>, AllocError>
        ensures { IfOk result (λ parts. map part_of parts.items ≡ parts_in (parts_of self)) }
    {
        let Parts {
            placed: all,
            is_in_order: _,
        } = self;
        let mut parts = Vec::new(alloc);
        for placed in all {
            let PlacedPart { path: _, part } = placed;
            push(&mut parts, part)?;
        }
        Ok(parts)
    }
}

// Adds a value behind others.
fn push<T: Drop>(items: &mut Vec<T>, item: T) -> Result<(), AllocError>
    ensures { OnOk result (items.new.items ≡ items.old.items ++ item ∷ []) }
{
    items.push(item)?;
    Ok(())
}
