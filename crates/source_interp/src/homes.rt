//! Where the variables of a function are kept (C99 6.2.4 paragraph 5).

ghost use Rattle.std.specs.Prelude.{◌≡◌, [], ◌∷◌, ◌++◌, get_or, length, map, IfOk, OnOk};
ghost use Rattle.source_meaning.specs.State.{NoObject};
ghost use Rattle.source_meaning.specs.Blocks.{homes_over, over};
ghost use Rattle.source_interp.specs.Homes.{home_of, homes_of};

use std::alloc::{AllocError, Global};
use std::marker::Model;

/// For each variable of a function, by its number, the number of its object, where it is one and its block is entered.
#[derive(Drop)]
pub struct Homes {
    items: Vec<Option<usize>>,
}

impl Model for Homes {
    ghost use Rattle.std.specs.Prelude.{List};
    ghost use Rattle.source_meaning.specs.State.{Home};
    ghost use Rattle.source_interp.specs.Homes.{homes_of};

    ghost Value = { List Home };

    ghost view = { λ homes. homes_of homes.items.items };
}

// The home in a block that is entered, else the one around it.
fn over(outer: Option<usize>, inner: Option<usize>) -> Option<usize>
    ensures { home_of result ≡ over (home_of outer) (home_of inner) }
{
    match inner {
        Some(_) => inner,
        None => outer,
    }
}

impl Homes {
    /// Of no variables.
    pub fn new(alloc: Global) -> Homes
        ensures { result ≡ [] }
    {
        Homes {
            items: Vec::new(alloc),
        }
    }

    #[tactic(auto, using(crate::proofs::Housing::as_many))]
    fn count(&self) -> usize
        ensures { result ≡ length self.now }
    {
        self.items.len()
    }

    /// The number of the object of a variable.
    #[tactic(auto, using(crate::proofs::Housing::at_home))]
    pub fn home(&self, variable: usize) -> Option<usize>
        ensures { home_of result ≡ get_or self.now variable NoObject }
    {
        match self.items.get(variable) {
            Some(home) => *home,
            None => None,
        }
    }

    /// The home of one variable more.
    #[tactic(auto, using(crate::proofs::Housing::one_more))]
    pub fn push(&mut self, home: Option<usize>) -> Result<(), AllocError>
        ensures { OnOk result (self.new ≡ self.old ++ (home_of home ∷ [])) }
    {
        self.items.push(home)?;
        Ok(())
    }

    /// The homes in order.
    pub fn as_slice(&self) -> &[Option<usize>]
        ensures { homes_of result.now ≡ self.now }
    {
        &self.items
    }

    /// The same homes.
    pub fn copy(&self, alloc: Global) -> Result<Homes, AllocError>
        ensures { IfOk result (λ homes. homes ≡ self.now) }
    {
        let items = Vec::from_slice(alloc, &self.items)?;
        Ok(Homes { items })
    }

    /// Those of a block that is entered, and of the other variables these.
    pub fn over(&self, alloc: Global, inner: &Homes) -> Result<Homes, AllocError>
        ensures { IfOk result (λ homes. homes ≡ homes_over self.now inner.now) }
    {
        let mut items = Vec::new(alloc);
        for i in 0..self.count().max(inner.count()) {
            items.push(over(self.home(i), inner.home(i)))?;
        }
        Ok(Homes { items })
    }
}
