//! What a caller gets back when a call returns (C99 6.5.2.2, 6.8.6.4).

ghost use Rattle.std.specs.Prelude.{◌≡◌, Ok};
ghost use Rattle.source_meaning.specs.State.{change, read_state};
ghost use Rattle.source_meaning.specs.Calls.{back_to, caller};
ghost use Rattle.source_interp.specs.Standing.{ActsAlone};

use crate::homes::Homes;
use crate::machine::Machine;
use crate::stop::Stop;
use obj_memory::Value;
use std::alloc::Global;
use std::marker::Model;
use std::mem;

/// What a caller gets back when a call returns.
#[derive(Drop)]
pub struct Caller {
    frame: Homes,
    plain: Vec<Value>,
    charged: u64,
    stacked: u64,
}

impl Model for Caller {
    ghost use Rattle.source_meaning.specs.Calls.{Caller as OfCaller};

    ghost Value = { OfCaller };

    ghost view = { λ c. record {
      frame = c.frame;
      plain = c.plain.items;
      charged = c.charged;
      stacked = c.stacked;
    } };
}

impl Machine {
    /// What the function that runs gets back.
    #[tactic(auto, using(crate::proofs::Calling::reads_caller, crate::proofs::Acting::failing))]
    pub fn caller(&self, alloc: Global) -> Result<Caller, Stop>
        ensures { ActsAlone self.now self.now result (read_state caller) }
    {
        let frame = self.frame.copy(alloc)?;
        let plain = Vec::from_slice(alloc, &self.plain)?;
        Ok(Caller {
            frame,
            plain,
            charged: self.charged,
            stacked: self.stacked,
        })
    }

    #[tactic(auto, using(crate::proofs::Calling::swaps))]
    fn swap_frame(&mut self, caller: Caller) -> Homes
        ensures homes { result ≡ self.old.frame }
        ensures frame { ActsAlone self.old self.new (Ok tt) (change (λ s. record s {
          frame = caller.frame;
          plain = caller.plain;
          charged = caller.charged;
          stacked = caller.stacked;
        })) }
    {
        let Caller {
            frame,
            plain,
            charged,
            stacked,
        } = caller;
        self.plain = plain;
        self.charged = charged;
        self.stacked = stacked;
        mem::replace(&mut self.frame, frame)
    }

    /// A call returns: the objects that are still entered die, and its caller gets back what it had.
    pub fn back_to(&mut self, caller: Caller) -> Result<(), Stop>
        ensures { ActsAlone self.old self.new result (change (back_to caller)) }
    {
        let homes = self.swap_frame(caller);
        self.bury_all(homes.as_slice())
    }
}
