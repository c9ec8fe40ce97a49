//! What an interpreter keeps of a run, and the least of what it does.

ghost use Rattle.std.specs.Prelude.{◌≡◌, ◌+◌, min, get_or, set, Ok};
ghost use Rattle.obj_memory.specs.Objects.{pointer_to};
ghost use Rattle.source_meaning.specs.State.{Setting, read_state, tally};
ghost use Rattle.source_meaning.specs.Actions.{begin_turn, home_pointer, integer, note, plain_value, set_plain};
ghost use Rattle.source_meaning.specs.Actions.{take_key};
ghost use Rattle.source_interp.specs.Outside.{Outside, kind_by};
ghost use Rattle.source_interp.specs.Standing.{Acts, ActsAlone, ActsTraced, last_count};

use crate::homes::Homes;
use crate::stop::{Cause, Fault, Stop};
use crate::trace::{Access, Trace};
use crate::value::integer;
use interpreter_objects::{Blocks, Store};
use obj_memory::Value;

/// The state of a run (C99 5.1.2.3), but for what the outside has: its input, its output and its trace.
#[derive(Drop)]
pub struct Machine {
    /// The objects, of which the dead have neither bytes nor tags.
    pub store: Store,
    /// The live blocks of the heap.
    pub blocks: Blocks,
    /// For each variable of the function that runs the number of its object, where its block is entered.
    pub frame: Homes,
    /// The values of the plain variables of the function that runs.
    pub plain: Vec<Value>,
    /// The number of bytes taken of the input.
    pub taken: u64,
    /// The work done. It stands still at `u128::MAX`.
    pub work: u128,
    /// The number of accesses. It stands still at `u128::MAX`.
    pub accesses: u128,
    /// The number of turns begun.
    pub turns: u64,
    /// The bytes of the budget `calls` that calls are charged with.
    pub charged: u64,
    /// The first address behind the automatic objects.
    pub stacked: u64,
    /// The number of keys made.
    pub keys: u64,
}

impl Machine {
    fn add_work(&mut self, work: u64)
        ensures { self.new ≡ record self.old { work = min (self.old.work + work) last_count } }
    {
        self.work = self.work.saturating_add(u128::from(work));
    }

    /// Some work is done.
    #[tactic(auto, using(crate::proofs::Least::tallies))]
    pub fn tally(&mut self, work: u64)
        ensures { ActsAlone self.old self.new (Ok tt) (tally work) }
    {
        self.add_work(work);
    }

    fn count_access(&mut self)
        ensures { self.new ≡ record self.old { accesses = min (self.old.accesses + 1) last_count } }
    {
        self.accesses = self.accesses.saturating_add(1);
    }

    /// An access is noted.
    #[tactic(auto, using(crate::proofs::Least::notes))]
    pub fn note<T: Trace>(
        &mut self,
        trace: &mut T,
        written: bool,
        address: u64,
        size: u64,
    ) -> Result<(), Stop>
        ensures { ActsTraced self.old self.new (T.noted trace.old) (T.noted trace.new) result
            (note (kind_by written) address size) }
    {
        let access = Access {
            written,
            address,
            size,
        };
        if trace.note(access).is_err() {
            return Err(Stop::Failed(Fault::Trace));
        }
        self.count_access();
        Ok(())
    }

    fn value_of(&self, variable: usize) -> Value
        ensures { result ≡ get_or self.now.plain.items variable (integer 0) }
    {
        match self.plain.get(variable) {
            Some(value) => *value,
            None => integer(0),
        }
    }

    /// The value of a plain variable.
    #[tactic(auto, using(crate::proofs::Least::reads_plain))]
    pub fn plain_value(&self, variable: usize) -> Value
        ensures { ActsAlone self.now self.now (Ok result) (read_state (plain_value variable)) }
    {
        self.value_of(variable)
    }

    fn assign(&mut self, variable: usize, value: Value)
        ensures value { self.new.plain.items ≡ set self.old.plain.items variable value }
        ensures same { self.new ≡ record self.old { plain = self.new.plain } }
    {
        if variable < self.plain.len() {
            self.plain[variable] = value;
        }
    }

    /// A plain variable gets a value.
    #[tactic(auto, using(crate::proofs::Least::sets_plain))]
    pub fn set_plain(&mut self, variable: usize, value: Value)
        ensures { ActsAlone self.old self.new (Ok tt) (set_plain variable value) }
    {
        self.assign(variable, value);
    }

    /// The pointer to a whole object.
    pub fn pointer_to(&self, number: usize) -> Result<Value, Stop>
        ensures { ActsAlone self.now self.now result (read_state (λ s. pointer_to number s.objects)) }
    {
        match self.store.pointer_to(number) {
            Some(pointer) => Ok(pointer),
            None => Err(Stop::Failed(Fault::Memory)),
        }
    }

    /// The pointer to the object of a variable.
    #[tactic(auto, using(crate::proofs::Least::points_no_home))]
    pub fn home_pointer(&self, variable: usize) -> Result<Value, Stop>
        ensures { ActsAlone self.now self.now result (read_state (home_pointer variable)) }
    {
        match self.frame.home(variable) {
            Some(number) => self.pointer_to(number),
            None => Ok(integer(0)),
        }
    }

    /// One turn more begins, where the limit allows it.
    #[tactic(auto, using(crate::proofs::Least::begins_turn))]
    pub fn begin_turn(&mut self, limit: u64) -> Result<(), Stop>
        ensures { ActsAlone self.old self.new result (begin_turn limit) }
    {
        if self.turns >= limit {
            return Err(Stop::Paused);
        }
        self.turns += 1;
        Ok(())
    }

    /// One key more is made, where the budget `keys` allows it.
    #[tactic(auto, using(crate::proofs::Least::takes_key))]
    pub fn take_key(&mut self, budget: u64, line: u32) -> Result<(), Stop>
        ensures { (g : Setting) (o : Outside) → budget ≡ g.sizes.budgets.keys
            → Acts g self.old self.new o o result (take_key g line) }
    {
        if self.keys >= budget {
            return Err(Stop::Ended(Cause::Keys, line));
        }
        self.keys += 1;
        Ok(())
    }
}
