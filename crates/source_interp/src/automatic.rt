//! Automatic objects: they are placed on the object stack, and die where their block is left (C99 6.2.4).

ghost use Rattle.std.specs.Prelude.{◌≡◌, ◌+◌, IfSome, Ok};
ghost use Rattle.obj_memory.specs.declared.object.Storage.TheVariants.{Automatic};
ghost use Rattle.obj_memory.specs.Heap.{rounded_up};
ghost use Rattle.c_tree.specs.Kinds.{size_of_kind};
ghost use Rattle.source_meaning.specs.State.{change};
ghost use Rattle.source_meaning.specs.Actions.{make_object};
ghost use Rattle.source_meaning.specs.Blocks.{place_object, place_variable};
ghost use Rattle.source_interp.specs.Homes.{housed};
ghost use Rattle.source_interp.specs.Placing.{add_automatic, place_behind};
ghost use Rattle.source_interp.specs.Standing.{ActsAlone};

use crate::machine::Machine;
use crate::stop::{Fault, Stop};
use c_tree::{Kind, Variable};
use obj_memory::Storage;

/// Where an object stands: its first address, and the first behind it.
#[derive(Clone, Copy)]
struct Extent {
    start: u64,
    end: u64,
}

/// The bytes of an object of a kind.
pub fn size_of(kind: Kind) -> u64
    ensures { result ≡ size_of_kind kind }
{
    match kind {
        Kind::Void => 0,
        Kind::Scalar(scalar) => scalar.size(),
        Kind::Structure(size) | Kind::Array(size) => size,
    }
}

/// The least multiple of 16 that is not below a number, where both are below 2^64.
pub fn rounded(number: u64) -> Option<u64>
    ensures { IfSome result (λ n. n ≡ rounded_up 16 number) }
{
    let sum = number.checked_add(15)?;
    Some(sum / 16 * 16)
}

// Where an object of so many bytes stands that is placed behind an address.
fn extent_of(top: u64, size: u64) -> Option<Extent>
    ensures start { IfSome result (λ e. e.start ≡ rounded_up 16 top) }
    ensures end { IfSome result (λ e. e.end ≡ rounded_up 16 top + size) }
{
    let start = rounded(top)?;
    let end = start.checked_add(size)?;
    Some(Extent { start, end })
}

/// A number and one, where their sum fits.
pub fn one_and(number: u64) -> Option<u64>
    ensures { IfSome result (λ n. n ≡ 1 + number) }
{
    1u64.checked_add(number)
}

impl Machine {
    #[tactic(auto, using(crate::proofs::Stacked::sets_top))]
    fn set_top(&mut self, stacked: u64)
        ensures { ActsAlone self.old self.new (Ok tt) (change (λ s. record s { stacked = stacked })) }
    {
        self.stacked = stacked;
    }

    #[tactic(auto, using(crate::proofs::Stacked::adding, crate::proofs::Acting::failing))]
    fn add_object(&mut self, address: u64, size: u64) -> Result<usize, Stop>
        ensures { ActsAlone self.old self.new result (add_automatic address size) }
    {
        let number = self.store.add(Storage::Automatic, address, size)?;
        Ok(number)
    }

    #[tactic(auto, using(crate::proofs::Acting::failing))]
    fn make_automatic(&mut self, address: u64, size: u64) -> Result<usize, Stop>
        ensures { ActsAlone self.old self.new result (make_object Automatic address size) }
    {
        match one_and(size) {
            Some(work) => {
                self.tally(work);
                self.add_object(address, size)
            }
            None => Err(Stop::Failed(Fault::Memory)),
        }
    }

    fn place_in(&mut self, extent: Extent, size: u64) -> Result<Option<usize>, Stop>
        ensures { ActsAlone self.old self.new (housed result)
            (place_behind extent.start extent.end size) }
    {
        self.set_top(extent.end);
        let number = self.make_automatic(extent.start, size)?;
        Ok(Some(number))
    }

    // An object on top of the object stack.
    fn place_object(&mut self, size: u64) -> Result<Option<usize>, Stop>
        ensures { ActsAlone self.old self.new (housed result) (place_object size) }
    {
        match extent_of(self.stacked, size) {
            Some(extent) => self.place_in(extent, size),
            None => Err(Stop::Failed(Fault::Memory)),
        }
    }

    /// The object of a variable that is one is placed on top of the object stack.
    pub fn place_variable(&mut self, variable: Variable) -> Result<Option<usize>, Stop>
        ensures { ActsAlone self.old self.new (housed result) (place_variable variable) }
    {
        if variable.is_object {
            self.place_object(size_of(variable.kind))
        } else {
            Ok(None)
        }
    }
}
