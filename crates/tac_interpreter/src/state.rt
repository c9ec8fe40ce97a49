//! The state of a run, and where the run is.

use crate::object::Object;
use crate::value::integer;
use obj_memory::{Bounds, Storage, Tag, Value};
use sb_base::Line;
use std::alloc::{AllocError, AllocFailed, Global};
use tac_ir::{StaticData, Tac};

/// The first address of objects.
const OBJECTS: u64 = 0x1000_0000;

/// The budgets of a run.
#[derive(Clone, Copy)]
pub struct Budgets {
    /// The bytes of the heap.
    pub heap: u64,
    /// The bytes of the stack of objects.
    pub stack: u64,
    /// The bytes that all calls that wait may be charged.
    pub calls: u64,
    /// The live blocks.
    pub blocks: u64,
    /// The keys that blocks, calls and allocations may take.
    pub keys: u64,
    /// The turns of loops and calls that the run may begin.
    pub turns: u64,
}

/// Where the regions of objects stand: the first addresses of the stack and of the heap, and the first behind the heap.
#[derive(Clone, Copy)]
pub(crate) struct Places {
    pub stack: u64,
    pub heap: u64,
    pub end: u64,
}

/// What ends a run but its own exit.
#[derive(Clone, Copy, PartialEq, Eq)]
pub enum Cause {
    /// An access is outside of its bounds.
    Spatial,
    /// An access is of an object that lives no more.
    Temporal,
    /// A pointer that is called is none to a function of this type.
    BadCall,
    /// A pointer that is freed is none to a block.
    BadFree,
    /// A divisor is zero.
    Divide,
    /// The stack of objects or the budget of calls is spent.
    Stack,
    /// No key is left.
    Keys,
    /// `abort` is called.
    Abort,
}

/// Why a run goes no further.
#[derive(Clone, Copy)]
pub enum Stop {
    /// It ended by its own exit, with this value.
    Exited(i32),
    /// It ended at the line with this number.
    Ended(Cause, u32),
    /// A step is wrong.
    Stuck,
    /// No turn is left.
    Paused,
    /// There is no memory.
    Memory,
}

impl From<AllocError> for Stop {
    fn from(_: AllocError) -> Stop {
        Stop::Memory
    }
}

impl<T: Drop> From<AllocFailed<T>> for Stop {
    fn from(_: AllocFailed<T>) -> Stop {
        Stop::Memory
    }
}

/// The run ends at a line.
pub(crate) fn ended(cause: Cause, line: Line) -> Stop {
    Stop::Ended(cause, line.number())
}

/// What a temporary holds: a value, and the number of its contents where it is a structure that stands for no place.
#[derive(Clone, Copy)]
pub(crate) struct Temporary {
    pub value: Value,
    pub contents: Option<usize>,
}

/// A value without contents.
pub(crate) fn plain(value: Value) -> Temporary {
    Temporary {
        value,
        contents: None,
    }
}

/// Where what belongs to the function that runs begins: the homes and the values of its variables, and its temporaries.
#[derive(Clone, Copy)]
pub(crate) struct Window {
    pub homes: usize,
    pub plain: usize,
    pub temporaries: usize,
}

/// A caller that waits: where it goes on, the temporary that gets the result, and what it gets back.
#[derive(Clone, Copy)]
pub(crate) struct Waiting {
    pub function: usize,
    pub node: usize,
    pub place: usize,
    pub window: Window,
    pub charged: u64,
    pub stacked: u64,
}

/// What a block is left with: its number, its objects, so many from a number on, where the homes from before it are
/// kept, and the top of the stack from before it.
#[derive(Clone, Copy)]
pub(crate) struct Entered {
    pub block: usize,
    pub first: usize,
    pub count: usize,
    pub kept: usize,
    pub stacked: u64,
}

/// What a return or the end of a block goes back to.
#[derive(Clone, Copy)]
pub(crate) enum Frame {
    Waits(Waiting),
    Entered(Entered),
}

/// An access of an object that was made.
#[derive(Clone, Copy)]
pub struct Access {
    /// Whether it wrote.
    pub is_write: bool,
    /// The address of its first byte.
    pub address: u64,
    /// How many bytes it has.
    pub size: u64,
}

/// The state of a run.
#[derive(Drop)]
pub(crate) struct State {
    pub alloc: Global,
    pub budgets: Budgets,
    pub places: Places,
    pub objects: Vec<Object>,
    /// The contents of structure values.
    pub contents: Vec<Object>,
    /// The numbers of the objects of variables, of all calls that wait and of the one that runs.
    pub homes: Vec<Option<usize>>,
    /// Homes from before blocks.
    pub kept: Vec<Option<usize>>,
    pub plain: Vec<Value>,
    pub temporaries: Vec<Temporary>,
    pub frames: Vec<Frame>,
    pub window: Window,
    /// The number of the function that runs.
    pub function: usize,
    pub input: Vec<u8>,
    pub taken: usize,
    pub output: Vec<u8>,
    pub accesses: Vec<Access>,
    pub work: u64,
    pub turns: u64,
    pub charged: u64,
    pub stacked: u64,
    pub keys: u64,
}

/// The next multiple of 16.
pub(crate) fn rounded(number: u64) -> u64 {
    number.saturating_add(15) / 16 * 16
}

// So many bytes in whole pages.
fn whole_pages(bytes: u64) -> u64 {
    bytes.saturating_add(4095) / 4096 * 4096
}

fn places_of(budgets: &Budgets, static_bytes: u64) -> Places {
    let stack = OBJECTS.saturating_add(whole_pages(static_bytes));
    let heap = stack.saturating_add(budgets.stack);
    Places {
        stack,
        heap,
        end: heap.saturating_add(budgets.heap),
    }
}

fn object_of(alloc: Global, address: u64, object: &StaticData) -> Result<Object, AllocError> {
    let bytes = Vec::from_slice(alloc, object.bytes.as_slice())?;
    let tags = Vec::from_slice(alloc, object.tags.as_slice())?;
    Ok(Object {
        storage: Storage::Static,
        address,
        size: object.size,
        is_live: true,
        bytes,
        tags,
    })
}

// The static objects, each at the next multiple of 16.
fn static_objects(alloc: Global, statics: &[StaticData]) -> Result<Vec<Object>, AllocError> {
    let mut objects = Vec::new(alloc);
    let mut offset = 0u64;
    for object in statics {
        let start = rounded(offset);
        objects.push(object_of(alloc, OBJECTS.saturating_add(start), object)?)?;
        offset = start.saturating_add(object.size);
    }
    Ok(objects)
}

impl State {
    /// The state before the run of a program.
    pub(crate) fn new(
        alloc: Global,
        budgets: &Budgets,
        code: &Tac,
        input: Vec<u8>,
    ) -> Result<State, AllocError> {
        let objects = static_objects(alloc, code.statics.as_slice())?;
        let places = places_of(budgets, code.global_bytes);
        Ok(State {
            alloc,
            budgets: *budgets,
            places,
            objects,
            contents: Vec::new(alloc),
            homes: Vec::new(alloc),
            kept: Vec::new(alloc),
            plain: Vec::new(alloc),
            temporaries: Vec::new(alloc),
            frames: Vec::new(alloc),
            window: Window {
                homes: 0,
                plain: 0,
                temporaries: 0,
            },
            function: code.main,
            input,
            taken: 0,
            output: Vec::new(alloc),
            accesses: Vec::new(alloc),
            work: 0,
            turns: 0,
            charged: 0,
            stacked: places.stack,
            keys: 0,
        })
    }

    /// So much work is done.
    pub(crate) fn spend(&mut self, work: u64) {
        self.work = self.work.saturating_add(work);
    }

    /// What an instruction counts beside its cost counts four times.
    pub(crate) fn tally(&mut self, work: u64) {
        self.spend(work.saturating_mul(4));
    }

    /// One turn more, where one is left.
    pub(crate) fn begin_turn(&mut self) -> Result<(), Stop> {
        if self.turns >= self.budgets.turns {
            return Err(Stop::Paused);
        }
        self.turns = self.turns.saturating_add(1);
        Ok(())
    }

    /// One key more, where one is left.
    pub(crate) fn take_key(&mut self, line: Line) -> Result<(), Stop> {
        if self.keys >= self.budgets.keys {
            return Err(ended(Cause::Keys, line));
        }
        self.keys = self.keys.saturating_add(1);
        Ok(())
    }

    /// The value of a plain variable of the function that runs.
    pub(crate) fn plain_value(&self, variable: usize) -> Value {
        match self.plain.get(self.window.plain.wrapping_add(variable)) {
            Some(value) => *value,
            None => integer(0),
        }
    }

    pub(crate) fn set_plain(&mut self, variable: usize, value: Value) {
        if let Some(old) = self.plain.get_mut(self.window.plain.wrapping_add(variable)) {
            *old = value;
        }
    }

    /// The number of the object of a variable.
    pub(crate) fn home(&self, variable: usize) -> Option<usize> {
        match self.homes.get(self.window.homes.wrapping_add(variable)) {
            Some(home) => *home,
            None => None,
        }
    }

    /// The pointer to a whole object.
    pub(crate) fn pointer_to(&self, number: usize) -> Value {
        let (address, size) = match self.objects.get(number) {
            Some(object) => (object.address, object.size),
            None => (0, 0),
        };
        let bounds = Bounds {
            base: address,
            bound: address.saturating_add(size),
        };
        Value {
            word: address,
            tag: Tag::OfObject(number, bounds),
        }
    }

    /// The pointer to the object of a variable.
    pub(crate) fn home_pointer(&self, variable: usize) -> Value {
        match self.home(variable) {
            Some(number) => self.pointer_to(number),
            None => integer(0),
        }
    }

    /// What a temporary of the function that runs holds.
    pub(crate) fn get(&self, number: usize) -> Temporary {
        self.temporary_at(self.window.temporaries.wrapping_add(number))
    }

    /// What a temporary holds, by its place among those of all calls.
    pub(crate) fn temporary_at(&self, place: usize) -> Temporary {
        match self.temporaries.get(place) {
            Some(temporary) => *temporary,
            None => plain(integer(0)),
        }
    }

    /// The value of an argument, one of so many in temporaries from a number on; 0 where there are fewer.
    pub(crate) fn argument(&self, first: usize, count: usize, number: usize) -> Value {
        if number < count {
            self.get(first.wrapping_add(number)).value
        } else {
            integer(0)
        }
    }

    /// A temporary gets what it is given.
    pub(crate) fn give(&mut self, number: usize, temporary: Temporary) -> Result<(), Stop> {
        let place = self.window.temporaries.saturating_add(number);
        for _ in self.temporaries.len()..place.saturating_add(1) {
            self.temporaries.push(plain(integer(0)))?;
        }
        if let Some(old) = self.temporaries.get_mut(place) {
            *old = temporary;
        }
        Ok(())
    }

    /// A new object.
    pub(crate) fn make_object(
        &mut self,
        storage: Storage,
        address: u64,
        size: u64,
    ) -> Result<usize, Stop> {
        self.tally(size.saturating_add(1));
        let number = self.objects.len();
        let object = Object::new(self.alloc, storage, address, size)?;
        self.objects.push(object)?;
        Ok(number)
    }

    /// An object dies.
    pub(crate) fn kill(&mut self, number: usize) {
        if let Some(object) = self.objects.get_mut(number) {
            object.is_live = false;
        }
    }

    /// Bytes are put out.
    pub(crate) fn put(&mut self, bytes: &[u8]) -> Result<(), Stop> {
        self.tally(bytes.len() as u64);
        self.output.extend_from_slice(bytes)?;
        Ok(())
    }
}
