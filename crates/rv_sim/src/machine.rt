//! The machine: an image is loaded, and runs until it stops.

use crate::call::answer_call;
use crate::memory::Segment;
use crate::state::State;
use crate::stop::Stop;
use crate::trap::Action;
use elf_image::{Image, Segment as ImageSegment};
use rv_isa::Reg;
use sb_outside::{Sink, Source};
use std::alloc::{AllocError, Global};
use std::marker::Model;

/// A machine that runs an image. Once a run has ended in anything but the limit, it has stopped for
/// good.
#[derive(Drop)]
pub struct Machine {
    state: State,
    stopped: Option<Stop>,
}

impl Model for Machine {
    ghost use Rattle.rv_sim.specs.Simulation.{Simulation};

    ghost Value = { Simulation };

    ghost view = { λ m. record { state = m.state; stopped = m.stopped } };
}

impl Machine {
    ghost use Rattle.std.specs.Prelude.{◌≡◌, ℕ, List, Option, IfSome, IfOk, None, Some};
    ghost use Rattle.rv_sim.specs.Run.{Configuration};
    ghost use Rattle.rv_sim.specs.Seen.{IsSeen, IsRun, CountsInput, CountsOutput};
    ghost use Rattle.sb_outside.specs.Rest.{ForEveryInput};
    ghost use Rattle.rv_sim.specs.Simulation.{last_stop};
    ghost use Rattle.rv_sim.specs.Start.{start_of};
    ghost use Rattle.rv_sim.specs.State.{register};

    /// The machine that begins an image: its segments in memory, every register zero, at the entry.
    /// All the memory that a run needs is taken here.
    #[tactic(auto, unfolding(crate::specs::Start::start_of))]
    pub fn load(alloc: Global, image: &Image) -> Result<Self, AllocError>
        ensures { IfOk result (λ m. m ≡ record { state = start_of image.now; stopped = None }) }
    {
        let memory = segments_of(alloc, image.segments())?;
        Ok(Self {
            state: State::new(image.entry(), memory),
            stopped: None,
        })
    }

    /// Runs at most `limit` instructions, an environment call being one. The descriptors are 0 for
    /// `input`, 1 for `output` and 2 for `errors`. A fault of the outside stops the machine at the
    /// environment call that met it, which has changed no register and no byte of memory. A machine
    /// that has stopped does nothing, and answers as it did when it stopped.
    pub fn run<I: Source, O: Sink, E: Sink>(
        &mut self,
        input: &mut I,
        output: &mut O,
        errors: &mut E,
        limit: u64,
    ) -> Stop
        ensures again { IfSome self.old.stopped
            (λ stop. (result ≡ stop) × (self.new ≡ self.old) × (input.new ≡ input.old) × (output.new ≡ output.old)
            × (errors.new ≡ errors.old)) }
        // For each list of input that begins with the bytes that were taken, and ends there where the end was met.
        ensures told { self.old.stopped ≡ None
            → ForEveryInput (I.rest input.old) (I.rest input.new)
            (λ was rest. (o e : Option (List ℕ)) (c : Configuration) →
            IsSeen o e self.old.state was (O.taken output.old) (E.taken errors.old) c →
            IsRun o e result limit c self.new.state rest (O.taken output.new) (E.taken errors.new)) }
        ensures stays { self.old.stopped ≡ None → self.new.stopped ≡ last_stop result }
        ensures input_counts { self.old.stopped ≡ None
            → CountsInput (Some result) self.new.state (I.faults input.old) (I.faults input.new) }
        ensures output_counts { self.old.stopped ≡ None → CountsOutput (Some result) self.new.state
            (O.faults output.old)
            (O.faults output.new) (E.faults errors.old) (E.faults errors.new) }
    {
        if let Some(stop) = self.stopped {
            return stop;
        }
        let stop = run_from(&mut self.state, input, output, errors, limit);
        self.stopped = match stop {
            Stop::Limit => None,
            _ => Some(stop),
        };
        stop
    }

    /// How the machine stopped, if it did.
    pub fn stopped(&self) -> Option<Stop>
        ensures { result ≡ self.now.stopped }
    {
        self.stopped
    }

    /// The value of a register. x0 is zero.
    pub fn register(&self, number: Reg) -> u64
        ensures { result ≡ register self.now.state number }
    {
        self.state.register(number)
    }
}

ghost use Rattle.std.specs.Prelude.{◌≡◌, ◌-◌, ◌++◌, ℕ, List, Option, Some, length, replicate, map, IfOk};
ghost use Rattle.rv_sim.specs.Run.{Configuration};
ghost use Rattle.rv_sim.specs.Seen.{IsSeen, IsRun, CountsInput, CountsOutput};
ghost use Rattle.sb_outside.specs.Rest.{ForEveryInput};
ghost use Rattle.rv_sim.specs.Start.{loaded_segment};
ghost use Rattle.rv_sim.specs.Turns.{TurnedOrFault, FaultKeeps};

fn run_from<I: Source, O: Sink, E: Sink>(
    state: &mut State,
    input: &mut I,
    output: &mut O,
    errors: &mut E,
    limit: u64,
) -> Stop
    ensures told { ForEveryInput (I.rest input.old) (I.rest input.new)
        (λ was rest. (o e : Option (List ℕ)) (c : Configuration) →
        IsSeen o e state.old was (O.taken output.old) (E.taken errors.old) c →
        IsRun o e result limit c state.new rest (O.taken output.new) (E.taken errors.new)) }
    ensures input_counts { CountsInput (Some result) state.new (I.faults input.old) (I.faults input.new) }
    ensures output_counts { CountsOutput (Some result) state.new (O.faults output.old) (O.faults output.new)
        (E.faults errors.old)
        (E.faults errors.new) }
{
    for _count in 0..limit {
        if let Some(stop) = turn(state, input, output, errors) {
            return stop;
        }
    }
    Stop::Limit
}

// One instruction, with what it asks of the environment. `None` where the program goes on.
#[tactic(auto, unfolding(crate::specs::Run::turn))]
fn turn<I: Source, O: Sink, E: Sink>(
    state: &mut State,
    input: &mut I,
    output: &mut O,
    errors: &mut E,
) -> Option<Stop>
    ensures told { ForEveryInput (I.rest input.old) (I.rest input.new)
        (λ was rest. (o e : Option (List ℕ)) (c : Configuration) →
        IsSeen o e state.old was (O.taken output.old) (E.taken errors.old) c →
        TurnedOrFault o e result c state.old state.new rest (O.taken output.new) (E.taken errors.new)) }
    ensures fault { FaultKeeps result state.old state.new }
    ensures no_limit { result ≡ Some Stop.Limit → ⊥ }
    ensures input_counts { CountsInput result state.new (I.faults input.old) (I.faults input.new) }
    ensures output_counts { CountsOutput result state.new (O.faults output.old) (O.faults output.new)
        (E.faults errors.old)
        (E.faults errors.new) }
{
    match state.step() {
        Action::Done => None,
        Action::Refuse(kind) => Some(Stop::Trap {
            kind,
            pc: state.pc(),
        }),
        Action::Ask => answer_call(state, input, output, errors),
    }
}

fn segments_of(alloc: Global, segments: &[ImageSegment]) -> Result<Vec<Segment>, AllocError>
    ensures { IfOk result (λ v. v.items ≡ map loaded_segment segments.now) }
{
    let mut memory = Vec::new(alloc);
    for segment in segments {
        memory.push(segment_of(alloc, segment)?)?;
    }
    Ok(memory)
}

#[tactic(auto, unfolding(elf_image::specs::Content::memory_of))]
fn segment_of(alloc: Global, segment: &ImageSegment) -> Result<Segment, AllocError>
    ensures { IfOk result (λ s. s ≡ loaded_segment segment.now) }
{
    let bytes = filled(alloc, segment.bytes(), segment.size())?;
    Ok(Segment::new(
        segment.address(),
        bytes,
        segment.is_readable(),
        segment.is_writable(),
        segment.is_executable(),
    ))
}

// The bytes, and zeros up to the size.
fn filled(alloc: Global, bytes: &[u8], size: u64) -> Result<Vec<u8>, AllocError>
    ensures { IfOk result (λ v. v.items ≡ bytes.now ++ replicate (size - length bytes.now) 0) }
{
    let mut all = Vec::from_slice(alloc, bytes)?;
    let size = size as usize;
    if bytes.len() < size {
        all.resize(size, 0)?;
    }
    Ok(all)
}
