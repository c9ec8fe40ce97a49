//! Environment calls: the number is in a7, the arguments are in a0, a1 and a2, and the result goes to a0
//! (System V ABI for RISC-V, "Integer Calling Convention"; the numbers are those of Linux).
ghost use Rattle.std.specs.Prelude.{◌≡◌, ℕ, List, Option, None, Some};
ghost use Rattle.sb_outside.specs.Content.{gained};
ghost use Rattle.sb_outside.specs.Rest.{ForEveryInput};
ghost use Rattle.rv_isa.specs.Registers.{a0, a7};
ghost use Rattle.rv_sim.specs.Run.{Configuration};
ghost use Rattle.rv_sim.specs.Seen.{IsSeen, CountsInput, CountsOutput};
ghost use Rattle.rv_sim.specs.State.{register};
ghost use Rattle.rv_sim.specs.Step.{gives};
ghost use Rattle.rv_sim.specs.Turns.{ReadOrFault, WrittenOrFault, CalledOrFault, FaultKeeps};

use crate::state::State;
use crate::stop::Stop;
use crate::trap::TrapKind;
use rv_isa::Reg;
use sb_outside::{Sink, Source};

const READ: u64 = 63;

const WRITE: u64 = 64;

const EXIT: u64 = 93;

// The result for a descriptor that the call does not know: -9, Linux's EBADF.
const BAD_DESCRIPTOR: u64 = 0xffff_ffff_ffff_fff7;

/// Does the environment call that the state asks for. `None` where the program goes on. The descriptor
/// is judged first, then a length of 0, then the whole buffer, and then the outside is asked. A fault
/// of the outside leaves the state as it was.
#[tactic(auto, unfolding(crate::specs::Run::calls))]
pub fn answer_call<I: Source, O: Sink, E: Sink>(
    state: &mut State,
    input: &mut I,
    output: &mut O,
    errors: &mut E,
) -> Option<Stop>
    ensures told { ForEveryInput (I.rest input.old) (I.rest input.new)
        (λ was rest. (o e : Option (List ℕ)) (c : Configuration) →
        IsSeen o e state.old was (O.taken output.old) (E.taken errors.old) c →
        CalledOrFault o e result c state.new rest (O.taken output.new) (E.taken errors.new)) }
    ensures fault { FaultKeeps result state.old state.new }
    ensures no_limit { result ≡ Some Stop.Limit → ⊥ }
    ensures input_counts { CountsInput result state.new (I.faults input.old) (I.faults input.new) }
    ensures output_counts { CountsOutput result state.new (O.faults output.old) (O.faults output.new)
        (E.faults errors.old)
        (E.faults errors.new) }
{
    match state.register(Reg::A7) {
        READ => read(state, input),
        WRITE => write(state, output, errors),
        EXIT => {
            let status = state.register(Reg::A0);
            Some(Stop::Exited((status % 256) as u8))
        }
        _ => Some(trap(state, TrapKind::Call)),
    }
}

fn trap(state: &State, kind: TrapKind) -> Stop
    ensures { result ≡ Stop.Trap kind state.now.pc }
{
    Stop::Trap {
        kind,
        pc: state.pc(),
    }
}

// The program goes on, with this result of its call.
fn answer(state: &mut State, value: u64)
    ensures { state.new ≡ (gives state.old a0 value).0 }
{
    state.answer(Reg::A0, value);
}

// One byte, or none at the end of the input.
#[tactic(auto, unfolding(crate::specs::Run::read_call))]
fn read<I: Source>(state: &mut State, input: &mut I) -> Option<Stop>
    requires { register state.old a7 ≡ 63 }
    ensures told { ForEveryInput (I.rest input.old) (I.rest input.new)
        (λ was rest. (c : Configuration) → state.old ≡ c.state → was ≡ c.input →
        ReadOrFault result c state.new rest) }
    ensures fault { FaultKeeps result state.old state.new }
    ensures no_limit { result ≡ Some Stop.Limit → ⊥ }
    ensures counts { CountsInput result state.new (I.faults input.old) (I.faults input.new) }
    ensures no_output_fault { result ≡ Some Stop.OutputFault → ⊥ }
{
    let descriptor = state.register(Reg::A0);
    let buffer = state.register(Reg::A1);
    let count = state.register(Reg::A2);
    if descriptor != 0 {
        answer(state, BAD_DESCRIPTOR);
        return None;
    }
    if count == 0 {
        answer(state, 0);
        return None;
    }
    if !state.has_room(buffer, count) {
        return Some(trap(state, TrapKind::Access));
    }
    let Ok(taken) = input.take() else {
        return Some(Stop::InputFault);
    };
    match taken {
        None => answer(state, 0),
        Some(byte) => {
            state.put_byte(buffer, byte);
            answer(state, 1);
        }
    }
    None
}

// All of the buffer.
#[tactic(auto, using(sb_outside::proofs::Gains::gained_gained), unfolding(crate::specs::Run::write_call))]
fn write<O: Sink, E: Sink>(state: &mut State, output: &mut O, errors: &mut E) -> Option<Stop>
    requires { register state.old a7 ≡ 64 }
    ensures told { (o e : Option (List ℕ)) (c : Configuration) →
        state.old ≡ c.state → O.taken output.old ≡ gained o c.output → E.taken errors.old ≡ gained e c.errors →
        WrittenOrFault o e result c state.new (O.taken output.new) (E.taken errors.new) }
    ensures fault { FaultKeeps result state.old state.new }
    ensures no_limit { result ≡ Some Stop.Limit → ⊥ }
    ensures counts { CountsOutput result state.new (O.faults output.old) (O.faults output.new) (E.faults errors.old)
        (E.faults errors.new) }
    ensures no_input_fault { result ≡ Some Stop.InputFault → ⊥ }
{
    let descriptor = state.register(Reg::A0);
    let buffer = state.register(Reg::A1);
    let count = state.register(Reg::A2);
    if descriptor != 1 && descriptor != 2 {
        answer(state, BAD_DESCRIPTOR);
        return None;
    }
    if count == 0 {
        answer(state, 0);
        return None;
    }
    let Some(bytes) = state.buffer(buffer, count) else {
        return Some(trap(state, TrapKind::Access));
    };
    if descriptor == 1 {
        if output.put(bytes).is_err() {
            return Some(Stop::OutputFault);
        }
    } else if errors.put(bytes).is_err() {
        return Some(Stop::OutputFault);
    }
    answer(state, count);
    None
}
