//! Whether a program can be encoded.

ghost use Rattle.std.specs.Prelude.{◌≡◌, true, false};
ghost use Rattle.std.specs.List.{list_all};
ghost use Rattle.machine_laws.specs.Blocks.Tails.{line_of};
ghost use Rattle.machine_laws.specs.Following.Code.{IsEncodable};
ghost use Rattle.target_limits.specs.Encoding.{is_short, is_short_operand, is_small_ending, fits, function_fits};

use flat_code::{FlatFunction, FlatInstruction, FlatProgram, RightOperand};
use sb_base::Ending;

// Whether a number has 32 bits with its sign.
fn is_short(number: u64) -> bool
    ensures { result ≡ is_short number }
{
    number < 0x7fff_f800
        || (0xffff_ffff_8000_0000 <= number && u128::from(number) < 0x1_0000_0000_0000_0000)
}

// Whether an operand is a register or such a number.
fn is_short_operand(operand: RightOperand) -> bool
    ensures { result ≡ is_short_operand operand }
{
    match operand {
        RightOperand::Register(_) => true,
        RightOperand::Number(number) => is_short(number),
    }
}

// The line of an ending.
fn line_of(ending: &Ending) -> u32
    ensures { result ≡ line_of ending.now }
{
    match *ending {
        Ending::Exit(_) => 0,
        Ending::Spatial(line)
        | Ending::Temporal(line)
        | Ending::BadCall(line)
        | Ending::BadFree(line)
        | Ending::Divide(line)
        | Ending::Stack(line)
        | Ending::Keys(line)
        | Ending::Abort(line) => line.number(),
    }
}

// Whether the line of an ending has 32 bits, and its status is a byte.
fn is_small_ending(ending: &Ending) -> bool
    ensures { result ≡ is_small_ending ending.now }
{
    u64::from(line_of(ending)) < 0x1_0000_0000 && u32::from(ending.code()) < 256
}

// Whether the numbers of an instruction fit.
fn fits(instruction: &FlatInstruction) -> bool
    ensures { result ≡ fits instruction.now }
{
    match *instruction {
        FlatInstruction::Load { offset, .. } | FlatInstruction::Store { offset, .. } => {
            offset < 2048
        }
        FlatInstruction::Constant { value, .. } => is_short(value),
        FlatInstruction::Operate { right, .. }
        | FlatInstruction::Operate32 { right, .. }
        | FlatInstruction::Branch { right, .. } => is_short_operand(right),
        FlatInstruction::End(ending) => is_small_ending(&ending),
        _ => true,
    }
}

// Whether those of all instructions do.
fn all_fit(body: &[FlatInstruction]) -> bool
    ensures { result ≡ list_all fits body.now }
{
    for instruction in body {
        if !fits(instruction) {
            return false;
        }
    }
    true
}

// Whether a function has room for its return address, its words of arguments and results are enough, and the numbers of
// its instructions fit.
fn function_fits(function: &FlatFunction) -> bool
    ensures { result ≡ function_fits function.now }
{
    8 <= function.room
        && function.parameters <= 1024
        && function.results <= 1024
        && all_fit(function.body.as_slice())
}

// Whether all functions are so.
fn functions_fit(functions: &[FlatFunction]) -> bool
    ensures { result ≡ list_all function_fits functions.now }
{
    for function in functions {
        if !function_fits(function) {
            return false;
        }
    }
    true
}

/// Whether a program can be encoded: offsets of loads and stores are below 2048, numbers have 32 bits with their sign,
/// each record has room for its return address, and no function takes or gives more than 1024 words.
#[tactic(auto, using(crate::proofs::Encoding::encodable_by_test, crate::proofs::Encoding::passes_test))]
pub fn is_encodable(program: &FlatProgram) -> bool
    ensures yes { result ≡ true → IsEncodable program.now }
    ensures no { result ≡ false → IsEncodable program.now → ⊥ }
{
    functions_fit(program.functions.as_slice())
}
