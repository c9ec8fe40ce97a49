//! Laws of the size of the code that is generated, each as the contract of a function that does nothing.

ghost use Rattle.std.specs.Prelude.{◌≡◌, ◌+◌, ◌*◌, ◌≤◌, ℕ, List, length, Some};
ghost use Rattle.addr_map.specs.Places.{MapSizes, code_size};
ghost use Rattle.flat_code.specs.declared.instruction.FlatInstruction.{FlatInstruction};
ghost use Rattle.flat_code.specs.declared.function.FlatFunction.{FlatFunction};
ghost use Rattle.flat_code.specs.declared.function.FlatProgram.{FlatProgram};
ghost use Rattle.flat_code.specs.Calls.{function_in};
ghost use Rattle.reg_plan.specs.declared.plan.FunctionPlan.{FunctionPlan};
ghost use Rattle.reg_plan.specs.Tests.{AreAccepted};
ghost use Rattle.machine_laws.specs.Segments.Segments.{function_words, code_bytes};
ghost use Rattle.rv_codegen.specs.declared.code.GenerateError.TheVariants.{TooLarge};
ghost use Rattle.rv_codegen.specs.Generated.{IsCause};
ghost use Rattle.image_laws.specs.CodeSizes.Sizes.{instruction_words, more_words, most_words, most_below};
ghost use Rattle.image_laws.specs.CodeSizes.Sizes.{instructions_below};
ghost use Rattle.image_laws.specs.CodeSizes.Sizes.{HandsOver};

/// The code of a function has at most the words of its instructions, each by its kind, its numbers and the homes of its
/// registers, those that take its arguments, and two of its own.
pub fn functions_have_few_words()
    ensures { (map : MapSizes) (p : FlatProgram) (plans : List FunctionPlan) (f : ℕ) (g : FlatFunction)
        → AreAccepted p plans → function_in p f ≡ Some g → length (function_words map p plans f) ≤ most_words p g }
{}

/// An instruction has at most eighteen words, and six more for each value that it hands over, gets back or returns, 84
/// for a call.
pub fn instructions_have_few_words()
    ensures { (p : FlatProgram) (g : FlatFunction) (i : FlatInstruction)
        → instruction_words p g i ≤ 18 + more_words p g.results i }
{}

/// The compiled code has at most the bytes of all of them.
pub fn programs_have_few_bytes()
    ensures { (map : MapSizes) (p : FlatProgram) (plans : List FunctionPlan) → AreAccepted p plans
        → code_bytes map p plans ≤ 4 * most_below p (length p.functions) }
{}

/// Code is not too large where calls hand over and give back at most so many values, and the instructions and functions
/// are so few: with five values 12,000 instructions in 4,000 functions.
pub fn short_programs_are_not_too_large()
    ensures { (map : MapSizes) (p : FlatProgram) (plans : List FunctionPlan) (values bytes : ℕ) → AreAccepted p plans
        → HandsOver p values
        → 4 * ((102 + 12 * values) * instructions_below p (length p.functions)
        + (4 + 6 * values) * length p.functions) ≤ code_size
        → IsCause map p plans (TooLarge bytes) → ⊥ }
{}
