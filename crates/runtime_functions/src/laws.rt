//! The law of calls, as the contract of a function that does nothing. What it says of a routine with any condition and
//! any result is a public lemma of `proofs/Calls`.

ghost use Rattle.std.specs.Prelude.{◌≡◌, ◌+◌, ◌*◌, ◌^◌, ◌≤◌, ℕ, Bool, List, length, true, Some, None};
ghost use Rattle.addr_map.specs.Places.{MapSizes, AreMapped, functions_begin, code_begin};
ghost use Rattle.flat_code.specs.declared.instruction.FlatInstruction.{FlatInstruction};
ghost use Rattle.flat_code.specs.declared.function.FlatFunction.{FlatFunction};
ghost use Rattle.flat_code.specs.declared.function.FlatProgram.{FlatProgram};
ghost use Rattle.flat_code.specs.Meaning.{Goes, context};
ghost use Rattle.flat_code.specs.Routines.Local.{local_run};
ghost use Rattle.flat_code.specs.Routines.Routine.{Outcome, left_at};
ghost use Rattle.obj_memory.specs.declared.value.Value.{Value};
ghost use Rattle.obj_memory.specs.Objects.{ObjectState};
ghost use Rattle.c_tree.specs.declared.expression.Kind.TheVariants.{Structure};
ghost use Rattle.c_tree.specs.declared.format.Directive.{Directive};
ghost use Rattle.c_tree.specs.declared.program.Variable.{Variable};
ghost use Rattle.source_meaning.specs.State.{State as Source, Setting};
ghost use Rattle.source_meaning.specs.Library.{routine};
ghost use Rattle.source_meaning.specs.Structures.{taken, make_zero};
ghost use Rattle.flat_code.specs.Routines.Objects.StandsFor.{Keys};
ghost use Rattle.flat_actions.specs.Actions.{views_of};
ghost use Rattle.lib_wrappers.specs.AllocatingRoutines.Premises.{AreStanding};
ghost use Rattle.lib_wrappers.specs.AreaRoutines.Zeroing.{IsToZeroArea};
ghost use Rattle.lib_wrappers.specs.AreaRoutines.Values.{IsToTakePlace, IsToPutPlace};
ghost use Rattle.lib_wrappers.specs.AreaRoutines.Parts.{IsToTakePart};
ghost use Rattle.runtime_functions.specs.declared.library.LibraryFunction.{LibraryFunction};
ghost use Rattle.runtime_functions.specs.declared.runtime.RuntimeFunction.{RuntimeFunction};
ghost use Rattle.runtime_functions.specs.declared.runtime.RuntimeFunction.TheVariants.{Library, Enter};
ghost use Rattle.runtime_functions.specs.declared.runtime.RuntimeFunction.TheVariants.{Zero, CopyTagged};
ghost use Rattle.runtime_functions.specs.declared.runtime.RuntimeFunction.TheVariants.{Scan, PutBytes, PutNumber};
ghost use Rattle.runtime_functions.specs.declared.runtime.RuntimeFunction.TheVariants.{ZeroArea, TakeArea, PutArea};
ghost use Rattle.runtime_functions.specs.declared.runtime.RuntimeFunction.TheVariants.{MoveArea};
ghost use Rattle.runtime_functions.specs.Printing.{IsToScan, ServesScan, IsToPutBytes, ServesPut, IsToPutArgument};
ghost use Rattle.runtime_functions.specs.Printing.{ServesArgument};
ghost use Rattle.runtime_functions.specs.Areas.{IsAtCall, ServesArea, ServesPlace};
ghost use Rattle.runtime_functions.specs.Zeroing.{zeroing, IsToZeroObject, zeroing_interface};
ghost use Rattle.runtime_functions.specs.Copying.{copying, AreToCopy, copying_interface};
ghost use Rattle.runtime_functions.specs.Calls.{CallSite, CallsFunction, CallsRuntime, ComesOfCall, begins_in};
ghost use Rattle.runtime_functions.specs.Calls.{waits_at, calling_steps};
ghost use Rattle.runtime_functions.specs.Functions.{with_zeros, cleared_registers};
ghost use Rattle.runtime_functions.specs.Actions.{IsReady, ServesCall};
ghost use Rattle.runtime_functions.specs.Library.{library_interface, parameters_of, results_of, routine_of, held_from};
ghost use Rattle.runtime_functions.specs.Runtime.{runtime_list, IsOfRuntime, AreOfRuntime};
ghost use Rattle.runtime_functions.specs.Sizes.{are_encodable, all_words};
ghost use Rattle.runtime_functions.specs.Entering.{IsToEnter, ServesBlock};

use shadow_space::ShadowForm;
use source_meaning::laws::lines::runs_do_the_same_at_each_line;

/// The call of a function of the runtime does what its routine does behind the registers that it makes 0, in eleven
/// more steps at most: the status and the results are in the registers for them, the caller's others stay, and all else
/// is as the routine leaves it. The work is 24 and twice the values that are handed over, and the routine's own.
pub fn calls_do_what_routines_do()
    ensures { (m : MapSizes) (p : FlatProgram) (s : CallSite) (f : FlatFunction) (r : List FlatInstruction) (a n : ℕ)
        → CallsRuntime m p s f r a n → (k : ℕ) (x : Outcome)
        → local_run (context m p s.function (waits_at s)) (with_zeros r a) k (Goes cleared_registers (begins_in s a))
        ≡ left_at (cleared_registers + length r) x
        → ComesOfCall m p s a n (k + calling_steps) x }
{}

/// The call of a routine of the library, at any line, does what the routine does there, from a state that stands for
/// one of the source: where it goes on the status is 0, the state stands for the one that the routine leaves and its
/// result is held, and where it ends the run the status tells its ending.
pub fn calls_of_the_library_do_what_it_does<S: ShadowForm>()
    ensures { (m : MapSizes) (set : Setting) → set.sizes ≡ m
        → (p : FlatProgram) (s : CallSite) (f : LibraryFunction) (fn : FlatFunction)
        → IsOfRuntime m S.entry (S.IsGood m) (Library f) fn → CallsFunction m p s fn
        → (functions : ℕ) (types : ℕ → ℕ) (k : Keys) (x : Source) (vs : List Value) (line : ℕ)
        → IsReady (views_of m functions types S.entry) k (S.IsGood m) (library_interface f) s x vs → AreStanding m x
        → ServesCall m p (views_of m functions types S.entry) k (S.IsGood m) (library_interface f) s (parameters_of f)
        (results_of f) line x (routine set (routine_of f) vs line) }
{
    runs_do_the_same_at_each_line();
}

/// The call that makes the objects of a block does at any line what entering the block does there.
pub fn calls_of_enter_make_the_objects_of_a_block<S: ShadowForm>()
    ensures { (m : MapSizes) (set : Setting) → set.sizes ≡ m → (p : FlatProgram) (s : CallSite) (fn : FlatFunction)
        → IsOfRuntime m S.entry (S.IsGood m) Enter fn → CallsFunction m p s fn
        → (functions : ℕ) (types : ℕ → ℕ) (k : Keys) (x : Source) (vs : List Variable) (line : ℕ)
        → IsToEnter m (views_of m functions types S.entry) k (S.IsGood m) s x vs
        → ServesBlock m p (views_of m functions types S.entry) k (S.IsGood m) s set vs line x }
{
    runs_do_the_same_at_each_line();
}

/// The call that moves a range with its entries assigns a structure, at any line, as the source does where both places
/// are bytes of live objects.
pub fn calls_of_copy_tagged_assign_structures<S: ShadowForm>()
    ensures { (m : MapSizes) → AreMapped m → (p : FlatProgram) (s : CallSite) (fn : FlatFunction)
        → IsOfRuntime m S.entry (S.IsGood m) CopyTagged fn → CallsFunction m p s fn
        → (functions : ℕ) (types : ℕ → ℕ) (k : Keys) (x : Source) (vs : List Value) (line : ℕ)
        → IsReady (views_of m functions types S.entry) k (S.IsGood m) copying_interface s x vs → AreToCopy x vs
        → ServesCall m p (views_of m functions types S.entry) k (S.IsGood m) copying_interface s 3 0 line x
        (copying line vs) }
{}

/// The call that makes a range zero sets a live object to zero bytes and no tags, as the source does, at any line.
pub fn calls_of_zero_set_objects_to_zero<S: ShadowForm>()
    ensures { (m : MapSizes) → AreMapped m → (p : FlatProgram) (s : CallSite) (fn : FlatFunction)
        → IsOfRuntime m S.entry (S.IsGood m) Zero fn → CallsFunction m p s fn
        → (n functions : ℕ) (types : ℕ → ℕ) (k : Keys) (x : Source) (vs : List Value) (line : ℕ)
        → IsReady (views_of m functions types S.entry) k (S.IsGood m) zeroing_interface s x vs → IsToZeroObject n x vs
        → ServesCall m p (views_of m functions types S.entry) k (S.IsGood m) zeroing_interface s 2 0 line x
        (zeroing n line vs) }
{}

/// The call that scans a string gives, at any line, the address of its 0 byte where the source scans its bytes, which
/// stand in memory; and tells the ending where the source ends the run.
pub fn calls_of_scan_find_the_end_of_strings<S: ShadowForm>()
    ensures { (m : MapSizes) (p : FlatProgram) (s : CallSite) (fn : FlatFunction)
        → IsOfRuntime m S.entry (S.IsGood m) Scan fn → CallsFunction m p s fn
        → (functions : ℕ) (types : ℕ → ℕ) (k : Keys) (x : Source) (v : Value) (line : ℕ)
        → IsToScan (views_of m functions types S.entry) k (S.IsGood m) s x v
        → ServesScan m p (views_of m functions types S.entry) k (S.IsGood m) s v line x }
{}

/// The call that puts a range out puts the bytes that stand there, as the source does.
pub fn calls_of_put_bytes_put_what_was_scanned<S: ShadowForm>()
    ensures { (m : MapSizes) (p : FlatProgram) (s : CallSite) (fn : FlatFunction)
        → IsOfRuntime m S.entry (S.IsGood m) PutBytes fn → CallsFunction m p s fn
        → (functions : ℕ) (types : ℕ → ℕ) (k : Keys) (x : Source) (a : ℕ) (bytes : List ℕ)
        → IsToPutBytes (views_of m functions types S.entry) k (S.IsGood m) s x a bytes
        → ServesPut m p (views_of m functions types S.entry) k (S.IsGood m) s bytes x }
{}

/// The call for a directive puts its argument out, as the source does, and counts the bytes; strings apart.
pub fn calls_of_put_number_put_arguments<S: ShadowForm>()
    ensures { (m : MapSizes) (p : FlatProgram) (s : CallSite) (d : Directive) (fn : FlatFunction)
        → IsOfRuntime m S.entry (S.IsGood m) (PutNumber d) fn → CallsFunction m p s fn
        → (functions : ℕ) (types : ℕ → ℕ) (k : Keys) (x : Source) (v : Value) (line : ℕ) (bytes : List ℕ)
        → IsToPutArgument (views_of m functions types S.entry) k (S.IsGood m) s x d v line bytes
        → ServesArgument m p (views_of m functions types S.entry) k (S.IsGood m) s bytes x }
{}

/// The call that makes an area zero leaves there the structure of zeros that the source makes.
pub fn calls_of_zero_area_make_structures_of_zeros<S: ShadowForm>()
    ensures { (m : MapSizes) (p : FlatProgram) (s : CallSite) (fn : FlatFunction)
        → IsOfRuntime m S.entry (S.IsGood m) ZeroArea fn → CallsFunction m p s fn
        → (functions : ℕ) (types : ℕ → ℕ) (k : Keys) (x : Source) (size : ℕ)
        → IsAtCall (views_of m functions types S.entry) k (S.IsGood m) s x
        → IsToZeroArea m s.first (s.first + 1) size s.state
        → ServesArea m p (views_of m functions types S.entry) k (S.IsGood m) s 2 16 5 x (make_zero (Structure size)) }
{}

/// The call that takes a structure from its place leaves in the area the contents that the source takes.
pub fn calls_of_take_area_take_structures<S: ShadowForm>()
    ensures { (m : MapSizes) (p : FlatProgram) (s : CallSite) (fn : FlatFunction)
        → IsOfRuntime m S.entry (S.IsGood m) TakeArea fn → CallsFunction m p s fn
        → (functions : ℕ) (types : ℕ → ℕ) (k : Keys) (x : Source) (v : Value) (size line : ℕ)
        → IsAtCall (views_of m functions types S.entry) k (S.IsGood m) s x
        → IsToTakePlace m x v size s.first (s.first + 1) (s.first + 2) s.state
        → ServesArea m p (views_of m functions types S.entry) k (S.IsGood m) s 3 48 16 x (taken None size v line) }
{}

/// The call that takes a part of contents leaves in the area the contents that the source takes of it.
pub fn calls_of_move_area_take_parts_of_contents<S: ShadowForm>()
    ensures { (m : MapSizes) (p : FlatProgram) (s : CallSite) (fn : FlatFunction)
        → IsOfRuntime m S.entry (S.IsGood m) MoveArea fn → CallsFunction m p s fn
        → (functions : ℕ) (types : ℕ → ℕ) (k : Keys) (x : Source) (c : ObjectState) (v : Value) (size line a : ℕ)
        → IsAtCall (views_of m functions types S.entry) k (S.IsGood m) s x
        → IsToTakePart (views_of m functions types S.entry) k x c v.word size a s.first (held_from (s.first + 2))
        (s.first + 1) s.state
        → ServesArea m p (views_of m functions types S.entry) k (S.IsGood m) s 7 40 13 x (taken (Some c) size v line) }
{}

/// The call that puts a part of contents to a place does at any line what the source does where the place is found.
pub fn calls_of_put_area_assign_contents<S: ShadowForm>()
    ensures { (m : MapSizes) (p : FlatProgram) (s : CallSite) (fn : FlatFunction)
        → IsOfRuntime m S.entry (S.IsGood m) PutArea fn → CallsFunction m p s fn
        → (functions : ℕ) (types : ℕ → ℕ) (k : Keys) (x : Source) (c : ObjectState) (size : ℕ) (is_judged : Bool)
        (to : Value) (line : ℕ) (v : Value) (a : ℕ)
        → IsAtCall (views_of m functions types S.entry) k (S.IsGood m) s x
        → IsToPutPlace (views_of m functions types S.entry) k x is_judged to c v.word size a s.first
        (held_from (s.first + 2)) (s.first + 1) s.state
        → ServesPlace m p (views_of m functions types S.entry) k (S.IsGood m) s c size is_judged to line v x }
{}

/// Of the functions of the runtime each instruction names registers below 254, and has numbers that machine
/// instructions hold.
pub fn functions_of_the_runtime_are_encodable<S: ShadowForm>()
    ensures { (m : MapSizes) (f : RuntimeFunction) (fn : FlatFunction) → IsOfRuntime m S.entry (S.IsGood m) f fn
        → are_encodable fn.body ≡ true }
{}

/// Their code fits the first segment with a jump table of up to 4096 functions of the program and their own, and leaves
/// 32 KiB for what begins and ends the run.
pub fn the_runtime_fits_the_first_segment<S: ShadowForm>()
    ensures { (m : MapSizes) (fs : List FlatFunction) → AreOfRuntime m S.entry (S.IsGood m) runtime_list fs
        → (functions : ℕ) → functions ≤ 4096
        → functions_begin + 16 * (functions + length fs) + 4 * all_words fs + 2 ^ 15 ≤ code_begin }
{}
