//! Which temporaries of a function have entries, found in one pass over its nodes.

ghost use Rattle.std.specs.Prelude.{◌≡◌, ℕ, ◌+◌, ◌*◌, ◌<◌, ◌≤◌, ◌&&◌, ◌||◌, ◌==◌, ◌^◌, ◌∷◌, [], length, map, min};
ghost use Rattle.std.specs.Prelude.{get_or, true, IfOk, Some, slice_get};
ghost use Rattle.std.specs.List.{list_all};
ghost use Rattle.c_tree.specs.declared.expression.Kind.TheVariants.{Void};
ghost use Rattle.c_tree.specs.Kinds.{routine_signature};
ghost use Rattle.source_meaning.specs.Good.{plain_type};
ghost use Rattle.tac_ir.specs.declared.function.CodeFunction.{CodeFunction};
ghost use Rattle.tac_ir.specs.declared.function.Tac.{Tac};
ghost use Rattle.tac_ir.specs.Meaning.{function_in};
ghost use Rattle.tac_ir.specs.Temporaries.{temporaries};
ghost use Rattle.metadata_plan.specs.Registers.{all_variables, most_temporaries};
ghost use Rattle.metadata_plan.specs.Entries.{AreClosed, can_compare, converted_from, entry_source, given};
ghost use Rattle.metadata_plan.specs.Entries.{is_among, is_argument_with_entry, is_fixed};
ghost use Rattle.metadata_plan.specs.Entries.{is_moved_with_entry, is_name, is_pointer_type, is_scalar, key_in};
ghost use Rattle.metadata_plan.specs.Entries.{may_read_part, parameter_kinds, pointer_of, read_from, reads_entry};
ghost use Rattle.metadata_plan.specs.Entries.{reads_for, written_from};
ghost use Rattle.metadata_expansion.specs.Areas.{AreGreatest};
ghost use Rattle.metadata_expansion.specs.TemporarySets.{is_in, room};
ghost use Rattle.metadata_expansion.specs.ClosedSets.{AreNone, ReadsNone, in_table};

use crate::areas::{greatest_structures, has_area, result_kind};
use crate::closing::{TemporaryTable, TemporaryUse, closed_table, insert_among, insert_if};
use crate::registers::most_temporaries;
use crate::temporary_set::TemporarySet;
use c_tree::{Kind, OffsetForm, Routine, Variable};
use obj_memory::Scalar;
use std::alloc::{AllocError, Global};
use tac_ir::{Base, CodeFunction, Instruction, Key, Member, Mode, Tac, Test};

// The pointer of a sum of a pointer and an index.
fn pointer_of(form: OffsetForm, left: usize, right: usize) -> usize
    ensures { result ≡ pointer_of form left right }
{
    match form {
        OffsetForm::PointerPlusIndex | OffsetForm::PointerMinusIndex => left,
        OffsetForm::IndexPlusPointer => right,
    }
}

// The temporary from whose entry that of what is converted is made.
fn converted_from(kind: Kind, from: usize) -> Option<usize>
    ensures { result ≡ converted_from kind from }
{
    match kind {
        Kind::Void | Kind::Scalar(Scalar::Integer(_)) => None,
        Kind::Scalar(Scalar::Pointer) | Kind::Structure(_) | Kind::Array(_) => Some(from),
    }
}

// The same of what is read.
fn read_from(kind: Kind, from: usize) -> Option<usize>
    ensures { result ≡ read_from kind from }
{
    match kind {
        Kind::Scalar(_) => None,
        Kind::Void | Kind::Structure(_) | Kind::Array(_) => Some(from),
    }
}

// The same of what an assignment gives.
fn written_from(kind: Kind, pointer: usize, value: usize) -> Option<usize>
    ensures { result ≡ written_from kind pointer value }
{
    match kind {
        Kind::Scalar(Scalar::Integer(_)) => None,
        Kind::Structure(_) => Some(pointer),
        Kind::Void | Kind::Scalar(Scalar::Pointer) | Kind::Array(_) => Some(value),
    }
}

// The temporary from whose entry that of the result is made.
fn entry_source(instruction: &Instruction) -> Option<usize>
    ensures { result ≡ entry_source instruction.now }
{
    match instruction {
        Instruction::Convert { kind, from, .. } => converted_from(*kind, *from),
        Instruction::Offset {
            form,
            left,
            right,
            ..
        } => Some(pointer_of(*form, *left, *right)),
        Instruction::Narrow { from, .. }
        | Instruction::Member { from, .. }
        | Instruction::Take { from, .. } => Some(*from),
        Instruction::Read { kind, from, .. } => read_from(*kind, *from),
        Instruction::Write {
            kind,
            pointer,
            value,
            ..
        } => written_from(*kind, *pointer, *value),
        _ => None,
    }
}

// Whether a value of a kind is moved with an entry.
fn is_moved_with_entry(kind: Kind) -> bool
    ensures { result ≡ is_moved_with_entry kind }
{
    matches!(kind, Kind::Scalar(Scalar::Pointer) | Kind::Structure(_))
}

// Whether a kind is a scalar.
fn is_scalar(kind: Kind) -> bool
    ensures { result ≡ is_scalar kind }
{
    matches!(kind, Kind::Scalar(_))
}

// Whether a plain variable is a pointer.
fn is_pointer(variable: &Variable) -> bool
    ensures { result ≡ is_pointer_type (plain_type (variable.now ∷ []) 0) }
{
    !variable.is_object && matches!(variable.kind, Kind::Scalar(Scalar::Pointer))
}

// One of some variables, by its number.
fn variable_at(variables: &[Variable], number: usize) -> &Variable
    requires { number < length variables.now }
    ensures { slice_get variables.now number ≡ Some result.now }
{
    &variables[number]
}

// Whether one of some variables, by its number, is a plain variable that is a pointer.
#[tactic(auto, using(crate::proofs::EntryTables::type_at, crate::proofs::EntryTables::type_past))]
fn is_pointer_in(variables: &[Variable], number: usize) -> bool
    ensures { result ≡ is_pointer_type (plain_type variables.now number) }
{
    if number >= variables.len() {
        return false;
    }
    is_pointer(variable_at(variables, number))
}

// The same of those of a function.
#[tactic(auto, using(crate::proofs::EntryTables::type_before, crate::proofs::EntryTables::type_behind))]
fn is_pointer_variable(function: &CodeFunction, number: usize) -> bool
    ensures { result ≡ is_pointer_type (plain_type (all_variables function.now) number) }
{
    let parameters = function.parameters.as_slice();
    if number < parameters.len() {
        return is_pointer_in(parameters, number);
    }
    is_pointer_in(function.variables.as_slice(), number - parameters.len())
}

// Whether a key begins with the name of an object.
fn is_named(base: Base) -> bool
    ensures { result ≡ is_name base }
{
    match base {
        Base::Plain(_) => false,
        Base::Automatic(_) | Base::Static(_) => true,
    }
}

// Whether a member stands so many bytes behind the base, whatever the variables hold.
fn is_fixed(member: &Member) -> bool
    ensures { result ≡ is_fixed member.now }
{
    member.scaled.is_none() && member.constant < 1 << 32
}

// Whether all members do.
fn are_fixed(members: &[Member]) -> bool
    ensures { result ≡ list_all is_fixed members.now }
{
    for member in members {
        if !is_fixed(member) {
            return false;
        }
    }
    true
}

// Whether a check of a pointer with a key compares its address with that of a named object.
fn can_compare(test: Test, key: &Key) -> bool
    ensures { result ≡ can_compare test key.now }
{
    match test {
        Test::Spatial => is_named(key.base) && are_fixed(key.path.as_slice()),
        Test::Temporal => is_named(key.base),
    }
}

// Whether a check reads the entry of its pointer.
fn reads_for(function: &CodeFunction, test: Test, key: Option<usize>) -> bool
    ensures { result ≡ reads_for test (key_in function.now key) }
{
    let Some(number) = key else {
        return true;
    };
    match function.keys.as_slice().get(number) {
        Some(key) => !can_compare(test, key),
        None => true,
    }
}

// How many of the first arguments of a routine are pointers: no other is.
fn pointer_count(routine: Routine) -> usize
    ensures { (n d y : ℕ) → is_argument_with_entry (routine_signature routine).parameters d n y
        ≡ is_among d (min n result) y }
{
    match routine {
        Routine::Memcpy
        | Routine::Memmove
        | Routine::Memcmp
        | Routine::Strcmp
        | Routine::Strcpy
        | Routine::Strncpy
        | Routine::Strcat => 2,
        Routine::Free
        | Routine::Realloc
        | Routine::Memset
        | Routine::Strlen
        | Routine::Strchr
        | Routine::Puts => 1,
        Routine::Malloc
        | Routine::Calloc
        | Routine::Putchar
        | Routine::Getchar
        | Routine::Exit
        | Routine::Abort => 0,
    }
}

// The parameters of a function, by its number; of one that is not there none.
fn parameters_of(program: &Tac, function: usize) -> &[Variable]
    ensures { map (λ v. v.kind) result.now ≡ parameter_kinds (function_in program.now function) }
{
    match program.functions.as_slice().get(function) {
        Some(called) => called.parameters.as_slice(),
        None => &[],
    }
}

// Whether a parameter, by its index, is moved with an entry.
fn is_moved_parameter(parameters: &[Variable], index: usize) -> bool
    ensures { result ≡ is_moved_with_entry (get_or (map (λ v. v.kind) parameters.now) index Void) }
{
    match parameters.get(index) {
        Some(parameter) => is_moved_with_entry(parameter.kind),
        None => false,
    }
}

// Puts those arguments into a set that are moved with an entry to some parameters.
#[tactic(auto, using(crate::proofs::EntryTables::argument_step))]
fn insert_arguments(set: &mut TemporarySet, parameters: &[Variable], first: usize, count: usize)
    requires inside { first + count ≤ room set.old }
    requires small { room set.old < 2 ^ 64 }
    ensures room { room set.new ≡ room set.old }
    ensures more { (y : ℕ) → is_in set.new y
        ≡ (is_in set.old y || is_argument_with_entry (map (λ v. v.kind) parameters.now) first count y) }
{
    for i in 0..count {
        insert_if(set, first + i, is_moved_parameter(parameters, i));
    }
}

// Whether a scalar that is read may be a part of contents, by the greatest structure of each temporary.
fn may_read_part(areas: &[u128], mode: Mode, temporary: usize) -> bool
    ensures { (t : Tac) (c : CodeFunction) → AreGreatest areas.now (most_temporaries c.code) t c.code
        → result ≡ may_read_part t c mode temporary }
{
    match mode {
        Mode::Named => has_area(areas, temporary),
        Mode::Unchecked | Mode::Judged => false,
    }
}

// Puts those temporaries into a set that an instruction of a function reads as pointers.
fn insert_pointers_read(
    set: &mut TemporarySet,
    areas: &[u128],
    program: &Tac,
    function: &CodeFunction,
    instruction: &Instruction,
)
    requires areas { AreGreatest areas.now (most_temporaries function.now.code) program.now function.now.code }
    requires inside { temporaries instruction.now ≤ room set.old }
    requires small { room set.old < 2 ^ 64 }
    ensures room { room set.new ≡ room set.old }
    ensures more { (y : ℕ) → is_in set.new y
        ≡ (is_in set.old y || reads_entry program.now function.now instruction.now y) }
{
    match instruction {
        Instruction::SetPlain { variable, from, .. } => {
            insert_if(set, *from, is_pointer_variable(function, *variable));
        }
        Instruction::Take { kind, from, .. } => {
            insert_if(set, *from, matches!(kind, Kind::Structure(_)));
        }
        Instruction::Read {
            kind,
            mode,
            from,
            ..
        } => {
            let is_part = is_scalar(*kind) && may_read_part(areas, *mode, *from);
            insert_if(set, *from, is_part);
        }
        Instruction::Write { kind, value, .. } => {
            insert_if(set, *value, is_moved_with_entry(*kind));
        }
        Instruction::StorePart { kind, from, .. } => {
            insert_if(set, *from, is_moved_with_entry(*kind));
        }
        Instruction::Judge {
            test,
            key,
            pointer,
            ..
        } => {
            insert_if(set, *pointer, reads_for(function, *test, *key));
        }
        Instruction::Library {
            routine,
            first,
            count,
            ..
        } => insert_among(set, *first, (*count).min(pointer_count(*routine))),
        Instruction::Print { first, count, .. } => insert_among(set, *first, *count),
        Instruction::Call {
            function: called,
            first,
            count,
            ..
        } => insert_arguments(set, parameters_of(program, *called), *first, *count),
        Instruction::CallThrough { first, count, .. } => {
            insert_among(set, *first, *count + 1);
        }
        Instruction::Return { from } => {
            insert_if(
                set,
                *from,
                is_moved_with_entry(result_kind(program, function)),
            );
        }
        _ => {}
    }
}

/// Pointers, of which entries are wanted.
#[derive(Clone, Copy)]
pub struct PointerUse<'a> {
    /// The bytes of the greatest structure of each temporary of a function.
    pub areas: &'a [u128],
}

impl<'a> TemporaryUse for PointerUse<'a> {
    ghost reads = { reads_entry };

    ghost source = { entry_source };

    ghost IsOf = { λ x t c. AreGreatest x.areas.now (most_temporaries c.code) t c.code };

    #[tactic(auto, using(crate::proofs::EntryTables::source_low))]
    fn source_of(&self, instruction: &Instruction) -> Option<usize> {
        entry_source(instruction)
    }

    fn insert_read(
        &self,
        set: &mut TemporarySet,
        program: &Tac,
        function: &CodeFunction,
        instruction: &Instruction,
    ) {
        insert_pointers_read(set, self.areas, program, function, instruction);
    }
}

/// The temporaries of a function that have entries: a closed set of them, and none where no instruction reads a
/// temporary as a pointer. It takes time and memory for each temporary, and for each node and each 64 temporaries, and
/// fails only for want of memory.
#[tactic(auto, using(crate::proofs::EntryTables::entries_closed))]
pub fn entry_table(
    alloc: Global,
    program: &Tac,
    function: &CodeFunction,
) -> Result<TemporaryTable, AllocError>
    requires { most_temporaries function.now.code < 2 ^ 32 }
    ensures closed { IfOk result (λ table. AreClosed program.now function.now (in_table table)) }
    ensures none { IfOk result (λ table. ReadsNone (reads_entry program.now function.now) function.now
        → AreNone (in_table table)) }
{
    let instructions = function.code.as_slice();
    let count = most_temporaries(instructions) as usize;
    let areas = greatest_structures(alloc, program, instructions, count)?;
    let uses = PointerUse {
        areas: areas.as_slice(),
    };
    closed_table(alloc, program, function, &uses)
}
