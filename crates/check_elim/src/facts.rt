//! What an instruction is for a fact.

ghost use Rattle.std.specs.Prelude.{◌≡◌, ◌↔◌, IsTrue, slice_get, ℕ, List};
ghost use Rattle.c_tree.specs.Blocks.{is_among};
ghost use Rattle.source_meaning.specs.Staying.{frees};
ghost use Rattle.check_elim.specs.Facts.{Checks, ends, ends_life, is_base, is_scaled, is_in_path, is_of, is_declared};
ghost use Rattle.check_elim.specs.Facts.{is_of_block};
ghost use Rattle.std.specs.Prelude.{Some, None};
ghost use Rattle.check_elim.specs.Available.{IsAvailableCheck};
ghost use Rattle.check_elim.specs.declared.facts.Sought.{Sought};
ghost use Rattle.check_elim.specs.Seeking.{fact_of, RoleIs, IsFactOf};

use c_tree::Routine;
use tac_ir::{Base, CodeFunction, Instruction, Key, Member, Scaled, Test};

/// A fact that is sought in a function: that a check of a kind and key was passed for so many bytes.
#[derive(Clone, Copy)]
pub struct Sought<'a> {
    /// The function.
    pub function: &'a CodeFunction,
    /// The kind.
    pub test: Test,
    /// The key.
    pub key: &'a Key,
    /// The bytes.
    pub size: u64,
}

/// What an instruction is for a fact.
#[derive(Clone, Copy)]
pub enum Role {
    /// A check that makes it known.
    Checking,
    /// It ends it, and does not make it known.
    Ending,
    /// Neither.
    Passing,
}

fn is_base(base: Base, variable: usize) -> bool
    ensures { result ≡ is_base base variable }
{
    match base {
        Base::Plain(x) => x == variable,
        Base::Automatic(_) | Base::Static(_) => false,
    }
}

fn is_scaled(scaled: Option<Scaled>, variable: usize) -> bool
    ensures { result ≡ is_scaled scaled variable }
{
    match scaled {
        None => false,
        Some(s) => s.variable == variable,
    }
}

fn is_in_path(path: &[Member], variable: usize) -> bool
    ensures { result ≡ is_in_path path.now variable }
{
    for member in path {
        if is_scaled(member.scaled, variable) {
            return true;
        }
    }
    false
}

// Whether a plain variable is one of a key's.
fn is_of(key: &Key, variable: usize) -> bool
    ensures { result ≡ is_of key.now variable }
{
    is_base(key.base, variable)
        || is_scaled(key.scaled, variable)
        || is_in_path(key.path.as_slice(), variable)
}

fn frees(routine: Routine) -> bool
    ensures { result ≡ frees routine }
{
    matches!(routine, Routine::Free | Routine::Realloc)
}

fn ends_life(test: Test, instruction: &Instruction) -> bool
    ensures { result ≡ ends_life test instruction.now }
{
    match test {
        Test::Spatial => false,
        Test::Temporal => match *instruction {
            Instruction::Call { .. }
            | Instruction::CallThrough { .. }
            | Instruction::LeaveBlock { .. } => true,
            Instruction::Library { routine, .. } => frees(routine),
            _ => false,
        },
    }
}

fn is_among(numbers: &[usize], number: usize) -> bool
    ensures { result ≡ is_among numbers.now number }
{
    for other in numbers {
        if *other == number {
            return true;
        }
    }
    false
}

fn is_declared(numbers: &[usize], base: Base) -> bool
    ensures { result ≡ is_declared numbers.now base }
{
    match base {
        Base::Automatic(variable) => is_among(numbers, variable),
        Base::Plain(_) | Base::Static(_) => false,
    }
}

// Whether a key begins with an object that a block declares.
fn is_of_block(function: &CodeFunction, block: usize, base: Base) -> bool
    ensures { result ≡ is_of_block function.now block base }
{
    match function.blocks.as_slice().get(block) {
        Some(numbers) => is_declared(numbers.as_slice(), base),
        None => is_declared(&[], base),
    }
}

// Whether an instruction ends a fact.
fn ends(sought: &Sought, instruction: &Instruction) -> bool
    ensures { result ≡ ends sought.now.function.now (fact_of sought.now) instruction.now }
{
    match *instruction {
        Instruction::SetPlain { variable, .. } | Instruction::UpdatePlain { variable, .. } => {
            is_of(sought.key, variable)
        }
        Instruction::EnterBlock { block, .. } => {
            is_of_block(sought.function, block, sought.key.base)
        }
        Instruction::LeaveBlock { block, .. } => {
            ends_life(sought.test, instruction)
                || is_of_block(sought.function, block, sought.key.base)
        }
        _ => ends_life(sought.test, instruction),
    }
}

fn same_path(left: &[Member], right: &[Member]) -> bool
    ensures { IsTrue result ↔ (left.now ≡ right.now) }
{
    match (left, right) {
        ([], []) => true,
        ([first, rest @ ..], [other, others @ ..]) => *first == *other && same_path(rest, others),
        _ => false,
    }
}

fn same_key(left: &Key, right: &Key) -> bool
    ensures { IsTrue result ↔ (left.now ≡ right.now) }
{
    left.base == right.base
        && same_path(left.path.as_slice(), right.path.as_slice())
        && left.constant == right.constant
        && left.scaled == right.scaled
}

// Whether an instruction is a check that makes a fact known.
fn checks(sought: &Sought, instruction: &Instruction) -> bool
    ensures { IsTrue result ↔ Checks sought.now.function.now (fact_of sought.now) instruction.now }
{
    match *instruction {
        Instruction::Judge {
            test,
            size,
            key: Some(number),
            ..
        } => match sought.function.keys.as_slice().get(number) {
            Some(key) => test == sought.test && same_key(key, sought.key) && sought.size <= size,
            None => false,
        },
        _ => false,
    }
}

/// Whether an instruction is a check whose own fact is the one that is sought.
pub fn is_check_of(sought: &Sought, instruction: &Instruction) -> bool
    ensures { IsTrue result → IsFactOf sought.now instruction.now }
{
    match *instruction {
        Instruction::Judge {
            test,
            size,
            key: Some(number),
            ..
        } => match sought.function.keys.as_slice().get(number) {
            Some(key) => test == sought.test && same_key(key, sought.key) && size == sought.size,
            None => false,
        },
        _ => false,
    }
}

/// The fact of a check that has a key.
pub fn fact_at<'a>(function: &'a CodeFunction, instruction: &Instruction) -> Option<Sought<'a>>
    ensures some { (sought : Sought) → result ≡ Some sought → (sought.function.now ≡ function.now)
        × IsFactOf sought instruction.now }
    ensures none { result ≡ None → (n : ℕ) → IsAvailableCheck function.now n instruction.now → ⊥ }
{
    match *instruction {
        Instruction::Judge {
            test,
            size,
            key: Some(number),
            ..
        } => match function.keys.as_slice().get(number) {
            Some(key) => Some(Sought {
                function,
                test,
                key,
                size,
            }),
            None => None,
        },
        _ => None,
    }
}

/// What an instruction is for a fact.
pub fn role_of(sought: &Sought, instruction: &Instruction) -> Role
    ensures { RoleIs sought.now.function.now (fact_of sought.now) instruction.now result }
{
    if checks(sought, instruction) {
        return Role::Checking;
    }
    if ends(sought, instruction) {
        return Role::Ending;
    }
    Role::Passing
}
