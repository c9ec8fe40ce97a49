//! Functions and programs in three-address code.

use crate::instruction::Instruction;
use crate::key::Key;
use c_tree::{Kind, Variable};
use obj_memory::Tag;
use sb_base::Line;
use std::alloc::Global;
use tree_containers::Items;

/// Nodes in a row. There are none where it ends at its start.
#[derive(Clone, Copy)]
pub struct Span {
    /// The first node.
    pub start: usize,
    /// The node behind the last one.
    pub end: usize,
}

/// A `for` that counts a plain int variable up by 1, as the text has it: `for (v = A; v < B; v++)`, where the body
/// assigns v nowhere.
#[derive(Clone, Copy)]
pub struct CountedLoop {
    /// The number of v in the function.
    pub variable: usize,
    /// The word of A.
    pub start: u64,
    /// The word of B.
    pub bound: u64,
    /// The node that sets v to A.
    pub setting: usize,
    /// The node where the condition begins.
    pub condition: usize,
    /// The node where the turn begins, which leads into the body.
    pub turn: usize,
    /// The node where the step begins.
    pub step: usize,
    /// The nodes of the body.
    pub body: Span,
    /// The nodes that checks of accesses in the body have besides.
    pub added: Span,
}

/// The code of a function, with what its calls lay out.
#[derive(Drop)]
pub struct CodeFunction {
    /// The line of its name.
    pub line: Line,
    /// The number of its type.
    pub type_number: usize,
    /// Its parameters, which have the first numbers of its variables.
    pub parameters: Items<Variable>,
    /// Its automatic variables, which have the next numbers.
    pub variables: Items<Variable>,
    /// Its automatic variables, of which those alone are objects that the block of its body declares.
    pub entered: Items<Variable>,
    /// The bytes of the budget `calls` that a call of it takes.
    pub room: u64,
    /// The node where a call begins.
    pub entry: usize,
    /// The instructions by node.
    pub code: Items<Instruction>,
    /// The keys of its accesses and checks.
    pub keys: Items<Key>,
    /// The numbers of the variables that each block with objects declares.
    pub blocks: Items<Items<usize>>,
    /// Its counted loops.
    pub loops: Items<CountedLoop>,
}

/// A static object before the run: its bytes, and a tag for each of its words.
#[derive(Drop)]
pub struct StaticData {
    /// The number of its bytes.
    pub size: u64,
    /// Its bytes.
    pub bytes: Items<u8>,
    /// The tags of its words.
    pub tags: Items<Tag>,
}

/// A program.
#[derive(Drop)]
pub struct Tac {
    /// Its functions by number.
    pub functions: Items<CodeFunction>,
    /// What the functions of each type give.
    pub results: Items<Kind>,
    /// The number of `main`.
    pub main: usize,
    /// Its static objects.
    pub statics: Items<StaticData>,
    /// The bytes that they take together.
    pub global_bytes: u64,
    /// Formats, and literals that initializers store.
    pub texts: Items<Items<u8>>,
}
