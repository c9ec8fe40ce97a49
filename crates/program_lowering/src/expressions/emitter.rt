//! What is made of a function so far.

use c_tree::Kind;
use sb_base::Line;
use std::alloc::{AllocError, Global};
use tac_ir::key::Key;
use tac_ir::{CountedLoop, Instruction};
use tree_containers::Items;

/// The code of a function so far with its tables, the texts of the program, and for each of its static objects whether
/// it is a string literal.
#[derive(Drop)]
pub struct Emitter {
    pub alloc: Global,
    /// The instructions by node.
    pub code: Vec<Instruction>,
    pub keys: Vec<Key>,
    pub blocks: Vec<Items<usize>>,
    pub loops: Vec<CountedLoop>,
    pub texts: Vec<Items<u8>>,
    pub literals: Vec<bool>,
}

/// Where both operands of `&&` or `||` lead.
#[derive(Clone, Copy)]
pub struct Ways {
    /// The node that gives 0.
    pub zero: usize,
    /// The node that gives 1.
    pub one: usize,
    /// The node that tests the second operand.
    pub test: usize,
}

impl Emitter {
    ghost use Rattle.std.specs.Prelude.{◌≡◌, ◌+◌, ◌<◌, ◌^◌, [], IfOk, OnOk};
    ghost use Rattle.program_lowering.specs.ExpressionCode.Emitted.{Added};
    ghost use Rattle.program_lowering.specs.ExpressionCode.Last.{KeyAdded, TextAdded, TakingCode, Outcomes};

    /// An emitter of a function, with the texts of the program so far and its string literals.
    pub fn new(alloc: Global, texts: Vec<Items<u8>>, literals: Vec<bool>) -> Emitter
        ensures code { result.code.items ≡ [] }
        ensures keys { result.keys.items ≡ [] }
        ensures blocks { result.blocks.items ≡ [] }
        ensures loops { result.loops.items ≡ [] }
        ensures texts { result.texts.items ≡ texts.items }
        ensures literals { result.literals.items ≡ literals.items }
    {
        Emitter {
            alloc,
            code: Vec::new(alloc),
            keys: Vec::new(alloc),
            blocks: Vec::new(alloc),
            loops: Vec::new(alloc),
            texts,
            literals,
        }
    }

    /// One more instruction, at the node that is given.
    pub fn add(&mut self, instruction: Instruction) -> Result<usize, AllocError>
        ensures { IfOk result (λ n. Added self.old self.new n instruction) }
    {
        let node = self.code.len();
        self.code.push(instruction)?;
        Ok(node)
    }

    /// The number of a key in the table, where there is one.
    #[tactic(auto, using(crate::proofs::ExpressionCode::Growing::keys_added))]
    pub fn add_key(&mut self, key: Option<Key>) -> Result<Option<usize>, AllocError>
        ensures { IfOk result (λ n. KeyAdded self.old self.new key n) }
    {
        match key {
            None => Ok(None),
            Some(key) => {
                let number = self.keys.len();
                self.keys.push(key)?;
                Ok(Some(number))
            }
        }
    }

    /// The number of a text among those of the program.
    #[tactic(auto, using(crate::proofs::ExpressionCode::Growing::texts_added))]
    pub fn add_text(&mut self, text: &[u8]) -> Result<usize, AllocError>
        ensures { IfOk result (λ n. TextAdded self.old self.new text.now n) }
    {
        let number = self.texts.len();
        let copy = Vec::from_slice(self.alloc, text)?;
        self.texts.push(Items::from_vec(copy))?;
        Ok(number)
    }

    /// The contents of a structure in a temporary are taken; a scalar stays as it is.
    #[tactic(auto, using(crate::proofs::ExpressionCode::Growing::takings))]
    pub fn take(
        &mut self,
        kind: Kind,
        line: Line,
        temporary: usize,
        next: usize,
    ) -> Result<usize, AllocError>
        ensures { IfOk result (λ n. TakingCode self.old self.new kind line temporary n next) }
    {
        match kind {
            Kind::Structure(_) => {
                let node = self.add(Instruction::Take {
                    kind,
                    line,
                    to: temporary,
                    from: temporary,
                    next,
                })?;
                Ok(node)
            }
            Kind::Void | Kind::Scalar(_) | Kind::Array(_) => Ok(next),
        }
    }

    /// Where both operands of `&&` or `||` lead, with the value in a temporary.
    pub fn ways(&mut self, temporary: usize, next: usize) -> Result<Ways, AllocError>
        ensures { IfOk result (λ w. Outcomes self.old self.new temporary w.zero w.one w.test next) }
    {
        let zero = self.add(Instruction::Constant {
            to: temporary,
            word: 0,
            next,
        })?;
        let one = self.add(Instruction::Constant {
            to: temporary,
            word: 1,
            next,
        })?;
        let test = self.add(Instruction::Branch {
            from: temporary,
            not_zero: one,
            zero,
        })?;
        Ok(Ways { zero, one, test })
    }
}
