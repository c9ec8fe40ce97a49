//! The nodes that an instruction leads to, for code that walks a graph.

ghost use Rattle.std.specs.Prelude.{◌≡◌};
ghost use Rattle.tac_ir.specs.Edges.{successors};
ghost use Rattle.tac_ir.specs.Ways.{nodes_of};

use crate::instruction::Instruction;

/// Where a run goes behind an instruction: the nodes that it leads to.
#[derive(Clone, Copy)]
pub enum Ways {
    /// Nowhere: it returns, or it stands for no instruction.
    Nowhere,
    /// To one node.
    To(usize),
    /// To one of two nodes.
    Either(usize, usize),
}

/// The nodes that an instruction leads to.
pub fn ways_of(instruction: &Instruction) -> Ways
    ensures { nodes_of result ≡ successors instruction.now }
{
    match instruction {
        Instruction::Reserved | Instruction::Return { .. } => Ways::Nowhere,
        Instruction::Branch { not_zero, zero, .. } => Ways::Either(*not_zero, *zero),
        Instruction::Case { equal, other, .. } => Ways::Either(*equal, *other),
        Instruction::Skip { next }
        | Instruction::Constant { next, .. }
        | Instruction::FunctionPointer { next, .. }
        | Instruction::GetPlain { next, .. }
        | Instruction::SetPlain { next, .. }
        | Instruction::UpdatePlain { next, .. }
        | Instruction::HomePointer { next, .. }
        | Instruction::StaticPointer { next, .. }
        | Instruction::ZeroOf { next, .. }
        | Instruction::Convert { next, .. }
        | Instruction::Unary { next, .. }
        | Instruction::Binary { next, .. }
        | Instruction::Offset { next, .. }
        | Instruction::Difference { next, .. }
        | Instruction::Narrow { next, .. }
        | Instruction::Member { next, .. }
        | Instruction::Take { next, .. }
        | Instruction::Read { next, .. }
        | Instruction::Write { next, .. }
        | Instruction::Update { next, .. }
        | Instruction::Judge { next, .. }
        | Instruction::Zero { next, .. }
        | Instruction::StorePart { next, .. }
        | Instruction::StoreText { next, .. }
        | Instruction::Turn { next, .. }
        | Instruction::Library { next, .. }
        | Instruction::Print { next, .. }
        | Instruction::Call { next, .. }
        | Instruction::CallThrough { next, .. }
        | Instruction::EnterBlock { next, .. }
        | Instruction::LeaveBlock { next, .. } => Ways::To(*next),
    }
}
