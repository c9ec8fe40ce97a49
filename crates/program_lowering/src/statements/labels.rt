//! The labels of a switch (C99 6.8.4.2), each of which but `default` is tested in turn.

ghost use Rattle.std.specs.Prelude.{◌≡◌, ◌∷◌, [], IfOk, length, map};
ghost use Rattle.c_tree.specs.Statements.{items_in};
ghost use Rattle.c_lower.specs.Statements.{any_default};
ghost use Rattle.source_meaning.specs.Statements.{is_default};
ghost use Rattle.program_lowering.specs.StatementParts.Items.{item_of};
ghost use Rattle.program_lowering.specs.StatementCode.Switches.{default_start};
ghost use Rattle.program_lowering.specs.StatementCode.Code.{LabelsCode, TestsCode};

use crate::expressions::Emitter;
use c_tree::{CaseLabel, SwitchItem};
use std::alloc::AllocError;
use tac_ir::Instruction;

fn is_default(label: CaseLabel) -> bool
    ensures { result ≡ is_default label }
{
    match label {
        CaseLabel::Case(_) => false,
        CaseLabel::Default => true,
    }
}

fn any_default(labels: &[CaseLabel]) -> bool
    ensures { result ≡ any_default labels.now }
{
    for label in labels {
        if is_default(*label) {
            return true;
        }
    }
    false
}

/// Where a switch goes on where no label is equal to its value: at the first item with a default label, by the nodes
/// where the items begin; else behind it.
pub fn default_start(items: &[SwitchItem], starts: &[usize], end: usize) -> usize
    requires { length starts.now ≡ length items.now }
    ensures { result ≡ default_start (items_in (map item_of items.now)) starts.now end }
{
    for i in 0..items.len() {
        if any_default(items[i].labels.as_slice()) {
            return starts[i];
        }
    }
    end
}

// The test of a label, which leads to its item, before a node.
#[tactic(auto, using(crate::proofs::StatementCode::LabelTests::testing))]
fn test(code: &mut Emitter, label: CaseLabel, item: usize, next: usize) -> Result<usize, AllocError>
    ensures { IfOk result (λ n. LabelsCode code.old code.new (label ∷ []) item n next) }
{
    match label {
        CaseLabel::Case(word) => {
            let first = code.add(Instruction::Case {
                from: 0,
                word,
                equal: item,
                other: next,
            })?;
            Ok(first)
        }
        CaseLabel::Default => Ok(next),
    }
}

// Those of the labels of an item.
#[tactic(auto, using(crate::proofs::StatementCode::LabelTests::no_labels))]
fn test_labels(
    code: &mut Emitter,
    labels: &[CaseLabel],
    item: usize,
    next: usize,
) -> Result<usize, AllocError>
    ensures { IfOk result (λ n. LabelsCode code.old code.new labels.now item n next) }
{
    let mut node = next;
    for i in (0..labels.len()).rev() {
        node = test(code, labels[i], item, node)?;
    }
    Ok(node)
}

/// Those of all items, which begin at these nodes.
#[tactic(auto, using(crate::proofs::StatementCode::LabelTests::no_tests))]
pub fn test_items(
    code: &mut Emitter,
    items: &[SwitchItem],
    starts: &[usize],
    next: usize,
) -> Result<usize, AllocError>
    requires { length starts.now ≡ length items.now }
    ensures { IfOk result (λ n. TestsCode code.old code.new (items_in (map item_of items.now)) starts.now n next) }
{
    let mut node = next;
    for i in (0..items.len()).rev() {
        node = test_labels(code, items[i].labels.as_slice(), starts[i], node)?;
    }
    Ok(node)
}
