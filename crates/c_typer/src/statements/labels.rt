//! Labels of switches (C99 6.8.1, 6.8.4.2).

ghost use Rattle.std.specs.Prelude.{◌≡◌, Err};
ghost use Rattle.std.specs.List.{list_any};
ghost use Rattle.c_syntax.specs.View.{expression_of};
ghost use Rattle.c_tree.specs.ValidProgram as valid;
ghost use Rattle.c_const.specs.Integers.{constant_word};
ghost use Rattle.c_faults.specs.declared.fault.Refusal.TheVariants.{Fault as OfFault};
ghost use Rattle.c_faults.specs.declared.fault.Rule.TheVariants.{MisplacedLabel};
ghost use Rattle.c_faults.specs.Answer.{Gives};
ghost use Rattle.c_rules.specs.Values.{value_of};
ghost use Rattle.c_typing_state.specs.State.{Types, state_of};
ghost use Rattle.c_unit_typing.specs.Constructs as constructs;
ghost use Rattle.c_typer.specs.Around.{labels_of};

use crate::initializers::dropping::let_go;
use crate::initializers::values::value;
use crate::statements::lists::put;
use c_const::constant_word;
use c_faults::{Fault, Refusal, Rule};
use c_room::SwitchLabels;
use c_rules::TypedValue;
use c_syntax::Expression;
use c_tree::CaseLabel;
use c_typing_state::Typer;
use obj_memory::IntType;
use sb_base::Line;

/// Where labels may stand: on an item of the block of a switch whose value has a type, behind the labels of the items
/// before it.
#[derive(Clone, Copy)]
pub struct Labels<'l> {
    /// The type of the value of the switch, where it is one.
    pub switch: Option<IntType>,
    /// The labels of the items before it.
    pub earlier: &'l SwitchLabels,
}

// Whether two labels stand for one value.
fn same_label(left: CaseLabel, right: CaseLabel) -> bool
    ensures { result ≡ valid.same_label left right }
{
    match (left, right) {
        (CaseLabel::Case(v), CaseLabel::Case(w)) => v == w,
        (CaseLabel::Default, CaseLabel::Default) => true,
        _ => false,
    }
}

// Whether a label is among others of its item, which are as few as statements nest.
fn is_among(label: CaseLabel, labels: &[CaseLabel]) -> bool
    ensures { result ≡ list_any (valid.same_label label) labels.now }
{
    labels.iter().any(|other| same_label(label, *other))
}

// That a label is out of place.
fn misplaced(line: Line) -> Refusal
    ensures { result ≡ OfFault (record { rule = MisplacedLabel; line = line }) }
{
    let rule = Rule::MisplacedLabel;
    Refusal::Fault(Fault { rule, line })
}

impl Labels<'_> {
    // A label behind those that the item has so far, which differs from all before it.
    fn add(self, own: &mut Vec<CaseLabel>, line: Line, label: CaseLabel) -> Result<(), Refusal>
        ensures { Gives (λ done. labels_of self.entry own.new.items) result
            (constructs.added line label (labels_of self.entry own.old.items)) }
    {
        if self.earlier.has(label) || is_among(label, own) {
            return Err(misplaced(line));
        }
        put(own, label)?;
        Ok(())
    }

    // `case` with a constant.
    fn add_constant(self, own: &mut Vec<CaseLabel>, line: Line, word: u64) -> Result<(), Refusal>
        ensures { Gives (λ done. labels_of self.entry own.new.items) result
            (constructs.case_on line word (labels_of self.entry own.old.items) self.entry.switch) }
    {
        match self.switch {
            None => Err(misplaced(line)),
            Some(value_type) => self.add(own, line, CaseLabel::Case(value_type.fit(word))),
        }
    }

    // `case` with a constant, if it is one.
    fn add_case(
        self,
        own: &mut Vec<CaseLabel>,
        line: Line,
        word: Option<u64>,
    ) -> Result<(), Refusal>
        ensures { Gives (λ done. labels_of self.entry own.new.items) result
            (constructs.case_with line word (labels_of self.entry own.old.items)) }
    {
        match word {
            None => {
                let rule = Rule::NoConstant;
                Err(Refusal::Fault(Fault { rule, line }))
            }
            Some(word) => self.add_constant(own, line, word),
        }
    }

    /// `default`. The rule on labels is violated where none may stand, and by a second one.
    pub(crate) fn add_default(self, own: &mut Vec<CaseLabel>, line: Line) -> Result<(), Refusal>
        ensures { Gives (λ done. labels_of self.entry own.new.items) result
            (constructs.default_on line (labels_of self.entry own.old.items) self.entry.switch) }
    {
        match self.switch {
            None => Err(misplaced(line)),
            Some(_) => self.add(own, line, CaseLabel::Default),
        }
    }
}

// The word of a constant value, which is of no more use.
fn word_of(value: TypedValue) -> Option<u64>
    ensures { result ≡ constant_word (value_of value).tree }
{
    let word = constant_word(&value.tree);
    let_go(value);
    word
}

/// `case` with an expression. Where it is no integer constant expression the rule on constants is violated, and where
/// no label may stand, or the same one stands before it, that on labels. Other refusals as of the expression.
pub(crate) fn case_label<'a>(
    typer: &mut Typer<'a>,
    labels: Labels<'_>,
    own: &mut Vec<CaseLabel>,
    line: Line,
    tree: &Expression<'a>,
) -> Result<(), Refusal>
    ensures { Types (λ done. labels_of labels.entry own.new.items) (state_of typer.new) result
        (constructs.case_label (labels_of labels.entry own.old.items) line (expression_of tree.now)
        (state_of typer.old)) }
{
    let value = value(typer, false, tree)?;
    labels.add_case(own, line, word_of(value))
}
