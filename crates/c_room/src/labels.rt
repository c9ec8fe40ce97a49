//! Labels of a switch (C99 6.8.4.2).

ghost use Rattle.std.specs.Prelude.{◌≡◌, [], ◌∷◌, ◌++◌, OnErr, OnOk};
ghost use Rattle.std.specs.List.{list_any};
ghost use Rattle.c_tree.specs.ValidProgram.{same_label};

use c_tree::CaseLabel;
use indexmap::IndexSet;
use std::alloc::{AllocError, Global};
use std::marker::Model;

/// Labels of a switch. Contracts see the list of them in their order, a label as often as it stands there.
#[derive(Drop)]
pub struct SwitchLabels {
    in_order: Vec<CaseLabel>,
    // The words of `case`, each once, and whether `default` is there, to find whether a label is among them.
    words: IndexSet<u64>,
    has_default: bool,
}

impl Model for SwitchLabels {
    ghost use Rattle.std.specs.Prelude.{List};
    ghost use Rattle.c_tree.specs.declared.statement.CaseLabel.{CaseLabel};

    ghost Value = { List CaseLabel };

    ghost use Rattle.c_room.specs.LabelSets.{HasLabels};

    ghost view = { λ s. s.in_order.items };

    ghost invariant = { λ s. HasLabels s.in_order.items s.words.keys s.has_default };
}

impl SwitchLabels {
    /// No labels.
    pub fn new(alloc: Global) -> Self
        ensures { result ≡ [] }
    {
        SwitchLabels {
            in_order: Vec::new(alloc),
            words: IndexSet::new(alloc),
            has_default: false,
        }
    }

    /// Whether a label is among them.
    pub fn has(&self, label: CaseLabel) -> bool
        ensures { result ≡ list_any (same_label label) self.now }
    {
        match label {
            CaseLabel::Case(word) => self.words.contains(&word),
            CaseLabel::Default => self.has_default,
        }
    }

    /// Puts a label behind the others. They stay where there is no memory.
    pub fn push(&mut self, label: CaseLabel) -> Result<(), AllocError>
        ensures ok { OnOk result (self.new ≡ self.old ++ label ∷ []) }
        ensures err { OnErr result (self.new ≡ self.old) }
    {
        self.in_order.reserve(1)?;
        match label {
            CaseLabel::Case(word) => {
                self.words.insert(word)?;
            }
            CaseLabel::Default => self.has_default = true,
        }
        self.in_order.push(label)?;
        Ok(())
    }

    /// Puts labels behind the others. Where there is no memory, as many of the first of them stand there as found room.
    pub fn extend_from_slice(&mut self, more: &[CaseLabel]) -> Result<(), AllocError>
        ensures { OnOk result (self.new ≡ self.old ++ more.now) }
    {
        for label in more {
            self.push(*label)?;
        }
        Ok(())
    }
}
