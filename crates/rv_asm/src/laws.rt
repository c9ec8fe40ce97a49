//! Laws of the assembler, each as the contract of a function that does nothing: layers above rest on them.
ghost use Rattle.std.specs.Prelude.{List, ◌≤◌, ◌*◌, length};
ghost use Rattle.rv_asm.specs.declared.item.Item.{Item};
ghost use Rattle.rv_asm.specs.Forms.{IsAssemblable, longest_size};
ghost use Rattle.rv_asm.specs.Words.{Assembled, words_of};

/// In the words of a labelled list each item's instructions stand at its place, one item behind the other, and each
/// branch, jump
/// and call goes to the place of its label, in a form that reaches it.
#[tactic(auto, using(crate::proofs::Meeting::assembled))]
pub fn targets_are_met()
    ensures { (items : List Item) → IsAssemblable items → Assembled items (words_of items) }
{}

/// A list whose longest forms have many words has many in the forms that are chosen: a third at least.
#[tactic(auto, using(crate::proofs::Choices::longest_few))]
pub fn long_lists_have_many_words()
    ensures { (items : List Item) → longest_size items ≤ 3 * length (words_of items) }
{}
