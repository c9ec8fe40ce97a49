//! The assembler.
ghost use Rattle.std.specs.Prelude.{◌≡◌, ◌<◌, ◌^◌, IfOk, length};
ghost use Rattle.rv_asm.specs.Items.{AreApart, AreThere};
ghost use Rattle.rv_asm.specs.Forms.{forms_of, IsAssemblable};
ghost use Rattle.rv_asm.specs.Words.{words_of};

use crate::emission::put_items;
use crate::form::Form;
use crate::item::Item;
use crate::layout::{chosen_forms, label_places, longest_forms, size};
use std::alloc::{AllocError, Global};

/// The form of each item.
#[tactic(auto, using(crate::proofs::Choices::choices))]
fn forms_of(alloc: Global, items: &[Item]) -> Result<Vec<Form>, AllocError>
    requires apart { AreApart items.now }
    requires there { AreThere items.now }
    ensures { IfOk result (λ forms. forms.items ≡ forms_of items.now) }
{
    let longest = longest_forms(alloc, items)?;
    let places = label_places(alloc, &longest, items)?;
    chosen_forms(alloc, &places, items)
}

/// How many words a labelled list has, however long it is: as many as `assemble` gives where the list can be assembled.
/// The caller shows that no label stands twice and that each label that an item goes to stands somewhere.
#[tactic(auto, using(crate::proofs::Choices::choices))]
pub fn word_count(alloc: Global, items: &[Item]) -> Result<u128, AllocError>
    requires apart { AreApart items.now }
    requires there { AreThere items.now }
    ensures value { IfOk result (λ count. count ≡ length (words_of items.now)) }
    ensures small { IfOk result (λ count. count < 2 ^ 66) }
{
    let forms = forms_of(alloc, items)?;
    Ok(size(&forms, items))
}

/// The words of a labelled list: instructions as they stand, and each branch, jump and call in the shortest form that
/// reaches its label, which may change x31 (`Form`). The caller shows that the list can be assembled: no label stands
/// twice, each
/// label that an item goes to stands somewhere, and the longest forms have fewer than 2^28 words together
/// (`is_assemblable` tests it).
#[tactic(auto, using(crate::proofs::Choices::choices))]
pub fn assemble(alloc: Global, items: &[Item]) -> Result<Vec<u32>, AllocError>
    requires { IsAssemblable items.now }
    ensures { IfOk result (λ words. words.items ≡ words_of items.now) }
{
    let forms = forms_of(alloc, items)?;
    let places = label_places(alloc, &forms, items)?;
    let mut words = Vec::new(alloc);
    put_items(&mut words, &places, &forms, items)?;
    Ok(words)
}
