//! Laws of the lists that compiled code has inline, each as the contract of a function that does nothing.

ghost use Rattle.addr_map.specs.Places.{MapSizes, AreMapped};
ghost use Rattle.metadata_relation.specs.InlineCode.{IsInlineCode};
ghost use Rattle.metadata_relation.specs.InlineLists.{inline_lists};

use flat_actions::laws::{pointers_are_narrowed_exactly, the_tests_of_an_access_are_exact};
use flat_operators::laws::{
    differences_are_in_elements, differences_by_few_bits_are_in_elements,
    lists_for_pointers_have_shapes, pointers_move_by_elements,
};
use lib_wrappers::accesses::laws::{loads_are_exact, stores_are_exact};
use lib_wrappers::allocating::laws::blocks_are_left_exactly;
use metadata_plan::laws::operator_lists::operators_compute;
use shadow_space::ShadowForm;

/// Under each form of the shadow space the operators, the moves of pointers, loads and stores, checks, narrowing and
/// the end of a block have lists that are what is asked of inline code.
pub fn lists_of_a_form_are_inline_code<S: ShadowForm>()
    ensures { (map : MapSizes) → AreMapped map
        → IsInlineCode map S.entry (S.IsGood map) (inline_lists S.entry_read S.entry_write map) }
{
    operators_compute();
    pointers_move_by_elements();
    differences_are_in_elements();
    differences_by_few_bits_are_in_elements();
    lists_for_pointers_have_shapes();
    loads_are_exact::<S>();
    stores_are_exact::<S>();
    the_tests_of_an_access_are_exact();
    pointers_are_narrowed_exactly();
    blocks_are_left_exactly::<S>()
}
