//! The members of structures and unions in the order of their declarations (C99 6.7.2.1).

ghost use Rattle.std.specs.Prelude.{◌≡◌, option_copied};
ghost use Rattle.c_scope.specs.Names.{names_of};
ghost use Rattle.c_current_object.specs.Members.{is_union, lies_at_start};

use c_scope::names::Names;
use c_tree::Member;

/// Whether members are initialized as those of a union are: all of them lie at the start.
pub fn is_union(members: &Names<Member>) -> bool
    ensures { result ≡ is_union (names_of members.now) }
{
    for number in 0..members.len() {
        if !lies_at_start(members.at(number)) {
            return false;
        }
    }
    true
}

fn lies_at_start(member: Option<&Member>) -> bool
    ensures { result ≡ lies_at_start (option_copied member.entry) }
{
    match member {
        Some(member) => member.offset == 0,
        None => true,
    }
}
