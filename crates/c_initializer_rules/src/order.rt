//! Steps that lead to one subobject behind another.

ghost use Rattle.std.specs.Prelude.{◌≡◌};
ghost use Rattle.c_initializer_rules.specs.Order.{leads_behind, same_step};
ghost use Rattle.c_initializer_rules.specs.Placed.{overrides};

use c_current_object::Step;

/// Whether an initializer overrides one before it: of the same subobject, of one that lies in it, or of another
/// member of one union (C99 6.7.8 paragraph 19).
pub fn overrides(now: &[Step], before: &[Step]) -> bool
    ensures { result ≡ overrides now.now before.now }
{
    match now {
        [] => true,
        [step, now @ ..] => match before {
            [] => false,
            [other, before @ ..] => {
                if step.number == other.number {
                    overrides(now, before)
                } else {
                    step.is_union
                }
            }
        },
    }
}

/// Whether the one lead behind the other, and no union holds both subobjects.
pub fn leads_behind(now: &[Step], before: &[Step]) -> bool
    ensures { result ≡ leads_behind now.now before.now }
{
    match now {
        [] => false,
        [step, now @ ..] => match before {
            [] => false,
            [other, before @ ..] => {
                if same_step(*step, *other) {
                    leads_behind(now, before)
                } else {
                    other.number < step.number && !step.is_union
                }
            }
        },
    }
}

fn same_step(left: Step, right: Step) -> bool
    ensures { result ≡ same_step left right }
{
    left.number == right.number
        && if left.is_union {
            right.is_union
        } else {
            !right.is_union
        }
}
