//! The judgement of accesses: SoftBound's spatial and CETS's temporal check.

ghost use Rattle.std.specs.Prelude.{◌≡◌, ℕ, ◌+◌, ◌≤◌};
ghost use Rattle.obj_memory.specs.Judgement.{are_within, judge, named};

use crate::object::Object;
use crate::value::{Bounds, Place, Tag, Value};

/// What is found of an access.
#[derive(Clone, Copy, PartialEq, Eq)]
pub enum Verdict {
    /// It is not within the bounds of its pointer, or the pointer is not of an object: a spatial violation.
    Outside,
    /// It is within the bounds, of an object that is no longer live: a temporal violation.
    Dead,
    /// It is allowed, at this place.
    Inside(Place),
}

/// Judges an access of so many bytes, at least one, through a pointer, among all objects that were
/// made, by their numbers. The bounds are tested first; an address past them does not wrap.
#[tactic(auto, unfolding(crate::specs::Judgement::judge))]
pub fn judge(size: u64, pointer: Value, objects: &[Object]) -> Verdict
    ensures { result ≡ judge size pointer objects.now }
{
    match pointer.tag {
        Tag::OfObject(number, bounds) if are_within(bounds, pointer.word, size) => {
            match objects.get(number) {
                Some(object) if object.is_live() => Verdict::Inside(Place {
                    object: number,
                    offset: pointer.word.saturating_sub(object.address()),
                }),
                _ => Verdict::Dead,
            }
        }
        _ => Verdict::Outside,
    }
}

/// The place of an access that names its object, as `x` or `x.m` does, and so is not judged; `Outside`
/// where the pointer is not of an object.
#[tactic(auto, unfolding(crate::specs::Judgement::named))]
pub fn named(pointer: Value, objects: &[Object]) -> Verdict
    ensures { result ≡ named pointer objects.now }
{
    match pointer.tag {
        Tag::OfObject(number, _) => {
            let address = objects.get(number).map_or(0, |object| object.address());
            Verdict::Inside(Place {
                object: number,
                offset: pointer.word.saturating_sub(address),
            })
        }
        _ => Verdict::Outside,
    }
}

// Whether so many bytes from an address on are within the bounds.
fn are_within(bounds: Bounds, address: u64, size: u64) -> bool
    ensures { result ≡ are_within bounds address size }
{
    bounds.base <= address && address <= bounds.bound && size <= bounds.bound - address
}
