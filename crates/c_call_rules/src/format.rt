//! The directives of a format (C99 7.19.6.1).

ghost use Rattle.std.specs.Prelude.{◌≡◌, [], IfOk, option_map};
ghost use Rattle.c_tree.specs.declared.format.Place.TheVariants as place;
ghost use Rattle.c_call_rules.specs.Printing.{directives_in};
ghost use Rattle.c_call_rules.specs.Scanning.{ended, scanned, with_directive};

use c_tree::Directive;
use c_tree::format::{Next, Place, next_in};
use std::alloc::{AllocError, Global};

/// The directives of a format that take an argument, in order, if it has no directive that is not among those of the
/// subset. It ends at its first 0 byte.
#[tactic(auto, using(crate::proofs::Scanned::scanned_is))]
pub fn directives_in(alloc: Global, format: &[u8]) -> Result<Option<Vec<Directive>>, AllocError>
    ensures { IfOk result (λ found. option_map (λ ds. ds.items) found ≡ directives_in format.now) }
{
    scanned(alloc, format)
}

fn scanned(alloc: Global, format: &[u8]) -> Result<Option<Vec<Directive>>, AllocError>
    ensures { IfOk result (λ found. option_map (λ ds. ds.items) found ≡ scanned place.Text [] format.now) }
{
    let mut place = Place::Text;
    let mut found = Vec::new(alloc);
    for byte in format {
        match next_in(place, *byte) {
            Next::End => return Ok(Some(found)),
            Next::Wrong => return Ok(None),
            Next::On(next, directive) => {
                place = next;
                found = with_directive(found, directive)?;
            }
        }
    }
    Ok(ended(place, found))
}

fn with_directive(
    found: Vec<Directive>,
    directive: Option<Directive>,
) -> Result<Vec<Directive>, AllocError>
    ensures { IfOk result (λ all. all.items ≡ with_directive found.items directive) }
{
    let mut all = found;
    if let Some(directive) = directive {
        all.push(directive)?;
    }
    Ok(all)
}

fn ended(place: Place, found: Vec<Directive>) -> Option<Vec<Directive>>
    ensures { option_map (λ ds. ds.items) result ≡ ended place found.items }
{
    match place {
        Place::Text => Some(found),
        Place::Percent | Place::Long => None,
    }
}
