//! Parts of a text.

ghost use Rattle.std.specs.Prelude.{◌≡◌, ◌<◌, length, option_map, IfSome};
ghost use Rattle.rv_listing.specs.Fields.{cut};

// What stands before the first of these bytes, and what behind it, where there is one.
#[tactic(auto, unfolding(crate::specs::Fields::cut))]
pub fn cut(text: &[u8], mark: u8) -> Option<(&[u8], &[u8])>
    ensures value { option_map (λ p. (p.0.now, p.1.now)) result ≡ cut mark text.now }
    ensures shorter { IfSome result (λ p. length p.1.now < length text.now) }
{
    for i in 0..text.len() {
        if text[i] == mark {
            return Some((&text[..i], &text[i + 1..]));
        }
    }
    None
}
