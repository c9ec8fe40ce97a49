//! Numbers in words.
ghost use Rattle.std.specs.Prelude.{◌≡◌};
ghost use Rattle.command_line.specs.Numbers.{has_leading_zero, number_in};

/// The number that the text writes: decimal digits alone, with no sign and no leading zero (0 itself
/// is one zero), below 2^64. `None` is any other text.
pub fn number_of(text: &str) -> Option<u64>
    ensures { result ≡ number_in text.now }
{
    if text.starts_with('+') || has_leading_zero(text) {
        return None;
    }
    text.parse().ok()
}

// Whether more follows a first zero.
fn has_leading_zero(text: &str) -> bool
    ensures { result ≡ has_leading_zero text.now }
{
    text.len() > 1 && text.starts_with('0')
}
