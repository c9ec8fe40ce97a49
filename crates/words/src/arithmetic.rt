//! Signed arithmetic on words of 64 bits.
ghost use Rattle.std.specs.Prelude.{◌≡◌, ◌<◌, ◌^◌, ℕ};
ghost use Rattle.words.specs.TwosComplement.{magnitude, negated, sign_extended};
ghost use Rattle.words.specs.Operations.{is_less_signed, shifted_right_signed, signed_quotient, signed_remainder};

/// A word of so many bits, 1 to 63, extended to 64 bits by copies of its sign bit.
#[tactic(auto, using(crate::proofs::Powers::upper_ones, crate::proofs::Powers::shifted_one))]
pub fn sign_extend(bits: u32, word: u64) -> u64
    requires some { 0 < bits }
    requires short { bits < 64 }
    requires fits { word < 2 ^ bits }
    ensures { result ≡ sign_extended bits 64 word }
{
    if word < 1 << (bits - 1) {
        word
    } else {
        word + 0u64.wrapping_sub(1 << bits)
    }
}

/// Whether the integer of `left` is below that of `right`.
pub fn is_less_signed(left: u64, right: u64) -> bool
    ensures { result ≡ is_less_signed 64 left right }
{
    left.wrapping_add(1 << 63) < right.wrapping_add(1 << 63)
}

/// A shift to the right by at most 63 bits, copies of the sign bit shifted in.
pub fn shift_right_signed(word: u64, bits: u32) -> u64
    requires { bits < 64 }
    ensures { result ≡ shifted_right_signed 64 word bits }
{
    if word < 1 << 63 {
        word >> bits
    } else {
        !(!word >> bits)
    }
}

/// The quotient of two integers, rounded toward zero. The least integer divided by -1 is itself.
pub fn signed_quotient(dividend: u64, divisor: u64) -> u64
    requires { 0 < divisor }
    ensures { result ≡ signed_quotient 64 dividend divisor }
{
    let quotient = magnitude(dividend) / magnitude(divisor);
    match (dividend < 1 << 63, divisor < 1 << 63) {
        (true, true) => quotient,
        (true, false) => negate(quotient),
        (false, true) => negate(quotient),
        (false, false) => quotient,
    }
}

/// The remainder of that quotient, with the sign of the dividend.
pub fn signed_remainder(dividend: u64, divisor: u64) -> u64
    requires { 0 < divisor }
    ensures { result ≡ signed_remainder 64 dividend divisor }
{
    let remainder = magnitude(dividend) % magnitude(divisor);
    if dividend < 1 << 63 {
        remainder
    } else {
        negate(remainder)
    }
}

fn negate(word: u64) -> u64
    ensures { result ≡ negated 64 word }
{
    0u64.wrapping_sub(word)
}

// The absolute value of an integer.
fn magnitude(word: u64) -> u64
    ensures value { result ≡ magnitude 64 word }
    ensures zero { result ≡ 0 → word ≡ 0 }
{
    if word < 1 << 63 { word } else { negate(word) }
}
