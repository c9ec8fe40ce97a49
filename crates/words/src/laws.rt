//! Laws of words, each as the contract of a function that does nothing: layers above rest on them.
ghost use Rattle.std.specs.Prelude.{◌≡◌, ◌↔◌, ℕ, ◌-◌, ◌/◌, ◌^◌, ◌<◌, ◌≤◌, ℤ, ◌<ℤ◌};
ghost use Rattle.std.specs.Prelude.{IsTrue, bit_and, bit_or, bit_xor};
ghost use Rattle.words.specs.TwosComplement.{IsExtendable, IsSigned, low_bits, signed, twos_complement, sign_extended};
ghost use Rattle.words.specs.Operations.{sum, difference, product, complement, shifted_left, shifted_right_signed};
ghost use Rattle.words.specs.Operations.{is_less_signed, signed_quotient, signed_remainder};
ghost use Rattle.words.specs.Division.{IsDivision, IsOverflow, AreDividable};

/// Each word of k bits stands for one integer of that range, and each of these has one word.
pub fn words_stand_for_integers()
    ensures word { (k x : ℕ) → 0 < k → x < 2 ^ k → twos_complement k (signed k x) ≡ x }
    ensures integer { (k : ℕ) (z : ℤ) → 0 < k → IsSigned k z → signed k (twos_complement k z) ≡ z }
    ensures range { (k x : ℕ) → 0 < k → x < 2 ^ k → IsSigned k (signed k x) }
{}

/// A word extended by copies of its sign bit stands for the same integer, and its low bits are the word.
pub fn extension_keeps_the_integer()
    ensures fits { (k m x : ℕ) → IsExtendable k m x → sign_extended k m x < 2 ^ m }
    ensures integer { (k m x : ℕ) → IsExtendable k m x → signed m (sign_extended k m x) ≡ signed k x }
    ensures low { (k m x : ℕ) → IsExtendable k m x → low_bits k (sign_extended k m x) ≡ x }
{}

/// The low k of m bits, extended again by copies of their sign bit or by zeros, are two shifts by m - k.
pub fn extension_is_two_shifts()
    ensures signs { (k m x : ℕ) → 0 < k → k ≤ m
        → shifted_right_signed m (shifted_left m x (m - k)) (m - k) ≡ sign_extended k m (low_bits k x) }
    ensures zeros { (k m x : ℕ) → k ≤ m → shifted_left m x (m - k) / 2 ^ (m - k) ≡ low_bits k x }
{}

/// The signed order of words is the order of their integers.
pub fn order_is_that_of_integers()
    ensures { (k x y : ℕ) → 0 < k → x < 2 ^ k → y < 2 ^ k
        → IsTrue (is_less_signed k x y) ↔ (signed k x <ℤ signed k y) }
{}

/// The signed quotient and remainder are those of the integers: dividend = quotient * divisor + remainder,
/// the remainder smaller than the divisor and with the sign of the dividend. Only the least integer divided
/// by -1 has a quotient that k bits do not hold: it gives itself, and the remainder 0.
pub fn division_is_that_of_integers()
    ensures division { (k x y : ℕ) → AreDividable k x y → (IsOverflow k x y → ⊥)
        → IsDivision k x y (signed_quotient k x y) (signed_remainder k x y) }
    ensures overflow_quotient { (k : ℕ) → 0 < k → signed_quotient k (2 ^ (k - 1)) (2 ^ k - 1) ≡ 2 ^ (k - 1) }
    ensures overflow_remainder { (k : ℕ) → 0 < k → signed_remainder k (2 ^ (k - 1)) (2 ^ k - 1) ≡ 0 }
{}

/// The low k bits of a sum, a difference, a product, a complement, a shift to the left and a bitwise
/// operation are those of the operation on the low k bits.
pub fn low_bits_go_by_low_bits()
    ensures again { (k m n : ℕ) → k ≤ m → low_bits k (low_bits m n) ≡ low_bits k n }
    ensures sum { (k m x y : ℕ) → k ≤ m → low_bits k (sum m x y) ≡ sum k (low_bits k x) (low_bits k y) }
    ensures difference { (k m x y : ℕ) → k ≤ m → y < 2 ^ m
        → low_bits k (difference m x y) ≡ difference k (low_bits k x) (low_bits k y) }
    ensures product { (k m x y : ℕ) → k ≤ m
        → low_bits k (product m x y) ≡ product k (low_bits k x) (low_bits k y) }
    ensures complement { (k m x : ℕ) → k ≤ m → x < 2 ^ m
        → low_bits k (complement m x) ≡ complement k (low_bits k x) }
    ensures shift { (k m x by : ℕ) → k ≤ m
        → low_bits k (shifted_left m x by) ≡ shifted_left k (low_bits k x) by }
    ensures and { (k x y : ℕ) → low_bits k (bit_and x y) ≡ bit_and (low_bits k x) (low_bits k y) }
    ensures or { (k x y : ℕ) → low_bits k (bit_or x y) ≡ bit_or (low_bits k x) (low_bits k y) }
    ensures xor { (k x y : ℕ) → low_bits k (bit_xor x y) ≡ bit_xor (low_bits k x) (low_bits k y) }
{}

/// On words of k bits that are extended by copies of their sign bits, m bits give the signed order of k bits;
/// extended the remainder, the shift to the right and the bitwise operations; and in the low k bits the
/// quotient.
pub fn extended_operands_give_extended_results()
    ensures order { (k m x y : ℕ) → IsExtendable k m x → IsExtendable k m y
        → is_less_signed m (sign_extended k m x) (sign_extended k m y) ≡ is_less_signed k x y }
    ensures remainder { (k m x y : ℕ) → IsExtendable k m x → IsExtendable k m y
        → signed_remainder m (sign_extended k m x) (sign_extended k m y) ≡ sign_extended k m (signed_remainder k x y) }
    ensures shift { (k m x by : ℕ) → IsExtendable k m x
        → shifted_right_signed m (sign_extended k m x) by ≡ sign_extended k m (shifted_right_signed k x by) }
    ensures and { (k m x y : ℕ) → IsExtendable k m x → IsExtendable k m y
        → bit_and (sign_extended k m x) (sign_extended k m y) ≡ sign_extended k m (bit_and x y) }
    ensures or { (k m x y : ℕ) → IsExtendable k m x → IsExtendable k m y
        → bit_or (sign_extended k m x) (sign_extended k m y) ≡ sign_extended k m (bit_or x y) }
    ensures xor { (k m x y : ℕ) → IsExtendable k m x → IsExtendable k m y
        → bit_xor (sign_extended k m x) (sign_extended k m y) ≡ sign_extended k m (bit_xor x y) }
    ensures quotient { (k m x y : ℕ) → IsExtendable k m x → IsExtendable k m y
        → low_bits k (signed_quotient m (sign_extended k m x) (sign_extended k m y)) ≡ signed_quotient k x y }
{}
