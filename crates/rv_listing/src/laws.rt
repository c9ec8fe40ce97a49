//! Laws of listings, each as the contract of a function that does nothing.

ghost use Rattle.std.specs.Prelude.{◌≡◌, ◌≤◌, ◌<◌, ℕ, List, length, Ok};
ghost use Rattle.std.specs.List.{All};
ghost use Rattle.rv_listing.specs.Listings.{listing_text, read_listing, Accepts};

/// The listing of 1 to 67108864 bytes is read as these bytes, whatever the ranges of code are.
pub fn a_listing_is_read_back()
    ensures { (bytes : List ℕ) (ranges : List (ℕ × ℕ)) → All (λ b. b < 256) bytes → 1 ≤ length bytes
        → length bytes ≤ 67108864 → read_listing (listing_text bytes ranges) ≡ Ok bytes }
{}

/// What is accepted is the bytes of the lines behind the first, one after the other, and as many as the first tells.
pub fn accepted_is_what_its_lines_are()
    ensures { (text bytes : List ℕ) → read_listing text ≡ Ok bytes → Accepts text bytes }
{}
