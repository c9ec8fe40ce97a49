//! Laws of calls and returns, each as the contract of a function that does nothing: the back end rests on them.

ghost use Rattle.std.specs.Prelude.{◌≡◌, ◌≢◌, ℕ, ◌+◌, ◌-◌, ◌*◌, ◌^◌, ◌<◌, ◌≤◌, Bool, true, length};
ghost use Rattle.flat_code.specs.Memory.{load};
ghost use Rattle.machine_laws.specs.View.Views.{View};
ghost use Rattle.machine_laws.specs.Blocks.Effects.{IsIn, AreApart, kept, HasFrame};
ghost use Rattle.machine_laws.specs.Calls.Calls.{Keeping, give, take, save, restore, advance};
ghost use Rattle.machine_laws.specs.Calls.Effects.{AreKept, AreOwn, HasArguments, Given, Taken, Saved, Restored};

/// What is wanted behind a call goes to its home and comes back from there. Since no two such values share a register,
/// these are at most eleven.
pub fn wanted_values_wait_in_their_homes()
    ensures saved { (o s fp : ℕ) (k : Keeping) (live wanted : ℕ → Bool) (n : ℕ) (v : View) → AreKept k live
        → ((y : ℕ) → wanted y ≡ true → live y ≡ true)
        → ((y : ℕ) → live y ≡ true → kept fp v (k.place y) < 2 ^ 64) → HasFrame s k.base fp k.room v
        → Saved o s fp k (save k wanted n) live wanted n v }
    ensures restored { (o s fp : ℕ) (k : Keeping) (live wanted : ℕ → Bool) (n : ℕ) (v : View) → AreKept k live
        → ((y : ℕ) → wanted y ≡ true → live y ≡ true) → HasFrame s k.base fp k.room v
        → Restored o s fp k (restore k wanted n) wanted n v }
    ensures few { (room : ℕ) (k : Keeping) (wanted : ℕ → Bool) (n : ℕ) → AreOwn room k.place wanted
        → length (save k wanted n) ≤ 33 }
    ensures fewer { (room : ℕ) (k : Keeping) (wanted : ℕ → Bool) (n : ℕ) → AreOwn room k.place wanted
        → length (restore k wanted n) ≤ 33 }
{}

/// Arguments and results go to the words of arguments, and come from there to the places of those that are live; at
/// most six instructions for each.
pub fn arguments_go_through_their_words()
    ensures given { (o s fp : ℕ) (k : Keeping) (area count first n : ℕ) (v : View) → n ≤ count
        → HasArguments v area count fp → HasFrame s k.base fp k.room v
        → ((j : ℕ) → j < n → IsIn k.room (k.place (first + j)))
        → ((j : ℕ) → j < n → kept fp v (k.place (first + j)) < 2 ^ 64) → Given o s fp k area first n v }
    ensures taken { (o s fp : ℕ) (k : Keeping) (area count pc first n : ℕ) (v : View) → n ≤ count
        → HasArguments v area count fp → HasFrame s k.base fp k.room v
        → ((j : ℕ) → j < n → k.live pc (first + j) ≡ true → IsIn k.room (k.place (first + j)))
        → ((j l : ℕ) → j < n → l < n → k.live pc (first + j) ≡ true → k.live pc (first + l) ≡ true → j ≢ l
        → AreApart (k.place (first + j)) (k.place (first + l)))
        → ((j : ℕ) → j < n → load 8 v.memory (area + 8 * j) < 2 ^ 64)
        → Taken o s fp k (take k pc first n) area pc first n v }
    ensures few { (k : Keeping) (first n : ℕ) → length (give k first n) ≤ 6 * n }
    ensures fewer { (k : Keeping) (pc first n : ℕ) → length (take k pc first n) ≤ 6 * n }
{}
