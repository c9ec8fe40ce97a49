//! Laws of where code stands, each as the contract of a function that does nothing: a generator of images rests on
//! them.

ghost use Rattle.std.specs.Prelude.{◌≡◌, ◌+◌, ◌≤◌, ◌%◌, ℕ, List, length};
ghost use Rattle.addr_map.specs.Places.{MapSizes, functions_begin, code_begin, code_size};
ghost use Rattle.flat_code.specs.declared.function.FlatProgram.{FlatProgram};
ghost use Rattle.reg_plan.specs.declared.plan.FunctionPlan.{FunctionPlan};
ghost use Rattle.machine_laws.specs.View.Views.{Layout};
ghost use Rattle.machine_laws.specs.Following.Code.{IsLaid};
ghost use Rattle.machine_laws.specs.Layout.Lists.{ArePlaced, HasBytes, HasWordsAt, AreWords32, address_in};

/// Where the assembled list of each function stands in its segment, and the entries of the jump table lead to them, the
/// code of the program is laid: each instruction's block at its address, jumps and branches to the addresses of their
/// targets, the entry block first.
pub fn assembled_functions_are_laid()
    ensures { (map : MapSizes) (p : FlatProgram) (plans : List FunctionPlan) (l : Layout) (begin : ℕ → ℕ)
        (words : ℕ → List ℕ) (place : (function item : ℕ) → ℕ) → ArePlaced map p plans l begin words place
        → IsLaid map p plans l (address_in map p plans begin place) begin }
{}

/// Words whose bytes stand in one of the two segments of code stand in memory.
pub fn words_stand_in_their_segments()
    ensures code { (l : Layout) (at : ℕ) (words : List ℕ) → HasBytes l.code at words → AreWords32 words → at % 4 ≡ 0
        → length l.code ≤ code_size → HasWordsAt l (code_begin + at) words }
    ensures table { (l : Layout) (at : ℕ) (words : List ℕ) → HasBytes l.table at words → AreWords32 words → at % 4 ≡ 0
        → functions_begin + length l.table ≤ code_begin → HasWordsAt l (functions_begin + at) words }
{}
