//! Laws of the definitions, each as the contract of a function that does nothing: what is above rests on them.

ghost use Rattle.std.specs.Prelude.{◌≡◌, ℕ, ◌*◌, List, true};
ghost use Rattle.addr_map.specs.Places.{MapSizes, AreMapped};
ghost use Rattle.behaviours.specs.Behaviour.{Behaviour, Follows, IsSource};
ghost use Rattle.behaviours.specs.Steps.{run};
ghost use Rattle.sb_base.specs.Budgets.{BudgetSizes};
ghost use Rattle.tac_ir.specs.declared.function.CodeFunction.{CodeFunction};
ghost use Rattle.tac_ir.specs.declared.function.Tac.{Tac};
ghost use Rattle.tac_ir.specs.Stage.{Stuck};
ghost use Rattle.tac_ir.specs.Meaning.{setting_of_code, step, objects_before, first_stage, tac_meaning};
ghost use Rattle.flat_code.specs.declared.function.FlatProgram.{FlatProgram};
ghost use Rattle.flat_code.specs.Memory.{Bytes, AreBytes};
ghost use Rattle.flat_code.specs.State.{Stuck as flat_stuck};
ghost use Rattle.flat_code.specs.Meaning.{step as flat_step, started, flat_meaning};
ghost use Rattle.flat_code.specs.Routines.Objects.StandsFor.{Views};
ghost use Rattle.flat_code.specs.Routines.Objects.Start.{IsStart};
ghost use Rattle.metadata_plan.specs.Operators.{OperatorCode, AreOperators};
ghost use Rattle.metadata_plan.specs.Expanded.{IsExpanded};
ghost use Rattle.metadata_plan.specs.Part.{IsIntegerCode};
ghost use Rattle.metadata_plan.specs.Laid.{address_of, program_of};

pub mod entries;
pub mod operator_lists;

/// The expansion of an integer program follows it: it shows what the program in three-address code shows, at each
/// moment, for each budget and input, with at most 21 units of work for each of the program's. The code of the
/// operators is to compute them, the memory at the start to stand for the static objects, and the program never to be
/// stuck.
pub fn integer_code_follows()
    ensures { (o : OperatorCode) → AreOperators o → (t : Tac) → IsIntegerCode t → (budgets : BudgetSizes)
        (address : (function node : ℕ) → ℕ) (p : FlatProgram)
        → IsExpanded o (setting_of_code t budgets).sizes t address p → AreMapped (setting_of_code t budgets).sizes
        → (views : Views) (memory : Bytes) → views.sizes ≡ (setting_of_code t budgets).sizes
        → IsStart views (objects_before t (setting_of_code t budgets)) memory → AreBytes memory → (input : List ℕ)
        → ((k : ℕ) → run (step (setting_of_code t budgets) t) k (first_stage t budgets input) ≡ Stuck → ⊥)
        → Follows 21 (tac_meaning t budgets input) (flat_meaning (setting_of_code t budgets).sizes p memory input) }
{}

/// Where the program follows a source, so does its expansion, with at most 21 times as much work, and it is never
/// stuck: it touches no byte that it may not use, and each of its calls has room.
pub fn expansions_follow_a_source()
    ensures follows { (o : OperatorCode) → AreOperators o → (t : Tac) → IsIntegerCode t
        → (budgets : BudgetSizes) (address : (function node : ℕ) → ℕ) (p : FlatProgram)
        → IsExpanded o (setting_of_code t budgets).sizes t address p → AreMapped (setting_of_code t budgets).sizes
        → (views : Views) (memory : Bytes) → views.sizes ≡ (setting_of_code t budgets).sizes
        → IsStart views (objects_before t (setting_of_code t budgets)) memory → AreBytes memory → (input : List ℕ)
        (c : ℕ) (a : Behaviour) → IsSource a → Follows c a (tac_meaning t budgets input)
        → Follows (21 * c) a (flat_meaning (setting_of_code t budgets).sizes p memory input) }
    ensures runs { (o : OperatorCode) → AreOperators o → (t : Tac) → IsIntegerCode t
        → (budgets : BudgetSizes) (address : (function node : ℕ) → ℕ) (p : FlatProgram)
        → IsExpanded o (setting_of_code t budgets).sizes t address p → AreMapped (setting_of_code t budgets).sizes
        → (views : Views) (memory : Bytes) → views.sizes ≡ (setting_of_code t budgets).sizes
        → IsStart views (objects_before t (setting_of_code t budgets)) memory → AreBytes memory → (input : List ℕ)
        (c : ℕ) (a : Behaviour) → IsSource a → Follows c a (tac_meaning t budgets input) → (k : ℕ)
        → run (flat_step (setting_of_code t budgets).sizes p) k (started p memory input) ≡ flat_stuck → ⊥ }
{
    flat_code::laws::steps_begin_at_most_one_turn();
}

/// Blocks that are laid one behind the other, that of the last node first, with a jump where the next node is not the
/// one that follows, make an expansion, whatever homes the virtual registers have.
pub fn laid_code_is_an_expansion()
    ensures { (o : OperatorCode) (m : MapSizes) (t : Tac) (homes : CodeFunction → List ℕ)
        → IsExpanded o m t (address_of o m t) (program_of o m t homes) }
{}
