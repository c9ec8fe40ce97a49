//! Laws of the definitions that the top call's clauses cite, each as the contract of a function that
//! does nothing.
ghost use Rattle.sbcets_core.specs.Hexadecimal.{spelled_number};
ghost use Rattle.sbcets_core.specs.Outcomes.{hexadecimal};
ghost use Rattle.std.specs.Prelude.{◌≡◌, ◌<◌, ◌^◌, ℕ, List, [], Option, Some, Ok, Err};
ghost use Rattle.sb_outside.specs.Faults.{next_count};
ghost use Rattle.sb_outside.specs.Rest.{ForEveryInput};
ghost use Rattle.sbcets_core.specs.declared.outcome.Outcome.{Outcome};
ghost use Rattle.sbcets_core.specs.declared.outcome.Outcome.TheVariants.{Built};
ghost use Rattle.rv_sim.specs.declared.stop.Stop.TheVariants.{Exited, Limit};
ghost use Rattle.sbcets_core.specs.Commands.{Outside, Builds, Goes, Runs, Went};
ghost use Rattle.sbcets_core.specs.Meant.{EndsAsMeant, GoesAsMeant};
ghost use Rattle.sb_base.specs.Budgets.{BudgetSizes};
ghost use Rattle.c_tree.specs.Programs.{Program};
ghost use Rattle.source_meaning.specs.Meaning.{meaning};
ghost use Rattle.sbcets_core.specs.declared.refusal.SourceRefusal.TheVariants.{Syntax, Nesting};
ghost use Rattle.sbcets_core.specs.Programs.{Judged};
ghost use Rattle.sbcets_core.specs.Accepted.{Judges};
ghost use Rattle.sbcets_core.specs.Trees.{HasTokensAlone, HasOneTree, IsUnparsed};

/// `build` and then `run` compose: where a source was built into a file, and the files are the same
/// since, what `run` of that file does is what `go` of the source as it was then would have done with
/// the same budgets and the streams of the run.
pub fn run_of_what_was_built()
    ensures { (name target : List ℕ) (budgets : BudgetSizes) (limit : ℕ) (outcome : Outcome)
        (before between start after : Outside) (files : List ℕ → Option (List ℕ)) → between.files ≡ Some files
        → start.files ≡ between.files
        → Builds name target budgets Built [] before between → Runs target limit outcome [] start after →
        (image : List ℕ) × Goes name budgets limit outcome image
        (record before { streams = start.streams })
        (record before { reads = next_count before.reads; streams = after.streams }) }
{}

/// Where the image of a source ran to its exit, the source ends with the same status within as many
/// turns, and the streams gained just what it shows: on each input that begins with what was taken.
pub fn an_exit_is_meant()
    ensures { (name : List ℕ) (budgets : BudgetSizes) (limit code : ℕ) (image : List ℕ) (before after : Outside)
        (went : Went name budgets limit image (Exited code) before after) →
        ForEveryInput before.streams.input after.streams.input (λ input rest.
        EndsAsMeant (meaning went.is_built.program budgets) input limit code before.streams after.streams) }
{}

/// Where it was still running at the limit, the streams gained the first of what the source shows
/// within as many turns, on each input that begins with what was taken.
pub fn a_run_to_the_limit_is_meant()
    ensures { (name : List ℕ) (budgets : BudgetSizes) (limit : ℕ) (image : List ℕ) (before after : Outside)
        (went : Went name budgets limit image Limit before after) →
        ForEveryInput before.streams.input after.streams.input (λ input rest.
        GoesAsMeant (meaning went.is_built.program budgets) input limit before.streams after.streams) }
{}

/// Each source is judged, and in one way: it is accepted as one program, or refused for one reason at one place.
#[tactic(auto, using(crate::proofs::Judging::some_judgement, crate::proofs::Judging::judged_once))]
pub fn a_source_is_judged_once()
    ensures judged { (source : List ℕ) → (answer : Judged) × Judges source answer }
    ensures once { (source : List ℕ) (a b : Judged) → Judges source a → Judges source b → a ≡ b }
{}

/// A source is refused with `Syntax` or `Nesting` just where it has expanded tokens, none of them unsupported, and no
/// well-formed tree
/// of at most 200 levels has their words (C99 6.9). An accepted source has exactly one tree.
#[tactic(auto, using(crate::proofs::Trees::trees))]
pub fn a_source_without_a_tree_is_refused()
    ensures syntax { (source : List ℕ) (at line : ℕ) → Judges source (Err (Syntax at line)) → HasTokensAlone source }
    ensures nesting { (source : List ℕ) (at line : ℕ) → Judges source (Err (Nesting at line)) → HasTokensAlone source }
    ensures unparsed { (source : List ℕ) (judged : Judged) → HasTokensAlone source → Judges source judged
        → IsUnparsed judged }
    ensures accepted { (source : List ℕ) (program : Program) → Judges source (Ok program) → HasOneTree source }
{}

/// The hexadecimal digits in which the tool's line tells an address spell just that number.
pub fn hexadecimal_digits_spell_their_number()
    ensures { (n : ℕ) → n < 2 ^ 64 → spelled_number (hexadecimal n) ≡ n }
{}
