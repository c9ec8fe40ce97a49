//! Laws of what sinks and sources tell, each as the contract of a function that does nothing.
ghost use Rattle.std.specs.Prelude.{◌≡◌, ◌++◌, [], ℕ, List, Option, Result, Ok, slice_get};
ghost use Rattle.sb_outside.specs.declared.source.Failed.{Failed};
ghost use Rattle.sb_outside.specs.Content.{gained, given_by, GainsPart, Takes};
ghost use Rattle.sb_outside.specs.Rest.{Rest, Told, MayGive, HasTaken, GivesSome};

/// To gain nothing changes nothing, and to gain bytes and then others is to gain them one behind the
/// other, whether the sink tells its content or not.
pub fn gains_are_appended()
    ensures nothing { (told : Option (List ℕ)) → gained told [] ≡ told }
    ensures appended { (told : Option (List ℕ)) (a b : List ℕ) → gained (gained told a) b ≡ gained told (a ++ b) }
{}

/// A part of a piece, behind what came in whole, is a part of all that was to be sent.
pub fn parts_are_parts_of_all()
    ensures { (told between now : Option (List ℕ)) (front sent rest whole : List ℕ) →
        between ≡ gained told front → whole ≡ (front ++ sent) ++ rest →
        GainsPart between now sent → GainsPart told now whole }
{}

/// What was taken from a source, and what it may give: a call takes the bytes that it gives, the first of those that
/// the source may have given; bytes that are taken one after another are taken together; of a source that tells its
/// content they are the first of those left. There always is something that a source may give.
pub fn sources_give_what_they_may()
    ensures call { (old new : Rest) (result : Result (Option ℕ) Failed) → Takes old new result →
        HasTaken old new (given_by result) }
    ensures first { (old new : Rest) (first : Option ℕ) (more : List ℕ) → Takes old new (Ok first) → MayGive new more →
        first ≡ slice_get (given_by (Ok first) ++ more) 0 }
    ensures nothing { (rest : Rest) → HasTaken rest rest [] }
    ensures together { (before between now : Rest) (a b : List ℕ) → HasTaken before between a →
        HasTaken between now b → HasTaken before now (a ++ b) }
    ensures told { (before now taken : List ℕ) → HasTaken (Told before) (Told now) taken → before ≡ taken ++ now }
    ensures some { (rest : Rest) → GivesSome rest }
{}
