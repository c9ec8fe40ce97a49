//! Laws of what waits behind a run, each as the contract of a function that does nothing.

ghost use Rattle.std.specs.Prelude.{ℕ, ◌≤◌, List};
ghost use Rattle.source_meaning.specs.State.{State};
ghost use Rattle.source_meaning.specs.Blocks.{Block, leave_block};
ghost use Rattle.source_meaning.specs.Keeping.{LivesOn};
ghost use Rattle.source_meaning.specs.Good.{EndsMade};
ghost use Rattle.tac_ir.specs.Stage.{Frame};
ghost use Rattle.flat_code.specs.Memory.{Bytes};
ghost use Rattle.flat_code.specs.State.{Frame as FlatFrame};
ghost use Rattle.flat_code.specs.Routines.Objects.StandsFor.{Views, Keys, StandsFor};
ghost use Rattle.metadata_relation.specs.Holding.{GoesOn, world_of};
ghost use Rattle.metadata_relation.specs.Waiting.{AreBetween, Layout, Level, Wait};

/// Callers and blocks that wait go on waiting: while an action is done that ends no lives of objects that are held and
/// keeps keys, and where the block that was entered last is left, for those around it.
pub fn what_waits_goes_on_waiting()
    ensures action { (g : Views) (k k_after : Keys) (s s_after : State) (m m_after : Bytes) (l : Layout) (first : ℕ)
        → StandsFor g k s.objects m → StandsFor g k_after s_after.objects m_after
        → GoesOn g k k_after s.objects s_after.objects m m_after → LivesOn s.objects s_after.objects
        → EndsMade s.objects s_after.objects → (v : Level) (ws : List Frame) (xs : List FlatFrame)
        → Wait (world_of g k s.objects m) s l first v ws xs
        → Wait (world_of g k_after s_after.objects m_after) s_after l first v ws xs }
    ensures left { (g : Views) (k : Keys) (s : State) (b : Block) (l : Layout) (first bound mark : ℕ)
        → AreBetween mark bound b.homes → (m m_after : Bytes) → StandsFor g k s.objects m
        → StandsFor g k (leave_block b s).objects m_after
        → GoesOn g k k s.objects (leave_block b s).objects m m_after
        → (v : Level) (ws : List Frame) (xs : List FlatFrame) → v.bound ≤ mark
        → Wait (world_of g k s.objects m) s l first v ws xs
        → Wait (world_of g k (leave_block b s).objects m_after) (leave_block b s) l first v ws xs }
{}
