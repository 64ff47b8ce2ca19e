//! The laws that join statements on an index in a store and SQL's meaning.
ghost use Rattle.std.specs.Prelude.{◌≡◌, ◌<◌, ◌^◌, ℕ, Ok, Err};
ghost use Rattle.ob_base.specs.declared.config.Public.{Public};
ghost use Rattle.ob_base.specs.Stored.{Stored};
ghost use Rattle.ob_mean.specs.Keyed.{Ask};
ghost use Rattle.ob_mean.specs.Verdict.{index_of, Held};
ghost use Rattle.ob_oram.specs.declared.fault.OramErr.{OramErr};
ghost use Rattle.ob_oram.specs.declared.index.Index.{Index};
ghost use Rattle.ob_oram.specs.declared.op.Got.{Got};
ghost use Rattle.ob_oram.specs.declared.op.Op.{Op};
ghost use Rattle.ob_oram.specs.Accessing.{Accesses};
ghost use Rattle.ob_oram.specs.Indexes.{IsShaped, IsStoredAs};
ghost use Rattle.ob_sql.specs.declared.stmt.Stmt.{Stmt};
ghost use Rattle.ob_vault.specs.State.{World};
ghost use Rattle.ob_vault.specs.Words.{IsHonest};
ghost use Rattle.ob_keyed.specs.declared.keyed.Keyed.{Keyed};
ghost use Rattle.ob_keyed.specs.Asking.{IsKeyed};
ghost use Rattle.ob_keyed.specs.Emitting.{PrintsFound};
ghost use Rattle.ob_keyed.specs.Meaning.{AnswersAsk, Asks, IsIndexOf, StopsAsk};
ghost use Rattle.ob_keyed.specs.Meant.{AccessesMean, FindsAccess, KeyedMeans};
ghost use Rattle.ob_keyed.specs.Seeing.{CutsAlike, KeyedCut, KeyedRan, ShowsScript};
ghost use Rattle.ob_keyed.specs.Serving.{GoneBy, ServesKeyed};

/// Where nobody changed a block, an access of an index in a store is the one that SQL's meaning
/// has, and its stash is full exactly where that one's is.
pub fn access_told()
    ensures ok { (t : Stored Held) (index left : Index) (op : Op) (ask : Ask) (draw : ℕ)
        (got : Got) (old new : World) → IsIndexOf t.heading index → Asks ask op
        → Accesses index left op draw (Ok got) old new → IsHonest old new
        → IsStoredAs index (index_of t.heading t.held) old → AnswersAsk t left ask draw got new }
    ensures err { (t : Stored Held) (index left : Index) (op : Op) (ask : Ask) (draw : ℕ)
        (e : OramErr) (old new : World) → IsIndexOf t.heading index → Asks ask op
        → Accesses index left op draw (Err e) old new → IsHonest old new
        → IsStoredAs index (index_of t.heading t.held) old → StopsAsk t left ask draw e new }
{}

/// What a statement on an index asked, showed and meant follows from its access.
pub fn keyed_serves()
    ensures { (stmt : Stmt) (index left : Index) (draw : ℕ) (keyed : Keyed) (old new : World)
        → IsShaped index → GoneBy stmt index left draw keyed old new
        → ServesKeyed stmt index left draw keyed old new }
{}

/// The accesses of a statement on an index follow from what is public and what is seen of it, which is lawful, wherever
/// it was cut off; and the meaning's access is seen alike.
pub fn keyed_shows()
    ensures script { (p : Public) (m : ℕ) (stmt : Stmt) (index : Index) (leaf : ℕ)
        → IsKeyed p m stmt index → leaf < 2 ^ index.height → ShowsScript p m stmt index leaf }
    ensures cut { CutsAlike }
    ensures ran { KeyedRan }
    ensures emitted { KeyedCut }
{}

/// A statement that accesses an index among the tables in place is answered by its access, shows its leaf, and leaves
/// the tables that the access leaves; without an answer the stash is full.
pub fn keyed_means()
    ensures finds { FindsAccess }
    ensures accesses { AccessesMean }
    ensures served { KeyedMeans }
{}

/// The rows that `emit` shows are what the answer prints.
pub fn found_prints()
    ensures { PrintsFound }
{}
