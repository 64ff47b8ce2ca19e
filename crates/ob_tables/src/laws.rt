//! A law of an engine's tables.
ghost use Rattle.std.specs.Prelude.{◌≡◌};
ghost use Rattle.ob_base.specs.Stored.{AreApart, headings_of};
ghost use Rattle.ob_tables.specs.declared.engine.Engine.{Engine};
ghost use Rattle.ob_tables.specs.Agreeing.{Agrees, public_of};
ghost use Rattle.ob_store.specs.State.{StoreState};

use ob_vault::Revisions;

/// No two tables of an engine have one name.
pub fn names_are_apart<R: Revisions>()
    ensures { (e : Engine R) (s : StoreState) → Agrees R.state e s
        → AreApart (headings_of (public_of e).tables) }
{}
