//! Laws of the list of an engine's tables, of their order, of the keys of a closing, and of what rests under one.
ghost use Rattle.std.specs.Prelude.{◌≡◌, ◌≢◌, ℕ, List, None, Option, Result, Some, slice_get};
ghost use Rattle.ob_base.specs.declared.schema.Table.{Table};
ghost use Rattle.ob_base.specs.Stored.{AreApart, headings};
ghost use Rattle.ob_mean.specs.Verdict.{Tables};
ghost use Rattle.ob_seal.specs.KeySet.{AreAlike as AreAlikeKeys, KeySet};
ghost use Rattle.ob_seal.specs.Sealed.{AreBefore, keys_of, keys_salted};
ghost use Rattle.ob_seal.specs.declared.Salted.{Salted};
ghost use Rattle.ob_store.specs.State.{KeptRegion};
ghost use Rattle.ob_vault.specs.Rekeying.{rekeyed};
ghost use Rattle.ob_vault.specs.Resuming.{Unasked};
ghost use Rattle.ob_vault.specs.State.{RevState, World};
ghost use Rattle.ob_reopen.specs.declared.closing.Closing.{Closing};
ghost use Rattle.ob_reopen.specs.declared.fault.OpenErr.{OpenErr};
ghost use Rattle.ob_reopen.specs.declared.listed.Listed.{Listed};
ghost use Rattle.ob_reopen.specs.Limits.{IsCatalogue};
ghost use Rattle.ob_reopen.specs.Openings.{ReadsClosing};
ghost use Rattle.ob_reopen.specs.Resting.{IsNeeded, IsAtRest, by_name};
ghost use Rattle.ob_reopen.specs.Saved.{RestsBy, reopening_keys};
ghost use Rattle.ob_reopen.specs.Writings.{MayList, ListsAll, catalogue_of};
ghost use Rattle.ob_verdict.specs.Alike.{AreAlike};

/// In order of their names, tables that a closing may list are a catalogue, which has each of them and no other.
pub fn lists_are_catalogues()
    ensures catalogue { (closing : Closing) (keys : KeySet) (revs : RevState)
        (tables : List Table) → MayList closing keys revs tables
        → IsCatalogue closing (catalogue_of keys revs tables) }
    ensures all { (keys : KeySet) (revs : RevState) (tables : List Table)
        → ListsAll keys revs tables (catalogue_of keys revs tables) }
{}

/// A closing that was read first under some keys was read under all that are the same for its region: those of the
/// tables that it lists can be told afterwards.
pub fn closings_keep_keys()
    ensures { (closing : Closing) (keys : KeySet) (old new : World)
        (result : Result (List Listed) OpenErr)
        → AreAlikeKeys old.vault.keys keys closing.region
        → ((q : ℕ) → q ≢ closing.region → Unasked q new.store.asked)
        → old.store.lie ≡ None → ((q : ℕ) → old.store.live q ≡ None)
        → ReadsClosing closing result old new
        → ReadsClosing closing result (rekeyed keys old) (rekeyed keys new) }
{}

/// In order of their names the tables are the same, where no two have one name.
pub fn names_order_tables()
    ensures { (tables : Tables) → AreApart (headings tables) → AreAlike tables (by_name tables) }
{}

/// What rests in a store for a mark outlasts whatever leaves the regions that the mark needs as they are kept.
pub fn rests_outlast()
    ensures { (keys : KeySet) (closing : Closing) (old new : ℕ → Option KeptRegion)
        (tables : Tables) (rests : IsAtRest keys closing old tables)
        → ((q : ℕ) → IsNeeded closing rests.listed q → new q ≡ old q)
        → IsAtRest keys closing new tables }
{}

/// What rests under some keys rests under others that are the same for the closing's region and for those of its
/// tables.
pub fn tables_keep_keys()
    ensures { (k l : KeySet) (kept : ℕ → Option KeptRegion) (closing : Closing) (tables : Tables)
        (rests : IsAtRest k closing kept tables)
        → AreAlikeKeys k l closing.region
        → ((i : ℕ) (t : Listed) → slice_get rests.listed i ≡ Some t
        → AreAlikeKeys k l t.table.region) → IsAtRest l closing kept tables }
{}

/// What rests under keys of a secret rests under those of each run of the secret that goes on from it, whatever its
/// salt is: by the salts that the mark and the closing name. So it is of what a run without a salt closed, and of what
/// one with a salt saved in a region that comes after those of earlier runs.
pub fn tables_rest_by_salts()
    ensures under { (secret salt : List ℕ) (closed : Option (List ℕ)) (closing : Closing)
        (kept : ℕ → Option KeptRegion) (tables : Tables)
        (by : RestsBy secret closed closing kept tables)
        → IsAtRest (reopening_keys secret salt closed closing by.rests.listed) closing kept tables }
    ensures plain { (secret : List ℕ) (closing : Closing) (kept : ℕ → Option KeptRegion)
        (tables : Tables) → IsAtRest (keys_of secret) closing kept tables
        → RestsBy secret None closing kept tables }
    ensures salted { (secret salt : List ℕ) (earlier : List Salted) (closing : Closing)
        (kept : ℕ → Option KeptRegion) (tables : Tables) → AreBefore closing.region earlier
        → IsAtRest (keys_salted secret salt earlier) closing kept tables
        → RestsBy secret (Some salt) closing kept tables }
{}
