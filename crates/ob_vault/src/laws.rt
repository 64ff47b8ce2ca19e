//! Laws of the numbers of writes, and of tags.
ghost use Rattle.std.specs.Prelude.{◌≡◌, ◌≢◌, ◌≤◌, ◌+◌, ℕ, Bool, List, None, Some};
ghost use Rattle.ob_store.specs.State.{FalseRead};
ghost use Rattle.ob_seal.specs.KeySet.{AreAlike, KeySet, pair_at};
ghost use Rattle.ob_seal.specs.Sealed.{AreBefore, InRange, TwoSalts, TwoTexts, keys_salted, pair_by, sealed, tag_of};
ghost use Rattle.ob_seal.specs.declared.Salted.{Salted};
ghost use Rattle.ob_seal.specs.declared.At.{At as Head};
ghost use Rattle.ob_vault.specs.State.{Start, World};
ghost use Rattle.ob_vault.specs.Numbers.{MayWrite, IsNumber, IsWrite, last_number, write_number};
ghost use Rattle.ob_vault.specs.Tied.{AllSealed, Untampered, IsOwn, TagFits, Holds, Ready, Scope, Tied, at_lie, at_of};
ghost use Rattle.ob_vault.specs.Rekeying.{rekeyed};

/// No two writes have one number, and the number of a place is that of a write to it alone; and a run writes to
/// regions of its own, or to those that are linked.
pub fn numbers_are_apart()
    ensures writes { (w : World) (i j q x r y : ℕ) → IsWrite i q x w → IsWrite j r y w
        → write_number i w ≡ write_number j w → i ≡ j }
    ensures named { (w : World) (i q x : ℕ) → IsWrite i q x w → IsNumber w q x (write_number i w) }
    ensures last { (w : World) (q x : ℕ) → last_number w q x ≢ 0
        → IsNumber w q x (last_number w q x) }
    ensures alone { (w : World) (q x r y n : ℕ) → Tied w → IsNumber w q x n → IsNumber w r y n
        → (q ≡ r) × (x ≡ y) }
    ensures own { (w : World) (i q x : ℕ) → Tied w → IsWrite i q x w
        → MayWrite w.vault.start q }
    // a write to a region of its own is under its salt, if it has one: so no two such blocks, of
    // one run or of two that have different salts, are sealed under one salt and one number
    ensures salted { (secret salt : List ℕ) (earlier : List Salted) (w : World) (i q x : ℕ) → Tied w
        → w.vault.keys ≡ keys_salted secret salt earlier
        → AreBefore (w.vault.start.region + 1) earlier → IsWrite i q x w
        → IsOwn q w → (n : ℕ) → pair_at w.vault.keys (at_of q x n) ≡ pair_by secret (Some salt) }
{}

/// A tag that is right for one text at two places, or under two numbers, is one tag of two texts; and one that is
/// right in two runs that have different salts is one tag under two keys.
pub fn tags_tell_places()
    ensures heads { (keys : KeySet) (a b : Head) (text : List ℕ) → InRange a → InRange b → a ≢ b
        → tag_of keys a text ≡ tag_of keys b text → TwoTexts keys }
    // a block that was sealed for another place, or at another write, and is taken all the same
    ensures lies { (keys : KeySet) (start : Start) (lie : FalseRead) (a : Head) (rows : List ℕ)
        → lie.bytes ≡ sealed keys a rows → InRange a → InRange (at_lie start lie)
        → a ≢ at_lie start lie → TagFits keys start lie → TwoTexts keys }
    // one that a run under another salt has sealed, for whichever place, and is taken all the same
    ensures salts { (k l : KeySet) (start : Start) (lie : FalseRead) (a : Head) (rows : List ℕ)
        → lie.bytes ≡ sealed k a rows → (pair_at k a).salt ≢ (pair_at l (at_lie start lie)).salt
        → TagFits l start lie → TwoSalts k l }
{}

/// What is said of a vault goes on to be so under other keys, where these are the same for the regions of which it
/// is said: one, all that are live, or that of a lie.
pub fn regions_keep_keys()
    ensures ready { (keys : KeySet) (w : World) → Ready w → Ready (rekeyed keys w) }
    ensures holds { (keys : KeySet) (w : World) (q x : ℕ) (rows : List ℕ)
        → AreAlike w.vault.keys keys q → Holds q x rows w
        → Holds q x rows (rekeyed keys w) }
    ensures sealed { (keys : KeySet) (w : World) (good : ℕ → List ℕ → Bool) (scope : Scope)
        → ((q : ℕ) → scope.from ≤ q → w.store.live q ≢ None
        → AreAlike w.vault.keys keys q)
        → AllSealed good scope w → AllSealed good scope (rekeyed keys w) }
    ensures calm { (keys : KeySet) (w : World)
        → ((lie : FalseRead) → w.store.lie ≡ Some lie
        → AreAlike w.vault.keys keys lie.region)
        → Untampered w → Untampered (rekeyed keys w) }
{}
