//! Laws of the keys of regions, and of draws.
ghost use Rattle.std.specs.Prelude.{◌≡◌, ◌≢◌, ◌%◌, ◌^◌, ℕ, List, Option, Some, slice_get};
ghost use Rattle.ob_seal.specs.Draws.{draw_at};
ghost use Rattle.ob_seal.specs.KeySet.{IsOfOne, KeySet, pair_at, pair_of};
ghost use Rattle.ob_seal.specs.Sealed.{AreBefore, AreOfSecret, AreSaltsOf, IsEarlier, IsSalt, check_label, cipher_label, draw_label, keys_of, keys_salted, mac_label, pair_by, relisted, salt_at, sealed};
ghost use Rattle.ob_seal.specs.declared.At.{At as Head};
ghost use Rattle.ob_seal.specs.declared.Salted.{Salted as Earlier};

/// A run's keys for a region are those of the region's salt, which for a region after those of earlier runs is its
/// own; a later run that lists the region with its salt has the same for it, whatever keys of the secret sealed it; and
/// keys that are the same for a region seal its blocks alike.
pub fn salts_name_keys()
    ensures named { (secret salt : List ℕ) (earlier : List Earlier) (q : ℕ)
        → pair_of (keys_salted secret salt earlier) q
        ≡ pair_by secret (salt_at salt earlier q) }
    ensures own { (secret salt : List ℕ) (earlier : List Earlier) (q : ℕ) → AreBefore q earlier
        → pair_of (keys_salted secret salt earlier) q ≡ pair_by secret (Some salt) }
    ensures known { (secret salt : List ℕ) (keys : KeySet) (earlier : List Earlier) (q : ℕ)
        → AreOfSecret secret keys → AreSaltsOf keys earlier → IsEarlier q earlier
        → pair_of (keys_salted secret salt earlier) q ≡ pair_of keys q }
    ensures salted { (secret salt : List ℕ) (earlier : List Earlier)
        → AreOfSecret secret (keys_salted secret salt earlier) }
    ensures plain { (secret : List ℕ) → AreOfSecret secret (keys_of secret) }
    ensures later { (secret s t : List ℕ) (earlier : List Earlier) (regions : List ℕ) (i q : ℕ)
        → slice_get regions i ≡ Some q
        → pair_of (keys_salted secret t (relisted s earlier regions)) q
        ≡ pair_of (keys_salted secret s earlier) q }
    ensures alike { (k l : KeySet) (at : Head) (row : List ℕ)
        → pair_at k at ≡ pair_at l at → sealed k at row ≡ sealed l at row }
{}

/// Under a secret no text is hashed for two salts, nor for two purposes.
pub fn labels_are_apart()
    ensures ciphers { (s t : Option (List ℕ)) → IsSalt s → IsSalt t
        → cipher_label s ≡ cipher_label t → s ≡ t }
    ensures tags { (s t : Option (List ℕ)) → IsSalt s → IsSalt t
        → mac_label s ≡ mac_label t → s ≡ t }
    ensures draws { (s t : Option (List ℕ)) → IsSalt s → IsSalt t
        → draw_label s ≡ draw_label t → s ≡ t }
    ensures checks { (s t : Option (List ℕ)) → IsSalt s → IsSalt t
        → check_label s ≡ check_label t → s ≡ t }
    ensures purposes { (s t : Option (List ℕ)) → IsSalt s → IsSalt t
        → (cipher_label s ≢ mac_label t) × (cipher_label s ≢ draw_label t)
        × (mac_label s ≢ draw_label t) }
    ensures unchecked { (s t : Option (List ℕ)) → IsSalt s → IsSalt t
        → (cipher_label s ≢ check_label t) × (mac_label s ≢ check_label t)
        × (draw_label s ≢ check_label t) }
{}

/// The draws of a seed repeat after 2^67 of them.
pub fn draws_repeat()
    ensures { (key : List ℕ) (n : ℕ) → draw_at key (n % 2 ^ 67) ≡ draw_at key n }
{}

/// Where one run alone writes to a region, the keys of its blocks are those of the region.
pub fn one_runs_blocks_have_its_keys()
    ensures { (keys : KeySet) (at : Head) → IsOfOne keys at.region
        → pair_at keys at ≡ pair_of keys at.region }
{}
