//! Laws of what is chosen.
ghost use Rattle.std.specs.Prelude.{◌≡◌, ◌≢◌, ℕ, Bool, true, false};
ghost use Rattle.ob_base.specs.declared.config.Plan.TheVariants.{Continuous, Hash};
ghost use Rattle.ob_base.specs.declared.config.Planner.TheVariants.{Cheapest};
ghost use Rattle.ob_base.specs.Plans.{choose, choose_padded};

/// The plan with the shortest script is never Hash, and Continuous only where the rows lie side by side. For a padded result
/// it is the one for rows that don't.
pub fn cheapest_fits()
    ensures never_hash { (pack rows n k : ℕ) (consecutive : Bool) →
        choose Cheapest pack rows n k consecutive ≢ Hash }
    ensures side_by_side { (pack rows n k : ℕ) (consecutive : Bool) →
        choose Cheapest pack rows n k consecutive ≡ Continuous → consecutive ≡ true }
    ensures padded { (pack rows n k : ℕ) →
        choose_padded Cheapest pack rows n k ≡ choose Cheapest pack rows n k false }
{}
