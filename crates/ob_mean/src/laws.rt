//! Laws of SQL's meaning.
ghost use Rattle.ob_mean.specs.SameMeaning.{MeaningIsOfBags};

/// What a statement means depends on how often each row stands in each table, and not on their order.
pub fn meaning_is_of_bags()
    ensures { MeaningIsOfBags }
{}
