//! Which accesses fail, and which regions are copied from, by a list of changes.
ghost use Rattle.std.specs.Prelude.{◌≡◌, ◌==◌, ◌&&◌};
ghost use Rattle.ob_meddle.specs.Due.{is_fail, fails_at, copies_from, is_source};

use crate::meddle::{Act, Meddle};

fn is_fail(act: Act) -> bool
    ensures { result ≡ is_fail act }
{
    matches!(act, Act::Fail)
}

/// Whether an access, counted from 1, is to fail.
pub(crate) fn fails_at(list: &[Meddle], number: u64) -> bool
    ensures { result ≡ fails_at list.now number }
{
    list.iter()
        .any(|meddle| is_fail(meddle.act) && meddle.before == number)
}

fn copies_from(region: u64, act: Act) -> bool
    ensures { result ≡ copies_from region act }
{
    match act {
        Act::Copy { from, .. } => from.region == region,
        Act::Fail | Act::Flip { .. } | Act::Older { .. } => false,
    }
}

/// Whether a change copies from a region.
pub(crate) fn is_source(list: &[Meddle], region: u64) -> bool
    ensures { result ≡ is_source list.now region }
{
    list.iter().any(|meddle| copies_from(region, meddle.act))
}
