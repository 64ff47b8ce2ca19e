//! The planner: which way a SELECT writes its rows, from sizes alone.
#![tactic(auto)]

mod laws;
mod lengths;

ghost use Rattle.std.specs.Prelude.{◌≡◌, ◌*◌, ◌≤◌};
ghost use Rattle.ob_base.specs.declared.config.Planner.TheVariants.{Cheapest};
ghost use Rattle.ob_base.specs.Limits.{buffered};
ghost use Rattle.ob_base.specs.Plans.{by_buffer, choose, choose_padded};

use crate::lengths::{continuous_length, large_length, small_length};
pub use laws::cheapest_fits;
use ob_base::{Plan, Planner, Public};

/// The plan for `k` selected rows among `n` slots, which stand side by side or don't: the one that is
/// forced, or else the one by the rows that may be buffered, or that with the shortest script.
pub fn plan(n: u32, k: u32, consecutive: bool, public: &Public) -> Plan
    requires pack { 1 ≤ public.now.pack }
    requires buffer { 2 * public.now.pack ≤ public.now.buffer }
    requires cheapest { public.now.planner ≡ Cheapest → 3 * public.now.pack ≤ public.now.buffer }
    ensures { result
        ≡ choose public.now.planner public.now.pack public.now.buffer n k consecutive }
{
    match public.planner {
        Planner::Auto => by_buffer(n, k, consecutive, public),
        Planner::Cheapest => cheapest(n, k, consecutive, public),
        Planner::Forced(plan) => plan,
    }
}

fn by_buffer(n: u32, k: u32, consecutive: bool, public: &Public) -> Plan
    requires pack { 1 ≤ public.now.pack }
    requires buffer { 2 * public.now.pack ≤ public.now.buffer }
    ensures { result ≡ by_buffer (buffered public.now.pack public.now.buffer) n k consecutive }
{
    if u64::from(k) <= 4 * buffered_rows(public) {
        Plan::Small
    } else if consecutive {
        Plan::Continuous
    } else if 3 * u64::from(n) <= 4 * u64::from(k) {
        Plan::Large
    } else {
        Plan::Hash
    }
}

// The first of Small, Continuous and Large whose script is shortest; Continuous only for rows side by side.
fn cheapest(n: u32, k: u32, consecutive: bool, public: &Public) -> Plan
    requires pack { 1 ≤ public.now.pack }
    requires buffer { 3 * public.now.pack ≤ public.now.buffer }
    ensures { result ≡ choose Cheapest public.now.pack public.now.buffer n k consecutive }
{
    if !consecutive {
        return shorter(n, k, public);
    }
    let continuous = continuous_length(n, k, public);
    let large = large_length(n, public);
    if small_length(n, k, public) <= continuous.min(large) {
        Plan::Small
    } else if continuous <= large {
        Plan::Continuous
    } else {
        Plan::Large
    }
}

// The first of Small and Large whose script is shorter.
fn shorter(n: u32, k: u32, public: &Public) -> Plan
    requires pack { 1 ≤ public.now.pack }
    requires buffer { 3 * public.now.pack ≤ public.now.buffer }
    ensures { result ≡ choose_padded Cheapest public.now.pack public.now.buffer n k }
{
    if small_length(n, k, public) <= large_length(n, public) {
        Plan::Small
    } else {
        Plan::Large
    }
}

/// The plan for the `q` rows of a padded result of `n` slots: the one that is forced, or else Small or Large,
/// by the rows that may be buffered or by which script is shorter.
pub fn padded_plan(n: u32, q: u32, public: &Public) -> Plan
    requires pack { 1 ≤ public.now.pack }
    requires buffer { 2 * public.now.pack ≤ public.now.buffer }
    requires cheapest { public.now.planner ≡ Cheapest → 3 * public.now.pack ≤ public.now.buffer }
    ensures { result
        ≡ choose_padded public.now.planner public.now.pack public.now.buffer n q }
{
    match public.planner {
        Planner::Forced(forced) => forced,
        Planner::Cheapest => shorter(n, q, public),
        Planner::Auto if u64::from(q) <= 4 * buffered_rows(public) => Plan::Small,
        Planner::Auto => Plan::Large,
    }
}

// The rows that may be buffered.
fn buffered_rows(public: &Public) -> u64
    requires pack { 1 ≤ public.now.pack }
    requires buffer { 2 * public.now.pack ≤ public.now.buffer }
    ensures value { result ≡ buffered public.now.pack public.now.buffer }
    ensures few { result ≤ 1099511627776 }
{
    let pack = u32::from(public.pack);
    u64::from((public.buffer - 2 * pack) / pack) * u64::from(pack)
}
