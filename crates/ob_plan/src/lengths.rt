//! How many accesses the result of `k` rows of `n` slots takes, until it has been read back and discarded.
ghost use Rattle.std.specs.Prelude.{◌≡◌, ◌*◌, ◌≤◌};
ghost use Rattle.ob_base.specs.Plans.{continuous_length, large_length, small_length};

use ob_base::Public;

// With Small.
pub(crate) fn small_length(n: u32, k: u32, public: &Public) -> u128
    requires pack { 1 ≤ public.now.pack }
    requires buffer { 3 * public.now.pack ≤ public.now.buffer }
    ensures { result ≡ small_length public.now.pack public.now.buffer n k }
{
    let pack = u32::from(public.pack);
    let buffered = (public.buffer - 2 * pack) / pack;
    let results = k.div_ceil(pack);
    let passes = u128::from(results.div_ceil(buffered));
    passes * u128::from(n.div_ceil(pack)) + 2 * u128::from(results) + 2
}

// With Continuous.
pub(crate) fn continuous_length(n: u32, k: u32, public: &Public) -> u128
    requires { 1 ≤ public.now.pack }
    ensures { result ≡ continuous_length public.now.pack n k }
{
    let pack = u32::from(public.pack);
    let blocks = u128::from(n.div_ceil(pack));
    blocks + 2 * u128::from(n) + 2 * u128::from(k.div_ceil(pack)) + 2
}

// With Large.
pub(crate) fn large_length(n: u32, public: &Public) -> u128
    requires { 1 ≤ public.now.pack }
    ensures { result ≡ large_length public.now.pack n }
{
    5 * u128::from(n.div_ceil(u32::from(public.pack))) + 2
}
