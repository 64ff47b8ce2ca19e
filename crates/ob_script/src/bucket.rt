//! The buckets of a slot, which hang on its number alone.
ghost use Rattle.std.specs.Prelude.{◌≡◌, ◌≤◌, ◌<◌};
ghost use Rattle.ob_base.specs.Numbers.{first_bucket, second_bucket};

const MODULUS: u64 = 1 << 32;

/// The first bucket, among `k`, of the row in slot `i`.
pub fn first_bucket(k: u32, i: u32) -> u32
    requires { 1 ≤ k }
    ensures value { result ≡ first_bucket k i }
    ensures within { result < k }
{
    let hash = (u64::from(i) * 2_654_435_761) % MODULUS;
    (hash * u64::from(k) / MODULUS) as u32
}

/// The second bucket, among `k`, of the row in slot `i`, which takes it where the first is full.
pub fn second_bucket(k: u32, i: u32) -> u32
    requires { 1 ≤ k }
    ensures value { result ≡ second_bucket k i }
    ensures within { result < k }
{
    let hash = (u64::from(i) * 2_246_822_519 + 374_761_393) % MODULUS;
    (hash * u64::from(k) / MODULUS) as u32
}
