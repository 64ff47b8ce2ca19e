//! How SELECTs fly.

/// How SELECTs are served in turns that are drawn: how many of them fly together at most, 2 to 8, and the number before
/// the sequence that draws the turns.
#[derive(Clone, Copy, Debug, PartialEq, Eq)]
pub struct FlightSettings {
    pub most: u32,
    pub start: u64,
}
