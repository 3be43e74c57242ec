use flow::Searches;
use numbers::Ratio;

// The ratio of a group that was reached, its inside count over its size, and what the exact searches on the way to it did.
#[derive(Clone, Copy, Debug, PartialEq, Eq)]
pub struct Reached {
    pub ratio: Ratio,
    pub searches: Searches,
}
