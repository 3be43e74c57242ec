// How keys are spread over the buckets.

// The part of a key below `split` counts at the scale `low`, the rest at the scale `high`, in 2^32nds of a bucket for a key. A lower key is in no higher
// bucket, whatever the three are: they only decide how many keys come into a bucket.
#[derive(Clone, Copy, Debug, PartialEq, Eq)]
pub struct Spread {
    pub split: u32,
    pub low: u32,
    pub high: u32,
}

impl Spread {
    ghost use Rattle.std.specs.Prelude.{◌≡◌, ◌≤◌, ◌<◌, length};
    ghost use Rattle.ranking.specs.Chains.{bucket};

    // For keys of these degrees and lower ones: three quarters of the buckets for keys up to 4 to 8 times a usual one, by the mean number of bits, the others
    // for those above; all buckets where none is above. So a few modules that carry much more than the others do not bring those into a few buckets. (Free.)
    pub(crate) fn new(degrees: &[u32]) -> Spread
        requires { length degrees.now ≤ 512 }
    {
        let mut most = 0u32;
        let mut bits = 0u32;
        for &degree in degrees {
            most = most.max(degree);
            bits = bits.wrapping_add(u32::BITS - degree.leading_zeros());
        }
        let all = 512 * (u64::from(most) + 1);
        let much = 2048u64 << (bits / (degrees.len() as u32).max(1)).min(20);
        let split = all.min(much).min(u64::from(u32::MAX));
        Spread {
            split: split as u32,
            low: scale(if all <= much { 4096 } else { 3072 }, split),
            high: scale(1024, all - split),
        }
    }

    // The bucket of a key.
    #[tactic(auto, unfolding(crate::specs::Chains::bucket))]
    pub(crate) fn bucket(self, key: u32) -> usize
        ensures value { result ≡ bucket self key }
        ensures bound { result < 4096 }
    {
        let below = key.min(self.split);
        let low = u64::from(below) * u64::from(self.low) / (1 << 32);
        let high = u64::from(key - below) * u64::from(self.high) / (1 << 32);
        (low + high).min(4095) as usize
    }
}

// So many buckets for so many keys, or as near as 32 bits allow. (Free.)
fn scale(buckets: u32, keys: u64) -> u32 {
    ((u64::from(buckets) << 32) / keys.max(1)).min(u64::from(u32::MAX)) as u32
}
