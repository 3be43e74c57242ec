// Pairs packed, each in one word: the first end from bit 19 on, the second end from bit 10 on, and the stop count in the lowest 10 bits.
ghost use Rattle.std.specs.Prelude.{◌≡◌, ◌<◌, ◌≤◌, min, length, slice_index, if◌then◌else◌};
ghost use Rattle.theory.specs.Groups.{holds_pair};
ghost use Rattle.theory.specs.Splits.{units};
ghost use Rattle.densest.specs.Gather.{first_left, unpacked};

use numbers::pick_upto;

// A pair in one word: memory is fixed, and a pair has the word of the lent shares in which its share will stand.
#[derive(Clone, Copy)]
pub(crate) struct PackedPair(pub(crate) u32);

#[tactic(auto, unfolding(crate::specs::Gather::unpacked))]
impl PackedPair {
    // A pair of ends a and b and stop count w.
    pub(crate) fn new(a: u32, b: u32, w: u32) -> PackedPair
        requires a_bound { a < 512 }
        requires b_bound { b < 512 }
        requires w_bound { w ≤ 1000 }
        ensures { unpacked result.0 ≡ record { a = a; b = b; w = w } }
    {
        PackedPair((a * 512 + b) * 1024 + w)
    }

    // The first end.
    fn first(self) -> usize
        ensures { result ≡ (unpacked self.0).a }
    {
        (self.0 / 524288) as usize
    }

    // The second end.
    fn second(self) -> usize
        ensures { result ≡ (unpacked self.0).b }
    {
        (self.0 / 1024 % 512) as usize
    }

    // The stop count.
    fn count(self) -> u32
        ensures within { result < 1024 }
        ensures value { result ≡ (unpacked self.0).w }
    {
        self.0 % 1024
    }

    // Whether both ends are in a group: both bytes are read, so that no branch goes by chance.
    #[tactic(auto, unfolding(theory::specs::Groups::is_in, theory::specs::Groups::holds_pair))]
    pub(crate) fn is_inner(self, group: &[u8]) -> bool
        requires first_in_bounds { (unpacked self.0).a < length group.now }
        requires second_in_bounds { (unpacked self.0).b < length group.now }
        ensures { result ≡ holds_pair group.now (unpacked self.0) }
    {
        (group[self.first()] == 1) & (group[self.second()] == 1)
    }

    // The lower of the places at which its ends leave.
    pub(crate) fn leaves_at(self, place: &[u32]) -> u32
        requires first_in_bounds { (unpacked self.0).a < length place.now }
        requires second_in_bounds { (unpacked self.0).b < length place.now }
        ensures { result ≡ min (slice_index place.now (unpacked self.0).a) (slice_index place.now (unpacked self.0).b) }
    {
        place[self.first()].min(place[self.second()])
    }

    // All units at share size q where the first end left before the second, else none.
    #[tactic(auto, unfolding(theory::specs::Splits::units))]
    pub(crate) fn forced(self, q: u32, place: &[u32]) -> u32
        requires q_bound { q ≤ 512 }
        requires first_in_bounds { (unpacked self.0).a < length place.now }
        requires second_in_bounds { (unpacked self.0).b < length place.now }
        ensures { result ≡ (if first_left place.now (unpacked self.0) then units q (unpacked self.0) else 0) }
    {
        let first_left = place[self.first()] < place[self.second()];
        pick_upto(first_left, self.count() * q, 524288)
    }
}
