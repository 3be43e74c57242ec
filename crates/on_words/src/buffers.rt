// Lent buffers: how long they are beside what is needed, the work buffer cleared, and words narrowed to 16 bits.
ghost use Rattle.std.specs.Prelude.{◌≡◌, ℕ, ◌≤◌, ◌<◌, length, get_or};
ghost use Rattle.on_words.specs.Buffers.{buffer, any_short, in_front, cleared};

// A lent buffer: the entries that it has, and those that are needed.
#[derive(Clone, Copy, Debug, PartialEq, Eq)]
pub struct Buffer {
    pub has: usize,
    pub needs: usize,
}

impl Buffer {
    // One of `has` entries, of which `needs` are needed.
    pub fn new(has: usize, needs: usize) -> Buffer
        ensures { result ≡ buffer has needs }
    {
        Buffer { has, needs }
    }
}

// Whether one of them is shorter than stated.
pub fn any_short(lent: &[Buffer]) -> bool
    ensures { result ≡ any_short lent.now }
{
    lent.iter().any(|buffer| buffer.has < buffer.needs)
}

// The work buffer's 16,384 words become 0. (A name for std's `fill`: its contract is what every call says of the work buffer.)
pub fn clear(work: &mut [u32])
    requires { 16384 ≤ length work.old }
    ensures { work.new ≡ cleared work.old }
{
    work[..16384].fill(0);
}

// The words, which fit 16 bits, in front of the entries of `to`. (Tried: `zip` with `iter_mut`, after which a proof knows no entry of `to`, only how many.)
#[tactic(auto, using(crate::proofs::Filling::front_more, crate::proofs::Filling::front_all))]
pub(crate) fn narrow(words: &[u32], to: &mut [u16])
    requires room { length words.now ≤ length to.old }
    requires small { (i : ℕ) → i < length words.now → get_or words.now i 0 < 65536 }
    ensures { to.new ≡ in_front words.now to.old }
{
    for (i, &word) in words.iter().enumerate() {
        to[i] = word as u16;
    }
}
