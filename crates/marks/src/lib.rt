// A set of numbers below 4,096, with its least one in a few steps.
//
// A number is a bit of 64 words of 64 bits, and a bit of one word above them says whether a word is not 0.
// `as` stands where std has no `From`: from u32 to usize.
#![tactic(auto)]

ghost use Rattle.std.specs.Prelude.{◌≡◌, false, ◌&&◌, ◌||◌, not, ℕ, ◌<◌, eqb};
ghost use Rattle.marks.specs.Marks.{marked, SomeMarked, First, Whole};

#[derive(Drop)]
pub struct Marks {
    pub words: [u64; 64],
    top: u64,
    pub ghost whole: { Whole words top },
}

impl Marks {
    // No number is marked.
    pub fn new() -> Marks
        ensures { (b : ℕ) → marked result.words b ≡ false }
    {
        Marks {
            words: [0; 64],
            top: 0,
        }
    }

    // Marks b.
    pub fn insert(&mut self, b: usize)
        requires { b < 4096 }
        ensures { (c : ℕ) → marked self.new.words c ≡ (marked self.old.words c || eqb c b) }
    {
        self.words[b / 64] |= 1 << (b % 64);
        self.top |= 1 << (b / 64);
    }

    // Takes the mark from b. (A step of 0 or 1 in the place of a branch: whether a word is 0 then comes as by chance.)
    pub fn remove(&mut self, b: usize)
        requires { b < 4096 }
        ensures { (c : ℕ) → marked self.new.words c ≡ (marked self.old.words c && not (eqb c b)) }
    {
        let word = self.words[b / 64] & !(1 << (b % 64));
        self.words[b / 64] = word;
        self.top &= !(u64::from(word == 0) << (b / 64));
    }

    // The least number that is marked.
    pub fn first(&self) -> usize
        requires { SomeMarked self.now.words }
        ensures first { First self.now.words result }
        ensures bound { result < 4096 }
    {
        let word = self.top.trailing_zeros() as usize;
        64 * word + self.words[word].trailing_zeros() as usize
    }
}
