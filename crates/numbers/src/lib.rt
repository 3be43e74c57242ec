// Ratios as two whole numbers, not reduced, and a choice between numbers that is no jump.
#![tactic(auto)]

ghost use Rattle.std.specs.Prelude.{◌≡◌, cond, ◌*◌, ◌≤◌, nat_lt};
ghost use Rattle.theory.specs.Splits.{rounded_up};
ghost use Rattle.theory.specs.Ratio.{float_ratio};

// Inside count p over size q.
#[derive(Clone, Copy, Debug, PartialEq, Eq)]
pub struct Ratio {
    pub p: u32,
    pub q: u32,
}

impl Ratio {
    // p over q, rounded up.
    #[tactic(auto, unfolding(theory::specs::Splits::rounded_up))]
    pub fn rounded_up(self) -> u32
        requires { 1 ≤ self.q }
        ensures { result ≡ rounded_up self.p self.q }
    {
        self.p.div_ceil(self.q)
    }

    // p over q as a float, rounded once: a float holds both numbers exactly.
    pub fn to_float(self) -> f64
        ensures { result ≡ float_ratio self.p self.q }
    {
        f64::from(self.p) / f64::from(self.q)
    }

    // Whether the other ratio is higher: cross products are compared, so nothing is rounded. (No PartialOrd: it would hold 1/2 and 2/4 equal, == does not.)
    pub fn is_below(self, other: Ratio) -> bool
        ensures { result ≡ nat_lt (self.p * other.q) (other.p * self.q) }
    {
        u64::from(self.p) * u64::from(other.q) < u64::from(other.p) * u64::from(self.q)
    }
}

// x where a test holds, else 0, as a minimum: where chance decides the test, the compiler makes no jump of it. `top` is at least x.
pub fn pick_upto(test: bool, x: u32, top: u32) -> u32
    requires { x ≤ top }
    ensures { result ≡ cond test x 0 }
{
    x.min(if test { top } else { 0 })
}
