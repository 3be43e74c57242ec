// Check and surplus as document 01 states them and as plainly as can be: a pass over the bytes for the size, one over the pairs for the inside count,
// and one over the pairs for each module's load.
use crate::changes::Sheet;
use crate::plain::Plain;
use model::front;
use numbers::Ratio;
use pairs::Stops;
use refusals::Refusal;

// How many units a pair of stop count w has at share size q.
pub(crate) fn units(w: u32, q: u32) -> u32 {
    w.saturating_mul(q)
}

// What module v receives of a pair, whose smaller end receives x of its units.
fn part(v: u32, pair: &Stops, x: u32, q: u32) -> u32 {
    if v == pair.a {
        x
    } else if v == pair.b {
        units(pair.w, q).saturating_sub(x)
    } else {
        0
    }
}

impl Plain {
    // The inside count and the size of the group of member bytes, where they are one.
    fn group(&self, members: &[u8]) -> Result<Ratio, Refusal> {
        let members = front(members, self.n as usize);
        let q = members
            .iter()
            .fold(0u32, |sum, &byte| sum.saturating_add(u32::from(byte)));
        if q == 0 || members.iter().any(|&byte| 1 < byte) {
            return Err(Refusal::BadMembers);
        }
        let p = self.inside(|v| members.get(v as usize).copied() == Some(1));
        Ok(Ratio { p, q })
    }

    // Whether one of the shares is above the units of its pair.
    fn passes(&self, shares: &[u32], q: u32) -> bool {
        self.pairs
            .iter()
            .zip(shares.iter())
            .any(|(pair, &x)| units(pair.w, q) < x)
    }

    // The load of module v: the sum over all pairs.
    fn load(&self, v: u32, shares: &[u32], q: u32) -> u32 {
        self.pairs.iter().zip(shares.iter()).fold(
            0u32,
            |sum, (pair, &x)| sum.saturating_add(part(v, pair, x, q)),
        )
    }

    // Check: refused by 7, by 8 where a share is above the units of its pair, and by 9 where a load is above the inside count.
    pub(crate) fn check(&self, sheet: Sheet) -> Result<Ratio, Refusal> {
        let ratio = self.group(sheet.members)?;
        if self.passes(sheet.shares, ratio.q) {
            return Err(Refusal::ShareTooLarge);
        }
        if (0..self.n).any(|v| ratio.p < self.load(v, sheet.shares, ratio.q)) {
            return Err(Refusal::LoadTooLarge);
        }
        Ok(ratio)
    }

    // Surplus: modules of the second group times inside count of the first, minus inside count of the second times modules of the first; refused by 7 where one
    // of the sets is no group.
    pub(crate) fn surplus(&self, first: &[u8], second: &[u8]) -> Result<i64, Refusal> {
        let first = self.group(first)?;
        let second = self.group(second)?;
        let product = |p: u32, q: u32| i64::from(p).wrapping_mul(i64::from(q));
        Ok(product(first.p, second.q).wrapping_sub(product(second.p, first.q)))
    }
}
