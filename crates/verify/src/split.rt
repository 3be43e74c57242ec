// Shares that make a split at a share size, and the loads that it puts on the modules.
ghost use Rattle.std.specs.Prelude.{◌≡◌, ◌≤◌, true, length};
ghost use Rattle.theory.specs.Splits.{shares_good};
ghost use Rattle.lists.specs.Listed.{listed};

use lists::List;
use refusals::Refusal;
use slots::Graph;

// A share for each pair of a list, the units of its smaller end: none is above its pair's units at share size q.
#[derive(Clone, Copy)]
pub(crate) struct Split<'l, 's> {
    list: List<'l>,
    shares: &'s [u32],
    q: u32,
    ghost complete: { length shares.now ≡ list.m },
    ghost q_bound: { q ≤ 512 },
    ghost good: { shares_good q (listed list).pairs shares.now ≡ true },
}

// Whether no share is above its pair's units at share size q.
fn shares_fit(list: List, shares: &[u32], q: u32) -> bool
    requires shares_len { length shares.now ≡ list.m }
    requires q_bound { q ≤ 512 }
    ensures { result ≡ shares_good q (listed list.entry).pairs shares.now }
{
    let weights = &list.weights[..list.m];
    weights
        .iter()
        .zip(shares)
        .all(|(&weight, &share)| share <= weight * q)
}

impl<'l, 's> Split<'l, 's> {
    ghost use Rattle.std.specs.Prelude.{◌≡◌, ◌≤◌, ℕ, length, get_or};
    ghost use Rattle.theory.specs.Splits.{load, greatest_load};
    ghost use Rattle.lists.specs.Listed.{listed};
    ghost use Rattle.verify.specs.Splits.{IsSplitOf};

    // The split that these shares make: refuses by 8 where one is above its pair's units.
    pub(crate) fn of(list: List<'l>, shares: &'s [u32], q: u32) -> Result<Split<'l, 's>, Refusal>
        requires shares_len { length shares.now ≡ list.m }
        requires q_bound { q ≤ 512 }
        ensures { IsSplitOf list.entry shares.now q result }
    {
        if shares_fit(list, shares, q) {
            Ok(Split { list, shares, q })
        } else {
            Err(Refusal::ShareTooLarge)
        }
    }

    // The load of every module, the smaller end's share of each pair and the rest for the other end.
    #[tactic(auto, using(crate::proofs::Loading::loads))]
    fn loads(&self) -> [u32; 512]
        ensures { (v : ℕ) → get_or result v 0 ≡ load (listed self.now.list) self.now.q self.now.shares.now v }
    {
        let list = self.list;
        let graph = Graph::from(list);
        let mut loads = [0; 512];
        for j in 0..list.m {
            let a = graph.first_end(j);
            let b = graph.second_end(j);
            let share = self.shares[j];
            let rest = list.weights[j] * self.q - share;
            loads[a] += share;
            loads[b] += rest;
        }
        loads
    }

    // The greatest load of a module. (A fold from 0: std's `max` would give an Option, and there is always a module.)
    #[tactic(auto, using(crate::proofs::Bounds::few))]
    pub(crate) fn greatest_load(&self) -> u32
        ensures { result ≡ greatest_load (listed self.now.list) self.now.q self.now.shares.now }
    {
        let loads = self.loads();
        loads[..self.list.n]
            .iter()
            .fold(0, |top, &load| top.max(load))
    }
}
