// A list that the product's reader took, and the product's calls on it.
ghost use Rattle.std.specs.Prelude.{◌≡◌};
ghost use Rattle.theory.specs.Words.{HoldsList};

use crate::changes::Sheet;
use crate::kitting::Kit;
use crate::peels::Peeled;
use crate::plain::Plain;
use crate::solves::Solved;
use densest::Effort;
use lists::List;
use numbers::Ratio;
use pairs::Stops;
use records::Head;
use refusals::Refusal;
use std::alloc::{AllocError, Global};

// How many modules and pairs there are, and the words in which they lie.
#[derive(Drop)]
pub(crate) struct Held {
    head: Head,
    words: [u32; 12288],
    ghost holds: { HoldsList head.n head.m words },
}

impl Held {
    // The list of a pair file.
    pub(crate) fn read(file: &[u8]) -> Result<Held, Refusal> {
        let mut words = [0; 12288];
        let head = pairfile::read_words(file, 4096, &mut words)?;
        Ok(Held { head, words })
    }

    // The list as the plain computations see it.
    pub(crate) fn plain(&self, alloc: Global) -> Result<Plain, AllocError> {
        let (ends, _) = self.words.as_chunks::<2>();
        let pairs = ends
            .iter()
            .zip(self.words[8192..].iter())
            .take(self.list().m)
            .map(|(&[a, b], &w)| Stops { a, b, w })
            .collect(alloc)?;
        Ok(Plain {
            n: self.head.n,
            pairs,
        })
    }

    // The list as the product's calls see it.
    fn list(&self) -> List<'_>
        ensures modules { result.n ≡ self.now.head.n }
        ensures pairs { result.m ≡ self.now.head.m }
    {
        self.head.list(&self.words)
    }

    // Peel.
    #[tactic(auto, using(crate::proofs::Sizes::sizes))]
    pub(crate) fn peel(&self, alloc: Global) -> Result<Peeled, AllocError> {
        let list = self.list();
        let mut order = vec![in alloc; 0; list.n]?;
        let mut cores = vec![in alloc; 0; list.n]?;
        let mut place = vec![in alloc; 0; list.n]?;
        let best = peel::peel(list, 1, &mut order, &mut cores, &mut place);
        Ok(Peeled {
            order,
            cores,
            place,
            best,
        })
    }

    // The kit of at least k modules, k being raised to 1 or lowered to N where it is outside; the bytes behind it are 9.
    #[tactic(auto, using(crate::proofs::Sizes::sizes))]
    pub(crate) fn kit(&self, k: u32, alloc: Global) -> Result<Kit, AllocError> {
        let list = self.list();
        let mut members = vec![in alloc; 9; 514]?;
        let ratio = kits::kit(list, (k as usize).max(1).min(list.n), &mut members);
        Ok(Kit { members, ratio })
    }

    // Solve, on a copy of the words, which it uses up.
    pub(crate) fn solve(&self, effort: Effort, alloc: Global) -> Result<Solved, AllocError> {
        let List { n, m, .. } = self.list();
        let mut words = self.words;
        let mut members = vec![in alloc; 0; n]?;
        let mut cores = vec![in alloc; 0; n]?;
        let mut shares = vec![in alloc; 0; m]?;
        let record = densest::solve(
            n,
            m,
            effort,
            &mut words,
            &mut members,
            &mut cores,
            &mut shares,
        );
        Ok(Solved {
            members,
            cores,
            shares,
            record,
        })
    }

    // Check; refused by 12 where the sheet is too short.
    pub(crate) fn check(&self, sheet: Sheet) -> Result<Ratio, Refusal> {
        let list = self.list();
        if sheet.members.len() < list.n || sheet.shares.len() < list.m {
            return Err(Refusal::BufferTooShort);
        }
        verify::check_words(list, sheet.members, sheet.shares)
    }

    // Surplus; refused by 12 where a set is too short.
    pub(crate) fn surplus(&self, first: &[u8], second: &[u8]) -> Result<i64, Refusal> {
        let list = self.list();
        if first.len().min(second.len()) < list.n {
            return Err(Refusal::BufferTooShort);
        }
        verify::surplus_words(list, first, second)
    }
}
