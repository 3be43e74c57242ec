// A list as the plain computations see it. They are as document 01 defines things and as plain as can be: stops are counted anew whenever they are looked at.
use model::raise_at;
use numbers::Ratio;
use pairs::Stops;
use std::alloc::{AllocError, Global};

// Its number of modules, and its pairs.
#[derive(Drop)]
pub(crate) struct Plain {
    pub(crate) n: u32,
    pub(crate) pairs: Vec<Stops>,
}

impl Plain {
    // How many pairs there are.
    pub(crate) fn pair_count(&self) -> u32 {
        u32::try_from(self.pairs.len()).unwrap_or(u32::MAX)
    }

    // The stop count of pair j; 0 where there is none.
    pub(crate) fn stops(&self, j: u32) -> u32 {
        self.pairs.get(j as usize).map_or(0, |pair| pair.w)
    }

    // The pair file.
    pub(crate) fn file(&self, alloc: Global) -> Result<String, AllocError> {
        let mut file = String::new(alloc);
        writeln!(file, "modules={}\npairs={}", self.n, self.pairs.len())?;
        for &Stops { a, b, w } in self.pairs.iter() {
            writeln!(file, "{a},{b},{w}")?;
        }
        Ok(file)
    }

    // The inside count of the modules present.
    pub(crate) fn inside<F: Fn(u32) -> bool>(&self, present: F) -> u32
        requires { (state : F) (x : _) → F.pre state x }
    {
        self.pairs
            .iter()
            .filter(|pair| present(pair.a) && present(pair.b))
            .fold(0u32, |sum, pair| sum.saturating_add(pair.w))
    }

    // How many stops each module has that is present, with others that are.
    pub(crate) fn degrees<F: Fn(u32) -> bool>(&self, present: F) -> [u32; 512]
        requires { (state : F) (x : _) → F.pre state x }
    {
        let mut degrees = [0u32; 512];
        for &Stops { a, b, w } in self.pairs.iter() {
            if present(a) && present(b) {
                raise_at(&mut degrees, a, w);
                raise_at(&mut degrees, b, w);
            }
        }
        degrees
    }
}

// The product of two numbers, which leaves no 64 bits.
pub(crate) fn product(x: u32, y: u32) -> u64 {
    u64::from(x) * u64::from(y)
}

// Whether the second ratio is higher. (Computed here, and not by the product's, which is what is tried.)
pub(crate) fn is_below(first: Ratio, second: Ratio) -> bool {
    product(first.p, second.q) < product(second.p, first.q)
}

// The ratio in lowest terms.
pub(crate) fn reduced(ratio: Ratio) -> Ratio {
    let Ratio { p, q } = ratio;
    let shared = (1..=q)
        .filter(|&d| p.checked_rem(d) == Some(0) && q.checked_rem(d) == Some(0))
        .max()
        .unwrap_or(1);
    Ratio {
        p: p.checked_div(shared).unwrap_or(p),
        q: q.checked_div(shared).unwrap_or(q),
    }
}
