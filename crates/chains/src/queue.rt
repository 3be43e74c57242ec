// Modules to be looked at, first come, first served.
// (push has a queue of its own, with limited places, which leaves out who finds none: one type for both would promise less here, or ask for room there.)
ghost use Rattle.std.specs.Prelude.{◌≡◌, ◌+◌, ◌<◌, ◌≤◌, length, slice_index, slice_set, cond, IfSome, IfNone};

// The first `tail` entries of `modules` have come, and the first `at` of them were looked at.
#[derive(Drop)]
pub struct Queue {
    pub modules: [u16; 512],
    pub at: usize,
    pub tail: usize,
    pub ghost order: { (at ≤ tail) × (tail ≤ 512) },
    pub ghost long: { length modules ≡ 512 },
}

impl Queue {
    // No module.
    pub fn new() -> Queue
        ensures { (result.at ≡ 0) × (result.tail ≡ 0) }
    {
        Queue {
            modules: [0; 512],
            at: 0,
            tail: 0,
        }
    }

    // No module, again. (The entries stay: a new queue would write them all.)
    pub fn clear(&mut self)
        ensures { (self.new.at ≡ 0) × (self.new.tail ≡ 0) × (self.new.modules ≡ self.old.modules) }
    {
        self.at = 0;
        self.tail = 0;
    }

    // Module v comes last.
    pub fn push(&mut self, v: usize)
        requires room { self.old.tail < 512 }
        requires few { v < 512 }
        ensures modules { self.new.modules ≡ slice_set self.old.modules self.old.tail v }
        ensures tail { self.new.tail ≡ self.old.tail + 1 }
        ensures at { self.new.at ≡ self.old.at }
    {
        self.modules[self.tail] = v as u16;
        self.tail += 1;
    }

    // Module v comes last, if a test says so. This makes no jump: which modules come is chance.
    pub fn push_if(&mut self, v: usize, comes: bool)
        requires room { self.old.tail < 512 }
        requires few { v < 512 }
        ensures modules { self.new.modules ≡ slice_set self.old.modules self.old.tail v }
        ensures tail { self.new.tail ≡ self.old.tail + cond comes 1 0 }
        ensures at { self.new.at ≡ self.old.at }
    {
        self.modules[self.tail] = v as u16;
        self.tail += usize::from(comes);
    }

    // The next module to be looked at.
    pub fn next(&mut self) -> Option<usize>
        ensures modules { (self.new.modules ≡ self.old.modules) × (self.new.tail ≡ self.old.tail) }
        ensures some { IfSome result (λ v. (v ≡ slice_index self.old.modules self.old.at) × (self.new.at ≡ self.old.at + 1)) }
        ensures none { IfNone result ((self.new.at ≡ self.old.at) × (self.old.at ≡ self.old.tail)) }
    {
        if self.at == self.tail {
            return None;
        }
        let v = usize::from(self.modules[self.at]);
        self.at += 1;
        Some(v)
    }
}
