// Queues of modules. Their places are limited: who finds none is left out, since how well loads are balanced is free.
// (The queue of crate `chains` asks whoever pushes to show that a place is left; here a module may join again and again.)
ghost use Rattle.std.specs.Prelude.{ℕ, ◌<◌, ◌≤◌, slice_index};

// Modules in the order in which they joined, in the first `tail` places; the first `at` of them have been looked at.
#[derive(Drop)]
pub(crate) struct Queue<'a> {
    places: &'a mut [u16; 640],
    at: usize,
    tail: usize,
    ghost order: { (at ≤ tail) × (tail ≤ 640) },
    ghost below: { (i : ℕ) → i < tail → slice_index places.now i < 512 },
}

impl<'a> Queue<'a> {
    ghost use Rattle.std.specs.Prelude.{◌≡◌, ◌+◌, ℕ, ◌<◌, slice_index, length, IfSome};

    // A queue that nobody has joined.
    pub(crate) fn new(places: &'a mut [u16; 640]) -> Queue<'a> {
        Queue {
            places,
            at: 0,
            tail: 0,
        }
    }

    // v joins where `joins` says so and a place is left. (The next place is written either way, which is free: so there is no jump.)
    pub(crate) fn join(&mut self, v: usize, joins: bool)
        requires { v < 512 }
        ensures { self.new.at ≡ self.old.at }
    {
        if self.tail < self.places.len() {
            self.places[self.tail] = v as u16;
            self.tail += usize::from(joins);
        }
    }

    // All who have joined.
    pub(crate) fn joined(&self) -> &[u16]
        ensures count { length result.now ≡ self.now.tail }
        ensures below { (i : ℕ) → i < length result.now → slice_index result.now i < 512 }
    {
        &self.places[..self.tail]
    }

    // The next one to be looked at.
    pub(crate) fn next(&mut self) -> Option<usize>
        ensures { IfSome result (λ v. (v < 512) × (self.new.at ≡ self.old.at + 1)) }
    {
        let v = usize::from(*self.joined().get(self.at)?);
        self.at += 1;
        Some(v)
    }
}
