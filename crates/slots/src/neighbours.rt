// The neighbours of a module, along its slots.
ghost use Rattle.std.specs.Prelude.{◌*◌, ◌<◌};
ghost use Rattle.std.specs.Option.{ForSome};

use crate::adjacency::Adjacency;

// A module that a pair joins another one to, and the pair's weight.
#[derive(Clone, Copy, Debug, PartialEq, Eq)]
pub struct Neighbour {
    pub number: usize,
    pub weight: u32,
}

// Those that are still to come: from a slot of the module back.
#[derive(Drop)]
pub struct Neighbours<'g, 'a> {
    pub(crate) adjacency: Adjacency<'g, 'a>,
    pub(crate) slot: Option<usize>,
    pub ghost within: { ForSome slot (λ s. s < 2 * adjacency.list.m) },
}

impl Iterator for Neighbours<'_, '_> {
    type Item = Neighbour;

    ghost use Rattle.std.specs.Iterator.{YieldsFirst, item_count};
    ghost use Rattle.slots.specs.Neighbours.{neighbours_left};

    ghost next_gives = { YieldsFirst neighbours_left };

    ghost remaining = { item_count neighbours_left };

    #[tactic(auto, using(crate::proofs::Rows::row_step, crate::proofs::Rows::before_low))]
    fn next(&mut self) -> Option<Neighbour> {
        let adjacency = self.adjacency;
        let slot = self.slot?;
        self.slot = adjacency.slot_before(slot);
        Some(adjacency.neighbour(slot))
    }
}
