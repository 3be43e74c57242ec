// What searches did, as counts.
ghost use Rattle.std.specs.Prelude.{◌≡◌};

// What searches did: chains along which units moved, the most slots that units moved along in one of them, and searches that reached no module loaded
// below p. In every promise these counts are free.
#[derive(Clone, Copy, Debug, Default, PartialEq, Eq)]
pub struct Searches {
    pub chains: u32,
    pub longest: u32,
    pub none: u32,
}

impl Searches {
    ghost use Rattle.chains.specs.Searches.{together};

    // Searches and further searches, together.
    pub fn together(self, more: Searches) -> Searches
        ensures { result ≡ together self more }
    {
        Searches {
            chains: self.chains.wrapping_add(more.chains),
            longest: self.longest.max(more.longest),
            none: self.none.wrapping_add(more.none),
        }
    }

    // One chain more, along so many slots.
    pub(crate) fn with_chain(self, slots: u32) -> Searches {
        self.together(Searches {
            chains: 1,
            longest: slots,
            none: 0,
        })
    }
}
