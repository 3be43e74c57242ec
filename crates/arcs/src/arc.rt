// An arc, and those of all modules, each module's side by side.
ghost use Rattle.std.specs.Prelude.{◌<◌};

// A slot of a module, and the module at the pair's other end.
#[derive(Clone, Copy)]
pub struct Arc {
    pub slot: u16,
    pub end: u16,
    pub ghost below: { end < 512 },
}

// starts[v] says where the arcs of module v begin, and starts[v + 1] where they end. Which arcs there are is free (an adjacency array, used as a hint).
#[derive(Clone, Copy)]
pub struct Arcs<'a> {
    pub starts: &'a [u32],
    pub arcs: &'a [Arc],
}

impl<'a> Arcs<'a> {
    ghost use Rattle.std.specs.Prelude.{◌≡◌};
    ghost use Rattle.arcs.specs.Arcs.{arcs_of};

    // The arcs of module v; none where the starts do not say where they lie.
    #[tactic(auto, unfolding(crate::specs::Arcs::arcs_of))]
    pub fn of(&self, v: usize) -> &'a [Arc]
        ensures { result.now ≡ arcs_of self.now.starts.now self.now.arcs.now v }
    {
        let (starts, arcs) = (self.starts, self.arcs);
        match starts.get(v..) {
            Some([from, to, ..]) if from <= to && *to as usize <= arcs.len() => {
                &arcs[*from as usize..*to as usize]
            }
            _ => &[],
        }
    }
}
