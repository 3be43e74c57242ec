// Solve on words: the list in the work buffer's words, then zeros; and the record of what it finds. 20 where there is no pair; 15 never comes.
ghost use Rattle.std.specs.Prelude.{◌≡◌, ◌≤◌, length};
ghost use Rattle.theory.specs.Words.{HoldsList};
ghost use Rattle.on_words.specs.Solving.{solve_buffers, solved_of, SolveOn};

use crate::Solved;
use crate::buffers::{Buffer, clear};
use densest::{Effort, PHASES, Solution, solve};
use pairs::check_some_pair;
use records::Head;
use refusals::Refusal;

// What is lent: N entries of members and of cores, M of shares, 16,384 of work.
pub fn solve_buffers(
    head: Head,
    members: usize,
    cores: usize,
    shares: usize,
    work: usize,
) -> [Buffer; 4]
    ensures { result ≡ solve_buffers head members cores shares work }
{
    let n = head.n as usize;
    let m = head.m as usize;
    [
        Buffer::new(members, n),
        Buffer::new(cores, n),
        Buffer::new(shares, m),
        Buffer::new(work, 16384),
    ]
}

// Group, core numbers and load sheet of the list in the words; refuses by 20. Any effort gives such an answer.
#[tactic(auto, using(crate::proofs::Sheets::front_holds))]
pub fn solve_on_words(
    head: Head,
    members: &mut [u8],
    cores: &mut [u32],
    shares: &mut [u32],
    work: &mut [u32],
) -> Result<Solution, Refusal>
    requires holds_list { HoldsList head.n head.m work.old }
    requires members_long { head.n ≤ length members.old }
    requires cores_long { head.n ≤ length cores.old }
    requires shares_long { head.m ≤ length shares.old }
    requires work_long { 16384 ≤ length work.old }
    ensures { SolveOn head members.old cores.old shares.old work.old (solved_of result) members.new cores.new shares.new work.new }
{
    let effort = Effort {
        phases: PHASES,
        arcs: head.m as usize,
    };
    let found = match check_some_pair(head.m) {
        Err(refusal) => Err(refusal),
        Ok(()) => Ok(solve(
            head.n as usize,
            head.m as usize,
            effort,
            &mut work[..12288],
            members,
            cores,
            shares,
        )),
    };
    clear(work);
    found
}

impl From<Result<Solution, Refusal>> for Solved {
    ghost from_gives = { λ answer solved. solved ≡ solved_of answer };

    fn from(answer: Result<Solution, Refusal>) -> Solved {
        match answer {
            Ok(found) => Solved {
                number: 0,
                p: found.ratio.p,
                q: found.ratio.q,
                k: found.k,
                coresize: found.core,
                ratio: found.ratio.to_float(),
            },
            Err(refusal) => Solved {
                number: u32::from(refusal),
                p: 0,
                q: 0,
                k: 0,
                coresize: 0,
                ratio: 0.0,
            },
        }
    }
}
