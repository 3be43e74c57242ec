// The answer to the bytes of a pair file, which crate `texts` writes out.
#![tactic(auto)]

ghost use Rattle.std.specs.Prelude.{◌≡◌, ◌≤◌, length};
ghost use Rattle.theory.specs.Words.{laid_list};
ghost use Rattle.lists.specs.Listed.{listed};
ghost use Rattle.pairfile.specs.Answers.{SamePast};
ghost use Rattle.answer.specs.Answers.{Answers, RoomEnough, Sheeted};

use lists::List;
use numbers::Ratio;
use on_words::solving::solve_on_words;
use pairfile::read_words;
use records::Head;
use refusals::Refusal;

// N and M; P and Q; K and the number of modules in the core of order K.
#[derive(Clone, Copy, Debug, PartialEq, Eq)]
pub struct Answer {
    pub head: Head,
    pub ratio: Ratio,
    pub k: u32,
    pub coresize: u32,
}

// The pairs of a list to words. The other words stay.
fn lay(list: List, words: &mut [u32])
    requires { 12288 ≤ length words.old }
    ensures pairs { laid_list list.entry.n list.entry.m words.new ≡ listed list.entry }
    ensures past { SamePast list.entry.m words.old words.new }
    ensures none { list.entry.m ≡ 0 → words.new ≡ words.old }
{
    let ends = 2 * list.m;
    words[..ends].copy_from_slice(&list.ends[..ends]);
    words[8192..8192 + list.m].copy_from_slice(&list.weights[..list.m]);
}

// Reads the file and solves its list: the member bytes mark the found group, then core numbers, load sheet, and the list in words. Refuses by the file's
// numbers, 20.
pub fn sheet_file(
    bytes: &[u8],
    members: &mut [u8],
    cores: &mut [u32],
    shares: &mut [u32],
    words: &mut [u32],
) -> Result<Answer, Refusal>
    requires { RoomEnough (length members.old) (length cores.old) (length shares.old) (length words.old) }
    ensures { Sheeted bytes.now members.old cores.old shares.old words.old result
        members.new cores.new shares.new words.new }
{
    let mut work = [0; 16384];
    let head = read_words(bytes, 4096, &mut work)?;
    lay(head.list(&work), words);
    let found = solve_on_words(head, members, cores, shares, &mut work)?;
    Ok(Answer {
        head,
        ratio: found.ratio,
        k: found.k,
        coresize: found.core,
    })
}

// The found group alone.
pub fn solve_file(bytes: &[u8], members: &mut [u8]) -> Result<Answer, Refusal>
    requires { 512 ≤ length members.old }
    ensures { Answers bytes.now members.old result members.new }
{
    let mut cores = [0; 512];
    let mut shares = [0; 4096];
    let mut words = [0; 12288];
    sheet_file(bytes, members, &mut cores, &mut shares, &mut words)
}
