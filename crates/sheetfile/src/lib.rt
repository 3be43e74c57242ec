// Sheets: what the program `sheet` prints of a pair list, read and audited.
//
// A sheet is read beside the list (sheet.rt). The group and the shares on it then go to check, which counts P and Q itself; the head is compared with
// what check counted and with the list's cores. Nothing on the sheet is trusted.
// Refuses by the pair file's numbers; 20; 101 to 106, line by line; 7, 8, 9; 107, 108.
// `as` stands where std has no `From`: from u32 to usize.
#![tactic(auto)]

mod sheet;

ghost use Rattle.std.specs.Prelude.{◌≡◌, ◌≤◌, take};
ghost use Rattle.theory.specs.Cores.{core_numbers};
ghost use Rattle.lists.specs.Listed.{listed};
ghost use Rattle.verify.specs.Answers.{verdict_of};
ghost use Rattle.sheetfile.specs.Audit.{audit_sheet, Audits};
ghost use Rattle.sheetfile.specs.Answers.{at_least, judged_head, RatioSays};

use lists::List;
use numbers::Ratio;
use pairfile::read_words;
use pairs::check_some_pair;
use refusals::Refusal;
use sheet::{SheetHead, read_sheet};
use verify::check_words;

// How many of the numbers are k or more.
fn at_least(k: u32, numbers: &[u32]) -> usize
    ensures { result ≡ at_least k numbers.now }
{
    numbers.iter().filter(|&&c| k <= c).count()
}

// The head beside the ratio that check counted and the list's core numbers: 107, 108.
#[tactic(auto, unfolding(crate::specs::Answers::judged_head))]
fn judge_head(head: SheetHead, ratio: Ratio, cores: &[u32]) -> Result<Ratio, Refusal>
    requires { 1 ≤ ratio.q }
    ensures { result ≡ judged_head head ratio cores.now }
{
    if head.ratio != ratio {
        return Err(Refusal::BadRatio);
    }
    if (head.k, head.core_size as usize) != (ratio.rounded_up(), at_least(head.k, cores)) {
        return Err(Refusal::BadCore);
    }
    Ok(ratio)
}

// The core number of each module of a list.
fn core_numbers(list: List) -> [u32; 512]
    ensures { take list.entry.n result ≡ core_numbers (listed list.entry) }
{
    let mut order = [0; 512];
    let mut cores = [0; 512];
    let mut place = [0; 512];
    peel::peel(list, 1, &mut order, &mut cores, &mut place);
    cores
}

// The sheet audited beside a list: what is read of it goes to check.
#[tactic(auto, using(slots::proofs::Words::held_few, crate::proofs::Auditing::fronts))]
fn audit_list(list: List, sheet: &[u8]) -> Result<Ratio, Refusal>
    ensures { RatioSays (audit_sheet (listed list.entry) sheet.now) result }
{
    let cores = core_numbers(list);
    let cores = &cores[..list.n];
    let mut members = [0; 512];
    let members = &mut members[..list.n];
    let mut shares = [0; 4096];
    let shares = &mut shares[..list.m];
    let head = read_sheet(sheet, list, cores, members, shares)?;
    let ratio = check_words(list, members, shares)?;
    judge_head(head, ratio, cores)
}

// Whether a sheet is the best there is of the list that a pair file names: its P and Q, or the first refusal.
pub fn audit(file: &[u8], sheet: &[u8]) -> Result<Ratio, Refusal>
    ensures { Audits file.now sheet.now (verdict_of result) }
{
    let mut words = [0; 12288];
    let head = read_words(file, 4096, &mut words)?;
    check_some_pair(head.m)?;
    audit_list(head.list(&words), sheet)
}
