// Peel on words: the list in the work buffer's words, then zeros.
ghost use Rattle.std.specs.Prelude.{◌≡◌, ◌≤◌, length};
ghost use Rattle.theory.specs.Words.{HoldsList};
ghost use Rattle.on_words.specs.Peeling.{peel_buffers, PeelOn};

use crate::buffers::{Buffer, clear, narrow};
use peel::peel;
use records::Head;

// What is lent: N entries of order and of cores, 16,384 of work.
pub fn peel_buffers(head: Head, order: usize, cores: usize, work: usize) -> [Buffer; 3]
    ensures { result ≡ peel_buffers head order cores work }
{
    let n = head.n as usize;
    [
        Buffer::new(order, n),
        Buffer::new(cores, n),
        Buffer::new(work, 16384),
    ]
}

// Leaving order and core numbers of the list in the words; the order's 32-bit numbers are narrowed to the buffer's 16.
pub fn peel_on_words(head: Head, order: &mut [u16], cores: &mut [u32], work: &mut [u32])
    requires holds_list { HoldsList head.n head.m work.old }
    requires order_long { head.n ≤ length order.old }
    requires cores_long { head.n ≤ length cores.old }
    requires work_long { 16384 ≤ length work.old }
    ensures { PeelOn head order.old cores.old work.old order.new cores.new work.new }
{
    let mut leavers = [0u32; 512];
    let mut places = [0u32; 512];
    let list = head.list(work);
    peel(list, 1, &mut leavers, cores, &mut places);
    narrow(&leavers[..list.n], order);
    clear(work);
}
