// A sheet, and changes of it in one place.
use crate::entries::{at, put};
use model::raise_at;

// A group's member bytes, and a share for each pair.
#[derive(Clone, Copy)]
pub(crate) struct Sheet<'a> {
    pub(crate) members: &'a [u8],
    pub(crate) shares: &'a [u32],
}

// What is changed. (Nothing is a case, no Option: like the others it has a number in the table, and places.)
#[derive(Clone, Copy)]
pub(crate) enum Change {
    Nothing,
    ShareRaised,
    ShareLowered,
    // A unit of the share goes to the next.
    UnitMoved,
    // The share becomes one more than the units of its pair.
    ShareTooLarge,
    MemberAdded,
    MemberDropped,
    ByteOfTwo,
    // All bytes become 0.
    NoMember,
    // The share becomes all units of its pair.
    AllUnits,
}

// All of them, the one of number 0 first: the table on standard input has their numbers, and no derive of std lists the cases of an enum.
const CHANGES: [Change; 10] = [
    Change::Nothing,
    Change::ShareRaised,
    Change::ShareLowered,
    Change::UnitMoved,
    Change::ShareTooLarge,
    Change::MemberAdded,
    Change::MemberDropped,
    Change::ByteOfTwo,
    Change::NoMember,
    Change::AllUnits,
];

// Lowers a share by one unit, where it has one; the units that it loses.
fn lower(i: u32, shares: &mut [u32]) -> u32 {
    let x = at(shares, i);
    put(shares, i, x.saturating_sub(1));
    x.min(1)
}

// A unit that there is goes to the next share.
fn move_unit(i: u32, shares: &mut [u32]) {
    let moved = lower(i, shares);
    raise_at(shares, i.saturating_add(1), moved);
}

impl Change {
    // The change of a number.
    pub(crate) fn numbered(number: u32) -> Option<Change> {
        CHANGES.get(number as usize).copied()
    }

    // How many places it has in a list of n modules and m pairs.
    pub(crate) fn places(self, n: u32, m: u32) -> u32 {
        match self {
            Change::Nothing | Change::NoMember => 1,
            Change::MemberAdded | Change::MemberDropped | Change::ByteOfTwo => n,
            _ => m,
        }
    }

    // Changes a sheet at place i, where a pair has so many units.
    pub(crate) fn make(self, i: u32, units: u32, members: &mut [u8], shares: &mut [u32]) {
        match self {
            Change::Nothing => {}
            Change::ShareRaised => raise_at(shares, i, 1),
            Change::ShareLowered => _ = lower(i, shares),
            Change::UnitMoved => move_unit(i, shares),
            Change::ShareTooLarge => put(shares, i, units.saturating_add(1)),
            Change::MemberAdded => put(members, i, 1),
            Change::MemberDropped => put(members, i, 0),
            Change::ByteOfTwo => put(members, i, 2),
            Change::NoMember => members.fill(0),
            Change::AllUnits => put(shares, i, units),
        }
    }
}
