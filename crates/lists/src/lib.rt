// A held list as functions that only read it see it: how many modules and pairs there are, and where the pairs' ends and stop counts lie.
#![tactic(auto)]

mod list;

pub use list::List;
