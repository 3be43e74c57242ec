// Lines of text, read and written by their forms (document 01, "The pair file"): in a form a capital letter stands for a number, any other byte
// for itself. What `Reader::line` reads, `Writer::line` writes.
//
// A line is read once and written once, from front to back, at the cost of its bytes. How many digits a number that is read may have is the caller's
// to say: four in pair files and DIMACS files, up to seven on sheets, nine at most.
#![tactic(auto)]

mod reader;
mod writer;

pub use reader::Reader;
pub use writer::Writer;
