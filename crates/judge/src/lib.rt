// Refusals 1 to 5: whether a byte sequence is a well-formed sheet, and the refusal of any other.
// Refusals 4 and 5 are judged by functions of their own, out of line: one function with all these loops would keep their counters in memory.
#![tactic(auto)]

mod lists;
mod refusals;
mod rows;

pub use refusals::judge;
