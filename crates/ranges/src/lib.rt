// Refusal 4: the first field of a sheet that is out of range, part by part.
#![tactic(auto)]

mod measures;
mod need;
pub mod parts;
mod records;
