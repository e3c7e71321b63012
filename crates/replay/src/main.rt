// Replays fixed lists of cases: decodes the sheet of each and compares the answer and both answer lists, bit for bit, with the stored ones.
// The stored answers are those of the oracle in harness/: the original Rust unchanged, refusals 1 to 6 by an independent reading of the scope, refusal 11 by the counted entries of the Rust's heap.
// changes.bin has sheets that notice a change in the Rust, classes.bin one of every class of answers and refusals; harness/README.md says how they were chosen.
// wrong.bin has cases that expect one thing wrong each, all of which must be noticed.
#![tactic(auto)]

mod call;
mod compare;
mod expected;
mod list;
mod record;

use list::{Cases, Tally};
use std::rt::Files;
use std::{fs, io};

// The bytes of a file. A missing one counts as an empty one.
fn contents<R: Files + Alloc>(rt: &R, path: &str) -> io::Result<Vec<u8, R::A>> {
    match fs::read(rt, path) {
        Err(e) if e.kind() == io::ErrorKind::NotFound => Ok(Vec::new(rt.alloc())),
        whole => whole,
    }
}

// Runs every case of a file, and tells `differs` the number of each that differs. A file that is no list has no cases.
fn run_file<R: Files + Alloc, F: FnMut(usize) -> io::Result<()>>(
    rt: &R,
    path: &str,
    differs: F,
) -> io::Result<Tally>
    requires { F.IsAlwaysCallable differs }
{
    let file = contents(rt, path)?;
    match Cases::of(&file) {
        None => Ok(Tally::default()),
        Some(cases) => cases.run(differs),
    }
}

// A list without cases shows nothing, and counts as one that differs.
fn replay_file(rt: &(impl Files + Alloc + Print), path: &str) -> io::Result<()> {
    let t = run_file(rt, path, |i| println!(rt; "case {i} differs"))?;
    let differ = if t.run == 0 { 1 } else { t.differ };
    println!(rt; "{} replayed, {differ} differ", t.run)
}

fn main(rt: HostRuntime) -> io::Result<()> {
    replay_file(&rt, "changes.bin")?;
    replay_file(&rt, "classes.bin")?;
    let t = run_file(&rt, "wrong.bin", |_| Ok(()))?;
    println!(rt; "{} wrong, {} noticed", t.run, t.differ)
}
