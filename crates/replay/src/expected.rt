// What a case expects of the call: its answer, and what the answer lists hold.
ghost use Rattle.std.specs.Prelude.{◌+◌, ◌*◌, ◌≤◌, length};

// A refusal's number, A and B, as the file has them.
#[derive(Clone, Copy, PartialEq, Eq)]
pub struct Refusal {
    pub number: usize,
    pub a: usize,
    pub b: usize,
}

// A refusal, or a match, of which `answer` has the stored bytes: its answer, and a path of so many roads behind it; and whether the lists stay untouched.
#[derive(Clone, Copy)]
pub struct Expected<'a> {
    pub answer: &'a [u8],
    pub roads: usize,
    pub refusal: Option<Refusal>,
    pub untouched: bool,
    ghost within: { 56 + 16 * roads ≤ length answer.now },
}
