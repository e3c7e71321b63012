// One field, and a run of records or of fields alike: where the first bad one begins.
ghost use Rattle.std.specs.Prelude.{◌≡◌, ℕ, ◌+◌, ◌*◌, ◌^◌, ◌<◌, ◌≤◌, List, length, Ok};
ghost use Rattle.model.specs.Table.{Field, need, check_then, records, zeros};
ghost use Rattle.ranges.specs.Runs.{Finds};

// A field that begins at `at`.
#[tactic(auto, unfolding(model::specs::Table::need))]
pub(crate) fn need(good: bool, at: usize) -> Result<(), usize>
    ensures { result ≡ need good at (Ok tt) }
{
    if good { Ok(()) } else { Err(at) }
}

// k records of w bytes each; `check` judges the record that begins at a place.
pub(crate) fn run<F: Fn(usize) -> Result<(), usize>>(
    base: usize,
    w: usize,
    k: usize,
    check: F,
) -> Result<(), usize>
    requires fits { base + k * w < 2 ^ 64 }
    requires callable { (i : ℕ) → i < k → F.pre check (base + i * w) }
    ensures { (s : List ℕ) (fs : List Field) → Finds s fs base w k (F.post check) → result ≡ records s w fs k base }
{
    for i in 0..k {
        check(base + i * w)?;
    }
    Ok(())
}

// k spare bytes of a record, from `off`, which are zero.
pub(crate) fn spare(s: &[u8], at: usize, off: usize, k: usize) -> Result<(), usize>
    requires { at + off + k ≤ length s.now }
    ensures { result ≡ check_then s.now at (zeros off k) (Ok tt) }
{
    run(at + off, 1, k, |a| need(s[a] == 0, a))
}
