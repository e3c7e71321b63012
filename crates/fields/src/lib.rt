// Little-endian numbers at an offset of a byte slice. Each compiles to one load, and equals a word of the definition of its own: a trait for the widths would be longer.
#![tactic(auto, unfolding(model::specs::Bytes::u16_at, model::specs::Bytes::u32_at, model::specs::Bytes::u64_at))]

ghost use Rattle.std.specs.Prelude.{◌≡◌, ◌+◌, ◌*◌, ◌^◌, ◌≤◌, ◌<◌, length, ℕ, [], slice_index_or};
ghost use Rattle.model.specs.Bytes.{u16_at, u32_at, u64_at, f64_at, section};
ghost use Rattle.model.specs.Table.{most_f64};

pub fn u16_at(s: &[u8], at: usize) -> u16
    requires { at + 2 ≤ length s.now }
    ensures { result ≡ u16_at s.now at }
{
    u16::from_le_bytes(s[at..at + 2].try_into().unwrap())
}

pub fn u32_at(s: &[u8], at: usize) -> u32
    requires { at + 4 ≤ length s.now }
    ensures { result ≡ u32_at s.now at }
{
    u32::from_le_bytes(s[at..at + 4].try_into().unwrap())
}

pub fn u64_at(s: &[u8], at: usize) -> u64
    requires { at + 8 ≤ length s.now }
    ensures { result ≡ u64_at s.now at }
{
    u64::from_le_bytes(s[at..at + 8].try_into().unwrap())
}

// A u32 as an index or a count; a cast, since Rust has no `From` from u32 to usize.
pub fn count_at(s: &[u8], at: usize) -> usize
    requires { at + 4 ≤ length s.now }
    ensures { (result ≡ u32_at s.now at) × (result < 2 ^ 32) }
{
    u32_at(s, at) as usize
}

// k numbers of N bytes each, from `at` on.
pub fn words<const N: usize>(s: &[u8], at: usize, k: usize) -> &[[u8; N]]
    requires some { 0 < N }
    requires within { at + k * N ≤ length s.now }
    ensures count { length result.now ≡ k }
    ensures each { (i : ℕ) → i < k → slice_index_or result.now i [] ≡ section (at + i * N) N s.now }
{
    let (words, _) = s[at..at + k * N].as_chunks();
    words
}

// The greatest f64 of a sheet, 10,000,000, by its bits. A pattern up to it has its sign bit clear and is no NaN's.
pub const MOST: u64 = 0x4163_12D0_0000_0000;

#[tactic(auto, using(std::proofs::lemmas::Float::not_nan_f64_bits), unfolding(model::specs::Bytes::f64_at))]
pub fn f64_at(s: &[u8], at: usize) -> f64
    requires { (at + 8 ≤ length s.now) × (u64_at s.now at ≤ most_f64) }
    ensures { result ≡ f64_at s.now at }
{
    f64::from_bits(u64_at(s, at))
}
