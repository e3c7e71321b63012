// The list program: reads a sheet from standard input and prints the text of its answer, from one buffer.
#![tactic(auto)]

ghost use Rattle.std.specs.Prelude.{◌≡◌, ◌≤◌, length, IfOk};
ghost use Rattle.model.specs.Call.{decode};
ghost use Rattle.text.specs.Text.{text_of};
ghost use Rattle.roadlist.specs.Listing.{areas, listing};

use std::io;
use std::io::{Read, Write};

// The text of one call, with the areas that this program lends, at the front of `out`.
fn decode_text<'a>(sheet: &[u8], out: &'a mut [u8]) -> &'a [u8]
    requires { 11264 ≤ length out.old }
    ensures { result.now ≡ text_of (decode sheet.now areas) }
{
    let mut labels = [0.0; 128];
    let mut came_from = [0usize; 64];
    let mut entries = [0.0; 256];
    let mut links = [0usize; 256];
    let mut covered = [0usize; 256];
    let mut coverage = [0.0; 256];
    let mut ids = [0u64; 256];
    let mut lengths = [0.0; 256];
    let answer = decoder::decode(
        sheet,
        &mut labels,
        &mut came_from,
        &mut entries,
        &mut links,
        &mut covered,
        &mut coverage,
        &mut ids,
        &mut lengths,
    );
    let size = text::write_text(out, answer, &ids, &lengths).unwrap();
    &out[..size]
}

// Everything that is printed, at the front of `out`.
#[tactic(auto, unfolding(crate::specs::Listing::listing, text::specs::Text::ascii, text::specs::Text::spaced, text::specs::Text::line, text::specs::Text::large))]
fn list<'a>(sheet: &[u8], out: &'a mut [u8]) -> &'a [u8]
    requires { 11264 ≤ length out.old }
    ensures { result.now ≡ listing sheet.now }
{
    if 49152 < sheet.len() {
        let size = text::write_large(out).unwrap();
        &out[..size]
    } else {
        decode_text(sheet, out)
    }
}

// Reads until `buf` is full or the input ends, and answers how many bytes came: they stand at its front.
// An array with a count, filled by a `while` (no heap): `read_to_end` asks for memory, `read_exact` gives no count, and no clause of `io::copy` holds its count within the slice. A read gives as many bytes as it has.
fn read_full<R: Read>(from: &mut R, buf: &mut [u8]) -> io::Result<usize>
    ensures { IfOk result (λ n. n ≤ length buf.new) }
{
    let mut done = 0;
    while done < buf.len() {
        match from.read(&mut buf[done..])? {
            0 => break,
            n => done += n,
        }
    }
    Ok(done)
}

// 48 KiB are read and one byte more, which shows a larger sheet. The longest text has 11,182 bytes.
fn main(rt: HostRuntime) -> io::Result<()> {
    let mut sheet = [0u8; 49153];
    let n = read_full(&mut rt.stdin(), &mut sheet)?;
    let mut out = [0u8; 11264];
    rt.stdout().write_all(list(&sheet[..n], &mut out))
}
