// The roads and the lists of a well-formed sheet, as the parsed sheet has them.
// A method for each: it is one load or one call, and its clause names its own field of the definition, so a common reader would be no plainer.
ghost use Rattle.std.specs.Prelude.{◌≡◌, ◌≤◌, ◌<◌};
ghost use Rattle.model.specs.Judge.{start_of, entry_of};
ghost use Rattle.model.specs.Sheet.{road_at};
ghost use Rattle.sheet.specs.Contents.{contents};

use crate::layout::Layout;
use crate::{Sheet, SoundSheet};
use model::Road;

impl<'a> Sheet<'a> {
    // The same sheet, as refusals 1 to 4 leave it.
    pub fn sound(&self) -> SoundSheet<'a>
        ensures { (result.bytes.now ≡ self.now.bytes.now) × (result.counts ≡ self.now.counts) }
    {
        SoundSheet {
            bytes: self.bytes,
            counts: self.counts,
        }
    }

    // The source of road r.
    pub fn source(&self, r: usize) -> usize
        requires { r < self.now.counts.e }
        ensures { (result ≡ (road_at (contents self.now) r).source) × (result < self.now.counts.n) }
    {
        self.sound().source(r)
    }

    // The target of road r.
    pub fn target(&self, r: usize) -> usize
        requires { r < self.now.counts.e }
        ensures { (result ≡ (road_at (contents self.now) r).target) × (result < self.now.counts.n) }
    {
        self.sound().target(r)
    }

    // The length of road r.
    pub fn length_m(&self, r: usize) -> f64
        requires { r < self.now.counts.e }
        ensures { result ≡ (road_at (contents self.now) r).length_m }
    {
        let counts = self.counts;
        let at = Layout { counts }.roads() + r * 32;
        fields::f64_at(self.bytes, at + 8)
    }

    // The id of road r.
    pub fn id(&self, r: usize) -> u64
        requires { r < self.now.counts.e }
        ensures { result ≡ (road_at (contents self.now) r).id }
    {
        let counts = self.counts;
        let at = Layout { counts }.roads() + r * 32;
        fields::u64_at(self.bytes, at)
    }

    // The class of road r.
    pub fn frc(&self, r: usize) -> u8
        requires { r < self.now.counts.e }
        ensures { (result ≡ (road_at (contents self.now) r).frc) × (result ≤ 7) }
    {
        let counts = self.counts;
        let at = Layout { counts }.roads() + r * 32;
        self.bytes[at + 24]
    }

    // The form of way of road r.
    pub fn fow(&self, r: usize) -> u8
        requires { r < self.now.counts.e }
        ensures { (result ≡ (road_at (contents self.now) r).fow) × (result ≤ 7) }
    {
        let counts = self.counts;
        let at = Layout { counts }.roads() + r * 32;
        self.bytes[at + 25]
    }

    // Whether road r is an access road.
    pub fn access(&self, r: usize) -> bool
        requires { r < self.now.counts.e }
        ensures { result ≡ (road_at (contents self.now) r).access }
    {
        let counts = self.counts;
        let at = Layout { counts }.roads() + r * 32;
        self.bytes[at + 26] == 1
    }

    // Road r.
    pub fn road(&self, r: usize) -> Road
        requires { r < self.now.counts.e }
        ensures { (result ≡ road_at (contents self.now) r) × (result.source < self.now.counts.n) × (result.target < self.now.counts.n) × (result.frc ≤ 7) × (result.fow ≤ 7) }
    {
        let id = self.id(r);
        let length_m = self.length_m(r);
        let source = self.source(r);
        let target = self.target(r);
        let frc = self.frc(r);
        let fow = self.fow(r);
        let access = self.access(r);
        Road {
            number: r,
            id,
            length_m,
            source,
            target,
            frc,
            fow,
            access,
        }
    }

    // Where the roads leaving node v begin in the lists; for v = N, where the last part ends.
    pub fn start(&self, v: usize) -> usize
        requires { v ≤ self.now.counts.n }
        ensures { (result ≡ start_of self.now.bytes.now self.now.counts v) × (result ≤ self.now.counts.e) }
    {
        self.sound().start(v)
    }

    // The road number at place j of the lists.
    pub fn entry(&self, j: usize) -> usize
        requires { j < self.now.counts.e }
        ensures { (result ≡ entry_of self.now.bytes.now self.now.counts j) × (result < self.now.counts.e) }
    {
        self.sound().entry(j)
    }
}
