// The metres covered of each road, in the order of the roads' first traversal.
ghost use Rattle.std.specs.Prelude.{◌≡◌, ◌==◌, ℕ, ◌+◌, ◌≤◌, ◌<◌, length, map, take, position};
ghost use Rattle.model.specs.Sheet as definition;
ghost use Rattle.model.specs.Decode.{primary_edge};
ghost use Rattle.sheet.specs.Contents.{contents};
ghost use Rattle.rules.specs.Code.{terminal_of};
ghost use Rattle.search.specs.Answers.{RoadNumbers};
ghost use Rattle.full_path.specs.Left.{coverage_of, paired, primary_of, Within};

use crate::{Coverages, Covering, EdgeCoverage};
use rules::{PathResult, TerminalEdge};
use sheet::Sheet;

impl Coverages<'_> {
    ghost use Rattle.full_path.specs.Left.{covers, Known, Own, Numbered, coverages_at, cover_with, cover_all, OnRoads, SameAreas, RoomFor};

    // The place of a road.
    fn find(&self, road: usize) -> Option<usize>
        ensures { result ≡ position (λ r. r == road) (take self.now.count self.now.roads.now) }
    {
        self.roads[..self.count].iter().position(|r| *r == road)
    }

    // A coverage behind those that are there, or in the sum of its road.
    // Room is asked for here, twice below and where legs leave theirs: no plainer as one fact, each asks for its own number of places.
    fn add(&mut self, covering: Covering, k: EdgeCoverage)
        requires { RoomFor 1 self.old }
        ensures room { SameAreas self.old self.new × (self.new.count ≤ self.old.count + 1) }
        ensures added { (t : definition.Sheet) (e : ℕ) → Numbered t e → OnRoads e self.old → k.edge_idx < e
            → OnRoads e self.new × (coverages_at t self.new ≡ cover_with covering (coverages_at t self.old) (coverage_of t k)) }
    {
        let place = match covering {
            Covering::PerRoad => self.find(k.edge_idx),
            Covering::PerPass => None,
        };
        match place {
            Some(at) => self.metres[at] += k.coverage_m,
            None => {
                self.roads[self.count] = k.edge_idx;
                self.metres[self.count] = k.coverage_m;
                self.count += 1;
            }
        }
    }

    // The coverage of a terminal road that is kept.
    #[tactic(auto, unfolding(model::specs::Lists::fold))]
    fn add_terminal(&mut self, covering: Covering, p: Option<TerminalEdge>)
        requires { RoomFor 1 self.old }
        ensures room { SameAreas self.old self.new × (self.new.count ≤ self.old.count + 1) }
        ensures added { (t : definition.Sheet) (e : ℕ) → Numbered t e → OnRoads e self.old → Own t e p
            → OnRoads e self.new × (coverages_at t self.new ≡ cover_all covering (coverages_at t self.old) (terminal_of p)) }
    {
        if let Some(edge) = p {
            // No plainer by `From`: this is the only place.
            let k = EdgeCoverage {
                edge_idx: edge.road.number,
                coverage_m: edge.coverage_m,
            };
            self.add(covering, k);
        }
    }

    // The coverages of a route, whose middle has these roads.
    pub fn cover_leg(
        &mut self,
        sheet: &Sheet<'_>,
        covering: Covering,
        r: &PathResult,
        middle: &[u64],
    )
        requires { Known (contents sheet.now) sheet.now.counts r.now middle.now × OnRoads sheet.now.counts.e self.old × RoomFor (length middle.now + 2) self.old }
        ensures room { SameAreas self.old self.new × (self.new.count ≤ self.old.count + length middle.now + 2) }
        ensures covered { OnRoads sheet.now.counts.e self.new × (coverages_at (contents sheet.now) self.new ≡ cover_all covering (coverages_at (contents sheet.now) self.old) (covers (contents sheet.now) r.now middle.now)) }
    {
        self.add_terminal(covering, r.head);
        for number in middle {
            // A cast: Rust has no `From` between u64 and usize.
            let road = *number as usize;
            let whole = EdgeCoverage {
                edge_idx: road,
                coverage_m: sheet.length_m(road),
            };
            self.add(covering, whole);
        }
        self.add_terminal(covering, r.tail);
    }
}

// primary_edge: the greatest of the coverages in two slices, the first if equal.
// A loop: tried as `reduce` of the pairs, and the proof does not close.
pub fn primary_edge(roads: &[usize], metres: &[f64]) -> Option<EdgeCoverage>
    ensures { ((t : definition.Sheet) → primary_of t result ≡ primary_edge (map (coverage_of t) (paired roads.now metres.now))) × ((e : ℕ) → RoadNumbers e (length roads.now) roads.now → Within e result) }
{
    let mut best: Option<EdgeCoverage> = None;
    for (road, metres) in roads.iter().zip(metres) {
        let k = EdgeCoverage {
            edge_idx: *road,
            coverage_m: *metres,
        };
        if best.is_none_or(|b| b.coverage_m < k.coverage_m) {
            best = Some(k);
        }
    }
    best
}
