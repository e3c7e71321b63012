// The settings, the points and the measured rows of a well-formed sheet.
// A method for each: a field is one load, and its clause names its own field of the definition, so a common reader would be no plainer.
ghost use Rattle.std.specs.Prelude.{◌≡◌, ◌+◌, ◌*◌, ◌≤◌, ◌<◌};
ghost use Rattle.model.specs.Bytes.{f64_at};
ghost use Rattle.model.specs.Layout.{most_measured, settings_bytes, points_bytes, rows_bytes};
ghost use Rattle.model.specs.Judge.{row_count, rows_before};
ghost use Rattle.sheet.specs.Contents.{contents};
ghost use Rattle.model.specs.Sheet.{point_of, row_of};

use crate::Sheet;
use crate::layout::Layout;
use model::{Point, Row, Settings};

impl Sheet<'_> {
    // The k-th f64 of the settings.
    fn setting(&self, k: usize) -> f64
        requires { k < 13 }
        ensures { result ≡ f64_at (settings_bytes self.now.bytes.now) (k * 8) }
    {
        fields::f64_at(self.bytes, 56 + k * 8)
    }

    // The settings.
    pub fn settings(&self) -> Settings
        ensures { result ≡ (contents self.now).settings }
    {
        let search_radius_m = self.setting(0);
        let max_bearing_diff = self.setting(1);
        let max_candidate_distance_m = self.setting(2);
        let distance_weight = self.setting(3);
        let bearing_weight = self.setting(4);
        let frc_weight = self.setting(5);
        let fow_weight = self.setting(6);
        let length_tolerance = self.setting(7);
        let absolute_length_tolerance = self.setting(8);
        let max_search_distance_factor = self.setting(9);
        let slip_road_cost_penalty = self.setting(10);
        let access_road_cost_penalty = self.setting(11);
        let max_snap_extension_m = self.setting(12);
        let frc_tolerance = self.bytes[160];
        let snap_to_valid_nodes = self.bytes[161] == 1;
        let max_candidates = fields::u16_at(self.bytes, 162);
        Settings {
            search_radius_m,
            max_bearing_diff,
            max_candidate_distance_m,
            distance_weight,
            bearing_weight,
            frc_weight,
            fow_weight,
            length_tolerance,
            absolute_length_tolerance,
            max_search_distance_factor,
            slip_road_cost_penalty,
            access_road_cost_penalty,
            max_snap_extension_m,
            frc_tolerance,
            snap_to_valid_nodes,
            max_candidates,
        }
    }

    // Point i.
    pub fn point(&self, i: usize) -> Point
        requires { i < self.now.counts.p }
        ensures { (result ≡ point_of (points_bytes self.now.bytes.now self.now.counts) i) × (result.bearing ≤ 360) × (result.frc ≤ 7) × (result.fow ≤ 7) }
    {
        let at = 168 + i * 24;
        let dnp = fields::f64_at(self.bytes, at);
        let bearing = fields::u16_at(self.bytes, at + 8);
        let frc = self.bytes[at + 10];
        let fow = self.bytes[at + 11];
        let limit = self.bytes[at + 12];
        Point {
            dnp,
            bearing,
            frc,
            fow,
            limit,
        }
    }

    // How many rows point i has.
    pub fn row_count(&self, i: usize) -> usize
        requires { i < self.now.counts.p }
        ensures { (result ≡ row_count self.now.bytes.now i) × (result ≤ most_measured) }
    {
        self.sound().row_count(i)
    }

    // The first row of point i: as many rows as the points before it have.
    #[tactic(auto, using(model::proofs::RowSums::rows_within))]
    pub fn first_row(&self, i: usize) -> usize
        requires { i < self.now.counts.p }
        ensures { (result ≡ rows_before self.now.bytes.now i) × (result + row_count self.now.bytes.now i ≤ self.now.counts.m) }
    {
        self.sound().rows_before(i)
    }

    // Row k.
    pub fn row(&self, k: usize) -> Row
        requires { k < self.now.counts.m }
        ensures { (result ≡ row_of (rows_bytes self.now.bytes.now self.now.counts) k) × (result.road < self.now.counts.e) }
    {
        let road = self.sound().row_road(k);
        let counts = self.counts;
        let at = Layout { counts }.rows() + k * 40;
        let distance = fields::f64_at(self.bytes, at + 8);
        let bearing = fields::f64_at(self.bytes, at + 16);
        let along = fields::f64_at(self.bytes, at + 24);
        let line = fields::f64_at(self.bytes, at + 32);
        Row {
            road,
            distance_m: distance,
            bearing,
            along_m: along,
            length_m: line,
        }
    }
}
