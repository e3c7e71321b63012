// One record: its first bad field.
// `s` and `at` stay two parameters: the place is what a refusal tells, and the definition's `check` takes both, so a struct of them would be no plainer.
#![tactic(auto, unfolding(model::specs::Judge::header_table, model::specs::Judge::settings_table, model::specs::Judge::point_table, model::specs::Judge::road_table, model::specs::Judge::number_table, model::specs::Judge::row_table, model::specs::Judge::distance_table, model::specs::Judge::goal_table, model::specs::Table::check_then, model::specs::Table::fields_alike, model::specs::Table::need))]

ghost use Rattle.std.specs.Prelude.{◌≡◌, ◌+◌, ◌≤◌, length};
ghost use Rattle.model.specs.Layout.{goal_width};
ghost use Rattle.model.specs.Table.{check};
ghost use Rattle.model.specs.Judge.{header_table, settings_table, point_table, road_table, number_table, row_table, distance_table, goal_table};

use crate::measures::measures;
use crate::need::{need, spare};
use model::kind::Kind;

// The greatest bearing, 360, by its bits.
const BEARING: u64 = 0x4076_8000_0000_0000;

// The kind of reference.
pub(crate) fn kind(s: &[u8], at: usize) -> Result<(), usize>
    requires { at + 4 ≤ length s.now }
    ensures { result ≡ check s.now at header_table }
{
    let kind = Kind::try_from(fields::count_at(s, at));
    need(kind.is_ok(), at)
}

// The settings.
pub(crate) fn settings(s: &[u8], at: usize) -> Result<(), usize>
    requires { at + 112 ≤ length s.now }
    ensures { result ≡ check s.now at settings_table }
{
    measures(s, at, 0, 13)?;
    need(s[at + 105] <= 1, at + 105)?;
    need(
        fields::u16_at(s, at + 106) <= model::MOST_CANDIDATES,
        at + 106,
    )?;
    spare(s, at, 108, 4)
}

// A location reference point. The DNP is +0 where there is no path entry.
pub(crate) fn point(s: &[u8], at: usize) -> Result<(), usize>
    requires { at + 24 ≤ length s.now }
    ensures { result ≡ check s.now at point_table }
{
    let limit = s[at + 12];
    let most_dnp = if limit == model::NO_LIMIT {
        0
    } else {
        fields::MOST
    };
    need(fields::u64_at(s, at) <= most_dnp, at)?;
    need(fields::u16_at(s, at + 8) <= 360, at + 8)?;
    need(s[at + 10] <= 7, at + 10)?;
    need(s[at + 11] <= 7, at + 11)?;
    need(limit <= 7 || limit == model::NO_LIMIT, at + 12)?;
    spare(s, at, 13, 3)?;
    need(fields::u32_at(s, at + 16) <= model::MOST_MEASURED, at + 16)?;
    spare(s, at, 20, 4)
}

// A road field by field, on a sheet of n nodes.
#[cold]
fn road_fields(s: &[u8], at: usize, n: usize) -> Result<(), usize>
    requires { at + 32 ≤ length s.now }
    ensures { result ≡ check s.now at (road_table n) }
{
    need(fields::u64_at(s, at + 8) <= fields::MOST, at + 8)?;
    need(fields::count_at(s, at + 16) < n, at + 16)?;
    need(fields::count_at(s, at + 20) < n, at + 20)?;
    need(s[at + 24] <= 7, at + 24)?;
    need(s[at + 25] <= 7, at + 25)?;
    need(s[at + 26] <= 1, at + 26)?;
    spare(s, at, 27, 5)
}

// A road, on a sheet of n nodes: as a whole first, its fields one by one only where one is bad, since by fields alone the judge misses the bar of speed. The access flag and the spare bytes are the upper part of one u64.
#[tactic(auto, using(crate::proofs::Whole::road_whole))]
pub(crate) fn road(s: &[u8], at: usize, n: usize) -> Result<(), usize>
    requires { at + 32 ≤ length s.now }
    ensures { result ≡ check s.now at (road_table n) }
{
    let metres = fields::u64_at(s, at + 8);
    let source = fields::count_at(s, at + 16);
    let target = fields::count_at(s, at + 20);
    let rest = fields::u64_at(s, at + 24);
    let frc = s[at + 24];
    let fow = s[at + 25];
    if metres <= fields::MOST
        && source < n
        && target < n
        && rest < 0x2_0000
        && frc <= 7
        && fow <= 7
    {
        return Ok(());
    }
    road_fields(s, at, n)
}

// The number of one of n roads.
pub(crate) fn number(s: &[u8], at: usize, n: usize) -> Result<(), usize>
    requires { at + 4 ≤ length s.now }
    ensures { result ≡ check s.now at (number_table n) }
{
    need(fields::count_at(s, at) < n, at)
}

// A distance.
pub(crate) fn distance(s: &[u8], at: usize) -> Result<(), usize>
    requires { at + 8 ≤ length s.now }
    ensures { result ≡ check s.now at distance_table }
{
    need(fields::u64_at(s, at) <= fields::MOST, at)
}

// A measured row field by field, on a sheet of e roads.
#[cold]
fn row_fields(s: &[u8], at: usize, e: usize) -> Result<(), usize>
    requires { at + 40 ≤ length s.now }
    ensures { result ≡ check s.now at (row_table e) }
{
    need(fields::count_at(s, at) < e, at)?;
    spare(s, at, 4, 4)?;
    need(fields::u64_at(s, at + 8) <= fields::MOST, at + 8)?;
    need(fields::u64_at(s, at + 16) <= BEARING, at + 16)?;
    need(fields::u64_at(s, at + 24) <= fields::MOST, at + 24)?;
    need(fields::u64_at(s, at + 32) <= fields::MOST, at + 32)
}

// A measured row, on a sheet of e roads: as a whole first, as a road is, for the judge's bar of speed.
#[tactic(auto, using(crate::proofs::Whole::row_whole))]
pub(crate) fn row(s: &[u8], at: usize, e: usize) -> Result<(), usize>
    requires { at + 40 ≤ length s.now }
    ensures { result ≡ check s.now at (row_table e) }
{
    let road = fields::count_at(s, at);
    let spare = fields::count_at(s, at + 4);
    let distance = fields::u64_at(s, at + 8);
    let bearing = fields::u64_at(s, at + 16);
    let along = fields::u64_at(s, at + 24);
    let line = fields::u64_at(s, at + 32);
    if road < e
        && spare == 0
        && distance <= fields::MOST
        && bearing <= BEARING
        && along <= fields::MOST
        && line <= fields::MOST
    {
        return Ok(());
    }
    row_fields(s, at, e)
}

// A goal row, on a sheet of n nodes.
pub(crate) fn goal(s: &[u8], at: usize, n: usize) -> Result<(), usize>
    requires { at + goal_width n ≤ length s.now }
    ensures { result ≡ check s.now at (goal_table n) }
{
    need(fields::count_at(s, at) < n, at)?;
    spare(s, at, 4, 4)?;
    measures(s, at, 8, n)
}
