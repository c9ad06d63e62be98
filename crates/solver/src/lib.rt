// The steps of one position, for flags by stretch: the flagged cells of a set are made right by turning over those whose syndrome is not 0.
#![tactic(auto)]

ghost use Rattle.std.specs.Prelude.{◌≡◌, true, ◌<◌, ◌≤◌, length, IfSome, IsTrue, ◌↔◌};
ghost use Rattle.code.specs.Record.{tracks, track_length};
ghost use Rattle.code.specs.Image.{all_tracks};
ghost use Rattle.code.specs.Flags.{flag_count};
ghost use Rattle.code.specs.Sizes.{shape};
ghost use Rattle.syndrome.specs.Syndrome.{Kept};
ghost use Rattle.solver.specs.Solver.{marked_by, HasTracks, Planned, Fills, Single};
ghost use Rattle.solver.specs.Steps.{Settled, By, ByTail, TailBit, Stepped, Ahead};
ghost use Rattle.solver.specs.Ways.{track_of, tracks_of, read_sum, IsWay, WayOf, WaysOf};

mod mark;

use code::{Sizes, TrackSet};
pub use mark::Mark;
use syndrome::Line;

// A copy and its syndromes, `out` and `syn`, stay two slices, as `syndrome` takes them: a struct of both would be built anew for each call.

// The flagged tracks of a set: the lowest, the highest data track, and the one that is left.
#[derive(Clone, Copy)]
pub struct Plan {
    pub low: Option<usize>,
    pub high: Option<usize>,
    pub last: Option<usize>,
}

// The plan for the marked tracks of a set, three at the most.
pub fn make_plan<M: Mark>(marks: &[M], z: Sizes, s: TrackSet) -> Plan
    requires z_in_bounds { all_tracks (shape z) ≤ length marks.now }
    requires few { flag_count (shape z) (marked_by M.counts M.none (shape z) marks.now) s ≤ 3 }
    ensures planned { Planned (shape z) (marked_by M.counts M.none (shape z) marks.now) s result }
    ensures fills { Fills (shape z) (marked_by M.counts M.none (shape z) marks.now) s result }
{
    let data = z.data_tracks(s);
    let first = z.track_number(s, 0);
    let mut i = None;
    let mut j = None;
    let mut k = None;
    for t in 0..data + 2 {
        if marks[first + t].is_set() {
            i = j;
            j = k;
            k = Some(t);
        }
    }
    // Now k is the last marked track, j the one before it and i the one before that.
    match i {
        None => Plan {
            low: j,
            high: None,
            last: k,
        },
        Some(_) if k == Some(data + 1) => Plan {
            low: i,
            high: j,
            last: k,
        },
        Some(_) => Plan {
            low: i,
            high: k,
            last: j,
        },
    }
}

// What a flagged track goes by: the diagonal of its own set, that of the other set, or the vertical.
#[derive(Clone, Copy)]
pub enum Rule {
    Own,
    Other,
    Vertical,
}

// A flagged track, its line, and where the syndromes that it goes by begin.
#[derive(Clone, Copy)]
pub struct Way {
    pub t: usize,
    pub line: Line,
    pub sums: usize,
}

// The way of a plan's track, if it names one.
fn find_way(z: Sizes, s: TrackSet, track: Option<usize>, rule: Rule) -> Option<Way>
    ensures { WayOf z s rule track result }
{
    let t = track?;
    let line = syndrome::find_line(z, s, t)?;
    let sums = match rule {
        Rule::Own => line.own,
        Rule::Other => line.other,
        Rule::Vertical => line.vertical,
    };
    Some(Way { t, line, sums })
}

// The ways of a plan's tracks, which serve at all positions of the data.
#[derive(Clone, Copy)]
pub struct Ways {
    pub low: Option<Way>,
    pub high: Option<Way>,
    pub last: Option<Way>,
}

impl Plan {
    // Does it name one track at the most?
    pub fn is_single(self) -> bool
        ensures { IsTrue result ↔ Single self }
    {
        self.low.is_none() && self.high.is_none()
    }

    // The ways of its tracks.
    pub fn ways(self, z: Sizes, s: TrackSet) -> Ways
        ensures ways { WaysOf z s result }
        ensures tracks { HasTracks (shape z) s self → tracks_of result ≡ self }
    {
        Ways {
            low: find_way(z, s, self.low, Rule::Own),
            high: find_way(z, s, self.high, Rule::Other),
            last: find_way(z, s, self.last, Rule::Vertical),
        }
    }
}

// Makes the cell of a way's track right at a position of the data.
fn settle(out: &mut [u8], syn: &mut [u8], z: Sizes, s: TrackSet, way: Option<Way>, p: usize)
    requires kept { Kept z out.old syn.old }
    requires way_of { IfSome way (λ w. (rule : Rule) × IsWay z s rule w) }
    requires p_lt_positions { p < z.positions }
    ensures { Settled z s (track_of way) p (λ t. read_sum syn.old way p) out.old out.new syn.new }
{
    if let Some(w) = way {
        let bit = syn[w.sums + p];
        syndrome::add_cell(out, syn, z, s, w.t, w.line, p, bit);
    }
}

// Solves a set at a position of the data.
pub fn step(out: &mut [u8], syn: &mut [u8], z: Sizes, s: TrackSet, ways: Ways, m: usize)
    requires kept { Kept z out.old syn.old }
    requires ways_of { WaysOf z s ways }
    requires m_lt_positions { m < z.positions }
    ensures { Stepped z s (tracks_of ways) m out.old out.new syn.new }
{
    settle(out, syn, z, s, ways.low, m);
    settle(out, syn, z, s, ways.high, m);
    settle(out, syn, z, s, ways.last, m);
}

// Makes one track of a set right by the verticals, at the positions of the data from `from` up to `to`.
pub fn verticals(
    out: &mut [u8],
    syn: &mut [u8],
    z: Sizes,
    s: TrackSet,
    track: Option<usize>,
    from: usize,
    to: usize,
)
    requires kept { Kept z out.old syn.old }
    requires from_le_to { from ≤ to }
    requires to_le_positions { to ≤ z.positions }
    ensures { Ahead z s track from to out.old out.new syn.new }
{
    let way = find_way(z, s, track, Rule::Vertical);
    for p in from..to {
        settle(out, syn, z, s, way, p);
    }
}

// Makes the cell of a track right by the vertical, at any position.
pub fn by_vertical(
    out: &mut [u8],
    syn: &mut [u8],
    z: Sizes,
    s: TrackSet,
    track: Option<usize>,
    p: usize,
)
    requires kept { Kept z out.old syn.old }
    requires p_bound { p < track_length (shape z) }
    ensures { By Rule.Vertical z s track p out.old out.new syn.new }
{
    if let Some(t) = track {
        if t < z.tracks(s) {
            let bit = syn[(2 + s.row()) * z.track_length() + p];
            syndrome::add_any(out, syn, z, s, t, p, bit);
        }
    }
}

// What is added to a cell of the tail: track 0 goes by its own diagonal, a data track becomes 0, the vertical track goes by the vertical.
fn tail_bit(out: &[u8], syn: &[u8], z: Sizes, s: TrackSet, t: usize, p: usize) -> u8
    requires kept { Kept z out.now syn.now }
    requires t_bound { t < tracks (shape z) s }
    requires p_bound { p < track_length (shape z) }
    ensures { TailBit z s t p out.now result }
{
    let l = z.track_length();
    if t == 0 {
        return syn[s.row() * l + p];
    }
    if t <= z.data_tracks(s) {
        return syndrome::cell_on_track(out, l, z.track_number(s, t) * l, p);
    }
    syn[(2 + s.row()) * l + p]
}

// Makes the cell of a track right in the tail.
fn by_tail(out: &mut [u8], syn: &mut [u8], z: Sizes, s: TrackSet, track: Option<usize>, p: usize)
    requires kept { Kept z out.old syn.old }
    requires p_bound { p < track_length (shape z) }
    ensures { ByTail z s track p out.old out.new syn.new }
{
    if let Some(t) = track {
        if t < z.tracks(s) {
            let bit = tail_bit(out, syn, z, s, t, p);
            syndrome::add_any(out, syn, z, s, t, p, bit);
        }
    }
}

// Solves a set at a position of the tail, which is closed.
pub fn tail_step(out: &mut [u8], syn: &mut [u8], z: Sizes, s: TrackSet, plan: Plan, m: usize)
    requires kept { Kept z out.old syn.old }
    requires closed_value { z.closed ≡ true }
    requires positions_le_m { z.positions ≤ m }
    requires m_bound { m < track_length (shape z) }
    ensures { Stepped z s plan m out.old out.new syn.new }
{
    by_tail(out, syn, z, s, plan.low, m);
    by_tail(out, syn, z, s, plan.high, m);
    by_tail(out, syn, z, s, plan.last, m);
}
