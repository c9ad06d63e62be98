// What the syndromes of an image are, and the functions that change a cell and keep them.
// `z`, `out` and `syn` stay three parameters with the one fact `Kept`: tried as a struct of the two loans with that fact as a ghost
// field, the borrow checker covers it behind a `&mut` alone, and callers lend `out` and `syn` apart too.
#![tactic(auto)]

ghost use Rattle.std.specs.Prelude.{◌≡◌, true, ◌+◌, ◌*◌, ◌<◌, ◌≤◌, length, get_or, IfSome, IsNone};
ghost use Rattle.code.specs.Record.{tracks, track_length};
ghost use Rattle.track.specs.Track.{Bits};
ghost use Rattle.code.specs.Image.{cells};
ghost use Rattle.code.specs.Sizes.{shape};
ghost use Rattle.syndrome.specs.Syndrome.{Image, Kept, IsCell, LineOf, CellAdded, Tested};
ghost use Rattle.syndrome.specs.Steps.{
  Rows,
  Ready,
  one_cell,
  RowAdded,
  BitAdded,
  TrackAdded,
  TrackTested,
  TailTested,
};

use code::{Sizes, TrackSet};

// `w < 2`, `p < l` and `t < tracks` stand where a function takes a bit, a position, a track: as types of their own they would be taken
// apart at each use as a number.

// Adds a bit to a cell of a list.
fn add_bit(xs: &mut [u8], i: usize, w: u8)
    requires bits { Bits xs.old }
    requires i_in_bounds { i < length xs.old }
    requires w_bound { w < 2 }
    ensures { BitAdded xs.old i w xs.new }
{
    xs[i] = xs[i] ^ w;
}

// Adds a bit to the sum `off` after p of a row of the syndromes, where the row has it.
fn add_sum(syn: &mut [u8], l: usize, row: usize, p: usize, off: usize, w: u8)
    requires ready { Ready l row off syn.old }
    requires p_lt_l { p < l }
    requires w_bound { w < 2 }
    ensures { RowAdded l row (one_cell w p) off syn.old syn.new }
{
    let m = p + off;
    if m < l {
        add_bit(syn, row * l + m, w);
    }
}

// Adds a bit to the sums that a cell stands in.
fn add_sums(syn: &mut [u8], z: Sizes, s: TrackSet, t: usize, p: usize, w: u8)
    requires track { t < tracks (shape z) s }
    requires p_bound { p < track_length (shape z) }
    requires rows { Rows (track_length (shape z)) syn.old }
    requires w_bound { w < 2 }
    ensures { TrackAdded (shape z) s t (one_cell w p) syn.old syn.new }
{
    let lag = z.lag();
    let l = z.track_length();
    add_sum(syn, l, 2 + s.row(), p, 0, w);
    if t <= z.data_tracks(s) {
        add_sum(syn, l, s.row(), p, t, w);
        add_sum(syn, l, s.other().row(), p, lag - t, w);
    }
}

// Adds a bit to the cell at p of the track whose stretch, of l cells, begins at `start`.
fn add_on_track(out: &mut [u8], l: usize, start: usize, p: usize, w: u8)
    requires bits { Bits out.old }
    requires l_in_bounds { start + l ≤ length out.old }
    requires p_lt_l { p < l }
    requires w_bound { w < 2 }
    ensures { BitAdded out.old (start + p) w out.new }
{
    let end = start + l;
    add_bit(&mut out[start..end], p, w);
}

// The cell at p of the track whose stretch, of l cells, begins at `start`.
pub fn cell_on_track(out: &[u8], l: usize, start: usize, p: usize) -> u8
    requires l_in_bounds { start + l ≤ length out.now }
    requires p_lt_l { p < l }
    ensures { result ≡ get_or out.now (start + p) 0 }
{
    let end = start + l;
    let track = &out[start..end];
    track[p]
}

// Adds a bit to a cell at any position, and to the syndromes that it stands in. Does the same whether the bit is 0 or 1.
pub fn add_any(out: &mut [u8], syn: &mut [u8], z: Sizes, s: TrackSet, t: usize, p: usize, w: u8)
    requires kept { Kept z out.old syn.old }
    requires cell { IsCell z s t p }
    requires w_bound { w < 2 }
    ensures { CellAdded z s t p w out.old out.new syn.new }
{
    let l = z.track_length();
    let start = z.track_number(s, t) * l;
    add_on_track(out, l, start, p, w);
    add_sums(syn, z, s, t, p, w);
}

// Where the cells of a track begin: in the image, and in the rows of its set's diagonal, of the other set's and of its vertical.
#[derive(Clone, Copy)]
pub struct Line {
    pub cell: usize,
    pub own: usize,
    pub other: usize,
    pub vertical: usize,
}

// The line of track t of a set, where it has that track.
pub fn find_line(z: Sizes, s: TrackSet, t: usize) -> Option<Line>
    ensures some { IfSome result (λ line. (t < tracks (shape z) s) × LineOf z s t line) }
    ensures none { IsNone result → tracks (shape z) s ≤ t }
{
    if z.tracks(s) <= t {
        return None;
    }
    let lag = z.lag();
    let l = z.track_length();
    Some(Line {
        cell: z.track_number(s, t) * l,
        own: s.row() * l + t,
        other: s.other().row() * l + (lag - t),
        vertical: (2 + s.row()) * l,
    })
}

// Adds a bit to a cell at a position of the data, by its track's line, and to the syndromes that it stands in. Does the same whether the bit is 0 or 1.
// (Beside `add_any`, since a line is found once for many cells, and at a position of the data no sum lies past its row's end.)
pub fn add_cell(
    out: &mut [u8],
    syn: &mut [u8],
    z: Sizes,
    s: TrackSet,
    t: usize,
    line: Line,
    p: usize,
    w: u8,
)
    requires kept { Kept z out.old syn.old }
    requires track { t < tracks (shape z) s }
    requires line_of { LineOf z s t line }
    requires p_lt_positions { p < z.positions }
    requires w_bound { w < 2 }
    ensures { CellAdded z s t p w out.old out.new syn.new }
{
    let l = z.track_length();
    add_on_track(out, l, line.cell, p, w);
    add_bit(syn, line.vertical + p, w);
    if t <= z.data_tracks(s) {
        add_bit(syn, line.own + p, w);
        add_bit(syn, line.other + p, w);
    }
}

// Is a track 0 in the tail?
fn track_zero(out: &[u8], z: Sizes, s: TrackSet, t: usize) -> bool
    requires image { Image (shape z) out.now }
    requires track { t < tracks (shape z) s }
    ensures { TrackTested (shape z) (cells (shape z) out.now) s t result }
{
    let start = z.track_number(s, t) * z.track_length();
    let end = start + z.track_length();
    track::all_zero(&out[start + z.positions..end])
}

// Are all data tracks of a set?
fn tail_zero(out: &[u8], z: Sizes, s: TrackSet) -> bool
    requires image { Image (shape z) out.now }
    ensures { TailTested (shape z) (cells (shape z) out.now) s result }
{
    (1..z.data_tracks(s) + 1).all(|t| track_zero(out, z, s, t))
}

// Is a record good, whose tail is closed and whose syndromes are at hand?
pub fn is_good(out: &[u8], syn: &[u8], z: Sizes) -> bool
    requires kept { Kept z out.now syn.now }
    requires closed_value { z.closed ≡ true }
    ensures { Tested (shape z) (cells (shape z) out.now) result }
{
    let l = z.track_length();
    track::all_zero(&syn[0..4 * l])
        && tail_zero(out, z, TrackSet::A)
        && tail_zero(out, z, TrackSet::B)
}
