// Between bytes and words: the rows of sums are loaded, the errors are added to their tracks, the tails are cleared.
#![tactic(auto)]

ghost use Rattle.std.specs.Prelude.{◌≡◌, ◌↔◌, IsTrue, ℕ, ◌+◌, ◌*◌, ◌/◌, ◌<◌, ◌≤◌, length};
ghost use Rattle.code.specs.declared.sizes.TrackSet.{TrackSet};
ghost use Rattle.code.specs.Record.{row_of, tracks, track_length, tail_tracks};
ghost use Rattle.code.specs.Image.{all_tracks};
ghost use Rattle.code.specs.Sizes.{shape};
ghost use Rattle.code.proofs.OneTrack.{put};
ghost use Rattle.track.specs.Track.{Bits};
ghost use Rattle.syndrome.specs.Syndrome.{Image};
ghost use Rattle.solver.specs.Solver.{marked_by};
ghost use Rattle.plans.specs.Plans.{room, Sized};
ghost use Rattle.forms.specs.Found.{errors};
ghost use Rattle.errors.specs.Rows.{cell, Rows};
ghost use Rattle.mend.specs.Mend.{
  RunLoaded,
  SumsIn,
  StartOf,
  RowAdded,
  Added,
  lower_errors,
  TailCleared,
  Explained,
  with_track,
  TailsCleared,
};

use code::{Sizes, TrackSet};
use plans::{Below, Form, Pivot, Track};
use solver::Mark;

// ---- Sums

// The rows and the image are lent for writing, and their facts stand with them: a struct that holds such a loan with a
// fact is covered by the checker behind a `&mut` alone, and each call lends other parts.

// Loads word i of four rows from four rows of 64 cells: those from k on, as far as they are before n.
fn load_run(run: &[u8], rows: &mut [u64], i: usize, n: usize, k: usize)
    requires run_len { length run.now ≡ 256 }
    requires bits { Bits run.now }
    requires rows { Rows 4 rows.old }
    requires i_bound { i < 33 }
    requires k_bound { k < 64 }
    ensures { RunLoaded run.now i n k 4 rows.old rows.new }
{
    for r in 0..4 {
        let from = r * 64;
        let to = from + 64;
        let w = words::first_cells(words::word_of(&run[from..to], 0), n);
        rows[34 * r + 1 + i] = w >> k;
    }
}

// Loads the sums of an image, 64 positions at a time.
pub fn load_sums(image: &[u8], z: Sizes, rows: &mut [u64])
    requires image { Image (shape z) image.now }
    requires rows { Rows 4 rows.old }
    ensures { SumsIn z image.now rows.new }
{
    let lag = z.lag();
    let l = z.track_length();
    // Fixed memory, as `run` and all rooms here.
    let mut room = [0; 1710];
    let source = sums::pad(&mut room[..(lag + 3) * (80 + lag)], image, z);
    let mut run = [0; 256];
    for i in 0..l.div_ceil(64) {
        let p = sums::run_start(l, 64 * i);
        sums::sum_rows(&mut run, source, p);
        load_run(&run, rows, i, l - p, 64 * i - p);
    }
}

// The word before the first one with a sum that is not 0, of l, and the first where that is the first. Past all, where there is none: the
// loops of `errors` begin there, and an `Option` would be made that number by each caller.
pub fn find_start(rows: &[u64], l: usize) -> usize
    requires rows { Rows 4 rows.now }
    requires l_bound { l ≤ 2112 }
    ensures { StartOf l rows.now result }
{
    let count = l.div_ceil(64);
    for i in 0..count {
        if rows[1 + i] | rows[35 + i] | rows[69 + i] | rows[103 + i] != 0 {
            return i.saturating_sub(1);
        }
    }
    count
}

// ---- Errors

// Adds the cells of a row to the stretch of track number g, of l cells, by way of bytes.
fn add_row(out: &mut [u8], l: usize, g: usize, found: &[u64], row: usize, cells: &mut [u8])
    requires cells_len { length cells.old ≡ 64 * ((l + 63) / 64) }
    requires bits { Bits out.old }
    requires l_in_bounds { g * l + l ≤ length out.old }
    requires l_bound { l ≤ 2112 }
    requires rows { Rows 5 found.now }
    requires row_bound { row < 5 }
    ensures { RowAdded l g (cell found.now row) out.old out.new }
{
    let count = (l + 63) / 64;
    let first = 34 * row + 1;
    let last = first + count;
    words::unload(&found[first..last], cells);
    let from = g * l;
    let to = from + l;
    track::add_track(&mut out[from..to], &cells[..l], 0);
}

// Rows of errors of a record: two below the pivots, the pivots' of A and of B, and one more.
#[derive(Clone, Copy)]
struct Errors<'a> {
    z: Sizes,
    found: &'a [u64],
    ghost rows: { Rows 5 found.now },
}

impl Errors<'_> {
    // Adds the error of a row to a track.
    fn add_error(self, out: &mut [u8], cells: &mut [u8], at: Track, row: usize)
        requires cells_len { length cells.old ≡ 64 * ((track_length (shape self.z) + 63) / 64) }
        requires image { Image (shape self.z) out.old }
        requires track { at.t < tracks (shape self.z) at.s }
        requires row_bound { row < 5 }
        ensures { Added self.entry.z (put at.s at.t (cell self.entry.found.now row)) out.old out.new }
    {
        let l = self.z.track_length();
        let g = self.z.track_number(at.s, at.t);
        add_row(out, l, g, self.found, row, cells);
    }

    // Adds the error of a set's pivot, where it may be wrong.
    fn add_pivot(self, out: &mut [u8], cells: &mut [u8], s: TrackSet, pivot: Pivot)
        requires cells_len { length cells.old ≡ 64 * ((track_length (shape self.z) + 63) / 64) }
        requires image { Image (shape self.z) out.old }
        requires track { pivot.track < tracks (shape self.z) s }
        requires no_room { pivot.room ≡ 0 → (m : ℕ) → m < track_length (shape self.z) → cell self.found.now (2 + row_of s) m ≡ 0 }
        ensures { Added self.entry.z (put s pivot.track (cell self.entry.found.now (2 + row_of s))) out.old out.new }
    {
        if pivot.room != 0 {
            let at = Track { s, t: pivot.track };
            self.add_error(out, cells, at, 2 + s.row());
        }
    }

    // Adds the errors of the tracks below the pivots.
    fn add_lower(self, out: &mut [u8], cells: &mut [u8], p: Form)
        requires cells_len { length cells.old ≡ 64 * ((track_length (shape self.z) + 63) / 64) }
        requires image { Image (shape self.z) out.old }
        requires sized { Sized (shape self.z) p }
        ensures { Added self.entry.z (lower_errors p self.entry.found.now) out.old out.new }
    {
        match p.below {
            Below::None => {}
            Below::One(v) => self.add_error(out, cells, v, 1),
            Below::Two { v, u } => {
                self.add_error(out, cells, v, 1);
                self.add_error(out, cells, u, 0);
            }
        }
    }
}

// Adds the errors of a form's tracks, by way of N bytes: fixed memory.
fn add_by<const N: usize>(out: &mut [u8], z: Sizes, p: Form, found: &[u64])
    requires n_bound { 64 * ((track_length (shape z) + 63) / 64) ≤ N }
    requires n_small { N ≤ 2112 }
    requires sized { Sized (shape z) p }
    requires image { Image (shape z) out.old }
    requires rows { Rows 5 found.now }
    requires m_value { (c : TrackSet) → room p c ≡ 0 → (m : ℕ) → m < track_length (shape z) → cell found.now (2 + row_of c) m ≡ 0 }
    ensures { Added z (errors p (λ (c : TrackSet). cell found.now (2 + row_of c)) (cell found.now 0) (cell found.now 1)) out.old out.new }
{
    let mut space = [0u8; N];
    let cells = &mut space[..64 * ((z.track_length() + 63) / 64)];
    let errors = Errors { z, found };
    errors.add_pivot(out, cells, TrackSet::A, p.a);
    errors.add_pivot(out, cells, TrackSet::B, p.b);
    errors.add_lower(out, cells, p);
}

// The same, with room made for the bytes. A short record takes less.
pub fn add_errors(out: &mut [u8], z: Sizes, p: Form, found: &[u64])
    requires sized { Sized (shape z) p }
    requires image { Image (shape z) out.old }
    requires rows { Rows 5 found.now }
    requires m_value { (c : TrackSet) → room p c ≡ 0 → (m : ℕ) → m < track_length (shape z) → cell found.now (2 + row_of c) m ≡ 0 }
    ensures { Added z (errors p (λ (c : TrackSet). cell found.now (2 + row_of c)) (cell found.now 0) (cell found.now 1)) out.old out.new }
{
    if z.track_length() <= 192 {
        add_by::<192>(out, z, p, found);
    } else {
        add_by::<2112>(out, z, p, found);
    }
}

// ---- Tails

// Clears the tail of track t of set s. Was a cell of it 1?
fn clear_tail(out: &mut [u8], z: Sizes, s: TrackSet, t: usize) -> bool
    requires track { t < tracks (shape z) s }
    requires image { Image (shape z) out.old }
    ensures { TailCleared z s t out.old out.new result }
{
    let l = z.track_length();
    let first = z.track_number(s, t) * l;
    let start = first + z.positions;
    let end = first + l;
    if track::all_zero(&out[start..end]) {
        return false;
    }
    track::clear(&mut out[start..end]);
    true
}

// What the tails of a set need, where those of tracks without a mark were not 0: the one track that explains them as an extra, or more
// than one.
#[derive(Clone, Copy)]
pub enum Need {
    Nothing,
    Track(usize),
    More,
}

impl Need {
    // Track t besides.
    fn and(self, t: usize) -> Need
        ensures { result ≡ with_track self t }
    {
        match self {
            Need::Nothing => Need::Track(t),
            Need::Track(_) => Need::More,
            Need::More => Need::More,
        }
    }

    // Does an extra explain it, none or a track?
    pub fn explained_by(self, e: Option<usize>) -> bool
        ensures { IsTrue result ↔ Explained self e }
    {
        match self {
            Need::Nothing => true,
            Need::Track(t) => e == Some(t),
            Need::More => false,
        }
    }
}

// Clears the tails of set s that rule 4 makes 0. Tells what those without a mark need.
pub fn clear_tails<M: Mark>(z: Sizes, marks: &[M], out: &mut [u8], s: TrackSet) -> Need
    requires z_in_bounds { all_tracks (shape z) ≤ length marks.now }
    requires image { Image (shape z) out.old }
    ensures { TailsCleared z s (marked_by M.counts M.none (shape z) marks.now) (tail_tracks (shape z) s) out.old out.new result }
{
    let mut need = Need::Nothing;
    for t in 1..z.tail_tracks(s) {
        let marked = marks[z.track_number(s, t)].is_set();
        if clear_tail(out, z, s, t) && !marked {
            need = need.and(t);
        }
    }
    need
}
