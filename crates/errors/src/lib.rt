// The errors on flagged tracks by the closed forms, 64 cells at a time.
#![tactic(auto)]

ghost use Rattle.std.specs.Prelude.{◌≡◌, ℕ, ◌+◌, ◌*◌, ◌-◌, ◌%◌, ◌<◌, ◌≤◌, length, get_or};
ghost use Rattle.code.specs.Record.{data_tracks, lag, track_length};
ghost use Rattle.code.specs.Sizes.{shape};
ghost use Rattle.plans.specs.Plans.{pivot, count, v_of, u_of};
ghost use Rattle.words.specs.Words.{bit};
ghost use Rattle.forms.specs.Forms.{left, met, gap, point};
ghost use Rattle.forms.specs.Found.{extent, only_in, residue};
ghost use Rattle.errors.specs.Rows.{
  cell,
  Rows,
  diagonals,
  verticals,
  Shown,
  Late,
  Charged,
  Delay,
  GapOf,
  Put,
};
ghost use Rattle.errors.specs.Steps.{
  ComputedIn,
  TestedIn,
  PivotsIn,
  Given,
  PairWord,
  UpperWord,
  LowerWord,
  UpperPut,
  LowerPut,
  TailPut,
  Extended,
  PivotWord,
  PivotPut,
  ImpliedTold,
  DiagonalTold,
  LeftTold,
  Stepped,
  Quiet,
  Fresh,
  Begun,
  Found,
};

use code::{Sizes, TrackSet};
use plans::{Below, Form, Track};

mod work;

use work::Work;

// The cells of a word.
const WORD: usize = 64;

// The words of a row: a first one that is 0, and those of the cells.
const ROW: usize = 34;

// The rows of sums: the diagonals of A and of B, and then their verticals.
const VERTICALS: usize = 2;

// The rows of errors: u's, v's, those of the pivots of A and of B, and that of u's pair.
const U: usize = 0;

const V: usize = 1;

const PIVOTS: usize = 2;

const PAIR: usize = 4;

// ---- Rows

// What several contracts say here: `found` is lent and written word by word, so its five rows (`Rows 5`) are no fact of `Work`, which holds
// what is read alone; a row, a word i and a position `at` are numbers that go into an index, with their bounds where they do.

// The cells of a row from position `at` - 64 on.
fn row_at(ws: &[u64], row: usize, at: usize) -> u64
    requires row_in_bounds { 34 * row + 34 < length ws.now }
    requires row_value { get_or ws.now (34 * row) 0 ≡ 0 }
    requires row_bound { row < 5 }
    requires at_bound { at < 2176 }
    ensures { (n : ℕ) → n ≤ 2112 → Shown n (cell ws.now row) at result }
{
    words::window(ws, WORD * ROW * row + at)
}

// The same k positions later, of the cells before `end`; nothing, where k is a word or more.
fn late(ws: &[u64], row: usize, at: usize, k: usize, end: usize) -> u64
    requires row_in_bounds { 34 * row + 34 < length ws.now }
    requires row_value { get_or ws.now (34 * row) 0 ≡ 0 }
    requires row_bound { row < 5 }
    requires at_bound { at < 2176 }
    requires end_bound { end ≤ 2112 }
    requires k_le_at { k < 64 → k ≤ at }
    ensures { Late ws.now row at k end result }
{
    if WORD <= k {
        return 0;
    }
    let from = at - k;
    if end + WORD <= from {
        return 0;
    }
    words::first_cells(row_at(ws, row, from), end + WORD - from)
}

// Word i of a row, and the word before it.
fn word(ws: &[u64], row: usize, i: usize) -> u64
    requires { 34 * row + 1 + i < length ws.now }
    ensures { result ≡ get_or ws.now (34 * row + 1 + i) 0 }
{
    ws[ROW * row + 1 + i]
}

fn word_before(ws: &[u64], row: usize, i: usize) -> u64
    requires { 34 * row + i < length ws.now }
    ensures { result ≡ get_or ws.now (34 * row + i) 0 }
{
    ws[ROW * row + i]
}

// Puts word i of a row.
fn put_word(found: &mut [u64], row: usize, i: usize, w: u64)
    requires rows { Rows 5 found.old }
    requires row_bound { row < 5 }
    requires i_bound { i < 33 }
    ensures { Put 5 found.old row i w found.new }
{
    found[ROW * row + 1 + i] = w;
}

// How many of the first n cells word i and later ones have.
fn rest(n: usize, i: usize) -> usize
    requires { i ≤ 34 }
    ensures { result ≡ n - 64 * i }
{
    n.saturating_sub(WORD * i)
}

// How many positions back the diagonal of set d has a track, and a word where it has it nowhere.
fn delay(z: Sizes, d: TrackSet, x: Track) -> usize
    ensures { Delay (shape z) d x.s x.t result }
{
    if z.data_tracks(x.s) < x.t {
        return WORD;
    }
    z.slope(d, x.s, x.t)
}

// The cells up to which track t may be wrong, where w is that of track 0.
fn extent_of(z: Sizes, w: usize, t: usize) -> usize
    ensures { result ≡ extent (shape z) w t }
{
    if t == 0 { w } else { z.positions }
}

impl Work<'_> {
    // What the diagonal of set d has of the cells of a row before `end`, where they are those of a track.
    fn charged(&self, ws: &[u64], row: usize, d: TrackSet, x: Track, at: usize) -> u64
        requires row_in_bounds { 34 * row + 34 < length ws.now }
        requires row_value { get_or ws.now (34 * row) 0 ≡ 0 }
        requires row_bound { row < 5 }
        requires lag_le_at { lag (shape self.now.z) ≤ at }
        requires at_bound { at < 2176 }
        ensures { Charged (shape self.now.z) self.now.end d x.s x.t (cell ws.now row) at result }
    {
        late(ws, row, at, delay(self.z, d, x), self.end)
    }

    // The pivot of a set, as a track.
    fn pivot(&self, s: TrackSet) -> Track
        ensures set { result.s ≡ s }
        ensures track { result.t ≡ pivot self.now.form s }
    {
        Track {
            s,
            t: self.form.pivot(s).track,
        }
    }

    // What is left of the diagonal of set d when the verticals are charged to the pivots.
    fn left_at(&self, d: TrackSet, at: usize) -> u64
        requires lag_le_at { lag (shape self.now.z) ≤ at }
        requires at_bound { at < 2176 }
        ensures { let w = self.now in Shown (track_length (shape w.z)) (left (shape w.z) w.end (diagonals w.rows.now) (verticals w.rows.now) w.form d) at result }
    {
        let a = self.pivot(TrackSet::A);
        let b = self.pivot(TrackSet::B);
        row_at(self.rows, d.row(), at)
            ^ self.charged(self.rows, VERTICALS, d, a, at)
            ^ self.charged(self.rows, VERTICALS + 1, d, b, at)
    }

    // What the diagonal of set d meets of the pair of a track and its pivot, where a row has the error of the track.
    fn met_at(&self, found: &[u64], row: usize, d: TrackSet, x: Track, at: usize) -> u64
        requires rows { Rows 5 found.now }
        requires row_bound { row < 5 }
        requires on_diagonals { x.t ≤ data_tracks (shape self.now.z) x.s }
        requires lag_le_at { lag (shape self.now.z) ≤ at }
        requires at_bound { at < 2176 }
        ensures { let w = self.now in Shown (track_length (shape w.z)) (met (shape w.z) w.end (cell found.now row) d x.s x.t (pivot w.form x.s)) at result }
    {
        let own = row_at(found, row, at - delay(self.z, d, x));
        own ^ self.charged(found, row, d, self.pivot(x.s), at)
    }

    // Where the diagonal of set d meets the pair of a track and its pivot.
    fn point_of(&self, d: TrackSet, x: Track) -> usize
        requires { x.t ≤ data_tracks (shape self.now.z) x.s }
        ensures value { result ≡ point (shape self.now.z) d x.s x.t (pivot self.now.form x.s) }
        ensures upper_bound { result ≤ lag (shape self.now.z) }
    {
        if x.s == d {
            return x.t;
        }
        let j = self.pivot(x.s).t;
        if self.z.data_tracks(x.s) < j {
            self.z.lag() - x.t
        } else {
            self.z.lag() - j
        }
    }

    // How much later it meets the other one of the two; a word, where it does not meet the pivot.
    fn gap_of(&self, x: Track) -> usize
        requires { x.t < pivot self.now.form x.s }
        ensures { GapOf (shape self.now.z) (gap (shape self.now.z) x.s x.t (pivot self.now.form x.s)) result }
    {
        let j = self.pivot(x.s).t;
        if self.z.data_tracks(x.s) < j {
            WORD
        } else {
            j - x.t
        }
    }

    // ---- The tracks below the pivots

    // The next three divide by `words::quotient_word`, which is what they share: each divides another row, by another gap, and carries over
    // another part of the word before.

    // Word i of the pair of u: v's pair is eliminated from what is left of both diagonals.
    fn pair_word(&self, found: &[u64], v: Track, u: Track, i: usize) -> u64
        requires errors { Rows 5 found.now }
        requires two { self.now.form.below ≡ Below.Two v u }
        requires i_bound { 64 * i < track_length (shape self.now.z) }
        ensures { let w = self.now in PairWord w.z w.end w.form w.rows.now found.now i result }
    {
        let o = v.s.other();
        let ahead = self.point_of(o, u);
        let across = self.point_of(o, v);
        let along = self.point_of(v.s, u);
        let at = WORD * i + WORD + ahead;
        let r = self.left_at(o, at) ^ self.left_at(v.s, at + v.t - across);
        let prior = word_before(found, PAIR, i);
        words::quotient_word(r, prior, across + along - (ahead + v.t), WORD)
    }

    // Word i of u's error, from that of its pair.
    fn upper_word(&self, found: &[u64], u: Track, pair: u64, i: usize) -> u64
        requires errors { Rows 5 found.now }
        requires le_below { 2 ≤ count self.now.form }
        requires u_is { u ≡ u_of self.now.form }
        requires i_bound { i < 33 }
        ensures { UpperWord self.now.z self.now.form found.now i pair result }
    {
        let prior = word_before(found, U, i);
        words::quotient_word(pair, prior, self.gap_of(u), WORD)
    }

    // Word i of v's error.
    fn lower_word(&self, found: &[u64], v: Track, i: usize) -> u64
        requires errors { Rows 5 found.now }
        requires le_below { 1 ≤ count self.now.form }
        requires v_is { v ≡ v_of self.now.form }
        requires i_bound { 64 * i < track_length (shape self.now.z) }
        ensures { let w = self.now in LowerWord w.z w.end w.form w.rows.now found.now i result }
    {
        let at = WORD * i + WORD + v.t;
        let whole = self.left_at(v.s, at);
        let r = match self.form.below {
            Below::Two { v: _, u } => whole ^ self.met_at(found, U, v.s, u, at),
            _ => whole,
        };
        let prior = words::first_cells(word_before(found, V, i), rest(self.end + WORD, i));
        words::quotient_word(r, prior, self.gap_of(v), rest(self.end, i))
    }

    // The next two, and `put_tail`, put what they compute by `put_word`, each cut at an end of its own.

    // Puts word i of u's pair and of its error, which ends where u can be wrong.
    fn put_upper(&self, found: &mut [u64], v: Track, u: Track, i: usize)
        requires errors { Rows 5 found.old }
        requires two { self.now.form.below ≡ Below.Two v u }
        requires i_bound { 64 * i < track_length (shape self.now.z) }
        requires computed_in { let w = self.now in ComputedIn w.z w.end w.form w.rows.now found.old (64 * i) }
        ensures { let w = self.now in UpperPut w.z w.end w.form w.rows.now found.old i found.new }
    {
        let pair = self.pair_word(found, v, u, i);
        put_word(found, PAIR, i, pair);
        let w = self.upper_word(found, u, pair, i);
        let most = extent_of(self.z, self.end, u.t);
        put_word(found, U, i, words::first_cells(w, rest(most, i)));
    }

    // Puts word i of v's error, which ends where v can be wrong.
    fn put_lower(&self, found: &mut [u64], v: Track, i: usize)
        requires errors { Rows 5 found.old }
        requires le_below { 1 ≤ count self.now.form }
        requires v_is { v ≡ v_of self.now.form }
        requires i_bound { 64 * i < track_length (shape self.now.z) }
        ensures { let w = self.now in LowerPut w.z w.end w.form w.rows.now found.old i found.new }
    {
        let w = self.lower_word(found, v, i);
        let most = extent_of(self.z, self.z.track_length(), v.t);
        put_word(found, V, i, words::first_cells(w, rest(most, i)));
    }

    // What is left of the diagonal of set d when the errors below the pivots are taken off.
    fn residue_at(&self, found: &[u64], d: TrackSet, at: usize) -> u64
        requires errors { Rows 5 found.now }
        requires le_at { 64 ≤ at }
        requires at_bound { at < 2176 }
        ensures { let w = self.now in Shown (track_length (shape w.z)) (residue (shape w.z) w.end w.form (diagonals w.rows.now) (verticals w.rows.now) (cell found.now 0) (cell found.now 1) d) at result }
    {
        let whole = self.left_at(d, at);
        match self.form.below {
            Below::None => whole,
            Below::One(v) => whole ^ self.met_at(found, V, d, v, at),
            Below::Two { v, u } => {
                whole ^ self.met_at(found, V, d, v, at) ^ self.met_at(found, U, d, u, at)
            }
        }
    }

    // Puts word i of u's tail, where u is track 0 and rule 3 ends before it: what is left of its own diagonal.
    fn put_tail(&self, found: &mut [u64], u: Track, i: usize)
        requires errors { Rows 5 found.old }
        requires le_below { 2 ≤ count self.now.form }
        requires u_is { u ≡ u_of self.now.form }
        requires i_bound { 64 * i < track_length (shape self.now.z) }
        requires none { (m : ℕ) → 64 * i ≤ m → m < 64 * (i + 1) → extent (shape self.now.z) self.now.end u.t ≤ m → cell found.old 0 m ≡ 0 }
        ensures { let w = self.now in TailPut w.z w.end w.form w.rows.now found.old i found.new }
    {
        if u.t != 0 || WORD * i + WORD <= self.end {
            return;
        }
        let r = self.residue_at(found, u.s, WORD * i + WORD);
        let tail = r ^ words::first_cells(r, rest(self.end, i));
        let w = word(found, U, i) ^ tail;
        put_word(found, U, i, w);
    }

    // Puts word i of the errors below the pivots.
    fn extend(&self, found: &mut [u64], i: usize)
        requires errors { Rows 5 found.old }
        requires i_bound { 64 * i < track_length (shape self.now.z) }
        requires computed_in { let w = self.now in ComputedIn w.z w.end w.form w.rows.now found.old (64 * i) }
        ensures { let w = self.now in Extended w.z w.end w.form w.rows.now found.old i found.new }
    {
        match self.form.below {
            Below::None => {}
            Below::One(v) => self.put_lower(found, v, i),
            Below::Two { v, u } => {
                self.put_upper(found, v, u, i);
                self.put_lower(found, v, i);
                self.put_tail(found, u, i);
            }
        }
    }

    // ---- The test

    // Can no sum of the diagonal of set d be wrong in word i? Below the pivots an error is what its own diagonal leaves for it, and two of
    // them take both diagonals: in words of the data past the first they are 0 then.
    fn is_implied(&self, d: TrackSet, i: usize) -> bool
        requires { i ≤ 34 }
        ensures { ImpliedTold self.now.z self.now.form d i result }
    {
        if i == 0 {
            return false;
        }
        if self.z.positions < WORD * i + WORD {
            return false;
        }
        match self.form.below {
            Below::None => false,
            Below::One(v) => v.s == d,
            Below::Two { .. } => true,
        }
    }

    // Is the diagonal of set d 0 in word i?
    fn diagonal_zero(&self, found: &[u64], d: TrackSet, i: usize) -> bool
        requires errors { Rows 5 found.now }
        requires i_bound { 64 * i < track_length (shape self.now.z) }
        requires computed_in { let w = self.now in ComputedIn w.z w.end w.form w.rows.now found.now (64 * (i + 1)) }
        ensures { let w = self.now in DiagonalTold w.z w.end w.form w.rows.now found.now d i result }
    {
        if self.is_implied(d, i) {
            return true;
        }
        let l = self.z.track_length();
        words::first_cells(self.residue_at(found, d, WORD * i + WORD), rest(l, i)) == 0
    }

    // Is what is left of the diagonal of set d 0 in word i? The test of the pivots alone, whose steps and loop stand beside those of all
    // errors: as branches of the one loop they took 3.6 µs for a hundred choices in one block, and 1.9 so.
    fn left_zero(&self, d: TrackSet, i: usize) -> bool
        requires i_bound { 64 * i < track_length (shape self.now.z) }
        ensures { let w = self.now in LeftTold w.z w.end w.form w.rows.now d i result }
    {
        let l = self.z.track_length();
        words::first_cells(self.left_at(d, WORD * i + WORD), rest(l, i)) == 0
    }

    // Word i of the vertical of set c with the errors below its pivot taken off.
    fn pivot_word(&self, found: &[u64], c: TrackSet, i: usize) -> u64
        requires errors { Rows 5 found.now }
        requires i_bound { i < 33 }
        ensures { let w = self.now in PivotWord w.z w.end w.form w.rows.now found.now c i result }
    {
        let w = word(self.rows, VERTICALS + c.row(), i);
        match self.form.below {
            Below::None => w,
            Below::One(v) => taken(w, v.s, c, word(found, V, i)),
            Below::Two { v, u } => {
                let w = taken(w, v.s, c, word(found, V, i));
                taken(w, u.s, c, word(found, U, i))
            }
        }
    }

    // Puts word i of the pivot's error. Is it 0 where the pivot cannot be wrong?
    fn put_pivot(&self, found: &mut [u64], c: TrackSet, i: usize) -> bool
        requires errors { Rows 5 found.old }
        requires i_bound { 64 * i < track_length (shape self.now.z) }
        ensures { let w = self.now in PivotPut w.z w.end w.form w.rows.now found.old c i found.new result }
    {
        let w = words::first_cells(self.pivot_word(found, c, i), rest(self.end, i));
        put_word(found, PIVOTS + c.row(), i, w);
        let most = self.form.pivot(c).room;
        words::first_cells(w, rest(most, i)) == w
    }

    // Puts word i of all errors. Are its tests passed?
    fn step(&self, found: &mut [u64], i: usize) -> bool
        requires errors { Rows 5 found.old }
        requires i_bound { 64 * i < track_length (shape self.now.z) }
        requires computed_in { let w = self.now in ComputedIn w.z w.end w.form w.rows.now found.old (64 * i) }
        requires tested_in { let w = self.now in TestedIn w.z w.end w.form w.rows.now found.old (64 * i) }
        requires pivots_in { let w = self.now in PivotsIn w.z w.end w.form w.rows.now found.old (64 * i) }
        ensures { let w = self.now in Stepped w.z w.end w.form w.rows.now found.old i found.new result }
    {
        self.extend(found, i);
        self.diagonal_zero(found, TrackSet::A, i)
            && self.diagonal_zero(found, TrackSet::B, i)
            && self.put_pivot(found, TrackSet::A, i)
            && self.put_pivot(found, TrackSet::B, i)
    }

    // Puts word i of the pivots' errors, where no track is below them. Are its tests passed?
    fn step_pivots(&self, found: &mut [u64], i: usize) -> bool
        requires errors { Rows 5 found.old }
        requires below_value { count self.now.form ≡ 0 }
        requires i_bound { 64 * i < track_length (shape self.now.z) }
        requires computed_in { let w = self.now in ComputedIn w.z w.end w.form w.rows.now found.old (64 * i) }
        requires tested_in { let w = self.now in TestedIn w.z w.end w.form w.rows.now found.old (64 * i) }
        requires pivots_in { let w = self.now in PivotsIn w.z w.end w.form w.rows.now found.old (64 * i) }
        ensures { let w = self.now in Stepped w.z w.end w.form w.rows.now found.old i found.new result }
    {
        self.left_zero(TrackSet::A, i)
            && self.left_zero(TrackSet::B, i)
            && self.put_pivot(found, TrackSet::A, i)
            && self.put_pivot(found, TrackSet::B, i)
    }

    // ---- All words

    // Finds the errors of the pivots alone: `find`, where no track is below them. One loop over a closure for the step would be no plainer
    // than this one and that of `find_all`: the contract of the step would stand at the closure once more.
    fn find_pivots(&self, found: &mut [u64], start: usize) -> bool
        requires errors { Rows 5 found.old }
        requires below_value { count self.now.form ≡ 0 }
        requires start_bound { start ≤ 33 }
        requires quiet { Quiet self.now.z self.now.rows.now start }
        requires fresh_2 { Fresh found.old start }
        ensures fresh { Fresh found.new start }
        ensures found { let w = self.now in Found w.z w.end w.form w.rows.now found.new result }
    {
        for i in begin(found, start)..self.z.track_length().div_ceil(WORD) {
            if !self.step_pivots(found, i) {
                return false;
            }
        }
        true
    }

    // Finds the errors where tracks are below the pivots: `find`, by words of all errors.
    fn find_all(&self, found: &mut [u64], start: usize) -> bool
        requires errors { Rows 5 found.old }
        requires start_bound { start ≤ 33 }
        requires quiet { Quiet self.now.z self.now.rows.now start }
        requires fresh_2 { Fresh found.old start }
        ensures fresh { Fresh found.new start }
        ensures found { let w = self.now in Found w.z w.end w.form w.rows.now found.new result }
    {
        for i in start..self.z.track_length().div_ceil(WORD) {
            if !self.step(found, i) {
                return false;
            }
        }
        true
    }
}

// w with the word x of an error of set s taken off, as set c sees it.
fn taken(w: u64, s: TrackSet, c: TrackSet, x: u64) -> u64
    ensures { (k : ℕ) → k < 64 → bit result k ≡ (bit w k + only_in s c (bit x k)) % 2 }
{
    if s == c { w ^ x } else { w }
}

// The word to begin with, where no track is below the pivots. Tracks below them may be wrong from the start on; the pivots alone are not
// before the first sum that is not 0, a word later.
fn begin(found: &mut [u64], start: usize) -> usize
    requires start_bound { start ≤ 33 }
    requires fresh { Fresh found.old start }
    ensures { Begun start found.old found.new result }
{
    if start == 0 || ROW - 1 <= start {
        return start;
    }
    put_word(found, PIVOTS, start, 0);
    put_word(found, PIVOTS + 1, start, 0);
    start + 1
}

// Finds the errors of a form's tracks from word `start` on, before which there are none. True: they make a good record. False: no
// good record differs from this one on the form's tracks alone.
pub fn find(rows: &[u64], found: &mut [u64], z: Sizes, end: usize, p: Form, start: usize) -> bool
    requires given { Given z end p rows.now found.old }
    requires start_bound { start ≤ 33 }
    requires quiet { Quiet z rows.now start }
    requires fresh_2 { Fresh found.old start }
    ensures fresh { Fresh found.new start }
    ensures found { Found z end p rows.now found.new result }
{
    let work = Work {
        rows,
        z,
        end,
        form: p,
    };
    match p.below {
        Below::None => work.find_pivots(found, start),
        _ => work.find_all(found, start),
    }
}
