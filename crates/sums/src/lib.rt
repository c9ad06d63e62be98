// The syndromes of an image. Diagonals are summed in the order in which the cells arrive, A0, B0, A1, B1 and so on. A run of 64
// positions is summed over all tracks before its sums are stored, once.
#![tactic(auto)]

ghost use Rattle.std.specs.Prelude.{◌≡◌, ◌+◌, ◌*◌, ◌<◌, ◌≤◌, suc, length};
ghost use Rattle.code.specs.Record.{tracks, lag, track_length, diagonal, vertical};
ghost use Rattle.code.specs.Heads.{before, after, running};
ghost use Rattle.code.specs.Image.{all_tracks, cells};
ghost use Rattle.code.specs.Sizes.{shape};
ghost use Rattle.track.specs.Track.{Copied};
ghost use Rattle.syndrome.specs.Syndrome.{Holds, Image};
ghost use Rattle.sums.specs.Run.{SumsOf, TrackRun, Within, rule, RunPut, SetPut, RowsPut, SumsPut, RunStart, Done};
ghost use Rattle.sums.specs.Edge.{FirstCopied, Padded, RunSums};

mod source;

use code::{Sizes, TrackSet};
pub use source::Source;

// ---- A run of 64 positions

// Sums at 64 positions that follow one another.
#[derive(Clone, Copy)]
struct Run {
    sums: [u8; 64],
}

// An image of bits and the place of a run in it (`Within`) are facts of the six functions that read it: a struct that holds them would be
// made anew for the padded tracks and for each place.

// Adds the 64 cells of a track from `from` on. Compiled, the sums stay in four vector registers.
fn add_run(run: Run, image: &[u8], z: Sizes, s: TrackSet, t: usize, from: usize) -> Run
    requires sums_len { length run.sums ≡ 64 }
    requires image { Image (shape z) image.now }
    requires track { t < tracks (shape z) s }
    requires from_in_bounds { from + 64 ≤ track_length (shape z) }
    ensures { TrackRun (cells (shape z) image.now s t) from run.sums result.sums }
{
    let start = z.track_number(s, t) * z.track_length() + from;
    let end = start + 64;
    let stretch = &image[start..end];
    let mut sums = run.sums;
    for (k, sum) in sums.iter_mut().enumerate() {
        *sum ^= stretch[k];
    }
    Run { sums }
}

// Adds the track that arrives next, track t of set s, to the running sums of the diagonal of set d. A track past the last data track
// lies on no diagonal.
fn add_head(run: Run, image: &[u8], z: Sizes, d: TrackSet, s: TrackSet, t: usize, m: usize) -> Run
    requires within { Within z m image.now }
    requires sums_of { SumsOf (before (shape z) (cells (shape z) image.now) d s t) m run.sums }
    ensures { SumsOf (after (shape z) (cells (shape z) image.now) d s t) m result.sums }
{
    if z.data_tracks(s) < t {
        return run;
    }
    add_run(run, image, z, s, t, m - z.slope(d, s, t))
}

// Adds track t of A and then track t of B: the running sums become those of tracks 0 to t of both sets.
fn add_heads(run: Run, image: &[u8], z: Sizes, d: TrackSet, t: usize, m: usize) -> Run
    requires within { Within z m image.now }
    requires sums_of { SumsOf (running (shape z) (cells (shape z) image.now) d t) m run.sums }
    ensures { SumsOf (running (shape z) (cells (shape z) image.now) d (suc t)) m result.sums }
{
    let after_a = add_head(run, image, z, d, TrackSet::A, t, m);
    add_head(after_a, image, z, d, TrackSet::B, t, m)
}

// The diagonals of set d at the 64 positions from m on, in head order. (No common loop with `vertical_run`: it would take the step as a
// closure, with what each step adds as a law beside it, and is longer than the two loops.)
fn diagonal_run(image: &[u8], z: Sizes, d: TrackSet, m: usize) -> Run
    requires within { Within z m image.now }
    ensures { SumsOf (diagonal (shape z) (cells (shape z) image.now) d) m result.sums }
{
    let count = z.t1.max(z.t2) + 1;
    let mut run = Run { sums: [0; 64] };
    for t in 0..count {
        run = add_heads(run, image, z, d, t, m);
    }
    run
}

// The verticals of set s there.
fn vertical_run(image: &[u8], z: Sizes, s: TrackSet, m: usize) -> Run
    requires within { Within z m image.now }
    ensures { SumsOf (vertical (shape z) (cells (shape z) image.now) s) m result.sums }
{
    let count = z.tracks(s);
    let mut run = Run { sums: [0; 64] };
    for t in 0..count {
        run = add_run(run, image, z, s, t, m);
    }
    run
}

// ---- Rows of sums

// The four rows of w cells and a place q in them go from function to function down to `put_run`, which alone writes: they are lent
// for writing, and a struct that holds them with a fact is covered by the checker behind a `&mut` alone, for which it would be made anew.

// Puts 64 sums into a row of rows of w cells, from q on.
fn put_run(rows: &mut [u8], w: usize, row: usize, q: usize, run: Run)
    requires rows_len { length rows.old ≡ 4 * w }
    requires row_bound { row < 4 }
    requires q_bound { q + 64 ≤ w }
    requires sums_len { length run.sums ≡ 64 }
    ensures { RunPut w row q run.sums rows.old rows.new }
{
    let start = row * w + q;
    let end = start + 64;
    rows[start..end].copy_from_slice(&run.sums);
}

// Puts the sums of a set at the 64 positions from m on into its two rows, from q on. Part of its caller, it knows the set as it is
// compiled, and the tracks of a diagonal are found by addition; else the sums of 256 blocks take 3.2 µs in place of 2.3.
#[inline(always)]
fn put_set(rows: &mut [u8], w: usize, q: usize, image: &[u8], z: Sizes, s: TrackSet, m: usize)
    requires rows_len { length rows.old ≡ 4 * w }
    requires q_bound { q + 64 ≤ w }
    requires within { Within z m image.now }
    ensures { SetPut w q (rule (shape z) (cells (shape z) image.now)) m s rows.old rows.new }
{
    put_run(rows, w, s.row(), q, diagonal_run(image, z, s, m));
    put_run(rows, w, 2 + s.row(), q, vertical_run(image, z, s, m));
}

// Puts those of both sets into all four rows.
fn put_rows(rows: &mut [u8], w: usize, q: usize, image: &[u8], z: Sizes, m: usize)
    requires rows_len { length rows.old ≡ 4 * w }
    requires q_bound { q + 64 ≤ w }
    requires within { Within z m image.now }
    ensures { RowsPut w q (rule (shape z) (cells (shape z) image.now)) m rows.old rows.new }
{
    put_set(rows, w, q, image, z, TrackSet::A, m);
    put_set(rows, w, q, image, z, TrackSet::B, m);
}

// ---- The first positions

// Copies a source as its first N cells and its last M. By way of rooms no test of overlap is left in the loop over the tracks.
fn copy_ends<const N: usize, const M: usize>(out: &mut [u8], source: &[u8])
    requires room { length source.now ≤ length out.old }
    requires first { N ≤ length source.now }
    requires last { M ≤ length source.now }
    requires all { length source.now ≤ N + M }
    ensures { Copied source.now out.old out.new }
{
    let n = source.len();
    let from = n - M;
    let mut first = [0; N];
    let mut last = [0; M];
    first.copy_from_slice(&source[..N]);
    last.copy_from_slice(&source[from..n]);
    out[..N].copy_from_slice(&first);
    out[from..n].copy_from_slice(&last);
}

// Copies the first 80 cells, or all where there are fewer. Lengths that are known compile to a few moves: by the library's copy of as many
// cells as there are, a record of one block took 1.2 times as long to read.
fn copy_first(out: &mut [u8], source: &[u8])
    requires { length out.old ≡ 80 }
    ensures { FirstCopied source.now out.old out.new }
{
    let n = source.len();
    if 80 <= n {
        let mut first = [0; 80];
        first.copy_from_slice(&source[..80]);
        out.copy_from_slice(&first);
    } else if 64 <= n {
        copy_ends::<64, 16>(out, source);
    } else if 48 <= n {
        copy_ends::<48, 16>(out, source);
    } else if 32 <= n {
        copy_ends::<32, 16>(out, source);
    } else if 16 <= n {
        copy_ends::<16, 16>(out, source);
    } else if 8 <= n {
        copy_ends::<8, 8>(out, source);
    } else {
        out[..n].copy_from_slice(source);
    }
}

// Copies the first cells of track number g behind its zeros, from its stretch of the image alone.
fn pad_track(padded: &mut [u8], image: &[u8], z: Sizes, g: usize)
    requires image { Image (shape z) image.now }
    requires g_bound { g < all_tracks (shape z) }
    requires padded { Padded z g image.now padded.old }
    ensures { Padded z (suc g) image.now padded.new }
{
    let lag = z.lag();
    let l = z.track_length();
    let from = g * l;
    let to = from + l;
    let start = g * (80 + lag) + lag;
    let end = start + 80;
    copy_first(&mut padded[start..end], &image[from..to]);
}

// Copies the first cells of all tracks behind the zeros of a room. Part of its caller: by a call, reading a record of one block took 92
// instructions and 216 bytes of stack more.
#[inline(always)]
pub fn pad<'a>(room: &'a mut [u8], image: &'a [u8], z: Sizes) -> Source<'a>
    requires image { Image (shape z) image.now }
    requires room { Padded z 0 image.now room.old }
    ensures of_image { result.image.now ≡ image.now }
    ensures of_sizes { result.z ≡ z }
{
    for g in 0..z.all_tracks() {
        pad_track(room, image, z, g);
    }
    Source {
        z,
        image,
        padded: room,
    }
}

// ---- The sums of 64 positions

// Puts the sums of the 64 positions from p on into four rows of w cells, from q on, as far as a record has these positions. Where the
// diagonals leave the tracks at their start, they are those of the padded tracks, which have p a lag later.
fn put_sums(rows: &mut [u8], w: usize, q: usize, source: Source, p: usize)
    requires rows_len { length rows.old ≡ 4 * w }
    requires q_bound { q + 64 ≤ w }
    requires p_bound { 64 ≤ track_length (shape source.z) → p + 64 ≤ track_length (shape source.z) }
    requires p_value { track_length (shape source.z) < 64 → p ≡ 0 }
    ensures { SumsPut w q (shape source.entry.z) (cells (shape source.entry.z) source.entry.image.now) p rows.old rows.new }
{
    let z = source.z;
    let lag = z.lag();
    if p < lag {
        // `..z` is for structs with no ghost field.
        let padded = Sizes {
            t1: z.t1,
            t2: z.t2,
            positions: 80,
            closed: z.closed,
        };
        put_rows(rows, w, q, source.padded, padded, lag + p);
    } else {
        put_rows(rows, w, q, source.image, z, p);
    }
}

// The same into four rows of 64.
pub fn sum_rows(rows: &mut [u8], source: Source, p: usize)
    requires rows_len { length rows.old ≡ 256 }
    requires p_bound { 64 ≤ track_length (shape source.z) → p + 64 ≤ track_length (shape source.z) }
    requires p_value { track_length (shape source.z) < 64 → p ≡ 0 }
    ensures { RunSums source.entry.z source.entry.image.now p rows.new }
{
    put_sums(rows, 64, 0, source, p);
}

// Where the run of position m begins: there or, where fewer than 64 positions are left, so far before that it ends with the track. A
// record shorter than a run has one, from its start.
pub fn run_start(l: usize, m: usize) -> usize
    ensures { RunStart l m result }
{
    m.min(l.saturating_sub(64))
}

// ---- The syndromes

// The rows of a record shorter than a run.
fn sum_short(syn: &mut [u8], source: Source)
    requires short { track_length (shape source.z) < 64 }
    requires syn_len { length syn.old ≡ 4 * track_length (shape source.z) }
    ensures { Holds (shape source.entry.z) (cells (shape source.entry.z) source.entry.image.now) syn.new }
{
    let l = source.z.track_length();
    // Fixed memory, as in all rooms here.
    let mut rows = [0; 256];
    sum_rows(&mut rows, source, 0);
    for r in 0..4 {
        let from = r * 64;
        let to = from + l;
        let start = r * l;
        let end = start + l;
        syn[start..end].copy_from_slice(&rows[from..to]);
    }
}

// The syndromes of an image.
pub fn syndromes(image: &[u8], z: Sizes, syn: &mut [u8])
    requires image { Image (shape z) image.now }
    requires syn_len { length syn.old ≡ 4 * track_length (shape z) }
    ensures { Holds (shape z) (cells (shape z) image.now) syn.new }
{
    let lag = z.lag();
    let l = z.track_length();
    // Fixed memory: the largest sizes have 18 tracks of 95 cells here.
    let mut room = [0; 1710];
    let source = pad(&mut room[..(lag + 3) * (80 + lag)], image, z);
    if l < 64 {
        sum_short(syn, source);
        return;
    }
    for i in 0..l.div_ceil(64) {
        let p = run_start(l, 64 * i);
        put_sums(syn, l, p, source, p);
    }
}
