// Flagged tracks: the marks of a flag word and of the tracks with a lost cell, and the code of the marks.
#![tactic(auto)]

ghost use Rattle.std.specs.Prelude.{◌≡◌, ◌+◌, ◌*◌, ◌≤◌, length, count_by};
ghost use Rattle.code.specs.Image.{all_tracks};
ghost use Rattle.code.specs.Reach.{flags_code};
ghost use Rattle.code.specs.Sizes.{shape};
ghost use Rattle.track.specs.Track.{Readings};
ghost use Rattle.checks.specs.Lost.{LostTold};
ghost use Rattle.solver.specs.Solver.{marked_by};
ghost use Rattle.flags.specs.Marks.{Marks, lost_at, ReadImage, CallMarks};

use code::{Sizes, TrackSet};
use solver::Mark;

// The marks of a flag word: one a track number.
pub fn marks_of(flags: u32) -> [bool; 18]
    ensures { Marks flags result }
{
    let mut marks = [false; 18];
    for (g, mark) in marks.iter_mut().enumerate() {
        *mark = (flags >> g) & 1 == 1;
    }
    marks
}

// Has track number g a lost cell?
fn track_lost(image: &[u8], l: usize, g: usize) -> bool
    requires l_in_bounds { g * l + l ≤ length image.now }
    requires readings { Readings image.now }
    ensures { result ≡ lost_at l image.now g }
{
    let start = g * l;
    let end = start + l;
    code::is_lost(track::highest(&image[start..end]))
}

// The marks of a call: those of its flag word, and those of the tracks with a lost cell. An image without one is not scanned again.
pub fn call_marks(z: Sizes, flags: u32, image: &[u8], lost: bool) -> [bool; 18]
    requires read_image { ReadImage (shape z) image.now }
    requires lost_told { LostTold image.now lost }
    ensures { CallMarks (shape z) flags image.now result }
{
    let mut marks = marks_of(flags);
    if !lost {
        return marks;
    }
    let l = z.track_length();
    for g in 0..z.all_tracks() {
        marks[g] = marks[g] || track_lost(image, l, g);
    }
    marks
}

// How many tracks are marked. By `filter` and `count` a short record that is refused with 6 took 55 ns, and 41 so.
fn count_marks<M: Mark>(marks: &[M]) -> usize
    ensures { result ≡ count_by M.counts marks.now }
{
    let mut count: usize = 0;
    for t in 0..marks.len() {
        if marks[t].is_set() {
            count += 1;
        }
    }
    count
}

// The code of the marked tracks.
pub fn code_of<M: Mark>(z: Sizes, marks: &[M]) -> u8
    requires { all_tracks (shape z) ≤ length marks.now }
    ensures { result ≡ flags_code (shape z) (marked_by M.counts M.none (shape z) marks.now) }
{
    let a = z.tracks(TrackSet::A);
    code::reach_code(
        count_marks(&marks[..a]),
        count_marks(&marks[a..z.all_tracks()]),
    )
}
