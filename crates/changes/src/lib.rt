// Changed cells: in which of the marked tracks two images differ, and in how many cells.
#![tactic(auto)]

ghost use Rattle.std.specs.Prelude.{◌≡◌, ◌<◌};
ghost use Rattle.code.specs.Image.{cells};
ghost use Rattle.code.specs.Calls.{mask_bit, mended};
ghost use Rattle.code.specs.Answers.{extra_of, result_of};
ghost use Rattle.code.specs.Sizes.{shape};
ghost use Rattle.changes.specs.Changes.{HasTrack, changed_at, OnlyMarkedBy, Counted, names};

use code::{Answer, Sizes};
use solver::Mark;

// The changed mask and the number of changed cells.
#[derive(Clone, Copy)]
pub struct Changes {
    pub mask: u32,
    pub cells: u32,
}

// The changed cells of track number g.
pub fn count_track(image: &[u8], out: &[u8], l: usize, g: usize) -> usize
    requires { HasTrack l g image.now out.now }
    ensures { result ≡ changed_at l image.now out.now g }
{
    let start = g * l;
    let end = start + l;
    track::count_differing(&image[start..end], &out[start..end])
}

// The mask's bit of track number g, where so many of its cells are changed.
fn mask_bit(g: usize, changed: usize) -> u32
    requires { g < 18 }
    ensures { result ≡ mask_bit g changed }
{
    if changed != 0 { 1 << g } else { 0 }
}

// The changed mask and cells, of which only marked tracks have any.
pub fn count_changes<M: Mark>(z: Sizes, marks: &[M], image: &[u8], out: &[u8]) -> Changes
    requires { OnlyMarkedBy M.counts M.none z marks.now image.now out.now }
    ensures { Counted (shape z) image.now out.now result }
{
    let l = z.track_length();
    let mut mask: u32 = 0;
    let mut cells: u32 = 0;
    for g in 0..z.all_tracks() {
        if marks[g].is_set() {
            let changed = count_track(image, out, l, g);
            cells += changed as u32;
            mask += mask_bit(g, changed);
        }
    }
    Changes { mask, cells }
}

// What repair and tracing answer with 0, where marked tracks alone were changed: what was, and these extras.
pub fn answer_of<M: Mark>(
    z: Sizes,
    marks: &[M],
    image: &[u8],
    out: &[u8],
    a: Option<u32>,
    b: Option<u32>,
) -> Answer
    requires { OnlyMarkedBy M.counts M.none z marks.now image.now out.now }
    ensures { result_of (Ok result) ≡ mended (shape z) (cells (shape z) image.now) (cells (shape z) out.now) (names (extra_of a) (extra_of b)) }
{
    let Changes { mask, cells } = count_changes(z, marks, image, out);
    Answer { mask, cells, a, b }
}
