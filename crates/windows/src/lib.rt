// Flags by stretch: the test of a table of pairs, the words of the cells that it flags, a word a position, and the windows of the positions.
#![tactic(auto)]

ghost use Rattle.std.specs.Prelude.{◌≡◌, ◌+◌, ◌*◌, ◌<◌, ◌≤◌, length, fold, bit_or};
ghost use Rattle.code.specs.Record.{track_length};
ghost use Rattle.code.specs.Image.{image_size};
ghost use Rattle.code.specs.Flags.{word_flags};
ghost use Rattle.code.specs.Lost.{read_values, is_lost};
ghost use Rattle.code.specs.Reach.{pick, flags_code};
ghost use Rattle.code.specs.Spans.{Broken, table_of, window};
ghost use Rattle.code.specs.Sizes.{shape};
ghost use Rattle.track.specs.Track.{Readings};
ghost use Rattle.checks.specs.Lost.{LostTold};
ghost use Rattle.flags.specs.Marks.{ReadImage};
ghost use Rattle.windows.specs.Steps.{RunFlagged, StretchFlagged, StretchEnd, TrackFlagged, LostAdded, Widened, Joined, AllCoded};
ghost use Rattle.windows.specs.Windows.{TableTested, Blank, TableFlagged, LostFlagged, WindowsFound, FlaggedMarked};

use code::{Sizes, Span};

// Is a table of pairs right, for an image of `cells` cells? A pair may begin where the previous one ends.
pub fn is_right(spans: &[Span], cells: usize) -> bool
    ensures { TableTested cells (table_of spans.now) result }
{
    if 64 < spans.len() {
        return false;
    }
    let mut end: usize = 0;
    for span in spans {
        let from = span.offset as usize;
        let size = span.length as usize;
        if size == 0 {
            return false;
        }
        if from < end {
            return false;
        }
        end = from + size;
        if cells < end {
            return false;
        }
    }
    true
}

// A stretch of an image, `from` and `to`, is cut at the ends of tracks of l cells by three functions: a struct of the three numbers would be
// made anew for each piece.

// Flags a run of positions of one track, whose bit this is.
fn flag_run(words: &mut [u32], bit: u32)
    ensures { RunFlagged words.old bit words.new }
{
    for word in words.iter_mut() {
        *word |= bit;
    }
}

// Flags the cells of the image from `from` to before `to`, all of one track, with l cells a track.
fn flag_stretch(l: usize, from: usize, to: usize, words: &mut [u32])
    requires l_nonzero { 0 < l }
    requires words_len { length words.old ≡ l }
    requires from_bound { from < 18 * l }
    requires stretch_end { StretchEnd l from to to }
    ensures { StretchFlagged l words.old from to words.new }
{
    let start = from % l;
    let end = start + (to - from);
    flag_run(&mut words[start..end], 1 << (from / l));
}

// Where a stretch from `from` to before `to` ends, or is left for the next track.
fn stretch_end(l: usize, from: usize, to: usize) -> usize
    requires l_nonzero { 0 < l }
    requires from_lt_to { from < to }
    ensures { StretchEnd l from to result }
{
    let left = l - from % l;
    if to - from < left { to } else { from + left }
}

// Flags the cells of a pair, which may run from one track into the next.
fn flag_pair(l: usize, from: usize, to: usize, words: &mut [u32])
    requires l_nonzero { 0 < l }
    requires words_len { length words.old ≡ l }
    requires from_le_to { from ≤ to }
    requires to_bound { to ≤ 18 * l }
    ensures { StretchFlagged l words.old from to words.new }
{
    let mut at = from;
    // A step is as long as its track has cells left, so no range counts the steps.
    while at < to {
        let end = stretch_end(l, at, to);
        flag_stretch(l, at, end, words);
        at = end;
    }
}

// Flags the cells of a table.
pub fn flag_pairs(z: Sizes, spans: &[Span], words: &mut [u32])
    requires fact { Broken (image_size (shape z)) (table_of spans.now) → ⊥ }
    requires blank { Blank (track_length (shape z)) words.old }
    ensures { TableFlagged (shape z) (table_of spans.now) words.new }
{
    let l = z.track_length();
    for span in spans {
        let from = span.offset as usize;
        let size = span.length as usize;
        flag_pair(l, from, from + size, words);
    }
}

// The bit of a cell that is lost, and 0 for one that is not.
fn lost_bit(x: u8, bit: u32) -> u32
    requires { x < read_values }
    ensures { result ≡ pick (is_lost x) bit 0 }
{
    if code::is_lost(x) { bit } else { 0 }
}

// Flags the lost cells of a track, whose bit this is.
fn flag_lost_cells(track: &[u8], bit: u32, words: &mut [u32])
    requires readings { Readings track.now }
    requires track_in_bounds { length track.now ≤ length words.old }
    ensures { TrackFlagged track.now words.old bit words.new }
{
    // By an index: of words that are zipped with the cells the checker knows nothing after the loop.
    for m in 0..track.len() {
        words[m] |= lost_bit(track[m], bit);
    }
}

// The same, if the track has a lost cell: its highest byte tells.
fn flag_if_lost(track: &[u8], bit: u32, words: &mut [u32])
    requires readings { Readings track.now }
    requires track_in_bounds { length track.now ≤ length words.old }
    ensures { TrackFlagged track.now words.old bit words.new }
{
    if code::is_lost(track::highest(track)) {
        flag_lost_cells(track, bit, words);
    }
}

// Flags the lost cells of track number g.
fn flag_lost_track(image: &[u8], l: usize, g: usize, words: &mut [u32])
    requires g_bound { g < 18 }
    requires l_in_bounds { g * l + l ≤ length image.now }
    requires readings { Readings image.now }
    requires words_len { length words.old ≡ l }
    ensures { LostAdded l image.now g words.old words.new }
{
    let start = g * l;
    let end = start + l;
    flag_if_lost(&image[start..end], 1 << g, words);
}

// Flags the lost cells of an image. An image without one is not scanned.
pub fn flag_lost(z: Sizes, image: &[u8], lost: bool, words: &mut [u32])
    requires read_image { ReadImage (shape z) image.now }
    requires lost_told { LostTold image.now lost }
    requires words_len { length words.old ≡ track_length (shape z) }
    ensures { LostFlagged (shape z) image.now words.old words.new }
{
    if !lost {
        return;
    }
    let l = z.track_length();
    for g in 0..z.all_tracks() {
        flag_lost_track(image, l, g, words);
    }
}

// Joins to every word that of d positions later, as it still is: windows of d positions become windows of twice as many.
fn widen(near: &mut [u32], d: usize)
    ensures { Widened near.old d near.new }
{
    for m in 0..near.len().saturating_sub(d) {
        near[m] |= near[m + d];
    }
}

// Makes windows of 16 positions of the words.
fn join_windows(near: &mut [u32])
    ensures { Joined near.old window near.new }
{
    widen(near, 1);
    widen(near, 2);
    widen(near, 4);
    widen(near, 8);
}

// The code of the tracks that a word flags.
fn word_code(z: Sizes, word: u32) -> u8
    ensures { result ≡ flags_code (shape z) (word_flags (shape z) word) }
{
    let marks = flags::marks_of(word);
    flags::code_of(z, &marks)
}

// Has every word a code? Only where a word differs from the one before is its code looked up. A word without a flag has one.
fn all_coded(z: Sizes, near: &[u32]) -> bool
    ensures { AllCoded (shape z) near.now result }
{
    let mut last: u32 = 0;
    for word in near {
        if *word != last {
            if word_code(z, *word) == 0 {
                return false;
            }
            last = *word;
        }
    }
    true
}

// The windows of all positions, and whether each has a code.
pub fn find_windows(z: Sizes, words: &[u32], near: &mut [u32]) -> bool
    requires words_len { length words.now ≡ track_length (shape z) }
    requires near_len { length near.old ≡ track_length (shape z) }
    ensures { WindowsFound (shape z) words.now near.new result }
{
    near.copy_from_slice(words);
    join_windows(near);
    all_coded(z, near)
}

// The bits of all words.
fn gather(words: &[u32]) -> u32
    ensures { result ≡ fold bit_or 0 words.now }
{
    words.iter().fold(0, |all, word| all | word)
}

// The marks of the tracks with a flagged cell.
pub fn marks_in(words: &[u32]) -> [bool; 18]
    ensures { FlaggedMarked words.now result }
{
    flags::marks_of(gather(words))
}
