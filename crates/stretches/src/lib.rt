// The solver for flagged cells: first the sets with one flagged cell at a position, at all positions, then the others, position by position.
#![tactic(auto)]

ghost use Rattle.std.specs.Prelude.{◌≡◌, true, ℕ, ◌<◌, ◌≤◌, length};
ghost use Rattle.code.specs.Record.{Shape, tracks, track_length};
ghost use Rattle.code.specs.Image.{all_tracks};
ghost use Rattle.code.specs.Flags.{word_flags, flag_count};
ghost use Rattle.code.specs.Sizes.{shape};
ghost use Rattle.syndrome.specs.Syndrome.{Kept};
ghost use Rattle.solver.specs.Solver.{marked, HasTracks};
ghost use Rattle.solver.specs.Steps.{Ahead};
ghost use Rattle.flags.specs.Words.{word_cells, Windows};
ghost use Rattle.stretches.specs.Stretches.{Solved};
ghost use Rattle.stretches.specs.Steps.{RunEnd, OneBit, AtMostOne, InWindow, Below, OneTrack, IfFlagged, PlanAt, Passed, RunSolved, SetRun, AllRun};

mod part;

use code::{Sizes, TrackSet};
use part::Part;
use solver::Plan;

// Where the run of positions that begins at `from` ends, `to` at the latest: their words and those of their windows are the same.
fn run_end(words: &[u32], near: &[u32], from: usize, to: usize) -> usize
    requires from_lt_to { from < to }
    requires to_in_bounds { to ≤ length words.now }
    requires to_in_bounds_2 { to ≤ length near.now }
    ensures { RunEnd words.now near.now from to result }
{
    let word = words[from];
    let wide = near[from];
    // As a chain, `(from + 1..to).find(..)`, this took 0.7 ns more a position.
    for m in from + 1..to {
        if words[m] != word || near[m] != wide {
            return m;
        }
    }
    to
}

// A pass over the positions, run by run.
trait Pass {
    // Up to which position the sets with one flagged cell are right, when the pass is at a position, and up to which all cells are.
    ghost ones: { Shape → ℕ → ℕ };

    ghost all: { Shape → ℕ → ℕ };

    // Solves a run of positions with these flagged cells and, in their windows, these tracks.
    fn solve_run(out: &mut [u8], syn: &mut [u8], run: Part, word: u32, wide: u32)
        requires kept { Kept run.z out.old syn.old }
        requires in_window { InWindow (shape run.z) word wide }
        ensures { RunSolved (ones (shape run.z)) (all (shape run.z)) run.z word wide run.from run.to out.old out.new syn.new };
}

// ---- One flagged cell

// Does the word flag a track's cell?
fn is_flagged(word: u32, z: Sizes, s: TrackSet, t: usize) -> bool
    requires { t < tracks (shape z) s }
    ensures { result ≡ word_flags (shape z) word s t }
{
    word >> z.track_number(s, t) & 1 == 1
}

// The one flagged track of a set, or none where none is flagged or more than one.
fn one_track(word: u32, z: Sizes, s: TrackSet) -> Option<usize>
    ensures { OneTrack (shape z) (word_flags (shape z) word) s result }
{
    let mut track = None;
    for t in 0..z.tracks(s) {
        if is_flagged(word, z, s, t) {
            if track.is_some() {
                return None;
            }
            track = Some(t);
        }
    }
    track
}

// Makes one track of a set right by the verticals.
fn by_verticals(out: &mut [u8], syn: &mut [u8], part: Part, s: TrackSet, track: Option<usize>)
    requires kept { Kept part.z out.old syn.old }
    ensures { Ahead part.z s track part.from part.to out.old out.new syn.new }
{
    if part.in_data() {
        solver::verticals(out, syn, part.z, s, track, part.from, part.to);
        return;
    }
    for p in part.from..part.to {
        solver::by_vertical(out, syn, part.z, s, track, p);
    }
}

// The first pass: the sets with one flagged cell at a position.
struct OneFlagged;

impl Pass for OneFlagged {
    ghost ones = { λ sh q. q };

    ghost all = { λ sh q. 0 };

    fn solve_run(out: &mut [u8], syn: &mut [u8], run: Part, word: u32, _wide: u32) {
        if word == 0 {
            return;
        }
        let a = one_track(word, run.z, TrackSet::A);
        let b = one_track(word, run.z, TrackSet::B);
        by_verticals(out, syn, run, TrackSet::A, a);
        by_verticals(out, syn, run, TrackSet::B, b);
    }
}

// ---- Two and three flagged cells

// True only if at most one bit of a number is 1.
fn few_bits(x: u32) -> bool
    ensures { OneBit x result }
{
    x == 0 || x & (x - 1) == 0
}

// True only if the word flags at most one cell of a set.
fn at_most_one(z: Sizes, word: u32, s: TrackSet) -> bool
    ensures { AtMostOne (shape z) word s result }
{
    let a = z.tracks(TrackSet::A);
    match s {
        TrackSet::A => few_bits(word % (1 << a)),
        TrackSet::B => few_bits(word >> a),
    }
}

// A track if the word flags its cell.
fn if_flagged(word: u32, z: Sizes, s: TrackSet, track: Option<usize>) -> Option<usize>
    requires { (t : ℕ) → track ≡ Some t → t < tracks (shape z) s }
    ensures { IfFlagged (word_flags (shape z) word) s track result }
{
    let t = track?;
    if is_flagged(word, z, s, t) {
        Some(t)
    } else {
        None
    }
}

// The plan for a set at a position, where the word has its flagged cells there and `near` the marks of its window.
// It is the window's plan without the tracks whose cell at the position is not flagged. A set with one flagged cell is right already.
fn plan_at(word: u32, near: &[bool], z: Sizes, s: TrackSet) -> Plan
    requires z_in_bounds { all_tracks (shape z) ≤ length near.now }
    requires few { flag_count (shape z) (marked (shape z) near.now) s ≤ 3 }
    requires below { Below (shape z) (word_flags (shape z) word) (marked (shape z) near.now) s }
    ensures { PlanAt (shape z) (word_flags (shape z) word) (marked (shape z) near.now) s result }
{
    if at_most_one(z, word, s) {
        return Plan {
            low: None,
            high: None,
            last: None,
        };
    }
    let wide = solver::make_plan(near, z, s);
    let low = if_flagged(word, z, s, wide.low);
    let high = if_flagged(word, z, s, wide.high);
    let last = if_flagged(word, z, s, wide.last);
    Plan { low, high, last }
}

// Solves one set at positions of the data, where the other has one flagged cell at the most. It is a loop of its own beside those of `data_run` and
// `tail_run`: a step that is passed as a closure would hold the copy and its syndromes, and a closure that changes what it captures promises nothing.
fn set_run(out: &mut [u8], syn: &mut [u8], part: Part, s: TrackSet, plan: Plan)
    requires kept { Kept part.z out.old syn.old }
    requires data { part.to ≤ part.z.positions }
    requires exist { HasTracks (shape part.z) s plan }
    ensures { SetRun part.z s plan part.from part.to out.old out.new syn.new }
{
    let ways = plan.ways(part.z, s);
    for m in part.from..part.to {
        solver::step(out, syn, part.z, s, ways, m);
    }
}

// Solves what is left of both sets at positions of the data: a plan of one track leaves nothing.
fn data_run(out: &mut [u8], syn: &mut [u8], part: Part, a: Plan, b: Plan)
    requires kept { Kept part.z out.old syn.old }
    requires data { part.to ≤ part.z.positions }
    requires exist_a { HasTracks (shape part.z) TrackSet.A a }
    requires exist_b { HasTracks (shape part.z) TrackSet.B b }
    ensures { AllRun part.z a b part.from part.to out.old out.new syn.new }
{
    if a.is_single() {
        set_run(out, syn, part, TrackSet::B, b);
        return;
    }
    if b.is_single() {
        set_run(out, syn, part, TrackSet::A, a);
        return;
    }
    let ways_a = a.ways(part.z, TrackSet::A);
    let ways_b = b.ways(part.z, TrackSet::B);
    for m in part.from..part.to {
        solver::step(out, syn, part.z, TrackSet::A, ways_a, m);
        solver::step(out, syn, part.z, TrackSet::B, ways_b, m);
    }
}

// The same at positions of the tail.
fn tail_run(out: &mut [u8], syn: &mut [u8], part: Part, a: Plan, b: Plan)
    requires kept { Kept part.z out.old syn.old }
    requires tail { part.z.positions ≤ part.from }
    ensures { AllRun part.z a b part.from part.to out.old out.new syn.new }
{
    for m in part.from..part.to {
        solver::tail_step(out, syn, part.z, TrackSet::A, a, m);
        solver::tail_step(out, syn, part.z, TrackSet::B, b, m);
    }
}

// The second pass: all flagged cells. Where both sets have one at the most they are right already.
struct AllFlagged;

impl Pass for AllFlagged {
    ghost ones = { λ sh q. track_length sh };

    ghost all = { λ sh q. q };

    // Apart from the search for a run's end, which then has the registers that it needs: 0.8 ns less a position.
    #[inline(never)]
    fn solve_run(out: &mut [u8], syn: &mut [u8], run: Part, word: u32, wide: u32) {
        if at_most_one(run.z, word, TrackSet::A) && at_most_one(run.z, word, TrackSet::B) {
            return;
        }
        let near = flags::marks_of(wide);
        let a = plan_at(word, &near, run.z, TrackSet::A);
        let b = plan_at(word, &near, run.z, TrackSet::B);
        if run.in_data() {
            data_run(out, syn, run, a, b);
        } else {
            tail_run(out, syn, run, a, b);
        }
    }
}

// ---- The passes

// Goes over the positions of a part, run by run.
fn solve_part<P: Pass>(out: &mut [u8], syn: &mut [u8], part: Part, words: &[u32], near: &[u32])
    requires kept { Kept part.z out.old syn.old }
    requires windows { Windows (shape part.z) words.now near.now }
    ensures { Passed (P.ones (shape part.z)) (P.all (shape part.z)) part.z (word_cells (shape part.z) words.now) part.from part.to out.old out.new syn.new }
{
    let z = part.z;
    let mut m = part.from;
    // From run to run, whose ends are found on the way.
    while m < part.to {
        let to = run_end(words, near, m, part.to);
        let run = Part { z, from: m, to };
        P::solve_run(out, syn, run, words[m], near[m]);
        m = to;
    }
}

// The two slices of words go to three functions only, and stay apart: a struct of them would be taken apart again by `run_end`.

// Makes the flagged cells of a working copy right: `words` has the flags of each position and `near` the tracks with a flagged cell in its window.
// True: the copy is now a good record. False: there is none.
pub fn solve(out: &mut [u8], syn: &mut [u8], z: Sizes, words: &[u32], near: &[u32]) -> bool
    requires kept { Kept z out.old syn.old }
    requires windows { Windows (shape z) words.now near.now }
    requires closed_value { z.closed ≡ true }
    ensures { Solved z (word_cells (shape z) words.now) out.old out.new syn.new result }
{
    let data = Part {
        z,
        from: 0,
        to: z.positions,
    };
    let tail = Part {
        z,
        from: z.positions,
        to: z.track_length(),
    };
    solve_part::<OneFlagged>(out, syn, data, words, near);
    solve_part::<OneFlagged>(out, syn, tail, words, near);
    solve_part::<AllFlagged>(out, syn, data, words, near);
    solve_part::<AllFlagged>(out, syn, tail, words, near);
    syndrome::is_good(out, syn, z)
}
