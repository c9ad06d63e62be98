// Tracer: the choices of extra tracks that a reach allows, one after the other.
#![tactic(auto)]

ghost use Rattle.std.specs.Prelude.{◌≡◌, ◌↔◌, IsTrue, ◌≤◌};
ghost use Rattle.code.specs.declared.sizes.TrackSet.{TrackSet};
ghost use Rattle.code.specs.declared.sizes.TrackSet.TheVariants.{A, B};
ghost use Rattle.code.specs.Reach.{code_reach, size, ceiling_reach, both};
ghost use Rattle.code.specs.Calls.{Traces};
ghost use Rattle.code.specs.Promises.{Traced, TracedWithin};
ghost use Rattle.code.specs.Answers.{extra_of, result_of};
ghost use Rattle.code.specs.Sizes.{shape};
ghost use Rattle.solver.specs.Solver.{marked};
ghost use Rattle.changes.specs.Changes.{OnlyMarked};
ghost use Rattle.errors.specs.Steps.{Fresh};
ghost use Rattle.repair.specs.Steps.{Given};
ghost use Rattle.trace.specs.Steps.{
  SameImages,
  named_at,
  choice_of,
  IsTrack,
  IsChoice,
  OneMore,
  Widened,
  Free,
  HasRoom,
  Allows,
  Last,
  StaysWithin,
  Traceable,
  Tried,
  Searched,
  mended_at,
};

use code::{Answer, Reach, Refusal, Sizes, TrackSet};
use plans::{Form, Three};
use repair::Needs;

// ---- What is allowed

// The extras that a code allows.
pub const MOST: [Reach; 6] = [
    Reach { a: 0, b: 0, all: 0 },
    Reach { a: 0, b: 0, all: 0 },
    Reach { a: 1, b: 0, all: 1 },
    Reach { a: 0, b: 1, all: 1 },
    Reach { a: 1, b: 1, all: 1 },
    Reach { a: 1, b: 1, all: 2 },
];

// What a code and a ceiling both allow.
fn reach_within(code: u8, ceiling: usize) -> Reach
    requires { code ≤ 5 }
    ensures { result ≡ both (code_reach code) (ceiling_reach ceiling) }
{
    let most = MOST[code as usize];
    Reach {
        a: most.a.min(ceiling),
        b: most.b.min(ceiling),
        all: most.all.min(ceiling),
    }
}

// ---- Choices of extras

// A choice: in each set no extra, or that track.
#[derive(Clone, Copy)]
pub struct Extras {
    pub a: Option<usize>,
    pub b: Option<usize>,
}

// A choice that fits, and the form of its tracks.
#[derive(Clone, Copy)]
pub struct Hit {
    pub form: Form,
    pub extras: Extras,
}

// That an extra is a track of its set (`IsTrack`, `IsChoice`) is asked where its mark or its cells are looked up: a choice is made before, of
// numbers that the loops count.

// The marks and that of an extra of set s.
fn one_more(z: Sizes, marks: [bool; 18], s: TrackSet, e: Option<usize>) -> [bool; 18]
    requires { IsTrack z s e }
    ensures { OneMore (shape z) s e marks result }
{
    let Some(t) = e else { return marks };
    let mut wide = marks;
    wide[z.track_number(s, t)] = true;
    wide
}

// The marks with the extras of a choice.
fn widen(z: Sizes, marks: [bool; 18], e: Extras) -> [bool; 18]
    requires { IsChoice z e }
    ensures { Widened (shape z) marks (choice_of e) result }
{
    one_more(z, one_more(z, marks, TrackSet::A, e.a), TrackSet::B, e.b)
}

// The number of extras, none or one.
fn size_of(e: Option<usize>) -> usize
    ensures { result ≡ size (extra_of e) }
{
    match e {
        None => 0,
        Some(_) => 1,
    }
}

// Is an extra none, or a track without a mark?
fn is_free(z: Sizes, marks: [bool; 18], s: TrackSet, e: Option<usize>) -> bool
    requires { IsTrack z s e }
    ensures { Free (shape z) s e marks result }
{
    match e {
        None => true,
        Some(t) => !marks[z.track_number(s, t)],
    }
}

// Does the reach leave room for the extras of a choice?
fn has_room(w: Reach, e: Extras) -> bool
    ensures { IsTrue result ↔ HasRoom w (choice_of e) }
{
    let in_a = size_of(e.a);
    let in_b = size_of(e.b);
    in_a <= w.a && in_b <= w.b && in_a + in_b <= w.all
}

// Does the reach allow a choice, and are its extras unflagged tracks?
fn allows(z: Sizes, w: Reach, marks: [bool; 18], e: Extras) -> bool
    requires { IsChoice z e }
    ensures { Allows (shape z) w (marked (shape z) marks) (choice_of e) result }
{
    if !has_room(w, e) {
        return false;
    }
    is_free(z, marks, TrackSet::A, e.a) && is_free(z, marks, TrackSet::B, e.b)
}

// The choices in set s that a reach may allow beside so many extras in the other set: none alone, where it allows no extra there, or
// none and each track.
fn choices_in(z: Sizes, w: Reach, s: TrackSet, beside: usize) -> usize
    requires { beside ≤ 1 }
    ensures { Last z w s beside result }
{
    let most = match s {
        TrackSet::A => w.a,
        TrackSet::B => w.b,
    };
    if most == 0 || w.all <= beside {
        1
    } else {
        1 + z.tracks(s)
    }
}

// ---- What is named

// The extra that is named: a track that was changed.
fn named(z: Sizes, image: &[u8], out: &[u8], s: TrackSet, e: Option<usize>) -> Option<u32>
    requires same { SameImages z image.now out.now }
    requires track { IsTrack z s e }
    ensures { extra_of result ≡ named_at (shape z) image.now out.now s e }
{
    let g = z.track_number(s, e?);
    if changes::count_track(image, out, z.track_length(), g) == 0 {
        return None;
    }
    Some(g as u32)
}

// What was changed, where marked tracks alone were. The extras of a choice are named.
fn answer_with(z: Sizes, marks: &[bool], image: &[u8], out: &[u8], e: Extras) -> Answer
    requires only_marked { OnlyMarked z marks.now image.now out.now }
    requires choice { IsChoice z e }
    ensures { result_of (Ok result) ≡ mended_at (shape z) image.now out.now e }
{
    let in_a = named(z, image, out, TrackSet::A, e.a);
    let in_b = named(z, image, out, TrackSet::B, e.b);
    changes::answer_of(z, marks, image, out, in_a, in_b)
}

// ---- Tracing

// What tracing works with: the reach, the marks and the marked tracks of each set, what the tails need, and where the sums begin.
#[derive(Clone, Copy)]
pub struct Tracer {
    pub z: Sizes,
    pub w: Reach,
    pub marks: [bool; 18],
    pub x: Three,
    pub y: Three,
    pub need: Needs,
    pub start: usize,
}

// Tries one choice of extras: the form of its tracks, if it fits.
fn try_choice(tracer: Tracer, rows: &[u64], found: &mut [u64], e: Extras) -> Option<Form>
    requires traceable { Traceable tracer rows.now }
    requires fresh { Fresh found.old tracer.start }
    requires choice { IsChoice tracer.z e }
    ensures { Tried tracer rows.now e found.new result }
{
    let z = tracer.z;
    if !allows(z, tracer.w, tracer.marks, e) {
        return None;
    }
    if !tracer.need.a.explained_by(e.a) || !tracer.need.b.explained_by(e.b) {
        return None;
    }
    let x = plans::insert(tracer.x, e.a);
    let y = plans::insert(tracer.y, e.b);
    let p = plans::form_of(z, x, y);
    if !errors::find(rows, found, z, z.vertical_end(), p, tracer.start) {
        return None;
    }
    Some(p)
}

// Tries the choices one after the other, up to one that fits.
fn search(tracer: Tracer, rows: &[u64], found: &mut [u64]) -> Option<Hit>
    requires traceable { Traceable tracer rows.now }
    requires fresh { Fresh found.old tracer.start }
    ensures { Searched tracer rows.now found.new result }
{
    let mut hit = None;
    let in_a = choices_in(tracer.z, tracer.w, TrackSet::A, 0);
    'search: for i in 0..in_a {
        let a = i.checked_sub(1);
        let in_b = choices_in(tracer.z, tracer.w, TrackSet::B, size_of(a));
        for j in 0..in_b {
            let b = j.checked_sub(1);
            let extras = Extras { a, b };
            if let Some(form) = try_choice(tracer, rows, found, extras) {
                hit = Some(Hit { form, extras });
                break 'search;
            }
        }
    }
    hit
}

// Traces into the output, of the image's size.
fn trace_record(
    z: Sizes,
    w: Reach,
    marks: [bool; 18],
    image: &[u8],
    out: &mut [u8],
) -> Result<Answer, Refusal>
    requires given { Given (shape z) marks image.now out.old }
    requires stays_within { StaysWithin (shape z) w (marked (shape z) marks) }
    ensures { Traces (shape z) w (marked (shape z) marks) image.now out.old (result_of result) out.new }
{
    let mut rows = [0u64; 137];
    let mut found = [0u64; 171];
    let need = repair::prepare(z, &marks, image, out, &mut rows);
    let x = plans::find_three(&marks, z, TrackSet::A);
    let y = plans::find_three(&marks, z, TrackSet::B);
    let start = mend::find_start(&rows, z.track_length());
    let tracer = Tracer {
        z,
        w,
        marks,
        x,
        y,
        need,
        start,
    };
    let Some(hit) = search(tracer, &rows, &mut found) else {
        repair::put_back(image, out);
        return Err(Refusal::NoRecord);
    };
    mend::add_errors(out, z, hit.form, &found);
    let wide = widen(z, marks, hit.extras);
    Ok(answer_with(z, &wide, image, out, hit.extras))
}

// ---- The calls

// Tracer with a ceiling: the same as the repairer with extra tracks that are not flagged, as many as the code of the flags and the
// ceiling both allow.
pub fn trace_within(
    blocks: u32,
    flags: u32,
    ceiling: u32,
    image: &[u8],
    out: &mut [u8],
) -> Result<Answer, Refusal>
    ensures { TracedWithin blocks flags ceiling image.now out.old (result_of result) out.new }
{
    let lost = repair::check(blocks, flags, image, out.len())?;
    let n = blocks as usize;
    let z = Sizes::of_blocks(n);
    let marks = flags::call_marks(z, flags, image, lost);
    let code = flags::code_of(z, &marks);
    if 2 < ceiling {
        return Err(Refusal::Ceiling);
    }
    if code == 0 {
        return Err(Refusal::TooMany);
    }
    let w = reach_within(code, ceiling as usize);
    trace_record(z, w, marks, image, &mut out[..18 * (8 * n + 15)])
}

// Tracer: with code 4 in place of 5, which is one extra track in all at the most.
pub fn trace(blocks: u32, flags: u32, image: &[u8], out: &mut [u8]) -> Result<Answer, Refusal>
    ensures { Traced blocks flags image.now out.old (result_of result) out.new }
{
    trace_within(blocks, flags, 1, image, out)
}
