// Repairer, and what the tracer shares with it: the checks, and working copies with their sums.
#![tactic(auto)]

ghost use Rattle.std.specs.Prelude.{◌≡◌, ◌≤◌, length, IfOk};
ghost use Rattle.code.specs.Record.{base};
ghost use Rattle.code.specs.Image.{all_tracks, image_size};
ghost use Rattle.code.specs.Flags.{whole};
ghost use Rattle.code.specs.Lost.{read_values};
ghost use Rattle.code.specs.Calls.{early_checks, Repairs};
ghost use Rattle.code.specs.Promises.{Repaired};
ghost use Rattle.code.specs.Answers.{done_of, result_of};
ghost use Rattle.code.specs.Sizes.{shape};
ghost use Rattle.track.specs.Track.{known, Copied};
ghost use Rattle.checks.specs.First.{FirstAnswer};
ghost use Rattle.checks.specs.Lost.{LostTold};
ghost use Rattle.syndrome.specs.Syndrome.{Image};
ghost use Rattle.solver.specs.Solver.{marked, marked_by};
ghost use Rattle.flags.specs.Marks.{ReadImage};
ghost use Rattle.plans.specs.Plans.{Sized};
ghost use Rattle.errors.specs.Rows.{Rows};
ghost use Rattle.repair.specs.Steps.{Given, Prepared, MadeGood};

use code::{Answer, Refusal, Sizes, TrackSet};
use mend::Need;
use plans::Form;
use solver::Mark;

// ---- Checks

// Numbers 1 to 5, before the flags are counted; and whether a cell is lost, where none of them applies.
pub fn check(blocks: u32, flags: u32, image: &[u8], room: usize) -> Result<bool, Refusal>
    ensures first { FirstAnswer (early_checks read_values (base blocks) blocks flags image.now room) (done_of result) }
    ensures told { IfOk result (LostTold image.now) }
{
    let size = 18 * (8 * blocks as usize + 15);
    let lost = checks::check_image(blocks, image, 3, size, room, size)?;
    if 262144 <= flags {
        return Err(Refusal::FlagWord);
    }
    Ok(lost)
}

// ---- Working copies

// What the tails of each set need.
#[derive(Clone, Copy)]
pub struct Needs {
    pub a: Need,
    pub b: Need,
}

// Makes a working copy of the image, whose tails are 0 where rule 4 makes them so, and loads its sums.
pub fn prepare<M: Mark>(
    z: Sizes,
    marks: &[M],
    image: &[u8],
    out: &mut [u8],
    rows: &mut [u64],
) -> Needs
    requires read_image { ReadImage (shape z) image.now }
    requires out_len { length out.old ≡ image_size (shape z) }
    requires z_in_bounds { all_tracks (shape z) ≤ length marks.now }
    requires rows { Rows 4 rows.old }
    ensures { Prepared z (marked_by M.counts M.none (shape z) marks.now) (known image.now) out.new rows.new result }
{
    track::copy_known(out, image);
    let a = mend::clear_tails(z, marks, out, TrackSet::A);
    let b = mend::clear_tails(z, marks, out, TrackSet::B);
    mend::load_sums(out, z, rows);
    Needs { a, b }
}

// Makes the output a copy of the image, which 7 leaves.
pub fn put_back(image: &[u8], out: &mut [u8])
    requires { length image.now ≤ length out.old }
    ensures { Copied image.now out.old out.new }
{
    track::copy_into(out, image);
}

// ---- One set of flags

// Finds the errors of a form's tracks and adds them. True: the working copy is a good record now. False: there is none.
fn make_good(z: Sizes, need: Needs, p: Form, out: &mut [u8], rows: &[u64]) -> bool
    requires image { Image (shape z) out.old }
    requires rows { Rows 4 rows.now }
    requires sized { Sized (shape z) p }
    ensures { MadeGood z need p rows.now out.old out.new result }
{
    if !need.a.explained_by(None) || !need.b.explained_by(None) {
        return false;
    }
    let start = mend::find_start(rows, z.track_length());
    let mut found = [0u64; 171];
    if !errors::find(rows, &mut found, z, z.vertical_end(), p, start) {
        return false;
    }
    mend::add_errors(out, z, p, &found);
    true
}

// Repairs into the output, of the image's size.
fn repair_record(
    z: Sizes,
    marks: [bool; 18],
    image: &[u8],
    out: &mut [u8],
) -> Result<Answer, Refusal>
    requires { Given (shape z) marks image.now out.old }
    ensures { Repairs (shape z) (whole (marked (shape z) marks)) image.now out.old (result_of result) out.new }
{
    let mut rows = [0u64; 137];
    let need = prepare(z, &marks, image, out, &mut rows);
    let x = plans::find_three(&marks, z, TrackSet::A);
    let y = plans::find_three(&marks, z, TrackSet::B);
    let p = plans::form_of(z, x, y);
    if make_good(z, need, p, out, &rows) {
        return Ok(changes::answer_of(z, &marks, image, out, None, None));
    }
    put_back(image, out);
    Err(Refusal::NoRecord)
}

// Repairer: the flagged tracks are made right, or there is no good record that equals the image on the others.
pub fn repair(blocks: u32, flags: u32, image: &[u8], out: &mut [u8]) -> Result<Answer, Refusal>
    ensures { Repaired blocks flags image.now out.old (result_of result) out.new }
{
    let lost = check(blocks, flags, image, out.len())?;
    let n = blocks as usize;
    let z = Sizes::of_blocks(n);
    let marks = flags::call_marks(z, flags, image, lost);
    if flags::code_of(z, &marks) == 0 {
        return Err(Refusal::TooMany);
    }
    repair_record(z, marks, image, &mut out[..18 * (8 * n + 15)])
}
