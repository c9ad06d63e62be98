// Repair with flags by stretch.
#![tactic(auto)]

ghost use Rattle.std.specs.Prelude.{◌≡◌, ◌*◌, ◌≤◌, length, IfOk};
ghost use Rattle.code.specs.Record.{base, track_length};
ghost use Rattle.code.specs.Image.{image_size, cells};
ghost use Rattle.code.specs.Lost.{read_values};
ghost use Rattle.code.specs.Reach.{none};
ghost use Rattle.code.specs.Spans.{table_of, span_flags};
ghost use Rattle.code.specs.Calls.{mended, Repairs, table_checks};
ghost use Rattle.code.specs.Promises.{SpansRepaired};
ghost use Rattle.code.specs.Answers.{done_of, result_of};
ghost use Rattle.code.specs.Sizes.{shape};
ghost use Rattle.checks.specs.First.{FirstAnswer};
ghost use Rattle.checks.specs.Lost.{LostTold};
ghost use Rattle.flags.specs.Words.{word_cells};
ghost use Rattle.windows.specs.Windows.{Blank};
ghost use Rattle.spans.specs.Table.{pairs_table, SpansOf};
ghost use Rattle.spans.specs.Steps.{Tabled, CellsFlagged, Given, OnlyFlagged, CellsRepaired};

use code::{Answer, Refusal, Sizes, Span};

// ---- Checks

// 1 to 4 and 9, before the windows are looked at; where none refuses the call, whether a cell is lost. `repair::check` begins alike: a function
// for both would take the test, its number and its list of checks, and be no shorter.
fn check(blocks: u32, spans: &[Span], image: &[u8], room: usize) -> Result<bool, Refusal>
    ensures first { FirstAnswer (table_checks read_values (base blocks) blocks (table_of spans.now) image.now room) (done_of result) }
    ensures told { IfOk result (LostTold image.now) }
{
    let size = 18 * (8 * blocks as usize + 15);
    let lost = checks::check_image(blocks, image, 3, size, room, size)?;
    if !windows::is_right(spans, size) {
        return Err(Refusal::Table);
    }
    Ok(lost)
}

// ---- One record

// Flags the cells of a table and the lost ones: those alone, not their tracks.
fn flag_cells(z: Sizes, spans: &[Span], image: &[u8], lost: bool, words: &mut [u32])
    requires tabled { Tabled z (table_of spans.now) image.now }
    requires lost_told { LostTold image.now lost }
    requires blank { Blank (track_length (shape z)) words.old }
    ensures { CellsFlagged (shape z) (table_of spans.now) image.now words.new }
{
    windows::flag_pairs(z, spans, words);
    windows::flag_lost(z, image, lost, words);
}

// What the call answers with 0, where flagged cells alone were changed: what was, and no extra.
fn answer_of(z: Sizes, words: &[u32], image: &[u8], out: &[u8]) -> Answer
    requires { OnlyFlagged z words.now image.now out.now }
    ensures { result_of (Ok result) ≡ mended (shape z) (cells (shape z) image.now) (cells (shape z) out.now) (λ _. none) }
{
    changes::answer_of(z, &windows::marks_in(words), image, out, None, None)
}

// Repairs the flagged cells into the output, of the image's size, by way of four rows of bytes.
fn repair_cells(
    z: Sizes,
    words: &[u32],
    near: &[u32],
    image: &[u8],
    out: &mut [u8],
    syn: &mut [u8],
) -> Result<Answer, Refusal>
    requires given { Given z words.now near.now image.now out.old }
    requires syn_len { length syn.old ≡ 4 * track_length (shape z) }
    ensures { Repairs (shape z) (word_cells (shape z) words.now) image.now out.old (result_of result) out.new }
{
    track::copy_known(out, image);
    sums::syndromes(out, z, syn);
    if stretches::solve(out, syn, z, words, near) {
        return Ok(answer_of(z, words, image, out));
    }
    track::copy_into(out, image);
    Err(Refusal::NoRecord)
}

// Repairs by a table, of an image and an output of its size. `ROOM` words are made for the flags and for their windows, and as many bytes
// for each row of syndromes: fixed memory.
fn repair_record<const ROOM: usize>(
    z: Sizes,
    spans: &[Span],
    image: &[u8],
    lost: bool,
    out: &mut [u8],
) -> Result<Answer, Refusal>
    requires room { track_length (shape z) ≤ ROOM }
    requires room_small { ROOM ≤ 2063 }
    requires tabled { Tabled z (table_of spans.now) image.now }
    requires lost_told { LostTold image.now lost }
    requires out_len { length out.old ≡ image_size (shape z) }
    ensures { CellsRepaired (shape z) (span_flags (shape z) (table_of spans.now) image.now) image.now out.old (result_of result) out.new }
{
    let l = z.track_length();
    let mut flag_room = [0u32; ROOM];
    let mut window_room = [0u32; ROOM];
    let words = &mut flag_room[..l];
    let near = &mut window_room[..l];
    flag_cells(z, spans, image, lost, words);
    if !windows::find_windows(z, words, near) {
        return Err(Refusal::TooMany);
    }
    let mut rows = [[0u8; ROOM]; 4];
    repair_cells(
        z,
        words,
        near,
        image,
        out,
        &mut rows.as_flattened_mut()[..4 * l],
    )
}

// ---- The call

// Repairer: the flagged cells are made right, or there is no good record that equals the image on the others. A short record takes less
// room.
pub fn repair_spans(
    blocks: u32,
    spans: &[Span],
    image: &[u8],
    out: &mut [u8],
) -> Result<Answer, Refusal>
    ensures { SpansRepaired blocks (table_of spans.now) image.now out.old (result_of result) out.new }
{
    let lost = check(blocks, spans, image, out.len())?;
    let z = Sizes::of_blocks(blocks as usize);
    let l = z.track_length();
    let out = &mut out[..18 * l];
    if l <= 143 {
        repair_record::<143>(z, spans, image, lost, out)
    } else {
        repair_record::<2063>(z, spans, image, lost, out)
    }
}

// The same by a table of numbers, offset and length. Of more than 64 pairs 65 are looked at, which are too many as well: so many
// have room in fixed memory.
pub fn repair_pairs(
    blocks: u32,
    pairs: &[[u32; 2]],
    image: &[u8],
    out: &mut [u8],
) -> Result<Answer, Refusal>
    ensures { SpansRepaired blocks (pairs_table pairs.now) image.now out.old (result_of result) out.new }
{
    let mut spans = [Span {
        offset: 0,
        length: 0,
    }; 65];
    let count = pairs.len().min(65);
    // By an index: of spans that are zipped with the pairs the checker knows nothing after the loop.
    for k in 0..count {
        let [offset, length] = pairs[k];
        spans[k] = Span { offset, length };
    }
    repair_spans(blocks, &spans[..count], image, out)
}
