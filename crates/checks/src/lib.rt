// The checks that calls share, numbers 1 to 4 in document 01's order: each refuses by the first check that applies.
#![tactic(auto)]

ghost use Rattle.std.specs.Prelude.{◌≡◌, ◌+◌, ◌*◌, ◌≤◌, IfOk};
ghost use Rattle.code.specs.Lost.{bit_values, read_values};
ghost use Rattle.code.specs.Numbers.{input_checks, size_checks, image_checks};
ghost use Rattle.code.specs.Answers.{done_of};
ghost use Rattle.checks.specs.First.{FirstAnswer};
ghost use Rattle.checks.specs.Lost.{LostTold};

use code::Refusal;

// 1 and 2: for the block count, and the input's length beside the one wanted.
pub fn check_input(blocks: u32, input: usize, wanted: usize) -> Result<(), Refusal>
    ensures { FirstAnswer (input_checks blocks wanted input) (done_of result) }
{
    if 256 < blocks {
        return Err(Refusal::BlockCount);
    }
    if input != wanted {
        return Err(Refusal::InputLength);
    }
    Ok(())
}

// 1 to 3: also for the output's length beside the result's size.
pub fn check_sizes(
    blocks: u32,
    input: usize,
    wanted: usize,
    room: usize,
    size: usize,
) -> Result<(), Refusal>
    ensures { FirstAnswer (size_checks blocks wanted input size room) (done_of result) }
{
    check_input(blocks, input, wanted)?;
    if room < size {
        return Err(Refusal::OutputLength);
    }
    Ok(())
}

// 1 to 4: also for the cells of an image, which is no larger than document 01's of that block count. A cell has the values below
// `values`: 2 where it is a bit, 3 where it may be lost. One scan tells this and whether a cell is lost.
pub fn check_image(
    blocks: u32,
    image: &[u8],
    values: u8,
    wanted: usize,
    room: usize,
    size: usize,
) -> Result<bool, Refusal>
    requires bit_values_le_values { bit_values ≤ values }
    requires values_le_read_values { values ≤ read_values }
    requires wanted_bound { wanted ≤ 18 * (8 * blocks + 15) }
    ensures first { FirstAnswer (image_checks values blocks wanted image.now size room) (done_of result) }
    ensures told { IfOk result (LostTold image.now) }
{
    check_sizes(blocks, image.len(), wanted, room, size)?;
    let most = track::highest(image);
    if let Some(bad) = track::first_bad_cell(image, most, values) {
        return Err(Refusal::BadCell(bad as u32));
    }
    Ok(code::is_lost(most))
}
