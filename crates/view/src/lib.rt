// Track view.
#![tactic(auto)]

ghost use Rattle.code.specs.Promises.{Viewed};

// The stretch of track number g of the caller's own image, or an empty part.
pub fn view(blocks: u32, image: &[u8], g: u32) -> &[u8]
    ensures { Viewed blocks image.now g result.now }
{
    let l = 8 * blocks as usize + 15;
    let track = g as usize;
    if checks::check_input(blocks, image.len(), 18 * l).is_err() || 18 <= track {
        return &image[..0];
    }
    let start = track * l;
    let end = start + l;
    &image[start..end]
}
