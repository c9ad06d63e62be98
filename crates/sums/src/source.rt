// What the sums of an image are made from.
#![tactic(auto)]

ghost use Rattle.sums.specs.Edge.{Padding};

use code::Sizes;

// An image of bits, and its tracks' first cells behind zeros.
#[derive(Clone, Copy)]
pub struct Source<'a> {
    pub z: Sizes,
    pub image: &'a [u8],
    pub padded: &'a [u8],
    pub ghost padding: { Padding z image.now padded.now },
}
