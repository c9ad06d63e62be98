// Packing and unpacking: an image's tracks in head order, eight cells a byte.
#![tactic(auto)]

ghost use Rattle.std.specs.Prelude.{◌≡◌, ℕ, ◌+◌, ◌*◌, ◌<◌, ◌≤◌, length, get_or};
ghost use Rattle.code.specs.Payload.{digits};
ghost use Rattle.code.specs.Promises.{WasPacked, WasUnpacked};
ghost use Rattle.code.specs.Answers.{done_of};
ghost use Rattle.track.specs.Track.{Bits};
ghost use Rattle.packed.specs.Steps.{
  HeadNumber,
  TrackAt,
  BytesAt,
  PackedSized,
  Sized,
  TrackPacked,
  TracksPacked,
  PaddingTested,
  LastPut,
  TrackUnpacked,
  TracksUnpacked,
};

use code::Refusal;
use std::ops::Range;

// `p < 18` is asked of a place by three functions: a type for a place would be taken apart by each as a number.

// The number of the track at place p of head order.
fn head_number(p: usize) -> usize
    requires { p < 18 }
    ensures { HeadNumber p result }
{
    p / 2 + 9 * (p % 2)
}

// Where an image of n blocks has that track.
fn track_at(p: usize, n: usize) -> Range<usize>
    requires p_bound { p < 18 }
    requires few { n ≤ 256 }
    ensures { TrackAt n p result }
{
    let l = 8 * n + 15;
    let from = head_number(p) * l;
    from..from + l
}

// Where a packed form of n blocks has its bytes.
fn bytes_at(p: usize, n: usize) -> Range<usize>
    requires p_bound { p < 18 }
    requires few { n ≤ 256 }
    ensures { BytesAt n p result }
{
    let w = n + 2;
    let from = p * w;
    from..from + w
}

// ---- Packing

// The byte of a track's last cells, of which it has seven; a cell that is missing counts as 0.
fn last_byte(cells: &[u8]) -> u8
    requires cells_len_bound { length cells.now ≤ 8 }
    requires bits { Bits cells.now }
    ensures { result ≡ digits 8 (λ (k : ℕ). get_or cells.now k 0) }
{
    // Fixed memory.
    let mut eight = [0u8; 8];
    eight[..cells.len()].copy_from_slice(cells);
    track::pack(&eight, 0)
}

// Packs a track, the last seven cells with the padding bit.
fn pack_track(bytes: &mut [u8], stretch: &[u8])
    requires bytes_value { 8 * length bytes.old ≡ length stretch.now + 1 }
    requires bits { Bits stretch.now }
    ensures { TrackPacked stretch.now bytes.old bytes.new }
{
    let full = stretch.len() / 8;
    for j in 0..full {
        bytes[j] = track::pack(stretch, 8 * j);
    }
    bytes[full] = last_byte(&stretch[8 * full..]);
}

// Packs the tracks of an image.
fn pack_image(out: &mut [u8], image: &[u8], n: usize)
    requires sized { Sized n image.now out.old }
    requires bits { Bits image.now }
    ensures { TracksPacked n 18 image.now out.new }
{
    for p in 0..18 {
        let to = bytes_at(p, n);
        let from = track_at(p, n);
        pack_track(&mut out[to], &image[from]);
    }
}

// Packing: the packed form of an image goes to the start of the output.
pub fn pack(blocks: u32, image: &[u8], out: &mut [u8]) -> Result<(), Refusal>
    ensures { WasPacked blocks image.now out.old (done_of result) out.new }
{
    let n = blocks as usize;
    let size = 18 * (n + 2);
    checks::check_image(blocks, image, 2, 18 * (8 * n + 15), out.len(), size)?;
    pack_image(&mut out[..size], image, n);
    Ok(())
}

// ---- Unpacking

// Is a padding bit 1?
// By `any` over `chunks_exact` it took 162 instructions, and by this loop 58, of the 1142 of unpacking one block.
pub fn padding_set(packed: &[u8], n: usize) -> bool
    requires { PackedSized n packed.now }
    ensures { PaddingTested n packed.now result }
{
    let w = n + 2;
    let mut found = false;
    for p in 0..18 {
        if packed[p * w + (n + 1)] % 2 == 1 {
            found = true;
        }
    }
    found
}

// Writes the first bits of a byte to a track's last cells, of which it has seven.
fn put_last(cells: &mut [u8], byte: u8)
    requires { length cells.old ≤ 8 }
    ensures { LastPut byte cells.old cells.new }
{
    let n = cells.len();
    // Fixed memory.
    let mut eight = [0u8; 8];
    track::unpack(&mut eight, 0, byte);
    cells.copy_from_slice(&eight[..n]);
}

// Unpacks a track.
fn unpack_track(stretch: &mut [u8], bytes: &[u8])
    requires { 8 * length bytes.now ≡ length stretch.old + 1 }
    ensures { TrackUnpacked bytes.now stretch.old stretch.new }
{
    let full = stretch.len() / 8;
    for j in 0..full {
        track::unpack(stretch, 8 * j, bytes[j]);
    }
    put_last(&mut stretch[8 * full..], bytes[full]);
}

// Unpacks the tracks of an image: the loop of `pack_image` the other way. One for both would be passed the two ranges and the call as
// functions, with their contracts, in place of three lines.
fn unpack_image(out: &mut [u8], packed: &[u8], n: usize)
    requires { Sized n out.old packed.now }
    ensures { TracksUnpacked n 18 packed.now out.new }
{
    for p in 0..18 {
        let to = track_at(p, n);
        let from = bytes_at(p, n);
        unpack_track(&mut out[to], &packed[from]);
    }
}

// Unpacking: the image of a packed form goes to the start of the output.
pub fn unpack(blocks: u32, packed: &[u8], out: &mut [u8]) -> Result<(), Refusal>
    ensures { WasUnpacked blocks packed.now out.old (done_of result) out.new }
{
    let n = blocks as usize;
    let size = 18 * (8 * n + 15);
    checks::check_sizes(blocks, packed.len(), 18 * (n + 2), out.len(), size)?;
    if padding_set(packed, n) {
        return Err(Refusal::Padding);
    }
    unpack_image(&mut out[..size], packed, n);
    Ok(())
}
