// Encoder and reader.
#![tactic(auto)]

ghost use Rattle.std.specs.Prelude.{◌≡◌, true, ℕ, ◌+◌, ◌*◌, ◌^◌, ◌<◌, ◌≤◌, length, get_or};
ghost use Rattle.code.specs.Record.{base, data_tracks, track_length};
ghost use Rattle.code.specs.Image.{image_size, cells};
ghost use Rattle.code.specs.Sizes.{shape};
ghost use Rattle.code.specs.Promises.{Encoded, WasRead};
ghost use Rattle.code.specs.Answers.{done_of};
ghost use Rattle.track.specs.Track.{Bits};
ghost use Rattle.checks.specs.Lost.{LostTold};
ghost use Rattle.syndrome.specs.Syndrome.{Image, Tested};
ghost use Rattle.syndrome.specs.Steps.{cells_of, TailZero};
ghost use Rattle.codec.specs.Steps.{
  Sized,
  Column,
  DataStart,
  Filled,
  Filling,
  ColumnRead,
  Reading,
  TrackPut,
  DataAdded,
  ChecksPut,
  GoodRecord,
};

use code::{Refusal, Sizes, TrackSet};

// Output, sizes, payload and blocks (`Sized`) go through four functions of the encoder, each of which lends the output on: a struct that
// holds it with a fact is covered by the checker behind a `&mut` alone, and would be made by `write_by` and taken apart below it. That the sizes are document 01's, or closed, is asked where it is used alone:
// sizes in general are neither.

// Where the track begins in an image along which byte p of each block goes.
fn data_start(z: Sizes, p: usize) -> usize
    requires { p < z.t1 + z.t2 }
    ensures { DataStart (shape z) p result }
{
    let number = if p < z.t1 { p + 1 } else { p + 3 };
    number * z.track_length()
}

// ---- Encoder

// Writes byte `first` of each block of `step` bytes to a track, which is 0 before.
fn write_track(stretch: &mut [u8], payload: &[u8], first: usize, step: usize, blocks: usize)
    requires column { Column (length stretch.old) blocks step first payload.now }
    requires by_index { (m : ℕ) → m < length stretch.old → get_or stretch.old m 0 ≡ 0 }
    ensures { Filled (length stretch.old) blocks step first payload.now (cells_of stretch.new) }
{
    for b in 0..blocks {
        track::unpack(stretch, 8 * b, payload[b * step + first]);
    }
}

// Writes the data tracks, and 0 to all other tracks.
fn write_data(out: &mut [u8], z: Sizes, payload: &[u8], blocks: usize)
    requires { Sized z blocks out.old payload.now }
    ensures { Filling (shape z) blocks (z.t1 + z.t2) payload.now out.new }
{
    let width = z.t1 + z.t2;
    out.fill(0);
    for p in 0..width {
        let start = data_start(z, p);
        let end = start + z.track_length();
        write_track(&mut out[start..end], payload, p, width, blocks);
    }
}

// Writes a stretch to a track of an image.
fn put_track(out: &mut [u8], g: usize, stretch: &[u8])
    requires { g * length stretch.now + length stretch.now ≤ length out.old }
    ensures { TrackPut (length stretch.now) g stretch.now out.old out.new }
{
    let l = stretch.len();
    let start = g * l;
    let end = start + l;
    track::copy_into(&mut out[start..end], stretch);
}

// Adds the data tracks of a set to a stretch. Their tails are 0 and are left out.
fn add_data(sums: &mut [u8], image: &[u8], z: Sizes, s: TrackSet)
    requires image { Image (shape z) image.now }
    requires sums_len { length sums.old ≡ track_length (shape z) }
    requires bits { Bits sums.old }
    requires tail_zero { TailZero (shape z) (cells (shape z) image.now) s }
    ensures { DataAdded (shape z) s (data_tracks (shape z) s) image.now sums.old sums.new }
{
    let n = z.positions;
    for c in 0..z.data_tracks(s) {
        let start = z.track_number(s, c + 1) * z.track_length();
        let end = start + n;
        track::add_track(&mut sums[..n], &image[start..end], 0);
    }
}

// Writes the check tracks of a set. Track 0 is at hand, and the vertical track is the sum of it and of the data tracks.
fn write_checks(out: &mut [u8], first: &mut [u8], z: Sizes, s: TrackSet)
    requires image { Image (shape z) out.old }
    requires first_len { length first.old ≡ track_length (shape z) }
    requires bits { Bits first.old }
    requires tail_zero { TailZero (shape z) (cells (shape z) out.old) s }
    ensures { ChecksPut (shape z) s first.old out.old out.new }
{
    put_track(out, z.track_number(s, 0), first);
    add_data(first, out, z, s);
    put_track(out, z.track_number(s, z.data_tracks(s) + 1), first);
}

// Writes the good record of a payload, by way of tracks 0 of A and of B.
fn write_by(out: &mut [u8], z: Sizes, payload: &[u8], blocks: usize, a: &mut [u8], b: &mut [u8])
    requires sized { Sized z blocks out.old payload.now }
    requires is_base { shape z ≡ base blocks }
    requires a_len { length a.old ≡ track_length (shape z) }
    requires b_len { length b.old ≡ track_length (shape z) }
    ensures { GoodRecord (shape z) blocks payload.now out.new }
{
    write_data(out, z, payload, blocks);
    registers::carry(a, b, payload, blocks);
    write_checks(out, a, z, TrackSet::A);
    write_checks(out, b, z, TrackSet::B);
}

// The same, with room for tracks of N cells: fixed memory.
fn write_in<const N: usize>(out: &mut [u8], z: Sizes, payload: &[u8], blocks: usize)
    requires sized { Sized z blocks out.old payload.now }
    requires is_base { shape z ≡ base blocks }
    requires room { track_length (shape z) ≤ N }
    requires room_small { N < 2 ^ 63 }
    ensures { GoodRecord (shape z) blocks payload.now out.new }
{
    let l = z.track_length();
    let mut room_a = [0; N];
    let mut room_b = [0; N];
    write_by(out, z, payload, blocks, &mut room_a[..l], &mut room_b[..l]);
}

// The same. A short record takes less room.
fn write_record(out: &mut [u8], z: Sizes, payload: &[u8], blocks: usize)
    requires sized { Sized z blocks out.old payload.now }
    requires is_base { shape z ≡ base blocks }
    ensures { GoodRecord (shape z) blocks payload.now out.new }
{
    if z.track_length() <= 143 {
        write_in::<143>(out, z, payload, blocks);
    } else {
        write_in::<2063>(out, z, payload, blocks);
    }
}

// Encoder: the payload's good record goes to the start of the output.
pub fn encode(blocks: u32, payload: &[u8], out: &mut [u8]) -> Result<(), Refusal>
    ensures { Encoded blocks payload.now out.old (done_of result) out.new }
{
    let n = blocks as usize;
    let size = 18 * (8 * n + 15);
    checks::check_sizes(blocks, payload.len(), n * 14, out.len(), size)?;
    write_record(&mut out[..size], Sizes::of_blocks(n), payload, n);
    Ok(())
}

// ---- Reader

// Reads byte `first` of each block of `step` bytes from a track.
fn read_track(out: &mut [u8], stretch: &[u8], first: usize, step: usize, blocks: usize)
    requires column { Column (length stretch.now) blocks step first out.old }
    requires bits { Bits stretch.now }
    ensures { ColumnRead blocks step first (cells_of stretch.now) out.old out.new }
{
    for b in 0..blocks {
        out[b * step + first] = track::pack(stretch, 8 * b);
    }
}

// Reads the data tracks. (Not one function with `write_data`, nor `read_track` with `write_track`: there the tracks are written and
// here the payload, so that each loan is another; what they share is `data_start`.)
fn read_data(out: &mut [u8], z: Sizes, image: &[u8], blocks: usize)
    requires sized { Sized z blocks image.now out.old }
    requires bits { Bits image.now }
    ensures { Reading (shape z) blocks (z.t1 + z.t2) image.now out.old out.new }
{
    let width = z.t1 + z.t2;
    for p in 0..width {
        let start = data_start(z, p);
        let end = start + z.track_length();
        read_track(out, &image[start..end], p, width, blocks);
    }
}

// Is an image of bits a good record? By way of four rows of bytes.
fn good_by(image: &[u8], z: Sizes, syn: &mut [u8]) -> bool
    requires closed_value { z.closed ≡ true }
    requires image { Image (shape z) image.now }
    requires syn_len { length syn.old ≡ 4 * track_length (shape z) }
    ensures { Tested (shape z) (cells (shape z) image.now) result }
{
    sums::syndromes(image, z, syn);
    syndrome::is_good(image, syn, z)
}

// The same, with room for rows of N bytes in all: fixed memory.
fn good_in<const N: usize>(image: &[u8], z: Sizes) -> bool
    requires closed_value { z.closed ≡ true }
    requires image { Image (shape z) image.now }
    requires room { 4 * track_length (shape z) ≤ N }
    requires room_small { N < 2 ^ 63 }
    ensures { Tested (shape z) (cells (shape z) image.now) result }
{
    let mut room = [0; N];
    good_by(image, z, &mut room[..4 * z.track_length()])
}

// Is an image a good record? One with a lost cell is not. A short record takes less room.
fn image_good(image: &[u8], z: Sizes, lost: bool) -> bool
    requires closed_value { z.closed ≡ true }
    requires image_len { length image.now ≡ image_size (shape z) }
    requires lost_told { LostTold image.now lost }
    ensures { Tested (shape z) (cells (shape z) image.now) result }
{
    if lost {
        false
    } else if z.track_length() <= 143 {
        good_in::<572>(image, z)
    } else {
        good_in::<8252>(image, z)
    }
}

// Reader: the payload of a good record goes to the start of the output.
pub fn read(blocks: u32, image: &[u8], out: &mut [u8]) -> Result<(), Refusal>
    ensures { WasRead blocks image.now out.old (done_of result) out.new }
{
    let n = blocks as usize;
    let lost = checks::check_image(blocks, image, 3, 18 * (8 * n + 15), out.len(), n * 14)?;
    let z = Sizes::of_blocks(n);
    if !image_good(image, z, lost) {
        return Err(Refusal::NoRecord);
    }
    read_data(out, z, image, n);
    Ok(())
}
