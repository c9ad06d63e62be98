// Functions on one track's stretch of an image.
#![tactic(auto)]

ghost use Rattle.std.specs.Prelude.{◌≡◌, ℕ, suc, ◌+◌, ◌*◌, ◌-◌, ◌/◌, ◌%◌, ◌^◌, ◌<◌, ◌≤◌, length, get_or, MatchOption};
ghost use Rattle.code.specs.Lost.{read_values};
ghost use Rattle.code.specs.Calls.{differ};
ghost use Rattle.code.specs.Numbers.{first_bad};
ghost use Rattle.code.specs.Payload.{digits};
ghost use Rattle.code.specs.Record.{sum};
ghost use Rattle.track.specs.Track.{
  Bits,
  Readings,
  known_cell,
  known,
  Added,
  Cleared,
  Copied,
  Highest,
  HighestTwo,
  Zeros,
  differing,
  Unpacked,
};

use code::Reading;

// Adds a track, modulo 2, to an accumulator, its first cell at `off`.
pub fn add_track(acc: &mut [u8], track: &[u8], off: usize)
    requires track_len { length track.now ≡ length acc.old }
    requires off_in_bounds { off ≤ length acc.old }
    requires bits { Bits acc.old }
    requires bits_2 { Bits track.now }
    ensures { Added acc.old track.now off acc.new }
{
    for k in 0..acc.len() - off {
        acc[k + off] ^= track[k];
    }
}

// Makes every cell 0: the library's `fill`, with what it leaves said cell by cell.
pub fn clear(acc: &mut [u8])
    ensures { Cleared acc.old acc.new }
{
    acc.fill(0);
}

// Copies a stretch to the start of another. It compiles to a move of memory.
pub fn copy_into(out: &mut [u8], source: &[u8])
    requires { length source.now ≤ length out.old }
    ensures { Copied source.now out.old out.new }
{
    out[..source.len()].copy_from_slice(source);
}

// A cell, and 0 where it is lost.
fn known_cell(x: u8) -> u8
    requires { x < read_values }
    ensures { result ≡ known_cell x }
{
    match code::read_cell(x) {
        Reading::One => 1,
        Reading::Zero | Reading::Lost => 0,
    }
}

// Makes a working copy of a stretch at the start of another: a lost cell is 0 in it.
pub fn copy_known(out: &mut [u8], source: &[u8])
    requires source_in_bounds { length source.now ≤ length out.old }
    requires readings { Readings source.now }
    ensures { Copied (known source.now) out.old out.new }
{
    for i in 0..source.len() {
        out[i] = known_cell(source[i]);
    }
}

// The highest byte of two stretches of the same length, or 0. The loop has two bytes a step, and compiles to twice the vectors.
fn highest_two(s: &[u8], t: &[u8]) -> u8
    requires { length t.now ≡ length s.now }
    ensures { HighestTwo s.now t.now result }
{
    let mut a: u8 = 0;
    let mut b: u8 = 0;
    for i in 0..s.len() {
        a = a.max(s[i]);
        b = b.max(t[i]);
    }
    a.max(b)
}

// The highest byte, or 0. Of 32 cells or more it is that of two parts, the first cells and the last ones, which may overlap: as many
// cells of each as make whole steps of the compiled loop. One `max` over all takes a quarter to a third more (2,063 cells: 41 ns, 33 so).
pub fn highest(s: &[u8]) -> u8
    ensures { Highest s.now result }
{
    let n = s.len();
    if n < 32 {
        return s.iter().copied().max().unwrap_or(0);
    }
    let h = 32 * ((n + 63) / 64);
    let from = n - h;
    highest_two(&s[..h], &s[from..])
}

// The number whose eight bytes are the cells from `at` on, the least significant first. It compiles to one load.
pub fn eight_at(s: &[u8], at: usize) -> u64
    requires { at + 8 ≤ length s.now }
    ensures { (k : ℕ) → k < 8 → result / 256 ^ k % 256 ≡ get_or s.now (at + k) 0 }
{
    u64::from_le_bytes([
        s[at],
        s[at + 1],
        s[at + 2],
        s[at + 3],
        s[at + 4],
        s[at + 5],
        s[at + 6],
        s[at + 7],
    ])
}

// Is every cell 0? From 8 to 64 cells are tested by eights, of which the last may overlap the one before, and others by the highest byte.
// `s.iter().all(|x| *x == 0)` tests a cell at a time (15 cells: 9 ns, 4 so; 2,063 cells: 1,050 ns, 33 so). The two tests of the length
// stand apart, so that the way of a long stretch has no third.
pub fn all_zero(s: &[u8]) -> bool
    ensures { Zeros s.now result }
{
    let n = s.len();
    if n < 8 {
        return highest(s) == 0;
    }
    if 64 < n {
        return highest(s) == 0;
    }
    for i in 0..n / 8 {
        if eight_at(s, 8 * i) != 0 {
            return false;
        }
    }
    eight_at(s, n - 8) == 0
}

// The index of the first cell that has none of the values below `values`, if there is one. The highest byte says whether there is.
pub fn first_bad_cell(s: &[u8], most: u8, values: u8) -> Option<usize>
    requires { Highest s.now most }
    ensures { MatchOption result (first_bad values s.now ≡ length s.now) (λ i. (i ≡ first_bad values s.now) × (i < length s.now)) }
{
    if most < values {
        return None;
    }
    s.iter().position(|x| values <= *x)
}

// The number of places at which two stretches of one length differ: few enough that a byte holds it.
fn count_few(a: &[u8], b: &[u8]) -> u8
    requires a_len_bound { length a.now ≤ 255 }
    requires b_len { length b.now ≡ length a.now }
    ensures { result ≡ differing a.now b.now }
{
    let mut count: u8 = 0;
    for i in 0..a.len() {
        if a[i] != b[i] {
            count += 1;
        }
    }
    count
}

// The number of places at which two stretches of one length differ. A block at a time is counted in a byte, which compiles to vectors;
// `zip(b).filter(..).count()` counts a place at a time (2,063 cells: 1,340 ns, 66 so).
pub fn count_differing(a: &[u8], b: &[u8]) -> usize
    requires { length b.now ≡ length a.now }
    ensures { result ≡ differing a.now b.now }
{
    if a.len() < 224 {
        return count_few(a, b) as usize;
    }
    let blocks = a.len() / 224;
    let mut count: usize = 0;
    for k in 0..blocks {
        let from = 224 * k;
        let to = from + 224;
        count += count_few(&a[from..to], &b[from..to]) as usize;
    }
    let from = 224 * blocks;
    count + count_few(&a[from..], &b[from..]) as usize
}

// The number whose four bytes are a, b, c and d, the least significant first. It compiles to one load. With `u32::from_le_bytes` in its
// place a loop of 16 to 27 bytes is packed without vectors (17 bytes: 16 ns, 13 so), and with eight cells in one product any (257: 220, 130).
fn four(a: u8, b: u8, c: u8, d: u8) -> u64
    requires a_bound { a < 2 }
    requires b_bound { b < 2 }
    requires c_bound { c < 2 }
    requires d_bound { d < 2 }
    ensures upper_bound { result ≤ 0x101_0101 }
    ensures value { result ≡ a + 0x100 * b + 0x1_0000 * c + 0x100_0000 * d }
{
    a as u64 + 0x100 * (b as u64) + 0x1_0000 * (c as u64) + 0x100_0000 * (d as u64)
}

// The byte whose bits are the eight cells from `at` on, the most significant first. One product gathers four cells.
pub fn pack(track: &[u8], at: usize) -> u8
    requires at_in_bounds { at + 8 ≤ length track.now }
    requires bits { Bits track.now }
    ensures { result ≡ digits 8 (λ (k : ℕ). get_or track.now (at + k) 0) }
{
    let high = four(track[at], track[at + 1], track[at + 2], track[at + 3]);
    let low = four(track[at + 4], track[at + 5], track[at + 6], track[at + 7]);
    ((high * 0x8040_2010 + low * 0x804_0201) / 0x100_0000 % 0x100) as u8
}

// The number whose eight bytes are the bits of `byte`, the most significant first. One product spreads all bits but the last.
fn spread(byte: u8) -> u64
    ensures { (k : ℕ) → k < 8 → result / 256 ^ k % 256 ≡ byte / 2 ^ (8 - suc k) % 2 }
{
    let b = byte as u64;
    (b * 0x40_2010_0804_0201 + (b << 63)) / 0x80 & 0x101_0101_0101_0101
}

// Writes the bytes of `x` to the eight cells from `at` on, the least significant first. By itself it compiles to one store.
pub fn put(track: &mut [u8], at: usize, x: u64)
    requires { at + 8 ≤ length track.old }
    ensures size { length track.new ≡ length track.old }
    ensures cells { (k : ℕ) → k < 8 → get_or track.new (at + k) 0 ≡ x / 256 ^ k % 256 }
    ensures early { (i : ℕ) → i < at → get_or track.new i 0 ≡ get_or track.old i 0 }
    ensures later { (i : ℕ) → at + 8 ≤ i → get_or track.new i 0 ≡ get_or track.old i 0 }
{
    let bytes = x.to_le_bytes();
    for k in 0..8 {
        track[at + k] = bytes[k];
    }
}

// Writes a byte's bits to the eight cells from `at` on, the most significant first.
pub fn unpack(track: &mut [u8], at: usize, byte: u8)
    requires { at + 8 ≤ length track.old }
    ensures { Unpacked track.old at byte track.new }
{
    put(track, at, spread(byte));
}
