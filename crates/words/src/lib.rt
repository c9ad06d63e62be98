// Cells in words, 64 to a word: shifted, divided, loaded from bytes and written to them.
#![tactic(auto)]

ghost use Rattle.std.specs.Prelude.{◌≡◌, ℕ, ◌+◌, ◌*◌, ◌<◌, ◌≤◌, length, get_or};
ghost use Rattle.track.specs.Track.{Bits};
ghost use Rattle.words.specs.Words.{
  bit,
  Window,
  First,
  Quotient,
  Fed,
  Swapped,
  Packed,
  Unloaded,
  Spread,
};

// ---- One word

// The 64 cells from `at` on.
pub fn window(ws: &[u64], at: usize) -> u64
    requires { at + 64 < 64 * length ws.now }
    ensures { Window ws.now at result }
{
    let i = at / 64;
    let k = at % 64;
    (ws[i] >> k) ^ (ws[i + 1] << 1 << (63 - k))
}

// The first n cells, and 0 from there on.
pub fn first_cells(w: u64, n: usize) -> u64
    ensures { First w n result }
{
    if 64 <= n {
        return w;
    }
    if n == 0 {
        return 0;
    }
    let rest = 64 - n;
    (w << rest) >> rest
}

// Divides a word by 1 + D^d: the steps double, so that no range has them.
fn divide_word(word: u64, d: usize) -> u64
    requires d_nonzero { 0 < d }
    requires d_bound { d < 64 }
    ensures { Quotient word d result }
{
    let mut w = word;
    let mut s = d;
    while s < 64 {
        w ^= w << s;
        s += s;
    }
    w
}

// The word of a quotient by 1 + D^d that follows the word `prior` of it, of which the cells from n on do not count again.
pub fn quotient_word(r: u64, prior: u64, d: usize, n: usize) -> u64
    requires { 0 < d }
    ensures { Fed r prior d n result }
{
    if 64 <= d {
        return r;
    }
    let fed = r ^ (prior >> (64 - d));
    let whole = divide_word(fed, d);
    // Where all cells count again, the quotient is the word.
    if 64 <= n {
        return whole;
    }
    fed ^ (first_cells(whole, n) << d)
}

// ---- Loading

// That a stretch has bits alone is asked by the three functions that read it: cells are lent as bytes, as C has them.

// Exchanges, in pairs, the bits of the mask and those `s` positions above them.
fn swap_bits(x: u64, s: usize, mask: u64) -> u64
    requires { s < 64 }
    ensures { Swapped x s mask result }
{
    let t = (x ^ (x >> s)) & mask;
    x ^ (t ^ (t << s))
}

// Row b and column c of 8 by 8 bits become row c and column b.
fn transpose(x: u64) -> u64
    ensures { (b c : ℕ) → b < 8 → c < 8 → bit result (8 * c + b) ≡ bit x (8 * b + c) }
{
    let pairs = swap_bits(x, 7, 0xaa_00aa_00aa_00aa);
    let fours = swap_bits(pairs, 14, 0xcccc_0000_cccc);
    swap_bits(fours, 28, 0xf0f0_f0f0)
}

// The word of 64 cells.
fn full_word(stretch: &[u8], at: usize) -> u64
    requires at_in_bounds { at + 64 ≤ length stretch.now }
    requires bits { Bits stretch.now }
    ensures { Packed stretch.now at result }
{
    let mut x: u64 = 0;
    for k in 0..8 {
        x ^= track::eight_at(stretch, at + 8 * k) << k;
    }
    transpose(x)
}

// The word of the cells from `at` to the end, fewer than 64.
fn rest_word(stretch: &[u8], at: usize) -> u64
    requires at_in_bounds { at ≤ length stretch.now }
    requires stretch_len_bound { length stretch.now < at + 64 }
    requires bits { Bits stretch.now }
    ensures { Packed stretch.now at result }
{
    let mut w: u64 = 0;
    for (k, x) in stretch[at..].iter().enumerate() {
        w ^= (*x as u64) << k;
    }
    w
}

// Word i of a stretch's cells.
pub fn word_of(stretch: &[u8], i: usize) -> u64
    requires { Bits stretch.now }
    ensures { (j m : ℕ) → j < 64 → i * 64 + j ≡ m → bit result j ≡ get_or stretch.now m 0 }
{
    let full = stretch.len() / 64;
    if i < full {
        return full_word(stretch, i * 64);
    }
    if i == full {
        return rest_word(stretch, i * 64);
    }
    0
}

// ---- Unloading

// Writes the cells of a word from `at` on, a byte each.
fn unload_word(cells: &mut [u8], at: usize, w: u64)
    requires { at + 64 ≤ length cells.old }
    ensures { Unloaded cells.old at w cells.new }
{
    let t = transpose(w);
    for k in 0..8 {
        track::put(cells, at + 8 * k, (t >> k) & 0x101_0101_0101_0101);
    }
}

// Writes the cells of words, a byte each.
pub fn unload(words: &[u64], cells: &mut [u8])
    requires { length cells.old ≡ 64 * length words.now }
    ensures { Spread words.now cells.old cells.new }
{
    for (i, w) in words.iter().enumerate() {
        unload_word(cells, 64 * i, *w);
    }
}
