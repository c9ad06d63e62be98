// The sizes of a record, the table of reach codes and what they allow, what reading a cell yields, a pair of a table of stretches, and what a call answers.
#![tactic(auto)]

ghost use Rattle.std.specs.Prelude.{◌≡◌, ◌<◌};
ghost use Rattle.code.specs.Lost.{byte_of, read_values, is_lost};
ghost use Rattle.code.specs.Reach.{reach_code};

mod answer;
mod sizes;

pub use answer::{Answer, Refusal};
pub use sizes::{Sizes, TrackSet};

// The code of a flagged tracks in set A and b in set B, a by row and b along it.
pub const REACH: [[u8; 10]; 10] = [
    [5, 4, 2, 1, 0, 0, 0, 0, 0, 0],
    [4, 4, 1, 1, 0, 0, 0, 0, 0, 0],
    [3, 1, 1, 0, 0, 0, 0, 0, 0, 0],
    [1, 1, 0, 0, 0, 0, 0, 0, 0, 0],
    [0, 0, 0, 0, 0, 0, 0, 0, 0, 0],
    [0, 0, 0, 0, 0, 0, 0, 0, 0, 0],
    [0, 0, 0, 0, 0, 0, 0, 0, 0, 0],
    [0, 0, 0, 0, 0, 0, 0, 0, 0, 0],
    [0, 0, 0, 0, 0, 0, 0, 0, 0, 0],
    [0, 0, 0, 0, 0, 0, 0, 0, 0, 0],
];

// The table's code for two flag counts; pairs beyond the table have code 0.
pub fn reach_code(a: usize, b: usize) -> u8
    ensures { result ≡ reach_code a b }
{
    if a < 10 && b < 10 { REACH[a][b] } else { 0 }
}

// The extra tracks that are allowed, in A, in B and in all.
#[derive(Clone, Copy)]
pub struct Reach {
    pub a: usize,
    pub b: usize,
    pub all: usize,
}

// What reading a cell yields: a bit, 0 or 1, or a cell that the drive could not read.
#[derive(Clone, Copy)]
pub enum Reading {
    Zero,
    One,
    Lost,
}

// The reading of a cell. Here alone is it decided. (No `TryFrom`: a byte above 2 is refused by number 4 before, so that this cannot fail.)
pub fn read_cell(x: u8) -> Reading
    requires { x < read_values }
    ensures { byte_of result ≡ x }
{
    match x {
        0 => Reading::Zero,
        1 => Reading::One,
        _ => Reading::Lost,
    }
}

// Is a cell lost?
pub fn is_lost(x: u8) -> bool
    requires { x < read_values }
    ensures { result ≡ is_lost x }
{
    matches!(read_cell(x), Reading::Lost)
}

// A pair of a table: the index of a stretch's first cell in the image, and the number of its cells.
#[repr(C)]
#[derive(Clone, Copy)]
pub struct Span {
    pub offset: u32,
    pub length: u32,
}

// What the writer of a cartridge file answers: 0 or a number, and the file's length.
#[repr(C)]
#[derive(Clone, Copy)]
pub struct Written {
    pub answer: u32,
    pub length: u32,
}

// What the reader of a cartridge file answers: 0 or a number, and an entry as a stretch of the file.
#[repr(C)]
#[derive(Clone, Copy)]
pub struct Stretch {
    pub answer: u32,
    pub offset: u32,
    pub length: u32,
}

// 0 or a number, and how many entries a cartridge file has.
#[repr(C)]
#[derive(Clone, Copy)]
pub struct Counted {
    pub answer: u32,
    pub entries: u32,
}
