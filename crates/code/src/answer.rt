// What a call answers.
#![tactic(auto)]

ghost use Rattle.std.specs.Prelude.{◌≡◌};
ghost use Rattle.code.specs.Answers.{refused_of, counted_of, stretch_of, written_of};

use crate::{Counted, Span, Stretch, Written};

// What repair and tracing answer with 0: the changed mask and cells, and the extra of each set: none, or one with its track number.
#[derive(Clone, Copy)]
pub struct Answer {
    pub mask: u32,
    pub cells: u32,
    pub a: Option<u32>,
    pub b: Option<u32>,
}

// Why a call is refused: the numbers of document 01, and those that document 02 adds.
#[derive(Clone, Copy)]
pub enum Refusal {
    // 1: the block count.
    BlockCount,
    // 2: the input's length.
    InputLength,
    // 3: the output is shorter than the result.
    OutputLength,
    // 4: a cell that is none, by its index.
    BadCell(u32),
    // 5: the flag word.
    FlagWord,
    // 6: too many flags.
    TooMany,
    // 7: no good record is in reach, or the image is not good.
    NoRecord,
    // 8: a padding bit is 1.
    Padding,
    // 9: the table of pairs.
    Table,
    // 10: the cartridge file.
    File,
    // 11: no room for the entries.
    Room,
    // 12: the ceiling.
    Ceiling,
}

impl Refusal {
    // Its number. (A `match`: a variant that carries an index has no number of its own in the language.)
    pub fn number(self) -> u32
        ensures { result ≡ (refused_of self).answer }
    {
        match self {
            Refusal::BlockCount => 1,
            Refusal::InputLength => 2,
            Refusal::OutputLength => 3,
            Refusal::BadCell(_) => 4,
            Refusal::FlagWord => 5,
            Refusal::TooMany => 6,
            Refusal::NoRecord => 7,
            Refusal::Padding => 8,
            Refusal::Table => 9,
            Refusal::File => 10,
            Refusal::Room => 11,
            Refusal::Ceiling => 12,
        }
    }

    // Its detail: 0 except for number 4.
    pub fn detail(self) -> u32
        ensures { result ≡ (refused_of self).detail }
    {
        match self {
            Refusal::BadCell(index) => index,
            _ => 0,
        }
    }
}

// What the calls on cartridge files answer, as C has it: 0 with what was asked for, or a number.
impl From<Result<u32, Refusal>> for Counted {
    ghost from_gives = { λ r c. c ≡ counted_of r };

    fn from(counted: Result<u32, Refusal>) -> Counted {
        match counted {
            Ok(entries) => Counted { answer: 0, entries },
            Err(e) => Counted {
                answer: e.number(),
                entries: 0,
            },
        }
    }
}

impl From<Result<Span, Refusal>> for Stretch {
    ghost from_gives = { λ r c. c ≡ stretch_of r };

    fn from(found: Result<Span, Refusal>) -> Stretch {
        match found {
            Ok(Span { offset, length }) => Stretch {
                answer: 0,
                offset,
                length,
            },
            Err(e) => Stretch {
                answer: e.number(),
                offset: 0,
                length: 0,
            },
        }
    }
}

impl From<Result<u32, Refusal>> for Written {
    ghost from_gives = { λ r c. c ≡ written_of r };

    fn from(written: Result<u32, Refusal>) -> Written {
        match written {
            Ok(length) => Written { answer: 0, length },
            Err(e) => Written {
                answer: e.number(),
                length: 0,
            },
        }
    }
}
