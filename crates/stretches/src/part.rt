// Parts of the positions.
#![tactic(auto)]

ghost use Rattle.std.specs.Prelude.{◌≡◌, true, ◌<◌, ◌≤◌, IsTrue, IsFalse};
ghost use Rattle.code.specs.Record.{track_length};
ghost use Rattle.code.specs.Sizes.{shape};

use code::Sizes;

// The positions of a record from one up to another: positions of the data, or positions of the tail, which is closed.
#[derive(Clone, Copy)]
pub struct Part {
    pub z: Sizes,
    pub from: usize,
    pub to: usize,
    pub ghost closed: { z.closed ≡ true },
    pub ghost order: { from ≤ to },
    pub ghost inside: { to ≤ track_length (shape z) },
    pub ghost one_side: { from < z.positions → to ≤ z.positions },
}

impl Part {
    // Are these positions of the data?
    pub fn in_data(self) -> bool
        ensures data { IsTrue result → self.to ≤ self.z.positions }
        ensures tail { IsFalse result → self.z.positions ≤ self.from }
    {
        self.from < self.z.positions
    }
}
