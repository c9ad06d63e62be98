// What the errors are found from.
#![tactic(auto)]

ghost use Rattle.std.specs.Prelude.{◌≤◌};
ghost use Rattle.code.specs.Record.{track_length};
ghost use Rattle.code.specs.Sizes.{shape};
ghost use Rattle.plans.specs.Plans.{Sized};
ghost use Rattle.errors.specs.Rows.{Rows};
ghost use Rattle.errors.specs.Sizing.{sized_prop};

use code::Sizes;
use plans::Form;

// The rows of sums of a record, where rule 3 ends, and the form of the flagged tracks.
#[derive(Clone, Copy)]
pub struct Work<'a> {
    pub rows: &'a [u64],
    pub z: Sizes,
    pub end: usize,
    pub form: Form,
    pub ghost end_data: { z.positions ≤ end },
    pub ghost end_small: { end ≤ track_length (shape z) },
    pub ghost sized: { Sized (shape z) form } by { sized_prop (shape z) form },
    pub ghost sums: { Rows 4 rows.now },
}
