// The flagged tracks of a record, sorted: each set's highest is its pivot, and the tracks below the pivots are at most two.
#![tactic(auto)]

ghost use Rattle.std.specs.Prelude.{◌≡◌, ◌≤◌, length};
ghost use Rattle.code.specs.Image.{all_tracks};
ghost use Rattle.code.specs.Flags.{flag_count};
ghost use Rattle.code.specs.Sizes.{shape};
ghost use Rattle.solver.specs.Solver.{marked_by};
ghost use Rattle.plans.specs.Plans.{
  place,
  ThreeOf,
  Inserted,
  pivot_at,
  second_at,
  Sorted,
  Formed,
};

use code::{Sizes, TrackSet};
use solver::Mark;

// The flagged tracks of a set, three at the most, the highest first.
#[derive(Clone, Copy)]
pub struct Three {
    pub high: Option<usize>,
    pub middle: Option<usize>,
    pub low: Option<usize>,
}

// One flagged track more, where there is room for it, or none.
pub fn insert(x: Three, e: Option<usize>) -> Three
    ensures { Inserted x e result }
{
    if x.high < e {
        return Three {
            high: e,
            middle: x.high,
            low: x.middle,
        };
    }
    if x.middle < e {
        return Three {
            high: x.high,
            middle: e,
            low: x.middle,
        };
    }
    if x.low < e {
        return Three {
            high: x.high,
            middle: x.middle,
            low: e,
        };
    }
    x
}

// The marked tracks of a set, three at the most.
pub fn find_three<M: Mark>(marks: &[M], z: Sizes, s: TrackSet) -> Three
    requires z_in_bounds { all_tracks (shape z) ≤ length marks.now }
    requires s_bound_2 { flag_count (shape z) (marked_by M.counts M.none (shape z) marks.now) s ≤ 3 }
    ensures { ThreeOf (shape z) (marked_by M.counts M.none (shape z) marks.now) s result }
{
    let first = z.track_number(s, 0);
    let mut x = Three {
        high: None,
        middle: None,
        low: None,
    };
    for t in 0..z.tracks(s) {
        if marks[first + t].is_set() {
            x = insert(x, Some(t));
        }
    }
    x
}

// The pivot of a set, and the cells up to which it may be wrong.
#[derive(Clone, Copy)]
pub struct Pivot {
    pub track: usize,
    pub room: usize,
}

// Track t of a set.
#[derive(Clone, Copy)]
pub struct Track {
    pub s: TrackSet,
    pub t: usize,
}

// The flagged tracks below the pivots. Of two in one set v is the lower one; of one in each set it is in the set with fewer data tracks.
#[derive(Clone, Copy)]
pub enum Below {
    None,
    One(Track),
    Two { v: Track, u: Track },
}

// The pivots of A and of B, and the tracks below them.
#[derive(Clone, Copy)]
pub struct Form {
    pub a: Pivot,
    pub b: Pivot,
    pub below: Below,
}

impl Form {
    ghost use Rattle.plans.specs.Plans.{pivot, room};

    // The pivot of a set.
    pub fn pivot(self, s: TrackSet) -> Pivot
        ensures track { result.track ≡ pivot self s }
        ensures room { result.room ≡ room self s }
    {
        match s {
            TrackSet::A => self.a,
            TrackSet::B => self.b,
        }
    }
}

// The pivot of a set with this highest flagged track; the vertical track, where there is none, and where the tail is open and it is track 0.
fn pivot_of(z: Sizes, s: TrackSet, e: Option<usize>) -> Pivot
    ensures { result ≡ pivot_at (shape z) s (place e) }
{
    let count = z.data_tracks(s);
    let none = Pivot {
        track: count + 1,
        room: 0,
    };
    match e {
        None => none,
        Some(0) if !z.closed => none,
        Some(0) => Pivot {
            track: 0,
            room: z.track_length(),
        },
        Some(t) if t <= count => Pivot {
            track: t,
            room: z.positions,
        },
        Some(t) => Pivot {
            track: t,
            room: z.vertical_end(),
        },
    }
}

// The highest track below a set's pivot.
fn second_of(z: Sizes, x: Three) -> Option<usize>
    ensures { place result ≡ second_at (shape z).closing (place x.high) (place x.middle) }
{
    match x.high {
        Some(0) if !z.closed => x.high,
        _ => x.middle,
    }
}

// The form of the flagged tracks x of A and y of B.
pub fn form_of(z: Sizes, x: Three, y: Three) -> Form
    requires sorted { Sorted x }
    requires sorted_2 { Sorted y }
    ensures { Formed z x y result }
{
    let a = pivot_of(z, TrackSet::A, x.high);
    let b = pivot_of(z, TrackSet::B, y.high);
    // A lowest track has a middle one above it.
    if let Some(v) = x.low {
        let s = TrackSet::A;
        let u = x.middle.unwrap();
        let below = Below::Two {
            v: Track { s, t: v },
            u: Track { s, t: u },
        };
        return Form { a, b, below };
    }
    if let Some(v) = y.low {
        let s = TrackSet::B;
        let u = y.middle.unwrap();
        let below = Below::Two {
            v: Track { s, t: v },
            u: Track { s, t: u },
        };
        return Form { a, b, below };
    }
    let below = match (second_of(z, x), second_of(z, y)) {
        (None, None) => Below::None,
        (None, Some(t)) => Below::One(Track { s: TrackSet::B, t }),
        (Some(t), None) => Below::One(Track { s: TrackSet::A, t }),
        (Some(i), Some(j)) => {
            let i = Track {
                s: TrackSet::A,
                t: i,
            };
            let j = Track {
                s: TrackSet::B,
                t: j,
            };
            if z.t2 < z.t1 {
                Below::Two { v: j, u: i }
            } else {
                Below::Two { v: i, u: j }
            }
        }
    };
    Form { a, b, below }
}
