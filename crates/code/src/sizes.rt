// The two sets of tracks, and the sizes of a record.
#![tactic(auto)]

ghost use Rattle.std.specs.Prelude.{◌≤◌};

// The two sets of tracks.
#[derive(Clone, Copy, PartialEq, Eq)]
pub enum TrackSet {
    A,
    B,
}

impl TrackSet {
    ghost use Rattle.std.specs.Prelude.{◌≡◌};
    ghost use Rattle.code.specs.Record.{other, row_of};

    // The other set.
    pub fn other(self) -> TrackSet
        ensures { result ≡ other self }
    {
        match self {
            TrackSet::A => TrackSet::B,
            TrackSet::B => TrackSet::A,
        }
    }

    // Its row in a table of both: A's is the first.
    pub fn row(self) -> usize
        ensures { result ≡ row_of self }
    {
        match self {
            TrackSet::A => 0,
            TrackSet::B => 1,
        }
    }
}

// The data tracks of set A and of set B, the data positions, and whether the tail is closed. The sizes of document 01 are the largest:
// 7 data tracks a set and 256 blocks. (`closed` is a truth value beside the numbers, and none of them depends on it: an enum of two would say no more.)
#[derive(Clone, Copy)]
pub struct Sizes {
    pub t1: usize,
    pub t2: usize,
    pub positions: usize,
    pub closed: bool,
    pub ghost t1_small: { t1 ≤ 7 },
    pub ghost t2_small: { t2 ≤ 7 },
    pub ghost positions_small: { positions ≤ 2048 },
}

impl Sizes {
    ghost use Rattle.std.specs.Prelude.{◌≡◌, ◌+◌, ◌*◌, ◌<◌, ◌≤◌};
    ghost use Rattle.code.specs.Record.{base, lag, track_length, data_tracks, tracks, vertical_end, tail_tracks};
    ghost use Rattle.code.specs.Heads.{slope};
    ghost use Rattle.code.specs.Image.{track_number, all_tracks, image_size};
    ghost use Rattle.code.specs.Sizes.{shape};

    // Document 01's, of a number of blocks.
    pub fn of_blocks(blocks: usize) -> Sizes
        requires { blocks ≤ 256 }
        ensures { shape result ≡ base blocks }
    {
        Sizes {
            t1: 7,
            t2: 7,
            positions: 8 * blocks,
            closed: true,
        }
    }

    // The diagonals' lag, which is the tail's length too.
    pub fn lag(self) -> usize
        ensures { result ≡ lag (shape self) }
    {
        self.t1 + self.t2 + 1
    }

    // The cells of a track.
    pub fn track_length(self) -> usize
        ensures { result ≡ track_length (shape self) }
    {
        self.positions + self.lag()
    }

    // The number of data tracks of a set.
    pub fn data_tracks(self, s: TrackSet) -> usize
        ensures is { result ≡ data_tracks (shape self) s }
        ensures small { result ≤ 7 }
    {
        match s {
            TrackSet::A => self.t1,
            TrackSet::B => self.t2,
        }
    }

    // The number of tracks of a set.
    pub fn tracks(self, s: TrackSet) -> usize
        ensures { result ≡ tracks (shape self) s }
    {
        self.data_tracks(s) + 2
    }

    // The number of tracks of both sets.
    pub fn all_tracks(self) -> usize
        ensures { result ≡ all_tracks (shape self) }
    {
        self.t1 + self.t2 + 4
    }

    // The track number of track t of a set, and an image has that track.
    pub fn track_number(self, s: TrackSet, t: usize) -> usize
        requires { t < tracks (shape self) s }
        ensures is { result ≡ track_number (shape self) s t }
        ensures in_image { result * track_length (shape self) + track_length (shape self) ≤ image_size (shape self) }
    {
        match s {
            TrackSet::A => t,
            TrackSet::B => self.t1 + 2 + t,
        }
    }

    // How many positions back the diagonal of set d has track t of set s.
    pub fn slope(self, d: TrackSet, s: TrackSet, t: usize) -> usize
        requires { t ≤ data_tracks (shape self) s }
        ensures { result ≡ slope (shape self) d s t }
    {
        if s == d { t } else { self.lag() - t }
    }

    // Rule 3 holds at the positions before this one.
    pub fn vertical_end(self) -> usize
        ensures { result ≡ vertical_end (shape self) }
    {
        if self.closed {
            self.track_length()
        } else {
            self.positions
        }
    }

    // The tracks of a set from 1 up to this one, itself not among them, are 0 in the tail.
    pub fn tail_tracks(self, s: TrackSet) -> usize
        ensures { result ≡ tail_tracks (shape self) s }
    {
        let count = self.data_tracks(s);
        if self.closed { count + 1 } else { count + 2 }
    }
}
