// Marks of tracks.
#![tactic(auto)]

ghost use Rattle.std.specs.Prelude.{◌≡◌, Bool, false, eqb};

// A mark of a track: a truth value, or a byte, 1 for a marked track and any other for none.
pub trait Mark: Copy {
    // Which values stand for a marked track.
    ghost counts: { Self → Bool };

    // What stands for the marks past the end of a list: none.
    ghost none: { Self };

    // Does it mark its track?
    fn is_set(self) -> bool
        ensures { result ≡ counts self };
}

impl Mark for bool {
    ghost counts = { λ m. m };

    ghost none = { false };

    #[inline]
    fn is_set(self) -> bool {
        self
    }
}

impl Mark for u8 {
    ghost counts = { λ m. eqb m 1 };

    ghost none = { 0 };

    #[inline]
    fn is_set(self) -> bool {
        self == 1
    }
}
