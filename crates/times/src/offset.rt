// Offsets from UTC, as in items/offset.rs: hours and minutes, which of them are read, and what they come to.
//
// Numbers are widened by `as` in sums and products, where `from` in each term is no plainer; that one fits where `as` narrows it is proved.

ghost use Rattle.std.specs.Prelude.{◌≡◌, ◌<◌};
ghost use Rattle.times.specs.Offset.{in_range, moved, normalized, total_seconds};

// A distance from UTC; `negative` is west of it.
#[derive(Clone, Copy)]
pub struct Offset {
    pub negative: bool,
    pub hours: u8,
    pub minutes: u8,
}

// An offset whose hours are within the accepted range, and the hours by which the clock has to move to make up for it.
#[derive(Clone, Copy)]
pub struct Normalized {
    pub offset: Offset,
    pub hour_adjustment: i64,
}

impl Offset {
    // Hours above 23 become 23, unless they are 24 and no minutes, and the clock moves by the rest.
    #[tactic(auto, using(crate::proofs::Signed::days))]
    pub fn normalize(self) -> Normalized
        ensures { result ≡ normalized self }
    {
        if self.hours < 24 {
            return Normalized {
                offset: self,
                hour_adjustment: 0,
            };
        }
        if 24 < self.hours {
            return self.moved();
        }
        if self.minutes == 0 {
            return Normalized {
                offset: self,
                hour_adjustment: 0,
            };
        }
        self.moved()
    }

    // 23 hours, and the rest for the clock: forward for an offset that is negative.
    fn moved(self) -> Normalized
        requires { 23 < self.hours }
        ensures { result ≡ moved self }
    {
        let offset = Offset {
            negative: self.negative,
            hours: 23,
            minutes: self.minutes,
        };
        let more = self.hours - 23;
        if self.negative {
            return Normalized {
                offset,
                hour_adjustment: more as i64,
            };
        }
        Normalized {
            offset,
            hour_adjustment: 0 - (more as i64),
        }
    }

    pub fn total_seconds(self) -> i32
        ensures { result ≡ total_seconds self }
    {
        let secs = (self.hours as u32) * 3600 + (self.minutes as u32) * 60;
        if self.negative {
            0 - (secs as i32)
        } else {
            secs as i32
        }
    }
}

// Whether hours and minutes are those of an offset that is read: the Rust's `try_from`.
#[tactic(auto, using(crate::proofs::Offsets::offsets))]
pub fn in_range(hours: u64, minutes: u64) -> bool
    ensures { result ≡ in_range hours minutes }
{
    if 24 < hours {
        return false;
    }
    if 60 < minutes {
        return false;
    }
    if hours == 24 {
        return minutes == 0;
    }
    true
}
