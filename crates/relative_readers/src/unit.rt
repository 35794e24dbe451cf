// Units of time.

ghost use Rattle.std.specs.Prelude.{◌≡◌, ℕ, List};
ghost use Rattle.primitive.specs.Answer.{found_at};
ghost use Rattle.relative.specs.Relative.{days};
ghost use Rattle.relative_readers.specs.Unit.{times};

use relative::Relative;

#[derive(Clone, Copy, Debug, PartialEq, Eq)]
pub enum Unit {
    Year,
    Month,
    Fortnight,
    Week,
    Day,
    Hour,
    Minute,
    Second,
}

impl Unit {
    // So many units. Weeks and fortnights are days; a number of days that no i32 holds is no match.
    #[tactic(auto, unfolding(crate::specs::Unit::times))]
    pub fn times(self, n: i32) -> Option<Relative>
        ensures { (text : List ℕ) (at : ℕ) → found_at at result ≡ times self n text at }
    {
        match self {
            Unit::Year => Some(Relative::Years(n)),
            Unit::Month => Some(Relative::Months(n)),
            Unit::Fortnight => days(n, 14),
            Unit::Week => days(n, 7),
            Unit::Day => Some(Relative::Days(n)),
            Unit::Hour => Some(Relative::Hours(n)),
            Unit::Minute => Some(Relative::Minutes(n)),
            Unit::Second => Some(Relative::Seconds(i64::from(n), 0)),
        }
    }
}

// A unit of `worth` days, n times.
#[tactic(auto, using(relative::proofs::Signed::days_fit, relative::proofs::Signed::days_over), unfolding(relative::specs::Relative::days))]
fn days(n: i32, worth: u8) -> Option<Relative>
    ensures { (text : List ℕ) (at : ℕ) → found_at at result ≡ days worth n text at }
{
    let total = n.checked_mul(i32::from(worth))?;
    Some(Relative::Days(total))
}
