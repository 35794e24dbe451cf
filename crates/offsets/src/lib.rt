// The readers of offsets from UTC, as in items/offset.rs: a sign with hours and minutes. Zone names are not read. The definitions and laws are
// in `times`.
//
// - An offset out of range stops the reading: more than 24 hours, more than 60 minutes, or minutes beside 24 hours. So +24:00 and
//   +23:60 are read, and +24:01 is not.
// - `timezone_offset` yields to a relative item, `time_zone_correction` does not: `10:00 +2 hours` is 10:00 at +02:00, and `hours`.

#![tactic(auto)]

ghost use Rattle.std.specs.Prelude.{◌≡◌, []};
ghost use Rattle.primitive.specs.Text.{lowered};
ghost use Rattle.primitive.specs.Answer.{lossy_answer, stop_answer, or_else};
ghost use Rattle.relative.specs.Relative.{parse};
ghost use Rattle.times.specs.Offset.{without, offset_of, digits_offset, signed_fraction, time_zone_correction, any_offset, timezone_offset};
ghost use Rattle.times.specs.Fronts.{colon_offset, colonless_offset};

use primitive::Miss;
use times::offset::Offset;

// The correction that follows a time of day. A unit of time after it changes nothing: `12:00 +3 hours` is 12:00 at +03:00, and `hours`.
// A number with a fraction is no correction: `12:00 +1.5 seconds`.
#[tactic(auto, using(times::proofs::Offsets::offsets), unfolding(times::specs::Offset::time_zone_correction))]
pub fn time_zone_correction(s: &[u8], at: usize) -> Result<(Offset, usize), Miss>
    ensures { stop_answer result ≡ time_zone_correction (lowered s.now) at }
{
    match any_offset(s, at) {
        Err(Miss::NoMatch) => Err(Miss::NoMatch),
        read => unless(signed_fraction(s, at), read),
    }
}

// What was read, or no match where another reader found something.
fn unless<T: Copy>(
    found: Option<(T, usize, bool)>,
    read: Result<(Offset, usize), Miss>,
) -> Result<(Offset, usize), Miss>
    ensures { stop_answer result ≡ without (lossy_answer found) (stop_answer read) }
{
    if found.is_some() {
        return Err(Miss::NoMatch);
    }
    read
}

// A number with a sign and a fraction.
#[tactic(auto, using(times::proofs::Offsets::offsets), unfolding(times::specs::Offset::signed_fraction))]
fn signed_fraction(s: &[u8], at: usize) -> Option<(u32, usize, bool)>
    ensures { lossy_answer result ≡ signed_fraction (lowered s.now) at }
{
    let (_, at) = spaces::plus_or_minus(s, at)?;
    let (_, at) = primitive::dec_uint_str(s, spaces::space(s, at))?;
    epoch::fraction(s, at)
}

// An offset, unless a relative item is there: `+8 years` is no offset. The relative item is looked for only where there is an offset,
// or one out of range.
#[tactic(auto, using(times::proofs::Offsets::offsets), unfolding(times::specs::Offset::timezone_offset))]
pub fn timezone_offset(s: &[u8], start: usize) -> Result<(Offset, usize), Miss>
    ensures { stop_answer result ≡ timezone_offset (lowered s.now) start }
{
    match any_offset(s, start) {
        Err(Miss::NoMatch) => Err(Miss::NoMatch),
        read => unless(relative_readers::parse(s, start), read),
    }
}

// An offset in either form. The sign is read once.
#[tactic(auto, using(primitive::proofs::Shared::shared_chain), unfolding(times::specs::Offset::any_offset, times::specs::Offset::timezone_offset_colon, times::specs::Offset::timezone_offset_colonless, times::specs::Fronts::colon_offset, times::specs::Fronts::colonless_offset))]
fn any_offset(s: &[u8], at: usize) -> Result<(Offset, usize), Miss>
    ensures { stop_answer result ≡ any_offset (lowered s.now) at }
{
    let (negative, next) = spaces::plus_or_minus(s, at).ok_or(Miss::NoMatch)?;
    signed_offset(s, next, negative)
}

#[tactic(auto, using(times::proofs::Offsets::offsets))]
fn signed_offset(s: &[u8], at: usize, negative: bool) -> Result<(Offset, usize), Miss>
    ensures { stop_answer result ≡ or_else (colon_offset negative (lowered s.now) at) (colonless_offset negative (lowered s.now) at) }
{
    match colon_offset(s, at, negative) {
        Err(Miss::NoMatch) => colonless_offset(s, at, negative),
        read => read,
    }
}

// Hours and minutes with a colon between them, as `+08:00`, `+8:00`, `+8:0`.
#[tactic(auto, using(times::proofs::Offsets::offsets), unfolding(times::specs::Fronts::colon_offset))]
fn colon_offset(s: &[u8], at: usize, negative: bool) -> Result<(Offset, usize), Miss>
    ensures { stop_answer result ≡ colon_offset negative (lowered s.now) at }
{
    let (hours, at) = numbers::spaced_u8(s, at).ok_or(Miss::NoMatch)?;
    let at = spaces::colon(s, spaces::space(s, at)).ok_or(Miss::NoMatch)?;
    let (minutes, at) = numbers::spaced_u8(s, at).ok_or(Miss::NoMatch)?;
    offset_of(negative, u64::from(hours), u64::from(minutes), at)
}

// Digits without a colon, as `+0800`, `+800`, `+08`, `+8`. GNU quirk: zeros in front of the last four digits are lost, so that
// `+0000530` is `+0530`; but `+00005` is 5 minutes, where `+5` is 5 hours.
#[tactic(auto, using(times::proofs::Offsets::offsets), unfolding(times::specs::Fronts::colonless_offset))]
fn colonless_offset(s: &[u8], at: usize, negative: bool) -> Result<(Offset, usize), Miss>
    ensures { stop_answer result ≡ colonless_offset negative (lowered s.now) at }
{
    let start = spaces::space(s, at);
    let (digits, next) = primitive::dec_uint_str(s, start).ok_or(Miss::NoMatch)?;
    let n = numbers::parse_uint(digits, 9999).ok_or(Miss::NoMatch)?;
    digits_offset(negative, digits.len(), n, next)
}

// One or two digits are hours; of more, the last two are minutes.
#[tactic(auto, using(times::proofs::Offsets::offsets))]
fn digits_offset(
    negative: bool,
    digits: usize,
    n: u64,
    next: usize,
) -> Result<(Offset, usize), Miss>
    ensures { stop_answer result ≡ digits_offset negative digits n [] next }
{
    if digits <= 2 {
        return offset_of(negative, n, 0, next);
    }
    offset_of(negative, n / 100, n % 100, next)
}

// An offset in range, or a stop. Nothing is read.
#[tactic(auto, using(times::proofs::Offsets::offsets))]
fn offset_of(negative: bool, hours: u64, minutes: u64, next: usize) -> Result<(Offset, usize), Miss>
    ensures { stop_answer result ≡ offset_of negative hours minutes [] next }
{
    if times::offset::in_range(hours, minutes) {
        let offset = Offset {
            negative,
            hours: hours as u8,
            minutes: minutes as u8,
        };
        Ok((offset, next))
    } else {
        Err(Miss::Stop)
    }
}
