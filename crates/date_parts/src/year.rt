// A year from its digits, as in items/year.rs. The digits decide, not the number: "98" is 1998, "098" is 98.

ghost use Rattle.std.specs.Prelude.{◌≡◌, ℕ, List, ◌≤◌};
ghost use Rattle.primitive.specs.Text.{lowered, part_answer};
ghost use Rattle.primitive.specs.Answer.{found_at};
ghost use Rattle.dates.specs.Year.{widened_by, year_from_str, year_str};

// The year that digits write.
pub fn year_from_str(digits: &[u8]) -> Option<u32>
    ensures { (text : List ℕ) (at : ℕ) → found_at at result ≡ year_from_str (lowered digits.now) text at }
{
    let year = numbers::parse_uint(digits, 4294967295)?;
    let year = widen(digits.len(), year);
    if year > u64::from(answers::GNU_MAX_YEAR) {
        return None;
    }
    Some(year as u32)
}

// GNU quirk: only a year of two digits is widened.
#[tactic(auto, unfolding(dates::specs::Year::widened_by))]
fn widen(digits: usize, year: u64) -> u64
    requires { year ≤ 4294967295 }
    ensures { result ≡ widened_by digits year }
{
    if digits == 2 {
        if year <= 68 {
            return year + 2000;
        }
        return year + 1900;
    }
    year
}

// The digits of a year, after space. The tactic unfolds what a part is, so that a program that cuts the part out itself is judged by its bytes.
#[tactic(auto, unfolding(dates::specs::Year::year_str, primitive::specs::Primitive::dec_uint_str, primitive::specs::Text::some))]
pub fn year_str(s: &[u8], at: usize) -> Option<(&[u8], usize)>
    ensures { part_answer result ≡ year_str (lowered s.now) at }
{
    primitive::dec_uint_str(s, spaces::space(s, at))
}
