// A text read under a base: the one front door of texts. The base, the length and the bytes are tested once (`text_tests`); then a text of a common
// form is read at once (`text_quick`), and any other item by item (`text_general`, which has the definitions).

#![tactic(auto)]

ghost use Rattle.std.specs.Prelude.{◌≡◌};
ghost use Rattle.answers.specs.Refusals.{placed_of};
ghost use Rattle.text_general.specs.Reading.{read_text};

use answers::PlacedRefusal;
use extended::ExtendedDateTime;

#[tactic(auto, using(crate::proofs::Steps::steps))]
pub fn read_text(text: &[u8], base: ExtendedDateTime) -> Result<ExtendedDateTime, PlacedRefusal>
    ensures { placed_of result ≡ read_text text.now base }
{
    text_tests::test_text(text, base)?;
    match text_quick::at_once(text, base) {
        Some(record) => Ok(record),
        None => text_general::build_text(text, base),
    }
}
