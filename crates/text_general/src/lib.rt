// The record of a text's items under a base, read one after the other. The definitions and laws of reading a text are here. `text_reader` is the
// front door, which tests the base, the length and the bytes; `text_quick` reads the commonest forms at once.

#![tactic(auto)]

ghost use Rattle.std.specs.Prelude.{◌≡◌, ◌-◌, ◌≤◌, List, length};
ghost use Rattle.primitive.specs.Text.{lowered};
ghost use Rattle.answers.specs.Placed.{refusal};
ghost use Rattle.answers.specs.Refusals.{code, placed_of};
ghost use Rattle.extended.specs.declared.ExtendedDateTime.{ExtendedDateTime};
ghost use Rattle.relative.specs.declared.Relative.{Relative};
ghost use Rattle.items.specs.Items.{parse_item};
ghost use Rattle.text_general.specs.Reading.{build_text};
ghost use Rattle.text_general.specs.Rest.{left, one};

use answers::{MOST_ITEMS, PlacedRefusal, Refusal};
use extended::ExtendedDateTime;
use gather::Gathered;
use items::Item;
use primitive::Miss;
use relative::Relative;
use rules::DateTimeBuilder;

// The items that are read before places for 64 relative ones are made: most texts have no more.
const FEW: usize = 4;

// The record of a text's items, 64 at most. Each item is added as it is read, and none is kept but the relative ones; a broken rule is
// answered after the last item. As a call, it gives its record back in memory, where each copy waits for the one before: 10 ns more a text.
#[inline(always)]
pub fn build_text(text: &[u8], base: ExtendedDateTime) -> Result<ExtendedDateTime, PlacedRefusal>
    ensures { placed_of result ≡ build_text (lowered text.now) base }
{
    let mut gathered: Gathered<FEW> = Gathered::new();
    let mut count = 0;
    let mut at = 0;
    // a step is as long as the item that was read, so there is no range
    while spaces::space(text, at) < text.len() {
        if count == FEW {
            let first = gathered.relatives.as_slice();
            return build_rest(text, base, gathered.builder, first, count, at);
        }
        let (item, next) = item_at(text, at, count)?;
        gathered.add_item(&[], item, count);
        count += 1;
        at = next;
    }
    builder::build(&gathered.builder, gathered.relatives.as_slice(), base)
}

// The same for the items from a place on, after `read` items, which gave a builder and the first relative items. Inlined, its 64 places would be
// in the frame of every text.
#[inline(never)]
fn build_rest(
    text: &[u8],
    base: ExtendedDateTime,
    builder: Result<DateTimeBuilder, PlacedRefusal>,
    first: &[Relative],
    read: usize,
    at: usize,
) -> Result<ExtendedDateTime, PlacedRefusal>
    requires { (read ≤ 64) × (length first.now ≤ read) }
    ensures { placed_of result ≡ left (lowered text.now) base read (placed_of builder) first.now at }
{
    if let Err(broken) = builder {
        return read_rest(text, broken, read, at);
    }
    let mut gathered: Gathered<MOST_ITEMS> = Gathered::resume(builder, first);
    let mut count = read;
    let mut i = at;
    while spaces::space(text, i) < text.len() {
        let (item, next) = item_at(text, i, count)?;
        gathered.add_item(&[], item, count);
        count += 1;
        i = next;
    }
    builder::build(&gathered.builder, gathered.relatives.as_slice(), base)
}

// The same after a broken rule. It is the answer of a text that is read to its end, so that nothing is gathered, and no places are made.
#[inline(never)]
fn read_rest(
    text: &[u8],
    broken: PlacedRefusal,
    read: usize,
    at: usize,
) -> Result<ExtendedDateTime, PlacedRefusal>
    requires { read ≤ 64 }
    ensures { (base : ExtendedDateTime) (rs : List Relative) → placed_of result ≡ left (lowered text.now) base read (refusal (code broken.refusal) broken.place) rs at }
{
    let mut count = read;
    let mut i = at;
    while spaces::space(text, i) < text.len() {
        let (_, next) = item_at(text, i, count)?;
        count += 1;
        i = next;
    }
    Err(broken)
}

// The item at a place, where one is tried after `count` others: 1 if it is the 65th, 3 if no reader matches, 4 if one stops, and 22 if it lost
// a digit, these three at the end of the item before.
fn item_at(text: &[u8], at: usize, count: usize) -> Result<(Item, usize), PlacedRefusal>
    requires { count ≤ 64 }
    ensures { placed_of result ≡ one (64 - count) (parse_item (lowered text.now) at) at }
{
    match item_readers::parse_item(text, at) {
        Ok((item, next, dropped)) => {
            if count == MOST_ITEMS {
                return Err(Refusal::Oversize.at(0));
            }
            if dropped {
                return Err(Refusal::Fraction.at(at));
            }
            Ok((item, next))
        }
        Err(Miss::NoMatch) => Err(Refusal::Unread.at(at)),
        Err(Miss::Stop) => Err(Refusal::Stopped.at(at)),
    }
}
