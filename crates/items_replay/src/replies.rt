// The items of a text, written without the line's end: 0 and the items with `; ` between them, or the number and the place of a refusal.
use crate::shown::Shown;
use answers::{PlacedRefusal, Refusal};
use arrayvec::ArrayVec;
use items::Item;
use primitive::Miss;
use std::io::{Stdout, Write};

// No text has more items.
const MOST_ITEMS: usize = 64;

pub fn write_items(out: &mut Stdout, text: &[u8]) -> std::io::Result<()> {
    match items_of(text) {
        Ok(items) => {
            write!(out, "0")?;
            for (i, item) in items.iter().flatten().enumerate() {
                let separator = if i == 0 { " " } else { "; " };
                write!(out, "{separator}{}", Shown(*item))?;
            }
            Ok(())
        }
        Err(refused) => write!(out, "{} {}", u32::from(refused.refusal), refused.place),
    }
}

// Reads one item after the other. Each is a `Some`: an `ArrayVec` wants a default for the places that are free, and an item has none.
fn items_of(text: &[u8]) -> Result<ArrayVec<Option<Item>, MOST_ITEMS>, PlacedRefusal> {
    let mut items = ArrayVec::new();
    let mut at = 0;
    // a step is as long as the item that was read, so there is no range
    while spaces::space(text, at) < text.len() {
        match item_readers::parse_item(text, at) {
            Ok((item, next, dropped)) => {
                if items.try_push(Some(item)).is_err() {
                    return Err(Refusal::Oversize.at(0));
                }
                if dropped {
                    return Err(Refusal::Fraction.at(at));
                }
                at = next;
            }
            Err(Miss::NoMatch) => return Err(Refusal::Unread.at(at)),
            Err(Miss::Stop) => return Err(Refusal::Stopped.at(at)),
        }
    }
    Ok(items)
}
