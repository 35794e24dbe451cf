// The scheduler's packet: items that arrive already split, little-endian.
//
// - Header: the number of items, the place of the items (8), the number of digits and the place of the digits, 2 bytes each.
// - Items of 28 bytes, as in `packet_fields::Fields`, then the digits of the pure numbers, to the packet's end.
//
// The items are read where they are: nothing is copied but the item at hand.

#![tactic(auto)]

ghost use Rattle.std.specs.Prelude.{◌≡◌, ◌<◌, ◌≤◌, length};
ghost use Rattle.primitive.specs.Text.{lowered};
ghost use Rattle.answers.specs.Refusals.{outcome_of, placed_of};
ghost use Rattle.packet_fields.specs.Fields.{found_of};
ghost use Rattle.packet.specs.Packet.{header, digits_stand, item_at, build_items, read_packet};

use answers::{MOST_ITEMS, PlacedRefusal, Refusal};
use extended::ExtendedDateTime;
use gather::Gathered;
use items::Item;

#[tactic(auto, using(crate::proofs::Steps::steps))]
pub fn read_packet(packet: &[u8], base: ExtendedDateTime) -> Result<ExtendedDateTime, PlacedRefusal>
    ensures { placed_of result ≡ read_packet packet.now base }
{
    base.test()?;
    test_header(packet)?;
    let count = packet_fields::u16_at(packet, 0) as usize;
    let digits = 8 + 28 * count;
    let end = digits + packet_fields::u16_at(packet, 4) as usize;
    build_items(packet, count, &packet[digits..end], base)
}

// Under 8 bytes, then the number of items, then the other fields of the header and the packet's length.
#[tactic(auto, unfolding(crate::specs::Packet::header, crate::specs::Packet::count, crate::specs::Packet::digits_place))]
fn test_header(packet: &[u8]) -> Result<(), Refusal>
    ensures { outcome_of result ≡ header packet.now }
{
    if packet.len() < 8 {
        return Err(Refusal::Packet);
    }
    let count = packet_fields::u16_at(packet, 0) as usize;
    if MOST_ITEMS < count {
        return Err(Refusal::Oversize);
    }
    if packet_fields::u16_at(packet, 2) != 8 {
        return Err(Refusal::Packet);
    }
    let digits = 8 + 28 * count;
    if packet_fields::u16_at(packet, 6) as usize != digits {
        return Err(Refusal::Packet);
    }
    if packet.len() != digits + packet_fields::u16_at(packet, 4) as usize {
        return Err(Refusal::Packet);
    }
    Ok(())
}

// The record of the items. Each item is gathered as it is read, and none is kept but the relative ones.
fn build_items(
    packet: &[u8],
    count: usize,
    digits: &[u8],
    base: ExtendedDateTime,
) -> Result<ExtendedDateTime, PlacedRefusal>
    requires count_bound { count ≤ 64 }
    requires digits_len_bound { length digits.now < 65536 }
    ensures { placed_of result ≡ build_items packet.now (lowered digits.now) count base }
{
    let mut gathered: Gathered<MOST_ITEMS> = Gathered::new();
    let mut used = 0;
    // the items are no slice: each is read out of the bytes by its index, which is its place too
    for i in 0..count {
        let Some(item) = next_item(packet, i, digits, used) else {
            return Err(Refusal::Packet.at(i));
        };
        gathered.add_item(digits, item, i);
        used += packet_fields::digits_used(item);
    }
    let is_left = used < digits.len();
    if is_left {
        return Err(Refusal::Packet.at(count));
    }
    builder::build(&gathered.builder, gathered.relatives.as_slice(), base)
}

// The item of an index, after items that used up so many digits.
#[tactic(auto, unfolding(crate::specs::Packet::item_at))]
fn next_item(packet: &[u8], index: usize, digits: &[u8], used: usize) -> Option<Item>
    requires index_bound { index < 64 }
    requires used_in_bounds { used ≤ length digits.now }
    requires digits_len_bound { length digits.now < 65536 }
    ensures { found_of result ≡ item_at packet.now (lowered digits.now) index used }
{
    let fields = packet_fields::fields_at(packet, index as u32);
    let item = packet_decode::unpack(fields, used as u16)?;
    if digits_stand(digits, used, packet_fields::digits_used(item)) {
        return Some(item);
    }
    None
}

// Whether so many digits follow from a place on.
#[tactic(auto, unfolding(crate::specs::Packet::digits_stand))]
fn digits_stand(digits: &[u8], from: usize, count: usize) -> bool
    requires from_in_bounds { from ≤ length digits.now }
    requires count_bound { count < 65536 }
    ensures { result ≡ digits_stand (lowered digits.now) from count }
{
    from + count <= primitive::digits(digits, from)
}
