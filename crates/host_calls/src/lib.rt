// What the library answers, call by call (specs/Calls.antt), and the calls that read. Those that need no reader are in `host_answers`;
// `seqtullo` exports both.
#![tactic(auto)]

ghost use Rattle.std.specs.Prelude.{◌≡◌, ◌≤◌};
ghost use Rattle.answers.specs.Placed.{place_of};
ghost use Rattle.answers.specs.Refusals.{placed_of};
ghost use Rattle.host_answers.specs.Hosts.{placed_answer};
ghost use Rattle.host_calls.specs.Calls.{answer, ReadText, ReadProfile, ReadPacket};

use answers::PlacedRefusal;
use extended::ExtendedDateTime;
use host_answers::{Answer, Record};

// Refusals from 2 to 8 and 22 have a place: a byte's index for 2 to 4 and 22, an item's for 5 to 8.
#[tactic(auto, unfolding(host_answers::specs::Hosts::placed_answer))]
fn placed_answer(read: Result<ExtendedDateTime, PlacedRefusal>) -> Answer
    requires { place_of (placed_of read) ≤ 4096 }
    ensures { result ≡ placed_answer (placed_of read) }
{
    match read {
        Ok(record) => Answer {
            number: 0,
            place: 0,
            record,
        },
        Err(refused) => Answer {
            number: u32::from(refused.refusal),
            place: refused.place as u32,
            record: ExtendedDateTime::blank(),
        },
    }
}

// Reads a text under a base.
#[tactic(auto, using(text_general::proofs::Places::place_within))]
pub fn read_text(text: &[u8], base: Record) -> Answer
    ensures answered { result ≡ answer (ReadText text.now base) }
    ensures text_after { text.exit.now ≡ text.entry.now }
{
    placed_answer(text_reader::read_text(text, base))
}

// Reads a text of the interchange profile under a base.
#[tactic(auto, using(text_profile::proofs::Places::place_within))]
pub fn read_profile(text: &[u8], base: Record) -> Answer
    ensures answered { result ≡ answer (ReadProfile text.now base) }
    ensures text_after { text.exit.now ≡ text.entry.now }
{
    placed_answer(text_profile::read_profile(text, base))
}

// Reads a packet under a base.
#[tactic(auto, using(packet::proofs::Places::place_within))]
pub fn read_packet(packet: &[u8], base: Record) -> Answer
    ensures answered { result ≡ answer (ReadPacket packet.now base) }
    ensures packet_after { packet.exit.now ≡ packet.entry.now }
{
    placed_answer(packet::read_packet(packet, base))
}
