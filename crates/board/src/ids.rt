// The ids of the records of a board.
ghost use Rattle.std.specs.Prelude.{◌≡◌, ◌≤◌, length};
ghost use Rattle.board.specs.Ids.{has_id, has_twice, place_of};

use crate::Deadline;

// Whether a record has an id. It looks at every record, so that the compiler can compare several at once.
#[tactic(auto, using(crate::proofs::IdLoops::ids))]
pub fn has_id(records: &[Deadline], id: u32) -> bool
    ensures { result ≡ has_id records.now id }
{
    let mut has = false;
    for record in records {
        has = has | (record.id == id);
    }
    has
}

// Whether two records have one id.
#[tactic(auto, using(crate::proofs::IdLoops::ids))]
pub fn has_twice(records: &[Deadline]) -> bool
    ensures { result ≡ has_twice records.now }
{
    for i in 0..records.len() {
        if has_id(&records[..i], records[i].id) {
            return true;
        }
    }
    false
}

// The place of the first record with an id, or how many there are.
#[tactic(auto, using(crate::proofs::IdLoops::ids))]
pub fn place_of(records: &[Deadline], id: u32) -> usize
    ensures value { result ≡ place_of records.now id }
    ensures within { result ≤ length records.now }
{
    for i in 0..records.len() {
        if records[i].id == id {
            return i;
        }
    }
    records.len()
}
