// The deadline board: which plug-in stops next. A board is a run of places that the host lends, and a count: the records before the count are the
// plug-ins on the board, and the places after them belong to nobody. A plug-in joins after the last record; when one leaves, the later ones
// move up by one place. Every call answers how many records are on the board then, and the next to stop.
//
// `order` says which of two stops first, `ids` looks for ids. A host passes any run, count and record: each call tests them.
#![tactic(auto)]

mod ids;
mod order;

ghost use Rattle.std.specs.Prelude.{◌≡◌, ◌≤◌, ◌<◌, length, IfOk};
ghost use Rattle.answers.specs.Refusals.{outcome_of};
ghost use Rattle.board.specs.Board.{test_run, test_join, place_left, join, leave, next, held_of, answered, run_joined, run_left};

use answers::{MOST_PLACES, Refusal};

// A plug-in, and when it is to stop.
#[repr(C)]
#[derive(Clone, Copy, Debug, PartialEq, Eq)]
pub struct Deadline {
    pub id: u32,
    // Seconds from 1970-01-01 00:00:00 at offset 0.
    pub moment: i64,
    pub nanosecond: u32,
}

impl Deadline {
    // What a freed place becomes.
    pub const ZEROS: Deadline = Deadline {
        id: 0,
        moment: 0,
        nanosecond: 0,
    };
}

// How many records are on the board, and the next to stop, if there is one.
#[derive(Clone, Copy, Debug, PartialEq, Eq)]
pub struct Held {
    pub count: u32,
    pub next: Option<Deadline>,
}

// Puts a plug-in after the last record.
#[tactic(auto, using(crate::proofs::Calls::calls))]
pub fn join(run: &mut [Deadline], count: usize, joining: Deadline) -> Result<Held, Refusal>
    ensures value { outcome_of result ≡ answered (join run.old count joining) }
    ensures run_after { run.new ≡ run_joined run.old count joining }
{
    test_join(run, count, joining)?;
    // Field by field: a copy in one piece is cut across the moment, and reading it back then waits for both parts.
    run[count] = Deadline {
        id: joining.id,
        moment: joining.moment,
        nanosecond: joining.nanosecond,
    };
    Ok(held_of(&run[..count + 1]))
}

// Takes a plug-in out: the later records move up by one place, and the place after the last one becomes zeros.
#[tactic(auto, using(crate::proofs::Calls::calls))]
pub fn leave(run: &mut [Deadline], count: usize, id: u32) -> Result<Held, Refusal>
    ensures value { outcome_of result ≡ answered (leave run.old count id) }
    ensures run_after { run.new ≡ run_left run.old count id }
{
    let place = place_left(run, count, id)?;
    run.copy_within(place + 1..count, place);
    run[count - 1] = Deadline::ZEROS;
    Ok(held_of(&run[..count - 1]))
}

// How many records are on the board, and the next to stop.
#[tactic(auto, using(crate::proofs::Calls::calls))]
pub fn next(run: &[Deadline], count: usize) -> Result<Held, Refusal>
    ensures value { outcome_of result ≡ answered (next run.now count) }
    ensures run_after { run.exit.now ≡ run.entry.now }
{
    test_run(run, count)?;
    Ok(held_of(&run[..count]))
}

// The tests that each call begins with.
#[tactic(auto, using(crate::proofs::CallTests::steps))]
fn test_run(run: &[Deadline], count: usize) -> Result<(), Refusal>
    ensures value { outcome_of result ≡ test_run run.now count }
    ensures within { IfOk result (λ _. (count ≤ length run.now) × (length run.now ≤ 128)) }
{
    if run.len() > MOST_PLACES {
        return Err(Refusal::Oversize);
    }
    if count > run.len() {
        return Err(Refusal::Oversize);
    }
    if ids::has_twice(&run[..count]) {
        return Err(Refusal::Packet);
    }
    Ok(())
}

// Whether a plug-in may join.
#[tactic(auto, using(crate::proofs::CallTests::steps))]
fn test_join(run: &[Deadline], count: usize, joining: Deadline) -> Result<(), Refusal>
    ensures value { outcome_of result ≡ test_join run.now count joining }
    ensures within { IfOk result (λ _. (count < length run.now) × (length run.now ≤ 128)) }
{
    test_run(run, count)?;
    if joining.nanosecond > 999999999 {
        return Err(Refusal::Nanosecond);
    }
    if ids::has_id(&run[..count], joining.id) {
        return Err(Refusal::Present);
    }
    if count == run.len() {
        return Err(Refusal::Full);
    }
    Ok(())
}

// The place of a plug-in that may leave.
#[tactic(auto, using(crate::proofs::CallTests::steps))]
fn place_left(run: &[Deadline], count: usize, id: u32) -> Result<usize, Refusal>
    ensures value { outcome_of result ≡ place_left run.now count id }
    ensures within { IfOk result (λ place. (place < count) × (count ≤ length run.now) × (length run.now ≤ 128)) }
{
    test_run(run, count)?;
    let place = ids::place_of(&run[..count], id);
    if place == count {
        return Err(Refusal::Absent);
    }
    Ok(place)
}

#[tactic(auto, unfolding(crate::specs::Board::held_of))]
fn held_of(records: &[Deadline]) -> Held
    requires { length records.now ≤ 128 }
    ensures { result ≡ held_of records.now }
{
    Held {
        count: records.len() as u32,
        next: order::first(records),
    }
}
