// The order of the board: by moment, then by nanosecond, then by id.
ghost use Rattle.std.specs.Prelude.{◌≡◌, cond};
ghost use Rattle.board.specs.Order.{before, first};

use crate::Deadline;

// The record that no other is before, if there is one.
#[tactic(auto, using(crate::proofs::Least::least))]
pub fn first(records: &[Deadline]) -> Option<Deadline>
    ensures { result ≡ first records.now }
{
    if records.is_empty() {
        return None;
    }
    let mut least = records[0];
    for record in records {
        least = earlier(*record, least);
    }
    Some(least)
}

// The one of two that stops first; `b` if they are the same.
fn earlier(a: Deadline, b: Deadline) -> Deadline
    ensures { result ≡ cond (before a b) a b }
{
    if before(a, b) { a } else { b }
}

// Whether `a` stops before `b`.
#[tactic(auto, using(crate::proofs::OrderTests::tests))]
fn before(a: Deadline, b: Deadline) -> bool
    ensures { result ≡ before a b }
{
    if a.moment < b.moment {
        return true;
    }
    if b.moment < a.moment {
        return false;
    }
    if a.nanosecond < b.nanosecond {
        return true;
    }
    if b.nanosecond < a.nanosecond {
        return false;
    }
    a.id < b.id
}
