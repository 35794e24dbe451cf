// The names of the months, as in items/date.rs: `november`, `nov` and `nov.`, and `sept` too. The definitions and laws are in `dates`.

#![tactic(auto)]

ghost use Rattle.std.specs.Prelude.{◌≡◌, ℕ, ◌+◌, ◌<◌, List, length};
ghost use Rattle.primitive.specs.Text.{lowered, byte, part_answer};
ghost use Rattle.primitive.specs.Answer.{answer_of, found_at, and_then};
ghost use Rattle.primitive.specs.Primitive.{spaced, named};
ghost use Rattle.dates.specs.Date.{word_dot, months, literal_month};

// The name of a month reads the space before it, and no other follows that.
#[tactic(auto, using(crate::proofs::Letters::letters))]
pub fn spaced_month(s: &[u8], at: usize) -> Option<(u8, usize)>
    ensures { answer_of result ≡ spaced literal_month (lowered s.now) at }
{
    literal_month(s, at)
}

// The name of a month, after space: `sept` is one, `sept.` is none. A word with another first letter is not read. The words of relative items
// with one of these first letters, as `next` and `first`, nearly all have another second letter, and are not read either.
#[tactic(auto, using(crate::proofs::Letters::letters))]
fn literal_month(s: &[u8], at: usize) -> Option<(u8, usize)>
    ensures { answer_of result ≡ literal_month (lowered s.now) at }
{
    let start = spaces::space(s, at);
    if s.len() <= start {
        return None;
    }
    match primitive::to_lower(s[start]) {
        b'j' => month_at(s, start),
        b'm' => month_with(s, start, b'a'),
        b'a' => month_at(s, start),
        b'f' => month_with(s, start, b'e'),
        b's' => month_at(s, start),
        b'o' => month_at(s, start),
        b'n' => month_with(s, start, b'o'),
        b'd' => month_with(s, start, b'e'),
        _ => None,
    }
}

// The month at a place where the name can only have one second letter.
fn month_with(s: &[u8], at: usize, second: u8) -> Option<(u8, usize)>
    requires { at < length s.now }
    ensures { answer_of result ≡ and_then (byte second (lowered s.now) (at + 1)) (λ _ _. and_then (word_dot (lowered s.now) at) (λ w n. named months w (lowered s.now) n)) }
{
    primitive::byte(s, at + 1, second)?;
    month_at(s, at)
}

fn month_at(s: &[u8], at: usize) -> Option<(u8, usize)>
    ensures { answer_of result ≡ and_then (word_dot (lowered s.now) at) (λ w n. named months w (lowered s.now) n) }
{
    let (word, end) = word_dot(s, at)?;
    let month = month_named(word)?;
    Some((month, end))
}

// The month that a word names. Its first letter tells most names apart: with one table of all names a date of such a name took twice as long.
#[tactic(auto, using(dates::proofs::Months::month_names))]
pub fn month_named(word: &[u8]) -> Option<u8>
    ensures { (text : List ℕ) (at : ℕ) → found_at at result ≡ named months (lowered word.now) text at }
{
    if word.is_empty() {
        return None;
    }
    match primitive::to_lower(word[0]) {
        b'j' => words::find_value(word, &J_MONTHS),
        b'm' => words::find_value(word, &M_MONTHS),
        b'a' => words::find_value(word, &A_MONTHS),
        b'f' => words::find_value(word, &F_MONTHS),
        b's' => words::find_value(word, &S_MONTHS),
        b'o' => words::find_value(word, &O_MONTHS),
        b'n' => words::find_value(word, &N_MONTHS),
        b'd' => words::find_value(word, &D_MONTHS),
        _ => None,
    }
}

const J_MONTHS: [(&str, u8); 9] = [
    ("january", 1),
    ("jan", 1),
    ("jan.", 1),
    ("june", 6),
    ("jun", 6),
    ("jun.", 6),
    ("july", 7),
    ("jul", 7),
    ("jul.", 7),
];

const M_MONTHS: [(&str, u8); 5] = [
    ("march", 3),
    ("mar", 3),
    ("mar.", 3),
    ("may", 5),
    ("may.", 5),
];

const A_MONTHS: [(&str, u8); 6] = [
    ("april", 4),
    ("apr", 4),
    ("apr.", 4),
    ("august", 8),
    ("aug", 8),
    ("aug.", 8),
];

const F_MONTHS: [(&str, u8); 3] = [("february", 2), ("feb", 2), ("feb.", 2)];

const S_MONTHS: [(&str, u8); 4] = [("september", 9), ("sep", 9), ("sep.", 9), ("sept", 9)];

const O_MONTHS: [(&str, u8); 3] = [("october", 10), ("oct", 10), ("oct.", 10)];

const N_MONTHS: [(&str, u8); 3] = [("november", 11), ("nov", 11), ("nov.", 11)];

const D_MONTHS: [(&str, u8); 3] = [("december", 12), ("dec", 12), ("dec.", 12)];

// A word, and a dot that stands after it.
fn word_dot(s: &[u8], at: usize) -> Option<(&[u8], usize)>
    ensures { part_answer result ≡ word_dot (lowered s.now) at }
{
    let (word, end) = primitive::alpha1(s, at)?;
    match primitive::byte(s, end, b'.') {
        Some(next) => Some((primitive::part(s, at, next), next)),
        None => Some((word, end)),
    }
}
