// Ordinal numbers, in words or in digits, as in items/ordinal.rs.

ghost use Rattle.std.specs.Prelude.{◌≡◌, ℕ, List};
ghost use Rattle.primitive.specs.Text.{lowered};
ghost use Rattle.primitive.specs.Answer.{answer_of, found_at};
ghost use Rattle.primitive.specs.Primitive.{named};
ghost use Rattle.primitive.specs.Ordinal.{ordinals, text_ordinal, number_ordinal, ordinal};

// A word or, where there is none that is an ordinal, a number.
#[tactic(auto, unfolding(primitive::specs::Ordinal::ordinal))]
pub fn ordinal(s: &[u8], at: usize) -> Option<(i32, usize)>
    ensures { answer_of result ≡ ordinal (lowered s.now) at }
{
    text_ordinal(s, at).or_else(|| number_ordinal(s, at))
}

// A number with a sign or without one, after space.
#[tactic(auto, unfolding(primitive::specs::Ordinal::number_ordinal))]
fn number_ordinal(s: &[u8], at: usize) -> Option<(i32, usize)>
    ensures { answer_of result ≡ number_ordinal (lowered s.now) at }
{
    let start = spaces::space(s, at);
    let (negative, next) = primitive::sign(s, start).unwrap_or((false, start));
    numbers::signed_number(s, next, negative)
}

// An ordinal word, after space.
#[tactic(auto, using(primitive::proofs::Spaced::spaced_chain), unfolding(primitive::specs::Ordinal::text_ordinal))]
fn text_ordinal(s: &[u8], at: usize) -> Option<(i32, usize)>
    ensures { answer_of result ≡ text_ordinal (lowered s.now) at }
{
    let start = spaces::space(s, at);
    let (word, end) = primitive::alpha1(s, start)?;
    let n = ordinal_named(word)?;
    Some((n, end))
}

// The ordinal that a word names. Its first letter leaves four names at most.
#[tactic(auto, using(primitive::proofs::Ordinals::ordinal_letters))]
pub fn ordinal_named(word: &[u8]) -> Option<i32>
    ensures { (text : List ℕ) (at : ℕ) → found_at at result ≡ named ordinals (lowered word.now) text at }
{
    if word.is_empty() {
        return None;
    }
    match primitive::to_lower(word[0]) {
        b'e' => crate::find_value(word, &E_ORDINALS),
        b'f' => crate::find_value(word, &F_ORDINALS),
        b'l' => crate::find_value(word, &L_ORDINALS),
        b'n' => crate::find_value(word, &N_ORDINALS),
        b's' => crate::find_value(word, &S_ORDINALS),
        b't' => crate::find_value(word, &T_ORDINALS),
        _ => None,
    }
}

const E_ORDINALS: [(&str, i32); 2] = [("eighth", 8), ("eleventh", 11)];

const F_ORDINALS: [(&str, i32); 3] = [("first", 1), ("fourth", 4), ("fifth", 5)];

const L_ORDINALS: [(&str, i32); 1] = [("last", -1)];

const N_ORDINALS: [(&str, i32); 2] = [("next", 1), ("ninth", 9)];

const S_ORDINALS: [(&str, i32); 2] = [("sixth", 6), ("seventh", 7)];

const T_ORDINALS: [(&str, i32); 4] = [("this", 0), ("third", 3), ("tenth", 10), ("twelfth", 12)];
