// Words, as in items/primitive.rs: a word is a run of letters, and `find_value` returns its value in a table. Ordinals are in ordinal.rs. The
// definitions and laws are in `primitive`.

#![tactic(auto)]

pub mod ordinal;

ghost use Rattle.std.specs.Prelude.{◌≡◌, map};
ghost use Rattle.primitive.specs.Text.{lowered};
ghost use Rattle.primitive.specs.Primitive.{beside};

// The value beside a word in a table, whose words are seen in lower case.
pub fn find_value<T: Copy>(word: &[u8], table: &[(&str, T)]) -> Option<T>
    ensures { result ≡ beside (map (λ e. (e.0.now, e.1)) table.now) (lowered word.now) }
{
    for (name, value) in table {
        if name.as_bytes().eq_ignore_ascii_case(word) {
            return Some(*value);
        }
    }
    None
}
