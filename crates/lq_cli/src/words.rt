//! The words of a command line, one by one.

ghost use Rattle.std.specs.Prelude.{◌≡◌, ◌≢◌, ◌≤◌, ℕ, List, [], ◌∷◌, map, string_bytes, IfSome, IfNone};
ghost use Rattle.lq_cli.specs.Words.{IsCount, AreRoom};

use lq_text::read_number;

const MOST_WORDS: u64 = 1_048_576;

// A number from 1 to `most`.
fn count_of(most: u64, word: &str) -> Option<u64>
    ensures some { IfSome result (λ n. IsCount most word.now n) }
    ensures none { IfNone result ((n : ℕ) → ¬ IsCount most word.now n) }
{
    let number = u64::try_from(read_number(word.as_bytes())?).ok()?;
    (number >= 1 && number <= most).then_some(number)
}

/// What stands behind the name of a command.
pub fn after_name<'a>(name: &str, words: &'a [String]) -> Option<&'a [String]>
    ensures some { IfSome result (λ rest. map string_bytes words.now ≡ name.now ∷ map string_bytes rest.now) }
    ensures none { IfNone result ((rest : List (List ℕ)) → map string_bytes words.now ≢ name.now ∷ rest) }
{
    let (first, rest) = words.split_first()?;
    (first.as_str() == name).then_some(rest)
}

/// The first word, and those behind it.
pub fn first_word(words: &[String]) -> Option<(&str, &[String])>
    ensures some { IfSome result (λ x. map string_bytes words.now ≡ x.0.now ∷ map string_bytes x.1.now) }
    ensures none { IfNone result (map string_bytes words.now ≡ []) }
{
    let (word, rest) = words.split_first()?;
    Some((word, rest))
}

// The word, where there is one.
fn only_word(words: &[String]) -> Option<&str>
    ensures some { IfSome result (λ word. map string_bytes words.now ≡ word.now ∷ []) }
    ensures none { IfNone result ((word : List ℕ) → map string_bytes words.now ≢ word ∷ []) }
{
    let (word, rest) = first_word(words)?;
    rest.is_empty().then_some(word)
}

// The last two words of a command that runs.
#[derive(Clone, Copy)]
struct RoomWords<'a> {
    fuel: &'a str,
    room: &'a str,
}

// None where there are not two words.
fn two_words(words: &[String]) -> Option<RoomWords<'_>>
    ensures some { IfSome result (λ w. map string_bytes words.now ≡ w.fuel.now ∷ w.room.now ∷ []) }
    ensures none { IfNone result ((fuel room : List ℕ) → map string_bytes words.now ≢ fuel ∷ room ∷ []) }
{
    let (fuel, words) = first_word(words)?;
    let room = only_word(words)?;
    Some(RoomWords { fuel, room })
}

/// What a run may use.
#[derive(Clone, Copy, Debug, PartialEq, Eq)]
pub struct Room {
    pub fuel: u64,
    /// How many words it may allocate.
    pub words: u32,
}

/// The fuel, of at most so much, and the words of a run: the last two words of each command that runs.
#[tactic(auto, using(crate::proofs::Rooms::is_room, crate::proofs::Rooms::counted_fuel, crate::proofs::Rooms::counted_words))]
pub fn read_room(most: u64, words: &[String]) -> Option<Room>
    ensures some { IfSome result (λ room. AreRoom most (map string_bytes words.now) room.fuel room.words) }
    ensures none { IfNone result ((fuel room : ℕ) → ¬ AreRoom most (map string_bytes words.now) fuel room) }
{
    let words = two_words(words)?;
    Some(Room {
        fuel: count_of(most, words.fuel)?,
        words: count_of(MOST_WORDS, words.room)? as u32,
    })
}
