ghost use Rattle.std.specs.Prelude.{◌≡◌, ◌+◌, ◌-◌, ◌^◌, ◌<◌, ◌≤◌, length, take};
ghost use Rattle.lq_tree.specs.Place.{line_of, column_of};

use std::fmt;

/// A place in a text: its line and its column, both from 1. A column is one byte wide.
#[derive(Clone, Copy, Debug, PartialEq, Eq)]
pub struct Place {
    pub line: u32,
    pub col: u32,
}

impl fmt::Display for Place {
    ghost use Rattle.std.specs.Prelude.{Some};
    ghost use Rattle.lq_tree.specs.Place.{place_text};

    ghost output = { λ at. Some (place_text at) };

    fn fmt<W: fmt::Write>(&self, f: &mut fmt::Formatter<W>) -> fmt::Result {
        write!(f, "{}:{}", self.line, self.col)
    }
}

/// The place of the byte with this number, or of the end of the text. It takes no memory.
pub fn place_of(text: &[u8], at: usize) -> Place
    requires within { at ≤ length text.now }
    requires fits { at < 2 ^ 32 - 1 }
    ensures line { result.line ≡ line_of (take at text.now) }
    ensures column { result.col ≡ column_of (take at text.now) }
{
    let mut place = Place { line: 1, col: 1 };
    for byte in &text[..at] {
        if *byte == b'\n' {
            place.line += 1;
            place.col = 1;
        } else {
            place.col += 1;
        }
    }
    place
}
