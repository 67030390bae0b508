//! A place in a text, as people count.
ghost use Rattle.std.specs.Prelude.{◌≡◌, ◌≤◌, ◌<◌, ◌+◌, ◌||◌, length, count_by};
ghost use Rattle.tw_machine_text.specs.Place.{begins_letter, last_line, line_at, column_at};

/// A place in a text: the line, and the column in letters, both from 1.
#[derive(Clone, Copy, Debug, PartialEq, Eq)]
pub struct Place {
    pub line: usize,
    pub column: usize,
}

/// Whether a letter begins at this byte. In UTF-8 those that go on are 128 to 191.
fn begins_letter(c: u8) -> bool
    ensures { result ≡ begins_letter c }
{
    c < 128 || c >= 192
}

/// The column behind these bytes.
fn column_behind(before: &[u8]) -> usize
    ensures { result ≡ count_by begins_letter (last_line before.now) + 1 }
{
    let mut column = 1;
    for c in before {
        if *c == b'\n' {
            column = 1;
        } else if begins_letter(*c) {
            column += 1;
        }
    }
    column
}

/// The line and the column of what begins at a byte of a text. A newline ends its line.
pub fn place_at(text: &str, byte: usize) -> Place
    requires { byte ≤ length text.now }
    ensures line { result.line ≡ line_at text.now byte }
    ensures column { result.column ≡ column_at text.now byte }
{
    let before = &text.as_bytes()[..byte];
    Place {
        line: before.iter().filter(|c| **c == b'\n').count() + 1,
        column: column_behind(before),
    }
}
