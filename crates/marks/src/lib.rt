// Where a byte of a text stands, by line and column, and the line with a mark under the byte.
#![tactic(auto)]

ghost use Rattle.std.specs.Prelude.{◌≡◌, cond, ◌+◌, ◌≤◌, eqb, length, take, drop};
ghost use Rattle.std.proofs.Math.Seq.{slice};
ghost use Rattle.prints.specs.Pages.{Added};
ghost use Rattle.marks.specs.Marks.{behind, position, position_of, before_of, place_text};
ghost use Rattle.marks.specs.Marks.{to_feed, line_text, mark_lines};

use prints::Page;

// The number of a line, and the place where it starts.
#[derive(Clone, Copy)]
pub struct Position {
    pub line: usize,
    pub start: usize,
}

impl Position {
    // The position past a byte at a place.
    fn past(self, at: usize, byte: u8) -> Position
        requires { (self.line ≤ at + 1) × (at + 2 ≤ 18446744073709551615) }
        ensures { result ≡ cond (eqb byte 10) (position (self.line + 1) (at + 1)) self }
    {
        if byte == b'\n' {
            return Position {
                line: self.line + 1,
                start: at + 1,
            };
        }
        self
    }

    // The line and its start behind all bytes of a text.
    fn behind(front: &[u8]) -> Position
        ensures { (result ≡ behind front.now 0 (position 1 0)) × (result.start ≤ length front.now)
            × (result.line ≤ length front.now + 1) }
    {
        let mut position = Position { line: 1, start: 0 };
        for (at, byte) in front.iter().enumerate() {
            position = position.past(at, *byte);
        }
        position
    }

    // The line of a place, and where it starts.
    fn of(sheet: &[u8], place: usize) -> Position
        ensures { (result ≡ position_of sheet.now place) × (result.start ≤ length sheet.now)
            × (result.line ≤ length sheet.now + 1) }
    {
        Position::behind(front_of(sheet, place))
    }
}

// The bytes of a text before a place.
pub fn front_of(sheet: &[u8], place: usize) -> &[u8]
    ensures { result.now ≡ take place sheet.now }
{
    &sheet[..place.min(sheet.len())]
}

// How many bytes of the line stand before a place.
fn before_of(sheet: &[u8], place: usize) -> usize
    ensures { (result ≡ before_of sheet.now place) × (result ≤ length sheet.now) }
{
    let front = front_of(sheet, place);
    front.len() - Position::behind(front).start
}

// Adds line and column of a place.
pub fn add_place(page: &mut Page, sheet: &[u8], place: usize)
    ensures { Added page.old page.new (place_text sheet.now place) }
{
    let line = Position::of(sheet, place).line;
    let column = before_of(sheet, place) + 1;
    page.add(b" line");
    page.add_spaced(line as u64);
    page.add(b" column");
    page.add_spaced(column as u64);
}

// The bytes of a text up to the first line feed.
fn to_feed(rest: &[u8]) -> &[u8]
    ensures { result.now ≡ to_feed rest.now }
{
    match rest.iter().position(|byte| *byte == b'\n') {
        Some(at) => &rest[..at],
        None => rest,
    }
}

// The line of a place.
fn line_at(sheet: &[u8], place: usize) -> &[u8]
    ensures { result.now ≡ line_text sheet.now place }
{
    let start = Position::of(sheet, place).start;
    to_feed(&sheet[start..])
}

// Adds the line of a place, and below it a mark under the byte at the place.
pub fn add_mark(page: &mut Page, sheet: &[u8], place: usize)
    ensures { Added page.old page.new (mark_lines sheet.now place) }
{
    page.add(line_at(sheet, place));
    page.add(b"\n");
    page.add_spaces(before_of(sheet, place));
    page.add(b"^\n");
}
