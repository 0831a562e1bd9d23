// A sheet's text, byte by byte: its blanks, its letters and its words.
#![tactic(auto)]

ghost use Rattle.std.specs.Prelude.{◌≡◌, ◌≤◌, ◌<◌, eqb, length};
ghost use Rattle.sheets.specs.Text.{letter, blank, same, empty_word};
ghost use Rattle.spelling.specs.Places.{begins_factor, ends_expression, byte_at, letters_at, PastRow, SkippedTo, LettersTo};

// The byte at a place of a text; 0 at its end.
pub fn look(s: &[u8], at: usize) -> u8
    ensures { result ≡ byte_at s.now at }
{
    s.get(at).copied().unwrap_or(0)
}

// Whether a byte other than 0 stands at a place of a text.
pub fn stands(s: &[u8], at: usize, byte: u8) -> bool
    requires { 0 < byte }
    ensures { result ≡ eqb (byte_at s.now at) byte }
{
    s.get(at) == Some(&byte)
}

// Whether a byte separates words.
#[tactic(auto, unfolding(sheets::specs::Text::blank))]
pub fn is_blank(byte: u8) -> bool
    ensures { result ≡ blank byte }
{
    matches!(byte, b' ' | b'\n')
}

// Whether a byte is a small letter.
#[tactic(auto, unfolding(sheets::specs::Text::letter))]
pub fn is_letter(byte: u8) -> bool
    ensures { result ≡ letter byte }
{
    matches!(byte, b'a'..=b'z')
}

// Whether a factor begins at a place.
#[tactic(auto, unfolding(sheets::specs::Text::letter))]
pub fn begins_factor(s: &[u8], at: usize) -> bool
    ensures { result ≡ begins_factor (byte_at s.now at) }
{
    matches!(s.get(at), Some(b'a'..=b'z' | b'('))
}

// Whether an expression ends at a place.
pub fn ends_expression(s: &[u8], at: usize) -> bool
    ensures { result ≡ ends_expression (byte_at s.now at) }
{
    matches!(s.get(at), Some(b')' | b';'))
}

// The place past the bytes that meet a test, from a place on.
pub fn past<F: Fn(u8) -> bool>(s: &[u8], at: usize, meets: F) -> usize
    requires { F.IsAlwaysCallable meets }
    ensures { PastRow s.now (F.post meets) at result }
{
    for next in at..s.len() {
        if !meets(s[next]) {
            return next;
        }
    }
    at.max(s.len())
}

// The place after the blanks from a place on.
pub fn skip_blanks(s: &[u8], at: usize) -> usize
    requires { at ≤ length s.now }
    ensures { SkippedTo s.now at result }
{
    past(s, at, is_blank)
}

// The place after the letters from a place on.
pub fn letters_end(s: &[u8], at: usize) -> usize
    requires { at ≤ length s.now }
    ensures { LettersTo s.now at result }
{
    past(s, at, is_letter)
}

// Whether the word from a place up to another is `empty`.
pub fn is_empty(s: &[u8], at: usize, end: usize) -> bool
    requires { (at ≤ end) × (end ≤ length s.now) }
    ensures { result ≡ same (letters_at s.now at end) empty_word }
{
    &s[at..end] == b"empty".as_slice()
}
