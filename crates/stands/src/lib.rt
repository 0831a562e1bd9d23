// How the reading of a sheet stands at a place, and what is due there, in words.
#![tactic(auto)]

ghost use Rattle.std.specs.Prelude.{◌≡◌};
ghost use Rattle.prints.specs.Pages.{Added};
ghost use Rattle.stands.specs.Stands.{kept_next, beginning, ending, following, starring, naming};
ghost use Rattle.stands.specs.Stands.{beginning_name, advance, advanced};
ghost use Rattle.stands.specs.Stands.{due_behind, due_further, due_in_name, due_text};

use prints::Page;

// How a reading stands: a name is due; in a name of so many letters, which is so much of `empty`; `=` is due; within so
// many parentheses a factor is due, in a word of so many letters, after a factor that may have a star, after one that
// may not.
#[derive(Clone, Copy)]
pub enum Stand {
    NameDue,
    InName(usize, usize),
    EqualsDue,
    Due(usize),
    InWord(usize, usize),
    After(usize),
    Done(usize),
}

// How much of `empty` a word is with a letter more.
fn kept_next(kept: usize, byte: u8) -> usize
    ensures { result ≡ kept_next kept byte }
{
    if kept < 5 && byte == b"empty"[kept] {
        return kept + 1;
    }
    6
}

// A byte where a factor may begin, else what is given.
#[tactic(auto, unfolding(sheets::specs::Text::blank, sheets::specs::Text::letter))]
fn begin_factor(opens: usize, byte: u8, other: Stand) -> Stand
    ensures { result ≡ beginning opens byte other }
{
    match byte {
        b'a'..=b'z' => Stand::InWord(opens, 1),
        b'(' if opens < 32 => Stand::Due(opens + 1),
        _ => other,
    }
}

// A sign that ends a sequence, a parenthesis or a rule.
#[tactic(auto, unfolding(sheets::specs::Text::blank, sheets::specs::Text::letter))]
fn end_part(opens: usize, byte: u8) -> Stand
    ensures { result ≡ ending opens byte }
{
    match byte {
        b'|' => Stand::Due(opens),
        b')' => Stand::After(opens.saturating_sub(1)),
        b';' => Stand::NameDue,
        _ => Stand::Done(opens),
    }
}

// A byte after a factor that may have no star.
#[tactic(auto, unfolding(sheets::specs::Text::blank, sheets::specs::Text::letter))]
fn follow(opens: usize, byte: u8) -> Stand
    ensures { result ≡ following opens byte }
{
    match byte {
        b' ' | b'\n' => Stand::Done(opens),
        _ => begin_factor(opens, byte, end_part(opens, byte)),
    }
}

// A byte after a factor that may have a star.
#[tactic(auto, unfolding(sheets::specs::Text::blank, sheets::specs::Text::letter))]
fn may_star(opens: usize, byte: u8) -> Stand
    ensures { result ≡ starring opens byte }
{
    match byte {
        b' ' | b'\n' => Stand::After(opens),
        b'*' => Stand::Done(opens),
        _ => follow(opens, byte),
    }
}

// A byte after a whole name.
#[tactic(auto, unfolding(sheets::specs::Text::blank, sheets::specs::Text::letter))]
fn after_name(byte: u8) -> Stand
    ensures { result ≡ naming byte }
{
    match byte {
        b'=' => Stand::Due(0),
        _ => Stand::EqualsDue,
    }
}

// A byte where a name is due.
#[tactic(auto, unfolding(sheets::specs::Text::blank, sheets::specs::Text::letter))]
fn begin_name(byte: u8) -> Stand
    ensures { result ≡ beginning_name byte }
{
    match byte {
        b'a'..=b'z' => Stand::InName(1, kept_next(0, byte)),
        _ => Stand::NameDue,
    }
}

// A byte in a name.
#[tactic(auto, unfolding(sheets::specs::Text::blank, sheets::specs::Text::letter))]
fn in_name(size: usize, kept: usize, byte: u8) -> Stand
    ensures { result ≡ advance (Stand.InName size kept) byte }
{
    match byte {
        b'a'..=b'z' if size < 16 => Stand::InName(size + 1, kept_next(kept, byte)),
        b'a'..=b'z' => Stand::InName(size, kept),
        _ => after_name(byte),
    }
}

// A byte in a word.
#[tactic(auto, unfolding(sheets::specs::Text::blank, sheets::specs::Text::letter))]
fn in_word(opens: usize, size: usize, byte: u8) -> Stand
    ensures { result ≡ advance (Stand.InWord opens size) byte }
{
    match byte {
        b'a'..=b'z' if size < 16 => Stand::InWord(opens, size + 1),
        b'a'..=b'z' => Stand::InWord(opens, size),
        _ => may_star(opens, byte),
    }
}

// A byte where a factor is due.
#[tactic(auto, unfolding(sheets::specs::Text::blank, sheets::specs::Text::letter))]
fn factor_due(opens: usize, byte: u8) -> Stand
    ensures { result ≡ advance (Stand.Due opens) byte }
{
    match byte {
        b' ' | b'\n' => Stand::Due(opens),
        _ => begin_factor(opens, byte, Stand::Due(opens)),
    }
}

// Adds what is due after a factor.
fn add_behind(page: &mut Page, opens: usize, star: bool)
    ensures { Added page.old page.new (due_behind opens star) }
{
    page.add_where(opens < 32, b"`(`, ");
    page.add_where(star, b"`*`, ");
    page.add(b"`|` or ");
    if opens == 0 {
        page.add(b"`;` is due");
    } else {
        page.add(b"`)` is due");
    }
}

// Adds what is due in a name.
fn add_in_name(page: &mut Page, size: usize, kept: usize)
    ensures { Added page.old page.new (due_in_name size kept) }
{
    if kept == 5 {
        page.add(b"a letter is due");
    } else if size < 16 {
        page.add(b"a letter or `=` is due");
    } else {
        page.add(b"a blank or `=` is due");
    }
}

// Adds what is due where a factor is.
fn add_factor(page: &mut Page, opens: usize)
    ensures { Added page.old page.new (due_text (Stand.Due opens)) }
{
    if opens < 32 {
        page.add(b"a word, `empty` or `(` is due");
    } else {
        page.add(b"a word or `empty` is due");
    }
}

// Adds what is due in a word.
fn add_in_word(page: &mut Page, opens: usize, size: usize)
    ensures { Added page.old page.new (due_text (Stand.InWord opens size)) }
{
    if size < 16 {
        page.add(b"a letter, ");
    } else {
        page.add(b"a blank, ");
    }
    add_behind(page, opens, true);
}

// Adds what is due after a factor, with a further one.
fn add_further(page: &mut Page, opens: usize, star: bool)
    ensures { Added page.old page.new (due_further opens star) }
{
    page.add(b"a word, `empty`, ");
    add_behind(page, opens, star);
}

impl Stand {
    // How a reading stands after a byte at which it goes on.
    fn move_on(self, byte: u8) -> Stand
        ensures { result ≡ advance self byte }
    {
        match self {
            Stand::NameDue => begin_name(byte),
            Stand::InName(size, kept) => in_name(size, kept, byte),
            Stand::EqualsDue => after_name(byte),
            Stand::Due(opens) => factor_due(opens, byte),
            Stand::InWord(opens, size) => in_word(opens, size, byte),
            Stand::After(opens) => may_star(opens, byte),
            Stand::Done(opens) => follow(opens, byte),
        }
    }

    // How a reading stands behind the bytes at which it goes on.
    fn behind(front: &[u8]) -> Stand
        ensures { result ≡ advanced front.now Stand.NameDue }
    {
        let mut stand = Stand::NameDue;
        for byte in front {
            stand = stand.move_on(*byte);
        }
        stand
    }

    // Adds what is due.
    fn add_due(self, page: &mut Page)
        ensures { Added page.old page.new (due_text self) }
    {
        match self {
            Stand::NameDue => page.add(b"a rule's name is due"),
            Stand::InName(size, kept) => add_in_name(page, size, kept),
            Stand::EqualsDue => page.add(b"`=` is due"),
            Stand::Due(opens) => add_factor(page, opens),
            Stand::InWord(opens, size) => add_in_word(page, opens, size),
            Stand::After(opens) => add_further(page, opens, true),
            Stand::Done(opens) => add_further(page, opens, false),
        }
    }
}

// Adds what is due behind the bytes at which a reading goes on.
pub fn add_due(page: &mut Page, front: &[u8])
    ensures { Added page.old page.new
        (due_text (advanced front.now Stand.NameDue)) }
{
    Stand::behind(front).add_due(page);
}
