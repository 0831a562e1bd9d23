// The lines that the listing program writes, added to a page.
#![tactic(auto)]

ghost use Rattle.std.specs.Prelude.{◌≤◌, length};
ghost use Rattle.prints.specs.Pages.{Added};
ghost use Rattle.lines.specs.Lines.{
  record_text,
  record_line,
  record_lines,
  refused_words,
  refused_line,
  conflict_line,
  accepted_lines,
  refused_room,
  conflict_room,
  accepted_room,
};

use prints::Page;
use reader::EMPTY;

// Adds a refusal's words: its number, its place and a third value.
fn add_words(page: &mut Page, number: u64, place: u64, third: u64)
    ensures { Added page.old page.new (refused_words number place third) }
{
    page.add(b"refused");
    page.add_spaced(number);
    page.add_spaced(place);
    page.add_spaced(third);
}

// Adds a refusal's line.
pub fn add_refused(page: &mut Page, number: u64, place: u64, third: u64)
    ensures added { Added page.old page.new (refused_line number place third) }
    ensures short { length (refused_line number place third) ≤ refused_room }
{
    add_words(page, number, place, third);
    page.add(b"\n");
}

// Adds a conflict's line, with its set of kinds and its flag.
pub fn add_conflict(page: &mut Page, number: u64, place: u64, kinds: u64, flag: u64)
    ensures added { Added page.old page.new (conflict_line number place kinds flag) }
    ensures short { length (conflict_line number place kinds flag) ≤ conflict_room }
{
    add_words(page, number, place, kinds);
    page.add_spaced(flag);
    page.add(b"\n");
}

// Adds a record's node number, an empty record's with `-` before it.
fn add_node(page: &mut Page, entry: u16)
    ensures { Added page.old page.new (record_text entry) }
{
    let node = entry as usize;
    if node < EMPTY {
        return page.add_number(node as u64);
    }
    page.add(b"-");
    page.add_number((node - EMPTY) as u64);
}

// Adds a record's line.
fn add_record(page: &mut Page, entry: u16)
    ensures { Added page.old page.new (record_line entry) }
{
    add_node(page, entry);
    page.add(b"\n");
}

// Adds one record a line. It goes over the records themselves, so `Page::add_each`, by number, is no plainer.
fn add_records(page: &mut Page, tree: &[u16])
    ensures { Added page.old page.new (record_lines tree.now) }
{
    for entry in tree {
        add_record(page, *entry);
    }
}

// Adds an accepted run's lines.
pub fn add_accepted(page: &mut Page, events: u64, records: u64, tree: &[u16])
    ensures added { Added page.old page.new (accepted_lines events records tree.now) }
    ensures short { length (accepted_lines events records tree.now) ≤ accepted_room (length tree.now) }
{
    page.add(b"accept");
    page.add_spaced(events);
    page.add_spaced(records);
    page.add(b"\n");
    add_records(page, tree);
}
