// What the listing program writes.
#![tactic(auto)]

ghost use Rattle.std.specs.Prelude.{◌≡◌, ◌≤◌, length, MatchResult};
ghost use Rattle.reader.specs.Reads.{outcome, read_of};
ghost use Rattle.prints.specs.Pages.{Added};
ghost use Rattle.lines.specs.Lines.{conflict_room};
ghost use Rattle.listed.specs.Listing.{
  slot_room,
  tree_room,
  out_room,
  shape_of,
  shape_by,
  Parted,
  compiled_line,
  third_of,
  reading_lines,
  Lent,
  AddedListing,
  suffices,
  Answers,
};

use book::DONE;
use compiler::{Compiled, compile};
use lines::{add_accepted, add_conflict, add_refused};
use prints::Page;
use reader::{NO_ROOM, Reading, read};
use verdict::CONFLICT;
use words::u16_at;

// The longest book, and the room for events.
pub const LONGEST_BOOK: usize = 4184;

const EVENT_ROOM: usize = 4096;

// What stands against an input.
#[derive(Clone, Copy, PartialEq, Eq)]
enum LengthError {
    TooLong,
    TooShort,
}

// A whole input: its book and its run.
#[derive(Drop)]
struct Input<'a> {
    book: &'a [u8],
    run: &'a [u8],
}

impl<'a> Input<'a> {
    // The book and the run that bytes are, or that they are too long or too short.
    fn read(input: &'a [u8]) -> Result<Input<'a>, LengthError>
        ensures { MatchResult result (λ parts. Parted input.now parts.book.now parts.run.now)
            (λ error. shape_of input.now ≡ shape_by error) }
    {
        if input.len() < 2 {
            return Err(LengthError::TooShort);
        }
        let size = u16_at(input, 0);
        if LONGEST_BOOK < size {
            return Err(LengthError::TooLong);
        }
        let end = 2 + size;
        if input.len() < end {
            return Err(LengthError::TooShort);
        }
        if end + EVENT_ROOM < input.len() {
            return Err(LengthError::TooLong);
        }
        Ok(Input {
            book: &input[2..end],
            run: &input[end..],
        })
    }
}

// Adds the line of a book that is refused; the answer is that of the C interface, so refusals are numbers.
#[tactic(auto, unfolding(crate::specs::Listing::compiled_line))]
fn add_compiled(page: &mut Page, answer: Compiled)
    ensures added { Added page.old page.new (compiled_line answer) }
    ensures short { length (compiled_line answer) ≤ conflict_room }
{
    let number = answer.number as u64;
    let place = answer.place as u64;
    if answer.number == CONFLICT {
        add_conflict(page, number, place, answer.clash, answer.both as u64);
    } else {
        add_refused(page, number, place, 0);
    }
}

// The third value of a reading's refusal: the records at NO ROOM, else the kinds expected.
fn third_of(answer: Reading) -> u64
    ensures { result ≡ third_of answer }
{
    if answer.number == NO_ROOM {
        answer.records as u64
    } else {
        answer.expected
    }
}

// Adds the lines of a run that was read; the answer is that of the C interface, so refusals are numbers.
fn add_reading(page: &mut Page, events: usize, answer: Reading, tree: &[u16])
    requires whole { length tree.now ≡ tree_room }
    requires records { answer.number ≡ DONE → answer.records ≤ length tree.now }
    ensures added { Added page.old page.new
        (reading_lines events (outcome answer tree.now)) }
    ensures short { length (reading_lines events (outcome answer tree.now)) ≤ out_room }
{
    let place = answer.place as u64;
    if answer.number == DONE {
        let records = answer.records as usize;
        add_accepted(page, events as u64, answer.records as u64, &tree[..records]);
    } else {
        add_refused(page, answer.number as u64, place, third_of(answer));
    }
}

// What is lent to compile a book and to read a run: a plan, the holding slots and a tree.
#[derive(Drop)]
struct Workspace<'a> {
    plan: &'a mut [u8],
    held: &'a mut [u32],
    tree: &'a mut [u16],
}

impl<'a> Workspace<'a> {
    // Compiles the book of a whole input, reads its run and adds what the program writes.
    fn add_parts(self, page: &mut Page, bytes: &[u8], input: &Input)
        requires lent { Lent self.plan.now self.held.now self.tree.now }
        requires parted { Parted bytes.now input.now.book.now input.now.run.now }
        ensures { AddedListing bytes.now page.old page.new }
    {
        let Workspace { plan, held, tree } = self;
        let answer = compile(input.book, plan);
        if answer.number != DONE {
            return add_compiled(page, answer);
        }
        let used = answer.size as usize;
        let reading = read(&plan[..used], input.run, held, tree);
        add_reading(page, input.run.len(), reading, tree);
    }

    // Adds what the program writes for an input.
    fn add_listing(self, page: &mut Page, input: &[u8])
        requires { Lent self.plan.now self.held.now self.tree.now }
        ensures { AddedListing input.now page.old page.new }
    {
        match Input::read(input) {
            Ok(parts) => self.add_parts(page, input, &parts),
            Err(LengthError::TooLong) => page.add(b"input too long\n"),
            Err(LengthError::TooShort) => page.add(b"input too short\n"),
        }
    }
}

// The bytes of an input that decide, and the sizes of the other buffers.
pub const INPUT_ROOM: usize = 2 + LONGEST_BOOK + EVENT_ROOM + 1;

pub const OUT_ROOM: usize = 49 + 7 * TREE_ROOM;

pub const PLAN_ROOM: usize = 37406;

pub const SLOT_ROOM: usize = 512;

pub const TREE_ROOM: usize = 8192;

// Whether the lengths of the lent buffers suffice, with so many bytes of input in the first; `Answers` speaks of each.
fn suffice(buffer: usize, size: usize, out: usize, plan: usize, held: usize, tree: usize) -> bool
    ensures { result ≡ suffices buffer size out plan held tree }
{
    (INPUT_ROOM <= buffer)
        & (size <= buffer)
        & (OUT_ROOM <= out)
        & (plan == PLAN_ROOM)
        & (held == SLOT_ROOM)
        & (tree == TREE_ROOM)
}

// Puts what the program writes for an input whose first bytes, so many, stand in the buffer, and answers its length; 0 if
// the buffers do not suffice.
pub fn list(
    buffer: &[u8],
    size: usize,
    out: &mut [u8],
    plan: &mut [u8],
    held: &mut [u32],
    tree: &mut [u16],
) -> usize
    ensures { Answers buffer.now size
        out.old plan.old held.old tree.old out.new result }
{
    if !suffice(
        buffer.len(),
        size,
        out.len(),
        plan.len(),
        held.len(),
        tree.len(),
    ) {
        return 0;
    }
    let mut page = Page::new(out);
    let workspace = Workspace { plan, held, tree };
    workspace.add_listing(&mut page, &buffer[..size]);
    page.len()
}
