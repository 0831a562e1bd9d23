// From a tree to its run: numbers 23 to 25, after those of judging.
#![tactic(auto)]

ghost use Rattle.std.specs.Prelude.{◌≡◌, ◌≤◌, cond, length, Ok, Err, MatchResult};
ghost use Rattle.book.specs.Form.{DONE, form_of, book_of};
ghost use Rattle.rules.specs.Facts.{flat, table_size};
ghost use Rattle.rules.specs.Growth.{Blank};
ghost use Rattle.written.specs.Written.{written, out, Hands};
ghost use Rattle.verdict.specs.Judges.{judgement};
ghost use Rattle.verdict.specs.Conflicts.{Leaves};
ghost use Rattle.due.specs.Due.{is_nothing};
ghost use Rattle.unread.specs.declared.UnreadError.TheVariants.{Judged};
ghost use Rattle.unread.specs.Unreads.{Comes, Unreads};
ghost use Rattle.unread.specs.Errors.{refused_by};

use book::{Book, DONE};
use due::{Powers, is_nothing};
use rules::{NodeFacts, SMALL_TABLE, TABLE};
use trees::Due;
use turns::Turns;
use verdict::{Refusal, Verdict};
use written::{RUN_LONG, RUN_ROOM, Written, refuse};

// The number of records that are no tree, after those of judging.
pub const TREE: u32 = 23;

// The most events of a run.
const MOST_EVENTS: usize = 65535;

// What stands against the run of a tree: what stands against the book; the place where the records go wrong or end too
// soon; too many events, or no room for them.
#[derive(Clone, Copy, PartialEq, Eq)]
pub enum UnreadError {
    Judged(Refusal),
    NoTree(usize),
    RunLong,
    RunRoom,
}

impl From<Refusal> for UnreadError {
    ghost from_gives = { λ refusal error. error ≡ Judged refusal };

    fn from(refusal: Refusal) -> UnreadError {
        UnreadError::Judged(refusal)
    }
}

// What a tree comes to whose records are at their end, which is the place: its events, where nothing more is due.
fn at_end(due: Due, events: usize, place: usize) -> Result<usize, usize>
    ensures { result ≡ cond (is_nothing due) (Ok events) (Err place) }
{
    if is_nothing(due) {
        Ok(events)
    } else {
        Err(place)
    }
}

// Reads a tree of a book that passes, and writes its events where there is room for them: how many they are, or the place
// where the records go wrong or end too soon.
fn read_tree(book: &Book, table: &[NodeFacts], tree: &[u16], run: &mut [u8]) -> Result<usize, usize>
    requires { Leaves book.now (judgement DONE 0 0 0) (flat table.now) }
    ensures { Comes (book_of book.now) tree.now run.old result run.new }
{
    let powers = Powers::of(table, book.count());
    let mut turns = Turns::of(book);
    for at in 0..tree.len() {
        if !powers.allowed(turns.due(), usize::from(tree[at])) {
            return Err(at);
        }
        turns.turn(book, tree, at, run);
    }
    at_end(turns.due(), turns.events(), tree.len())
}

// Writes the run of a tree into a buffer, which it clears once the book has passed, with a table for the book's facts,
// blank and long enough where its form is good: how many events it has, or what stands against it.
fn write_run(
    book: &[u8],
    table: &mut [NodeFacts],
    tree: &[u16],
    run: &mut [u8],
) -> Result<u32, UnreadError>
    requires { (form_of book.now).number ≡ DONE → Blank (table_size (book_of book.now).count) (flat table.old) }
    ensures { MatchResult result
        (λ events. Unreads book.now tree.now (length run.old) (out (written DONE events 0) run.new))
        (λ error. Unreads book.now tree.now (length run.old) (refused_by error (length run.old))) }
{
    let passed = verdict::judge(book, table)?;
    run.fill(0);
    let events = read_tree(&passed, table, tree, run).map_err(UnreadError::NoTree)?;
    if MOST_EVENTS < events {
        return Err(UnreadError::RunLong);
    }
    if run.len() < events {
        return Err(UnreadError::RunRoom);
    }
    Ok(events as u32)
}

// The refusal with the number and place of what stands against a run, and a clear buffer.
fn refuse_by(error: UnreadError, run: &mut [u8]) -> Written
    ensures { Hands (refused_by error (length run.old)) result run.new }
{
    match error {
        UnreadError::Judged(refusal) => {
            let verdict = Verdict::from(refusal);
            refuse(verdict.number, u64::from(verdict.place), run)
        }
        UnreadError::NoTree(place) => refuse(TREE, place as u64, run),
        UnreadError::RunLong => refuse(RUN_LONG, 0, run),
        UnreadError::RunRoom => refuse(RUN_ROOM, 0, run),
    }
}

// Writes the run of a tree of a book with a table of the facts of so many nodes.
fn unread_by<const NODES: usize>(book: &[u8], tree: &[u16], run: &mut [u8]) -> Written
    requires large { (form_of book.now).number ≡ DONE → (book_of book.now).count ≤ NODES }
    requires few { NODES ≤ 512 }
    ensures { Unreads book.now tree.now (length run.old)
        (out result run.new) }
{
    let mut table = [NodeFacts::NONE; NODES];
    match write_run(book, &mut table, tree, run) {
        Ok(size) => Written {
            number: DONE,
            size,
            place: 0,
        },
        Err(error) => refuse_by(error, run),
    }
}

// Writes the run of a tree of a book, for any bytes, records and room: done with the run, or the first of the book's
// own refusals, 23, 24 and 25 and a clear buffer. A small book has a small table, which is quicker to clear.
pub fn unread(book: &[u8], tree: &[u16], run: &mut [u8]) -> Written
    ensures { Unreads book.now tree.now (length run.old)
        (out result run.new) }
{
    if book::count_claimed(book) <= SMALL_TABLE {
        unread_by::<SMALL_TABLE>(book, tree, run)
    } else {
        unread_by::<TABLE>(book, tree, run)
    }
}
