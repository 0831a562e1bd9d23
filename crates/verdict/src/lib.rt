// Judging a book: numbers 0 to 6, 19 and 22.
#![tactic(auto)]

ghost use Rattle.std.specs.Prelude.{◌≡◌, ◌<◌, MatchOption, MatchResult};
ghost use Rattle.book.specs.Form.{DONE, form_of, book_of};
ghost use Rattle.grammar.specs.Rules.{Conflict};
ghost use Rattle.grammar.specs.Passing.{AllReached, Fruitful, NoConflict};
ghost use Rattle.rules.specs.Facts.{flat, table_size};
ghost use Rattle.rules.specs.Growth.{Blank};
ghost use Rattle.verdict.specs.Judges.{judgement, Judges};
ghost use Rattle.verdict.specs.Conflicts.{Leaves, clash_of, Clashes};
ghost use Rattle.verdict.specs.declared.Refusal.TheVariants.{Form};
ghost use Rattle.verdict.specs.Refusals.{verdict_by};

mod known;

use book::{Book, BookError, Judged, Node};
use kinds::has;
pub use known::KnownBook;
use rules::NodeFacts;

// The answers' numbers, after those of a book's form.
pub const BARREN: u32 = 5;

pub const CONFLICT: u32 = 6;

pub const UNUSED: u32 = 22;

// What judging a book answers in numbers; of a conflict the flag that both sides are nullable, and the set of the kinds
// that clash. Numbers and a flag stay here, since the theorems on `Judges` speak of this record.
#[derive(Clone, Copy)]
pub struct Verdict {
    pub number: u32,
    pub place: u32,
    pub both: u32,
    pub clash: u64,
}

// What clashes at a node: whether both sides are nullable, and the kinds.
#[derive(Clone, Copy, PartialEq, Eq)]
pub struct Clash {
    pub both: bool,
    pub kinds: u64,
}

// What stands against a book: its form, the lowest node that is not reachable, the start that can produce no run, or the
// lowest node that has a conflict, with what clashes there.
#[derive(Clone, Copy, PartialEq, Eq)]
pub enum Refusal {
    Form(BookError),
    Unused(u32),
    Barren(u32),
    Conflict(u32, Clash),
}

impl From<BookError> for Refusal {
    ghost from_gives = { λ error refusal. refusal ≡ Form error };

    fn from(error: BookError) -> Refusal {
        Refusal::Form(error)
    }
}

impl From<Refusal> for Verdict {
    ghost from_gives = { λ refusal verdict. verdict ≡ verdict_by refusal };

    fn from(refusal: Refusal) -> Verdict {
        match refusal {
            Refusal::Form(error) => {
                let judged = Judged::from(error);
                plain(judged.number, judged.place)
            },
            Refusal::Unused(node) => plain(UNUSED, node),
            Refusal::Barren(node) => plain(BARREN, node),
            Refusal::Conflict(node, clash) => Verdict {
                number: CONFLICT,
                place: node,
                both: u32::from(clash.both),
                clash: clash.kinds,
            },
        }
    }
}

// The verdict with a number and a place that is no conflict.
fn plain(number: u32, place: u32) -> Verdict
    ensures { result ≡ judgement number place 0 0 }
{
    Verdict {
        number,
        place,
        both: 0,
        clash: 0,
    }
}

// What clashes at a node by the facts of its left and right.
#[tactic(auto, unfolding(crate::specs::Conflicts::clash_of))]
fn clash_of(node: Node, left: NodeFacts, right: NodeFacts) -> Clash
    ensures { result ≡ clash_of node left right }
{
    match node {
        Node::Either(_, _) => Clash {
            both: has(left.nullable & right.nullable, 0),
            kinds: left.first & right.first,
        },
        Node::Then(_, _) => Clash {
            both: false,
            kinds: left.snf & right.first,
        },
        Node::Fail | Node::Empty | Node::Token(_) | Node::Tagged(_, _) | Node::Ref(_) => Clash {
            both: false,
            kinds: 0,
        },
    }
}

// What clashes at a node of a book, where anything does.
fn clash_at(known: &KnownBook, n: usize) -> Option<Clash>
    requires { n < (book_of known.now.bytes).count }
    ensures { MatchOption result (Conflict (book_of known.now.bytes).node ((book_of known.now.bytes).node n) → ⊥)
        (λ clash. Clashes (book_of known.now.bytes).node ((book_of known.now.bytes).node n) clash) }
{
    let node = known.book().node(n);
    let left = known.facts(rules::left_from(n, node));
    let right = known.facts(rules::right_from(n, node));
    let clash = clash_of(node, left, right);
    if clash.both | (clash.kinds != 0) {
        Some(clash)
    } else {
        None
    }
}

// Whether a book is free of conflicts, else the lowest that it has.
fn check_conflicts(known: &KnownBook) -> Result<(), Refusal>
    requires reached { AllReached (book_of known.now.bytes) }
    requires fruitful { Fruitful (book_of known.now.bytes) }
    ensures { MatchResult result (λ _. NoConflict (book_of known.now.bytes))
        (λ refusal. Judges known.now.bytes (verdict_by refusal)) }
{
    for n in 0..known.book().count() {
        if let Some(clash) = clash_at(known, n) {
            return Err(Refusal::Conflict(n as u32, clash));
        }
    }
    Ok(())
}

// Whether the start of a book can produce some run.
fn check_start(known: &KnownBook) -> Result<(), Refusal>
    requires { AllReached (book_of known.now.bytes) }
    ensures { MatchResult result (λ _. Fruitful (book_of known.now.bytes))
        (λ refusal. Judges known.now.bytes (verdict_by refusal)) }
{
    let start = known.book().start();
    if has(known.facts(start).productive, 0) {
        Ok(())
    } else {
        Err(Refusal::Barren(start as u32))
    }
}

// Whether all nodes of a book are reachable from its start, else the lowest that is not.
fn check_reached(book: &Book) -> Result<(), Refusal>
    ensures { MatchResult result (λ _. AllReached (book_of book.now)) (λ refusal. Judges book.now (verdict_by refusal)) }
{
    let mut marks = [0u64; rules::MARKS];
    if rules::reach(&book.nodes(), book.start(), &mut marks) {
        return Ok(());
    }
    for n in 0..book.count() {
        if !rules::is_marked(&marks, n) {
            return Err(Refusal::Unused(n as u32));
        }
    }
    Ok(())
}

// Judges a book, for any bytes: the first of 1 to 4, 19, 22, 5 and 6 that stands against it, or the book, with its facts
// in the table. Where the form is good the table is blank and long enough.
pub fn judge<'a>(book: &'a [u8], table: &mut [NodeFacts]) -> Result<Book<'a>, Refusal>
    requires { (form_of book.now).number ≡ DONE → Blank (table_size (book_of book.now).count) (flat table.old) }
    ensures { MatchResult result
        (λ passed. (passed ≡ book.now) × Leaves book.now (judgement DONE 0 0 0) (flat table.new))
        (λ refusal. Leaves book.now (verdict_by refusal) (flat table.new)) }
{
    let read = Book::read(book)?;
    check_reached(&read)?;
    rules::least_facts(&read, table);
    let known = KnownBook::of(&read, table);
    check_start(&known)?;
    check_conflicts(&known)?;
    Ok(read)
}
