// The greatest number of parts that a book's readings ever hold, and profiles of so many slots: numbers 30 to 32.
#![tactic(auto)]

ghost use Rattle.std.specs.Prelude.{◌≡◌, ◌+◌, ◌≤◌, ◌<◌, length, MatchResult};
ghost use Rattle.book.specs.Form.{DONE, book_of};
ghost use Rattle.rules.specs.Facts.{flat};
ghost use Rattle.rules.specs.Growth.{Blank, Sound};
ghost use Rattle.verdict.specs.Judges.{judgement, Judges};
ghost use Rattle.profile.specs.Weights.{weighing, one_more, side_at, then_weight, weight_by};
ghost use Rattle.profile.specs.Weights.{Raised, WeightAt, WeightsTurned};
ghost use Rattle.profile.specs.Profiles.{depth, Measures, Profiles};
ghost use Rattle.profile.specs.Errors.{refused_book, depth_by};

use book::{DONE, Node};
use rules::{NodeFacts, facts_at};
use verdict::{KnownBook, Refusal, Verdict};

// The answers' numbers, after the book's own; SLOTS before them all.
pub const UNBOUNDED: u32 = 30;

pub const DEEPER: u32 = 31;

pub const SLOTS: u32 = 32;

// The most slots of a profile.
const MOST_SLOTS: u32 = 64;

// How many numbers the weights of 512 nodes have.
const WEIGHTS: usize = 512;

// The most that a number tells: more weights than a book has nodes, and one.
const MOST: u32 = 514;

// What is answered of a book: number, place, and the greatest number of parts held. Numbers stay: C takes this struct.
#[repr(C)]
#[derive(Clone, Copy)]
pub struct Depth {
    pub number: u32,
    pub place: u32,
    pub held: u32,
}

// What stands against a book or a profile: a refusal of the book, that there is no greatest number, a number above the
// slots, or slots that are no profile's.
#[derive(Clone, Copy, PartialEq, Eq)]
enum DepthError {
    Book(Refusal),
    Unbounded,
    Deeper(u32),
    Slots,
}

impl From<Refusal> for DepthError {
    ghost from_gives = { λ refusal error. error ≡ refused_book refusal };

    fn from(refusal: Refusal) -> DepthError {
        DepthError::Book(refusal)
    }
}

impl From<DepthError> for Depth {
    ghost from_gives = { λ error answer. answer ≡ depth_by error };

    fn from(error: DepthError) -> Depth {
        let (number, place) = match error {
            DepthError::Book(refusal) => {
                let verdict = Verdict::from(refusal);
                (verdict.number, verdict.place)
            },
            DepthError::Unbounded => (UNBOUNDED, 0),
            DepthError::Deeper(held) => (DEEPER, held),
            DepthError::Slots => (SLOTS, 0),
        };
        Depth {
            number,
            place,
            held: 0,
        }
    }
}

// What is known of the left or right of a node: whether it is productive, and how many weights its ways weigh at least.
#[derive(Clone, Copy)]
struct Side {
    makes: bool,
    weight: u32,
}

// One weight more where there is a way, up to the most.
fn one_more(x: u32) -> u32
    ensures { result ≡ one_more x }
{
    if (1..MOST).contains(&x) { x + 1 } else { x }
}

// What stands in the table and among the weights for a node.
fn side_at(table: &[NodeFacts], weights: &[u32], n: usize) -> Side
    requires n_in_table { n < length table.now }
    requires n_in_bounds { n < length weights.now }
    ensures { result ≡ side_at (flat table.now) weights.now n }
{
    Side {
        makes: kinds::has(facts_at(table, n).productive, 0),
        weight: weights[n],
    }
}

// What a then has by its sides: one more than left where right is productive, and right's where left is productive.
fn then_weight(left: Side, right: Side) -> u32
    ensures { result ≡ then_weight left right }
{
    let held = if right.makes {
        one_more(left.weight)
    } else {
        0
    };
    let passed = if left.makes { right.weight } else { 0 };
    held.max(passed)
}

// What a node has by its sides.
fn weight_by(node: Node, left: Side, right: Side) -> u32
    ensures { result ≡ weight_by node left right }
{
    let either = left.weight.max(right.weight);
    let both = then_weight(left, right);
    match node {
        Node::Fail | Node::Empty => 0,
        Node::Token(_) => 1,
        Node::Either(_, _) => either,
        Node::Then(_, _) => both,
        Node::Tagged(_, _) | Node::Ref(_) => left.weight,
    }
}

// Raises a number to another, if that is greater. Whether it changed.
fn raise(weights: &mut [u32], n: usize, more: u32) -> bool
    requires { n < length weights.old }
    ensures { Raised weights.old weights.new n more result }
{
    let old = weights[n];
    let new = old.max(more);
    weights[n] = new;
    new != old
}

// Raises the number of every node to what it has by its sides, upward. Whether any number changed.
fn raise_all(known: &KnownBook, weights: &mut [u32]) -> bool
    requires count_in_bounds { (book_of known.now.bytes).count ≤ length weights.old }
    requires sound { Sound weighing (WeightAt (book_of known.now.bytes).node) weights.old }
    ensures { WeightsTurned (book_of known.now.bytes).node known.now.table (book_of known.now.bytes).count
        weights.old weights.new result }
{
    let book = known.book();
    let nodes = book.nodes();
    let table = known.table();
    let mut changed = false;
    for n in 0..book.count() {
        let node = nodes.node(n);
        let left = side_at(table, weights, rules::left_from(n, node));
        let right = side_at(table, weights, rules::right_from(n, node));
        changed = changed | raise(weights, n, weight_by(node, left, right));
    }
    changed
}

// Measures a book that passes, with blank weights: the greatest number of parts held, or Unbounded.
// Turns go on until one changes nothing; a way weighs as many parts as it holds and one, or holds one.
fn measure(known: &KnownBook, weights: &mut [u32]) -> Result<u32, DepthError>
    requires judges { Judges known.now.bytes (judgement DONE 0 0 0) }
    requires blank { Blank 512 weights.old }
    ensures { MatchResult result (λ held. Measures known.now.bytes (depth DONE 0 held))
        (λ error. Measures known.now.bytes (depth_by error)) }
{
    let book = known.book();
    while raise_all(known, weights) {}
    let weight = weights[book.start()];
    if MOST <= weight {
        return Err(DepthError::Unbounded);
    }
    Ok(weight.saturating_sub(1).max(1))
}

// The greatest number of parts that a book's readings ever hold at once, or what stands against it.
fn greatest_held(book: &[u8]) -> Result<u32, DepthError>
    ensures { MatchResult result (λ held. Measures book.now (depth DONE 0 held)) (λ error. Measures book.now (depth_by error)) }
{
    let mut table = [NodeFacts::NONE; rules::TABLE];
    let mut weights = [0u32; WEIGHTS];
    let passed = verdict::judge(book, &mut table)?;
    measure(&KnownBook::of(&passed, &table), &mut weights)
}

// That number where it is at most so many slots, or what stands against the profile.
fn held_within(book: &[u8], slots: u32) -> Result<u32, DepthError>
    ensures { MatchResult result (λ held. Profiles book.now slots (depth DONE 0 held))
        (λ error. Profiles book.now slots (depth_by error)) }
{
    if slots < 1 || MOST_SLOTS < slots {
        return Err(DepthError::Slots);
    }
    let held = greatest_held(book)?;
    if slots < held {
        return Err(DepthError::Deeper(held));
    }
    Ok(held)
}

// The answer of a number of parts, or of what stands against it.
fn answered(held: Result<u32, DepthError>) -> Depth
    ensures { MatchResult held (λ most. result ≡ depth DONE 0 most) (λ error. result ≡ depth_by error) }
{
    match held {
        Ok(held) => Depth {
            number: DONE,
            place: 0,
            held,
        },
        Err(error) => Depth::from(error),
    }
}

// The greatest number of parts that a book's readings ever hold at once, for any bytes: the book's own refusals,
// UNBOUNDED, or done with the number.
pub fn greatest(book: &[u8]) -> Depth
    ensures { Measures book.now result }
{
    answered(greatest_held(book))
}

// What a profile of so many slots says of a book, for any bytes and any slots: SLOTS, what is refused anyhow, DEEPER,
// or done with the greatest number of parts held.
pub fn profile(book: &[u8], slots: u32) -> Depth
    ensures { Profiles book.now slots result }
{
    answered(held_within(book, slots))
}
