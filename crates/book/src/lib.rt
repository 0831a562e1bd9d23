// Books: nodes, and the form of a book, of two sections or, with names, of three: numbers 1 to 4 and 19.
// The nodes' and settings' tests take bytes, an offset and counts, since a plan holds both too, and has no `Book`.
#![tactic(auto)]

ghost use Rattle.std.specs.Prelude.{◌≡◌, true, ◌&&◌, leb, MatchResult, MatchOption, ◌+◌, ◌*◌, ◌-◌, ◌≤◌, ◌<◌, length};
ghost use Rattle.words.specs.Lists.{first_bad};
ghost use Rattle.book.specs.Decode.{type_of, typed_node, fields_good, node_at, node_good};
ghost use Rattle.book.specs.Form.{named, settings_at, nodes_at, count_of, count_claimed, names_at, length_good};
ghost use Rattle.book.specs.Form.{contents_good, settings_good, names_form, form_of, book_of, judged, DONE};
ghost use Rattle.book.specs.Errors.{judged_by};

mod good;
mod nodes;

use forms::contents_are;
pub use good::Book;
use names::{NAMES, find_bad};
pub use nodes::Nodes;
use words::u16_at;

// A node of a book, by the type table. Bytes that are no node never come past the form test.
#[derive(Clone, Copy)]
pub enum Node {
    Fail,
    Empty,
    Token(usize),
    Either(usize, usize),
    Then(usize, usize),
    Tagged(usize, usize),
    Ref(usize),
}

// A node's type, in the order of the type table.
#[derive(Clone, Copy)]
pub enum NodeType {
    Fail,
    Empty,
    Token,
    Either,
    Then,
    Tagged,
    Ref,
}

// The left and the right of a node, and what they are held against: how many kinds and nodes there are, its own number.
#[derive(Clone, Copy)]
pub struct Fields {
    pub kinds: usize,
    pub count: usize,
    pub own: usize,
    pub left: usize,
    pub right: usize,
}

// The type with a number in the type table, if it is one's.
fn type_of(number: usize) -> Option<NodeType>
    ensures { result ≡ type_of number }
{
    match number {
        0 => Some(NodeType::Fail),
        1 => Some(NodeType::Empty),
        2 => Some(NodeType::Token),
        3 => Some(NodeType::Either),
        4 => Some(NodeType::Then),
        5 => Some(NodeType::Tagged),
        6 => Some(NodeType::Ref),
        _ => None,
    }
}

impl NodeType {
    // Whether fields are those of a node of the type, by the type table: a left and a right that are not used are 0, a
    // kind is below K, a side is a lower node, a label is 1 to 65,535, and a ref's left is any node.
    fn allows(self, f: Fields) -> bool
        ensures { result ≡ fields_good (Some self) f }
    {
        match self {
            NodeType::Fail | NodeType::Empty => f.left == 0 && f.right == 0,
            NodeType::Token => f.left < f.kinds && f.right == 0,
            NodeType::Either | NodeType::Then => f.left < f.own && f.right < f.own,
            NodeType::Tagged => f.left < f.own && 1 <= f.right && f.right <= 65535,
            NodeType::Ref => f.left < f.count && f.right == 0,
        }
    }
}

// The node with a number, in nodes that begin at `base`. Straight by its type's number: by an `Option` of a type, of which no
// value is none, each look at a node would branch twice (the bar is that of the plan's test in docs/BENCHMARKS.md).
#[tactic(auto, unfolding(crate::specs::Decode::node_at))]
pub fn node_at(bytes: &[u8], base: usize, n: usize) -> Node
    requires { base + 6 * n + 6 ≤ length bytes.now }
    ensures { result ≡ node_at bytes.now base n }
{
    let at = base + 6 * n;
    let left = u16_at(bytes, at + 2);
    let right = u16_at(bytes, at + 4);
    match u16_at(bytes, at) {
        1 => Node::Empty,
        2 => Node::Token(left),
        3 => Node::Either(left, right),
        4 => Node::Then(left, right),
        5 => Node::Tagged(left, right),
        6 => Node::Ref(left),
        _ => Node::Fail,
    }
}

// Whether the node with a number is as the type table has it.
#[tactic(auto, unfolding(crate::specs::Decode::node_good))]
pub fn node_good(bytes: &[u8], base: usize, kinds: usize, count: usize, n: usize) -> bool
    requires { base + 6 * n + 6 ≤ length bytes.now }
    ensures { result ≡ node_good bytes.now base kinds count n }
{
    let at = base + 6 * n;
    match type_of(u16_at(bytes, at)) {
        Some(of) => of.allows(Fields {
            kinds,
            count,
            own: n,
            left: u16_at(bytes, at + 2),
            right: u16_at(bytes, at + 4),
        }),
        None => false,
    }
}

// The first node that is against the type table, if any is.
pub fn first_bad(bytes: &[u8], base: usize, kinds: usize, count: usize) -> Option<usize>
    requires { base + 6 * count ≤ length bytes.now }
    ensures { MatchOption result (first_bad (node_good bytes.now base kinds count) count 0 ≡ count)
        (λ n. (n < count) × (n ≡ first_bad (node_good bytes.now base kinds count) count 0)) }
{
    for n in 0..count {
        if !node_good(bytes, base, kinds, count, n) {
            return Some(n);
        }
    }
    None
}

// Whether settings at an offset have 1 to 64 kinds and a start among the nodes.
pub fn settings_good(bytes: &[u8], at: usize, count: usize) -> bool
    requires { at + 4 ≤ length bytes.now }
    ensures { result ≡ settings_good bytes.now at count }
{
    let kinds = u16_at(bytes, at);
    1 <= kinds && kinds <= 64 && u16_at(bytes, at + 2) < count
}

// Where the settings of a book begin, without names and with them, and where the size of its nodes stands.
const SETTINGS_AT: usize = 14;

const NAMED_SETTINGS_AT: usize = 20;

const NODES_SIZE_AT: usize = 12;

// Whether bytes begin as a book with names: with a count of three sections.
#[tactic(auto, unfolding(crate::specs::Form::named))]
pub fn has_names(bytes: &[u8]) -> bool
    requires { 2 ≤ length bytes.now }
    ensures { result ≡ named bytes.now }
{
    u16_at(bytes, 0) == 3
}

// Where the settings begin.
#[tactic(auto, unfolding(crate::specs::Form::settings_at))]
fn settings_at(bytes: &[u8]) -> usize
    requires { 2 ≤ length bytes.now }
    ensures { (result ≡ settings_at bytes.now) × (result ≤ 20) }
{
    if has_names(bytes) {
        NAMED_SETTINGS_AT
    } else {
        SETTINGS_AT
    }
}

// How many nodes there are: with names by the size of section 2, else by the length.
#[tactic(auto, unfolding(crate::specs::Form::count_of, crate::specs::Form::settings_at))]
fn count_of(bytes: &[u8]) -> usize
    requires { 24 ≤ length bytes.now }
    ensures { result ≡ count_of bytes.now }
{
    if has_names(bytes) {
        u16_at(bytes, NODES_SIZE_AT) / 6
    } else {
        (bytes.len() - (SETTINGS_AT + 4)) / 6
    }
}

// How many nodes bytes claim to have: none where they are shorter than any book.
pub fn count_claimed(bytes: &[u8]) -> usize
    ensures { result ≡ count_claimed bytes.now }
{
    if bytes.len() < 24 {
        return 0;
    }
    count_of(bytes)
}

// Whether a count of nodes is an N: 1 to 512.
fn few_nodes(count: usize) -> bool
    ensures { result ≡ (leb 1 count && leb count 512) }
{
    matches!(count, 1..=512)
}

// Whether the length is that of a book: 18 + 6N for an N from 1 to 512; with names 32 to 4,184.
#[tactic(auto, using(crate::proofs::Laws::too_short, crate::proofs::Laws::settings_plain, crate::proofs::Laws::count_plain))]
fn length_good(bytes: &[u8]) -> bool
    ensures { result ≡ length_good bytes.now }
{
    let size = bytes.len();
    if size < 24 {
        return false;
    }
    if has_names(bytes) {
        return matches!(size, 32..=4184);
    }
    let count = count_of(bytes);
    few_nodes(count) && size == SETTINGS_AT + 4 + 6 * count
}

// Whether the contents are those of a book's sections, for an N from 1 to 512, whose nodes all stand in the bytes.
#[tactic(auto, using(crate::proofs::Laws::settings_plain, crate::proofs::Laws::settings_named, crate::proofs::Laws::few_nodes_are))]
fn contents_good(bytes: &[u8]) -> bool
    requires { 24 ≤ length bytes.now }
    ensures { result ≡ contents_good bytes.now }
{
    let size = bytes.len();
    let count = count_of(bytes);
    if !few_nodes(count) {
        return false;
    }
    let names_at = settings_at(bytes) + 4 + 6 * count;
    if size < names_at {
        return false;
    }
    if has_names(bytes) {
        contents_are(bytes, &[4, 6 * count, size - names_at])
    } else {
        contents_are(bytes, &[4, 6 * count])
    }
}

// The answers' numbers.
pub const DONE: u32 = 0;

pub const LENGTH: u32 = 1;

pub const CONTENTS: u32 = 2;

pub const SETTINGS: u32 = 3;

pub const NODE: u32 = 4;

// What a form test answers, as the C interface has it: done or a refusal's number, with its place.
#[repr(C)]
#[derive(Clone, Copy)]
pub struct Judged {
    pub number: u32,
    pub place: u32,
}

// What stands against a book, with the first node or name that is bad.
#[derive(Clone, Copy, PartialEq, Eq)]
pub enum BookError {
    Length,
    Contents,
    Settings,
    Node(u32),
    Names(u32),
}

impl From<BookError> for Judged {
    ghost from_gives = { λ error judged. judged ≡ judged_by error };

    fn from(error: BookError) -> Judged {
        let (number, place) = match error {
            BookError::Length => (LENGTH, 0),
            BookError::Contents => (CONTENTS, 0),
            BookError::Settings => (SETTINGS, 0),
            BookError::Node(n) => (NODE, n),
            BookError::Names(n) => (NAMES, n),
        };
        Judged { number, place }
    }
}

// The names' test: with names, a good one for each kind stands at an offset, and nothing else.
#[tactic(auto, using(crate::proofs::Laws::bad_within))]
fn check_names(bytes: &[u8], at: usize, kinds: usize) -> Result<(), BookError>
    requires { (2 ≤ length bytes.now) × (at ≤ length bytes.now) × (kinds ≤ 64) }
    ensures { MatchResult result (λ _. names_form bytes.now at kinds ≡ judged DONE 0)
        (λ error. names_form bytes.now at kinds ≡ judged_by error) }
{
    if has_names(bytes) {
        if let Err(n) = find_bad(bytes, at, kinds) {
            return Err(BookError::Names(n as u32));
        }
    }
    Ok(())
}

// The test of a book's form, for any bytes: the first thing that stands against it, if any.
#[tactic(auto, using(crate::proofs::Laws::length_least, crate::proofs::Laws::sized, crate::proofs::Laws::settings_say, crate::proofs::Laws::form_length, crate::proofs::Laws::form_contents, crate::proofs::Laws::form_settings, crate::proofs::Laws::form_node, crate::proofs::Laws::form_names))]
pub fn check(bytes: &[u8]) -> Result<(), BookError>
    ensures { MatchResult result (λ _. form_of bytes.now ≡ judged DONE 0) (λ error. form_of bytes.now ≡ judged_by error) }
{
    if !length_good(bytes) {
        return Err(BookError::Length);
    }
    if !contents_good(bytes) {
        return Err(BookError::Contents);
    }
    let count = count_of(bytes);
    let settings = settings_at(bytes);
    if !settings_good(bytes, settings, count) {
        return Err(BookError::Settings);
    }
    let kinds = u16_at(bytes, settings);
    if let Some(n) = first_bad(bytes, settings + 4, kinds, count) {
        return Err(BookError::Node(n as u32));
    }
    check_names(bytes, settings + 4 + 6 * count, kinds)
}

// The form of a book, for any bytes: done, or the first of 1 to 4 and 19 that holds against it, with its place.
pub fn form(book: &[u8]) -> Judged
    ensures { result ≡ form_of book.now }
{
    match check(book) {
        Ok(()) => Judged {
            number: DONE,
            place: 0,
        },
        Err(error) => Judged::from(error),
    }
}
