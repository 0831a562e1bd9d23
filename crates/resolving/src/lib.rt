// The words of a sheet by their places in its text: rules named twice, and which rule or which kind a word is.
#![tactic(auto)]

ghost use Rattle.std.specs.Prelude.{◌≡◌, [], ◌+◌, ◌≤◌, ◌<◌, length, take, MatchOption};
ghost use Rattle.sheets.specs.Text.{same};
ghost use Rattle.sheets.specs.Nodes.{among, kinds_after};
ghost use Rattle.resolving.specs.Letters.{word_at};
ghost use Rattle.resolving.specs.Lines.{past_blanks, past_rule, names_before, AgainAt, NoneAgain};
ghost use Rattle.resolving.specs.Words.{kinds_at, names_at, word_of_node, words_of_nodes, Found, Collected, TooMany};
ghost use Rattle.resolving.specs.Writing.{resolved_word, resolved};

use book::Node;
use outline::{RawNode, Row};
use spelling::{is_blank, is_letter, look, past};

// The letters at a place.
pub fn word_at(text: &[u8], place: usize) -> &[u8]
    ensures { result.now ≡ word_at text.now place }
{
    let from = place.min(text.len());
    &text[from..past(text, from, is_letter)]
}

// Whether a word is the one at a place. No more of the text is read than as many bytes as the word has, and one.
pub fn is_word_at(word: &[u8], text: &[u8], place: usize) -> bool
    ensures { result ≡ same word.now (word_at text.now place) }
{
    let from = place.min(text.len());
    if !text[from..].starts_with(word) {
        return false;
    }
    if is_letter(look(text, from + word.len())) {
        return false;
    }
    word_at(word, 0).len() == word.len()
}

// The place past the blanks.
fn past_blanks(text: &[u8], from: usize) -> usize
    ensures { result ≡ past_blanks text.now from }
{
    past(text, from, is_blank)
}

// The place past the next `;`.
fn past_rule(text: &[u8], from: usize) -> usize
    ensures { result ≡ past_rule text.now from }
{
    let end = past(text, from, |byte| byte != b';');
    if end < text.len() { end + 1 } else { end }
}

// Whether one of the first so many rules has a name.
fn named_before(text: &[u8], n: usize, name: &[u8]) -> bool
    ensures { result ≡ among name.now (names_before text.now n) }
{
    let mut at = past_blanks(text, 0);
    for _ in 0..n {
        if is_word_at(name, text, at) {
            return true;
        }
        at = past_blanks(text, past_rule(text, at));
    }
    false
}

// The place of the first rule whose name an earlier one has.
pub fn find_again(text: &[u8]) -> Option<usize>
    ensures { MatchOption result (NoneAgain text.now) (λ at. AgainAt text.now at) }
{
    let mut at = past_blanks(text, 0);
    let mut n = 0;
    while at < text.len() {
        if named_before(text, n, word_at(text, at)) {
            return Some(at);
        }
        at = past_blanks(text, past_rule(text, at));
        n += 1;
    }
    None
}

// The number of the rule that a word names, if it names one.
pub fn find_rule(text: &[u8], rows: &[Row], word: &[u8]) -> Option<usize>
    ensures { Found word.now (names_at text.now rows.now) result }
{
    rows.iter().position(|row| is_word_at(word, text, row.name))
}

// The number of the kind that a word is, if it is one.
pub fn find_kind(text: &[u8], kinds: &[usize], word: &[u8]) -> Option<usize>
    ensures { Found word.now (kinds_at text.now kinds.now) result }
{
    kinds.iter().position(|kind| is_word_at(word, text, *kind))
}

// The most kinds of a book.
pub const KINDS: usize = 64;

// Puts down the place of a node's word, where it is a kind that is not among so many others, and answers how many there
// are then, if there is room.
fn collect_word(
    text: &[u8],
    raw: RawNode,
    rows: &[Row],
    kinds: &mut [usize],
    many: usize,
) -> Option<usize>
    requires { (64 ≤ length kinds.old) × (many ≤ 64) }
    ensures long { length kinds.new ≡ length kinds.old }
    ensures told { MatchOption result
        (TooMany (kinds_after (names_at text.now rows.now)
        (kinds_at text.now (take many kinds.old)) (word_of_node text.now raw.node raw.place)))
        (λ more. Collected text.now
        (kinds_after (names_at text.now rows.now)
        (kinds_at text.now (take many kinds.old)) (word_of_node text.now raw.node raw.place))
        kinds.old kinds.new more) }
{
    let Node::Token(_) = raw.node else {
        return Some(many);
    };
    let word = word_at(text, raw.place);
    if find_rule(text, rows, word).is_some() {
        return Some(many);
    }
    if find_kind(text, &kinds[..many], word).is_some() {
        return Some(many);
    }
    if many == KINDS {
        return None;
    }
    kinds[many] = raw.place;
    Some(many + 1)
}

// Puts down the places of the kinds of nodes, by first appearance, and answers how many there are, if they are not too
// many.
pub fn collect(text: &[u8], nodes: &[RawNode], rows: &[Row], kinds: &mut [usize]) -> Option<usize>
    requires { 64 ≤ length kinds.old }
    ensures long { length kinds.new ≡ length kinds.old }
    ensures told { MatchOption result
        (TooMany (kinds_after (names_at text.now rows.now) [] (words_of_nodes text.now nodes.now)))
        (λ many. Collected text.now
        (kinds_after (names_at text.now rows.now) [] (words_of_nodes text.now nodes.now))
        kinds.old kinds.new many) }
{
    let mut many = 0;
    for raw in nodes {
        many = collect_word(text, *raw, rows, kinds, many)?;
    }
    Some(many)
}

// The node of the word at a place: a ref to the last node of the rule that it names, or a token of its kind; where it is
// none of the kinds, their count, as `number_of` in `resolved_word` has it.
fn resolve_word(text: &[u8], place: usize, rows: &[Row], kinds: &[usize]) -> Node
    ensures { result ≡ resolved_word text.now rows.now kinds.now place }
{
    let word = word_at(text, place);
    match find_rule(text, rows, word) {
        Some(rule) => Node::Ref(rows[rule].last),
        None => Node::Token(find_kind(text, kinds, word).unwrap_or(kinds.len())),
    }
}

// A node that is put down as it is written: a word as what it is.
pub fn resolve(text: &[u8], raw: RawNode, rows: &[Row], kinds: &[usize]) -> Node
    ensures { result ≡ resolved text.now rows.now kinds.now raw.node raw.place }
{
    match raw.node {
        Node::Token(_) => resolve_word(text, raw.place, rows, kinds),
        other => other,
    }
}
