// Reading a sheet: its expression, sequence and factor readers, its rules, and the nodes as they come.
#![tactic(auto)]

ghost use Rattle.std.specs.Prelude.{◌≡◌, false, cond, [], ◌∷◌, ◌-◌, ◌≤◌, ◌<◌, eqb, length, MatchResult};
ghost use Rattle.sheets.specs.Text.{same, empty_word};
ghost use Rattle.book.specs.declared.Node.TheVariants.{Empty, Token};
ghost use Rattle.spelling.specs.Places.{byte_at, letters_at, Fresh};
ghost use Rattle.outline.specs.Raw.{raw, raw_star};
ghost use Rattle.outline.specs.Parts.{Laid, Joined, NameDone, NameWrong, WordDone, WordWrong};
ghost use Rattle.outline.specs.Parts.{Shut, ShutWrong, Starred, Finished, FinishedWrong};
ghost use Rattle.outline.specs.Parts.{FactorDone, FactorWrong, SequenceDone, SequenceWrong, ExpressionDone, ExpressionWrong};
ghost use Rattle.outline.specs.Outlined.{RuleDone, RuleWrong, OutlinedAs, NoOutline};

use book::Node;
use spelling::{begins_factor, ends_expression, is_empty, letters_end, skip_blanks, stands};

// A node as it is put down while the text is read, and the place of the text from which it comes. A word is put down as
// a token of kind 0; which word it is, its place tells.
#[derive(Clone, Copy)]
pub struct RawNode {
    pub node: Node,
    pub place: usize,
}

// A rule as it is put down: the place of its name, and its last node.
#[derive(Clone, Copy)]
pub struct Row {
    pub name: usize,
    pub last: usize,
}

// Where a reader has come to: the place; how many nodes there are then, 513 for more than 512; where the part began.
#[derive(Clone, Copy)]
pub struct Cursor {
    pub at: usize,
    pub next: usize,
    pub from: usize,
}

impl Cursor {
    // The last node of the part.
    fn last(self) -> usize
        ensures { result ≡ self.next - 1 }
    {
        self.next.saturating_sub(1)
    }
}

// A sheet with so many nodes and rules, each 513 for more than 512.
#[derive(Clone, Copy)]
pub struct Outline {
    pub nodes: usize,
    pub rules: usize,
}

// The most nodes of a book, and a count that is more than that, no refusal: a sheet of too many is read to its end all
// the same, since a text that is no sheet is refused first (`Answers`), and `OutlinedAs` has both counts cut so.
pub const MOST: usize = 512;

const MANY: usize = 513;

// The most letters of a word.
const LETTERS: usize = 16;

// How far parentheses nest.
const NESTINGS: usize = 32;

// The node of a word from a place to another.
fn word_node(s: &[u8], from: usize, to: usize) -> Node
    requires { (from ≤ to) × (to ≤ length s.now) }
    ensures { result ≡ cond (same (letters_at s.now from to) empty_word) Empty (Token 0) }
{
    if is_empty(s, from, to) {
        return Node::Empty;
    }
    Node::Token(0)
}

// Puts a node or a row down behind so many, where the buffer has room for it, and answers how many there are then.
fn put<T: Copy>(list: &mut [T], n: usize, item: T) -> usize
    ensures { Laid list.old n result (item ∷ []) list.new }
{
    if n < list.len() {
        list[n] = item;
    }
    n.saturating_add(1).min(MANY)
}

// Puts a node that comes from a place down behind so many.
fn put_node(nodes: &mut [RawNode], n: usize, node: Node, place: usize) -> usize
    ensures { Laid nodes.old n result (raw node place ∷ []) nodes.new }
{
    put(nodes, n, RawNode { node, place })
}

// Puts the four nodes of a star down, after the node that is starred, and answers how many there are then.
fn put_star(nodes: &mut [RawNode], n: usize, place: usize) -> usize
    ensures { Laid nodes.old n result (raw_star n place) nodes.new }
{
    if MOST <= n {
        return MANY;
    }
    let then = put_node(nodes, n, Node::Ref(n + 3), place);
    let empty = put_node(nodes, then, Node::Then(n.saturating_sub(1), n), place);
    let either = put_node(nodes, empty, Node::Empty, place);
    put_node(nodes, either, Node::Either(n + 1, n + 2), place)
}

// Joins a part and a further one by a node that comes from a place.
fn join(nodes: &mut [RawNode], node: Node, place: usize, part: Cursor, further: Cursor) -> Cursor
    ensures { Joined node place part further nodes.old result nodes.new }
{
    Cursor {
        at: further.at,
        next: put_node(nodes, further.next, node, place),
        from: part.from,
    }
}

// Reads a word or `empty`, where no blank and no parenthesis stands; the place where it goes wrong otherwise.
fn word(s: &[u8], at: usize, nodes: &mut [RawNode], n: usize) -> Result<Cursor, usize>
    requires { (at ≤ length s.now) × (Fresh s.now at) × (eqb (byte_at s.now at) 40 ≡ false) }
    ensures { MatchResult result
        (λ read. WordDone s.now at nodes.old n read nodes.new)
        (λ place. WordWrong s.now at nodes.old place nodes.new) }
{
    let end = letters_end(s, at);
    if end == at {
        return Err(at);
    }
    if LETTERS < end - at {
        return Err(at + LETTERS);
    }
    let node = word_node(s, at, end);
    Ok(Cursor {
        at: end,
        next: put_node(nodes, n, node, at),
        from: at,
    })
}

// Goes on past the `)` of a parenthesis that stands at a place, after the expression within.
fn shut(s: &[u8], place: usize, inner: Cursor) -> Result<Cursor, usize>
    requires { inner.at ≤ length s.now }
    ensures { MatchResult result (λ read. Shut s.now place inner read) (λ end. ShutWrong s.now place inner end) }
{
    if !stands(s, inner.at, b')') {
        return Err(inner.at);
    }
    Ok(Cursor {
        at: inner.at + 1,
        next: inner.next,
        from: place,
    })
}

// Goes on past a star, if there is one, and the blanks around it, after a factor without its star.
fn star(s: &[u8], bare: Cursor, nodes: &mut [RawNode]) -> Cursor
    requires { bare.at ≤ length s.now }
    ensures { Starred s.now bare nodes.old result nodes.new }
{
    let place = skip_blanks(s, bare.at);
    if !stands(s, place, b'*') {
        return Cursor {
            at: place,
            next: bare.next,
            from: bare.from,
        };
    }
    let next = put_star(nodes, bare.next, place);
    let end = skip_blanks(s, place + 1);
    Cursor {
        at: end,
        next,
        from: bare.from,
    }
}

// Reads a factor.
#[cycle(expression_factor_sequence)]
fn factor(
    s: &[u8],
    at: usize,
    depth: usize,
    nodes: &mut [RawNode],
    n: usize,
) -> Result<Cursor, usize>
    requires { at ≤ length s.now }
    ensures { MatchResult result
        (λ read. FactorDone s.now at depth nodes.old n read nodes.new)
        (λ place. FactorWrong s.now at depth nodes.old place nodes.new) }
{
    let place = skip_blanks(s, at);
    if !stands(s, place, b'(') {
        let bare = word(s, place, nodes, n)?;
        return Ok(star(s, bare, nodes));
    }
    if depth == 0 {
        return Err(place);
    }
    let inner = expression(s, place + 1, depth - 1, nodes, n)?;
    let bare = shut(s, place, inner)?;
    Ok(star(s, bare, nodes))
}

// Reads a sequence: a factor, and further ones.
#[cycle(expression_factor_sequence)]
fn sequence(
    s: &[u8],
    at: usize,
    depth: usize,
    nodes: &mut [RawNode],
    n: usize,
) -> Result<Cursor, usize>
    requires { at ≤ length s.now }
    ensures { MatchResult result
        (λ read. SequenceDone s.now at depth nodes.old n read nodes.new)
        (λ place. SequenceWrong s.now at depth nodes.old place nodes.new) }
{
    let mut part = factor(s, at, depth, nodes, n)?;
    while begins_factor(s, part.at) {
        let further = factor(s, part.at, depth, nodes, part.next)?;
        let node = Node::Then(part.last(), further.last());
        part = join(nodes, node, further.from, part, further);
    }
    Ok(part)
}

// Reads an expression: a sequence, and further ones after `|`, up to where an expression ends.
#[cycle(expression_factor_sequence)]
fn expression(
    s: &[u8],
    at: usize,
    depth: usize,
    nodes: &mut [RawNode],
    n: usize,
) -> Result<Cursor, usize>
    requires { at ≤ length s.now }
    ensures { MatchResult result
        (λ read. ExpressionDone s.now at depth nodes.old n read nodes.new)
        (λ place. ExpressionWrong s.now at depth nodes.old place nodes.new) }
{
    let mut part = sequence(s, at, depth, nodes, n)?;
    while stands(s, part.at, b'|') {
        let further = sequence(s, part.at + 1, depth, nodes, part.next)?;
        let node = Node::Either(part.last(), further.last());
        part = join(nodes, node, part.at, part, further);
    }
    if !ends_expression(s, part.at) {
        return Err(part.at);
    }
    Ok(part)
}

// Reads a rule's name, which stands at a place, and the `=` after it: the place behind.
fn name(s: &[u8], at: usize) -> Result<usize, usize>
    requires { (at < length s.now) × (Fresh s.now at) }
    ensures { MatchResult result (λ read. NameDone s.now at read) (λ place. NameWrong s.now at place) }
{
    let end = letters_end(s, at);
    if end == at {
        return Err(at);
    }
    if LETTERS < end - at {
        return Err(at + LETTERS);
    }
    if is_empty(s, at, end) {
        return Err(end);
    }
    let equals = skip_blanks(s, end);
    if !stands(s, equals, b'=') {
        return Err(equals);
    }
    Ok(equals + 1)
}

// Goes on past the `;` of a rule and the blanks after it, after the rule's expression.
fn finish(s: &[u8], read: Cursor) -> Result<Cursor, usize>
    requires { read.at ≤ length s.now }
    ensures { MatchResult result (λ body. Finished s.now read body) (λ place. FinishedWrong s.now read place) }
{
    if !stands(s, read.at, b';') {
        return Err(read.at);
    }
    Ok(Cursor {
        at: skip_blanks(s, read.at + 1),
        next: read.next,
        from: read.from,
    })
}

// Reads a rule, whose name stands at a place, and the blanks after it.
pub fn rule(s: &[u8], at: usize, nodes: &mut [RawNode], n: usize) -> Result<Cursor, usize>
    requires { (at < length s.now) × (Fresh s.now at) }
    ensures { MatchResult result
        (λ read. RuleDone s.now at nodes.old n read nodes.new)
        (λ place. RuleWrong s.now at nodes.old place nodes.new) }
{
    let begin = name(s, at)?;
    let read = expression(s, begin, NESTINGS, nodes, n)?;
    finish(s, read)
}

// Reads a sheet: puts its nodes and the rows of its rules down, each as the text is read; the place where it goes wrong
// or more is due.
pub fn read_sheet(s: &[u8], nodes: &mut [RawNode], rows: &mut [Row]) -> Result<Outline, usize>
    ensures { MatchResult result
        (λ outline. OutlinedAs s.now nodes.old rows.old outline nodes.new rows.new)
        (λ place. NoOutline s.now nodes.old rows.old place nodes.new rows.new) }
{
    let mut at = skip_blanks(s, 0);
    let mut next = 0;
    let mut rules = 0;
    while at < s.len() {
        let read = rule(s, at, nodes, next)?;
        let row = Row {
            name: at,
            last: read.last(),
        };
        next = read.next;
        rules = put(rows, rules, row);
        at = read.at;
    }
    if rules == 0 {
        return Err(at);
    }
    Ok(Outline { nodes: next, rules })
}
