// The rules of figure 5: the facts of a book's nodes, and which of them are reachable.
#![tactic(auto)]

ghost use Rattle.std.specs.Prelude.{◌≡◌, true, ◌+◌, ◌-◌, ◌*◌, ◌/◌, ◌%◌, ◌≤◌, ◌<◌, length, get_or};
ghost use Rattle.kinds.specs.Kinds.{has?, only_kind, joined};
ghost use Rattle.book.specs.Form.{DONE, form_of, book_of};
ghost use Rattle.book.specs.Nodes.{node_in};
ghost use Rattle.rules.specs.Facts.{flat, facts_at, table_size, marks_size, Facts, marked?, IsMarked, AllMarked, Reached};
ghost use Rattle.rules.specs.Growth.{masks, Sound, Narrow, Blank, Joined};
ghost use Rattle.rules.specs.Order.{Order};
ghost use Rattle.rules.specs.Step.{left_from, right_from, kind_of, joined_facts, either_facts, then_facts, ruled_of};
ghost use Rattle.rules.specs.Step.{FactAt, Given, NarrowFacts, PutAt, Climbed, SpreadAll, RefsTurned};

use book::{Book, Node, Nodes};

// How many nodes the tables are for: a small one, and the other.
pub const SMALL_TABLE: usize = 64;

pub const TABLE: usize = 512;

// How many numbers the marks of 512 nodes have.
pub const MARKS: usize = 8;

// The facts of a node: productive and nullable as no kind or all kinds, FIRST and SNF as sets of kinds.
#[derive(Clone, Copy, PartialEq, Eq)]
pub struct NodeFacts {
    pub productive: u64,
    pub nullable: u64,
    pub first: u64,
    pub snf: u64,
}

impl NodeFacts {
    // The facts of a fail, and of a node of which nothing is known yet.
    pub const NONE: NodeFacts = NodeFacts {
        productive: 0,
        nullable: 0,
        first: 0,
        snf: 0,
    };
}

// The left of a node, its own number where it has none.
pub fn left_from(own: usize, node: Node) -> usize
    ensures { result ≡ left_from own node }
{
    match node {
        Node::Fail | Node::Empty | Node::Token(_) => own,
        Node::Either(l, _) | Node::Then(l, _) | Node::Tagged(l, _) | Node::Ref(l) => l,
    }
}

// The right of a node, its own number where it has none.
pub fn right_from(own: usize, node: Node) -> usize
    ensures { result ≡ right_from own node }
{
    match node {
        Node::Either(_, r) | Node::Then(_, r) => r,
        _ => own,
    }
}

// The facts that stand in a table for a node.
pub fn facts_at(table: &[NodeFacts], n: usize) -> NodeFacts
    requires { n < length table.now }
    ensures { result ≡ facts_at (flat table.now) n }
{
    table[n]
}

// A set joined with more.
fn join(set: u64, more: u64) -> u64
    ensures { result ≡ joined set more }
{
    set | more
}

// The facts of a node joined with more.
fn join_facts(facts: NodeFacts, more: NodeFacts) -> NodeFacts
    ensures { (result ≡ joined_facts facts more) × NarrowFacts result }
{
    NodeFacts {
        productive: join(facts.productive, more.productive),
        nullable: join(facts.nullable, more.nullable),
        first: join(facts.first, more.first),
        snf: join(facts.snf, more.snf),
    }
}

// What the rules give an either by the facts of its left and right.
fn either_facts(left: NodeFacts, right: NodeFacts) -> NodeFacts
    ensures { result ≡ either_facts left right }
{
    NodeFacts {
        productive: left.productive | right.productive,
        nullable: left.nullable | right.nullable,
        first: left.first | right.first,
        snf: left.snf | right.snf | left.first & right.nullable | left.nullable & right.first,
    }
}

// What the rules give a then by the facts of its left and right.
fn then_facts(left: NodeFacts, right: NodeFacts) -> NodeFacts
    ensures { result ≡ then_facts left right }
{
    NodeFacts {
        productive: left.productive & right.productive,
        nullable: left.nullable & right.nullable,
        first: left.first & right.productive | left.nullable & right.first,
        snf: left.snf & right.nullable | left.productive & right.snf,
    }
}

// What the rules give a node by the table's facts of its left and right.
fn ruled(node: Node, table: &[NodeFacts]) -> NodeFacts
    requires node_bound { kind_of node < 64 }
    requires node_in_bounds { left_from 0 node < length table.now }
    requires node_in_bounds_2 { right_from 0 node < length table.now }
    ensures { result ≡ ruled_of node (facts_at (flat table.now)) }
{
    match node {
        Node::Fail => NodeFacts::NONE,
        Node::Empty => NodeFacts {
            productive: kinds::every(),
            nullable: kinds::every(),
            first: 0,
            snf: 0,
        },
        Node::Token(k) => NodeFacts {
            productive: kinds::every(),
            nullable: 0,
            first: kinds::single(k),
            snf: 0,
        },
        Node::Either(l, r) => either_facts(table[l], table[r]),
        Node::Then(l, r) => then_facts(table[l], table[r]),
        Node::Tagged(l, _) | Node::Ref(l) => table[l],
    }
}

// Joins the facts of a node with more. Whether any changed.
fn put(table: &mut [NodeFacts], n: usize, more: NodeFacts) -> bool
    requires { n < length table.old }
    ensures put { PutAt (Given n more) more n (flat table.old) (flat table.new) result }
    ensures narrow { Narrow (flat table.old) → Narrow (flat table.new) }
{
    let old = table[n];
    let new = join_facts(old, more);
    table[n] = new;
    new != old
}

// Joins the facts of every node with what the rules give it, upward. Whether any changed. Turns share no function that
// takes the visit: the loop is three lines, and such a contract has to tell the chain of tables between the visits.
fn visit_all(book: &Book, table: &mut [NodeFacts]) -> bool
    requires count_in_bounds { (book_of book.now).count ≤ length table.old }
    requires sound { Sound masks (FactAt (book_of book.now).node) (flat table.old) }
    ensures form { (form_of book.now).number ≡ DONE }
    ensures climbed { Climbed (book_of book.now).node (book_of book.now).count (flat table.old) (flat table.new) result }
    ensures narrow { Narrow (flat table.old) → Narrow (flat table.new) }
{
    let mut changed = false;
    for n in 0..book.count() {
        let facts = ruled(book.node(n), table);
        changed |= put(table, n, facts);
    }
    changed
}

// Joins the facts of every ref with those of its left, downward. Whether any changed.
fn visit_refs(book: &Book, table: &mut [NodeFacts]) -> bool
    requires count_in_bounds { (book_of book.now).count ≤ length table.old }
    requires sound { Sound masks (FactAt (book_of book.now).node) (flat table.old) }
    ensures turned { RefsTurned (book_of book.now).node (book_of book.now).count (flat table.old) (flat table.new) result }
    ensures narrow { Narrow (flat table.old) → Narrow (flat table.new) }
{
    let mut changed = false;
    for n in (0..book.count()).rev() {
        if let Node::Ref(l) = book.node(n) {
            let facts = table[l];
            changed |= put(table, n, facts);
        }
    }
    changed
}

// Fills the table, which is blank, with the facts of all nodes. All but refs have lower sides, so that after visits
// upward refs alone can lack facts, and where none does, the table has them all.
pub fn least_facts(book: &Book, table: &mut [NodeFacts])
    requires { Blank (table_size (book_of book.now).count) (flat table.old) }
    ensures { Facts (book_of book.now).node (book_of book.now).count (flat table.new) × Narrow (flat table.new) }
{
    visit_all(book, table);
    while visit_refs(book, table) {
        visit_all(book, table);
    }
}

// The node visited at a step of a turn over so many, upward.
pub fn upward(_: usize, step: usize) -> usize
    ensures { result ≡ step }
{
    step
}

// The node visited at a step of a turn over so many, downward.
pub fn downward(count: usize, step: usize) -> usize
    requires { step < count }
    ensures { result ≡ count - 1 - step }
{
    count - 1 - step
}

// Whether a node is marked, 64 nodes to a set.
pub fn is_marked(marks: &[u64], n: usize) -> bool
    requires n_bound { n < 512 }
    requires marks_size_in_bounds { marks_size ≤ length marks.now }
    ensures { result ≡ marked? marks.now n }
{
    kinds::has(marks[n / 64], n % 64)
}

// Marks a node. Whether the mark is new.
fn mark(marks: &mut [u64], n: usize) -> bool
    requires { n / 64 < length marks.old }
    ensures { Joined marks.old marks.new (n / 64) (only_kind (n % 64)) result }
{
    let old = marks[n / 64];
    let new = join(old, kinds::single(n % 64));
    marks[n / 64] = new;
    new != old
}

// Marks the children of every marked node, in an order, by the node of each step. Whether any mark is new.
fn spread_all<F: Fn(usize, usize) -> usize>(nodes: &Nodes, order: F, marks: &mut [u64]) -> bool
    requires order { Order (F.pre order) (F.post order) nodes.now.count }
    requires marks_size_in_bounds { marks_size ≤ length marks.old }
    ensures { SpreadAll (node_in nodes.now) nodes.now.count marks.old marks.new result }
{
    let mut changed = false;
    let count = nodes.count();
    let own = nodes.own();
    for step in 0..count {
        let n = order(count, step);
        if is_marked(marks, n) {
            let node = own.node(n);
            let left = mark(marks, left_from(n, node));
            let right = mark(marks, right_from(n, node));
            changed |= left | right;
        }
    }
    changed
}

// Whether all nodes are marked.
fn all_marked(count: usize, marks: &[u64]) -> bool
    requires count_bound { count ≤ 512 }
    requires marks_size_in_bounds { marks_size ≤ length marks.now }
    ensures { result ≡ true → AllMarked marks.now count }
{
    (0..count).all(|n| is_marked(marks, n))
}

// Marks the nodes reachable from a start, in marks that are blank: turns, downward and upward by turns, until all nodes
// are marked or a turn changes nothing. Downward comes first, since all but refs have lower children. Whether all nodes
// are marked by then; where a turn changed nothing it says no.
pub fn reach(nodes: &Nodes, start: usize, marks: &mut [u64]) -> bool
    requires start { start < nodes.now.count }
    requires blank { Blank marks_size marks.old }
    ensures { Reached (node_in nodes.now) start nodes.now.count marks.new
        × (result ≡ true → AllMarked marks.new nodes.now.count) }
{
    let count = nodes.count();
    mark(marks, start);
    while spread_all(nodes, downward, marks) {
        if all_marked(count, marks) {
            return true;
        }
        if !spread_all(nodes, upward, marks) {
            return false;
        }
        if all_marked(count, marks) {
            return true;
        }
    }
    false
}
