// The least measures of the runs that good nodes derive, cut: one function for any measure that can be told by a
// node's sides. The length of a run, cut at 65,536, is one.
#![tactic(auto)]

ghost use Rattle.std.specs.Prelude.{◌≡◌, true, ◌+◌, ◌*◌, ◌≤◌, ◌<◌, ℕ, List, length};
ghost use Rattle.book.specs.Nodes.{node_in, AreGood};
ghost use Rattle.rules.specs.Growth.{Sound};
ghost use Rattle.rules.specs.Order.{Order};
ghost use Rattle.rules.specs.Step.{left_from, right_from, kind_of};
ghost use Rattle.lengths.specs.Least.{length_at, Lengths};
ghost use Rattle.lengths.specs.Measures.{MeasureLaws, length_laws};
ghost use Rattle.lengths.specs.Falling.{smaller, measure_at, measure_by, at_most, SomeAt, AllCap, Fresh, AllLowered, Leasts};

use book::{Node, Nodes};
use rules::{downward, upward};

// Where lengths are cut: a run as long, or none, has this number.
pub const CAP: u32 = 65536;

// A measure of runs, of which good nodes have the least, cut.
pub trait Measure {
    // Where it is cut: a run that measures as much, or none, has this number.
    ghost CAP: { ℕ };

    // What a run of one kind measures, what a run followed by another does by what the two do, and what any run does.
    ghost token: { ℕ → ℕ };

    ghost joined: { ℕ → ℕ → ℕ };

    ghost size: { List ℕ → ℕ };

    const CAP: u32;

    fn token(kind: usize) -> usize
        requires { kind < 64 }
        ensures { result ≡ token kind };

    fn joined(one: usize, other: usize) -> usize
        requires { (one < 4294967296) × (other < 4294967296) }
        ensures { result ≡ joined one other };

    ghost laws: { MeasureLaws CAP token joined size };
}

// The smaller of two numbers.
pub fn smaller(one: usize, other: usize) -> usize
    ensures { result ≡ smaller one other }
{
    one.min(other)
}

// The measure that stands in the table for a node.
fn measure_at(table: &[u32], n: usize) -> usize
    requires { n < length table.now }
    ensures { (result ≡ measure_at 0 table.now n) × (result < 4294967296) }
{
    table[n] as usize
}

// The measure of a node by the table's measures of its left and right, cut.
fn measure_by<M: Measure>(node: Node, table: &[u32]) -> usize
    requires left_in_bounds { left_from 0 node < length table.now }
    requires right_in_bounds { right_from 0 node < length table.now }
    requires kind_bound { kind_of node < 64 }
    ensures { result ≡ measure_by M.CAP M.token M.joined node (measure_at M.CAP table.now) }
{
    match node {
        Node::Fail => M::CAP as usize,
        Node::Empty => 0,
        Node::Token(k) => M::token(k),
        Node::Either(l, r) => smaller(measure_at(table, l), measure_at(table, r)),
        Node::Then(l, r) => smaller(
            M::joined(measure_at(table, l), measure_at(table, r)),
            M::CAP as usize,
        ),
        Node::Tagged(l, _) | Node::Ref(l) => measure_at(table, l),
    }
}

// Lowers the measure of every node to that by its left and right, in an order, by the node of each step. Whether any
// fell.
fn lower_all<M: Measure, F: Fn(usize, usize) -> usize>(
    nodes: &Nodes,
    order: F,
    table: &mut [u32],
) -> bool
    requires order { Order (F.pre order) (F.post order) nodes.now.count }
    requires count_in_bounds { nodes.now.count ≤ length table.old }
    requires sound { Sound (at_most M.CAP) (SomeAt M.CAP M.size (node_in nodes.now)) table.old }
    ensures good { AreGood nodes.now }
    ensures lowered { AllLowered M.CAP M.token M.joined M.size (node_in nodes.now) nodes.now.count
        table.old table.new result }
{
    let mut changed = false;
    let count = nodes.count();
    let own = nodes.own();
    for step in 0..count {
        let n = order(count, step);
        let new = measure_by::<M>(own.node(n), table);
        if new < measure_at(table, n) {
            table[n] = new as u32;
            changed = true;
        }
    }
    changed
}

// Fills the table, all at the cap before, with the least measures: turns upward and downward by turns, until one changes
// nothing. All but refs have lower sides, so that upward comes first; chains of refs upward settle in a turn downward.
pub fn least<M: Measure>(nodes: &Nodes, table: &mut [u32])
    requires { AllCap M.CAP nodes.now.count table.old }
    ensures { Leasts M.CAP M.size (node_in nodes.now) table.new }
{
    while lower_all::<M, _>(nodes, upward, table) && lower_all::<M, _>(nodes, downward, table) {}
}

// The length of a run.
struct Length;

impl Measure for Length {
    ghost CAP = { 65536 };

    ghost token = { λ kind. 1 };

    ghost joined = { λ one other. one + other };

    ghost size = { length };

    ghost laws = { length_laws };

    const CAP: u32 = CAP;

    fn token(_: usize) -> usize {
        1
    }

    fn joined(one: usize, other: usize) -> usize {
        one + other
    }
}

// The length that stands in the table for a node.
pub fn length_at(lengths: &[u32], n: usize) -> usize
    requires { n < length lengths.now }
    ensures { (result ≡ length_at lengths.now n) × (result < 4294967296) }
{
    measure_at(lengths, n)
}

// Fills the table, all at the cap before, with the least lengths.
pub fn least_lengths(nodes: &Nodes, lengths: &mut [u32])
    requires { Fresh nodes.now.count lengths.old }
    ensures { Lengths (node_in nodes.now) nodes.now.count lengths.new }
{
    least::<Length>(nodes, lengths);
}
