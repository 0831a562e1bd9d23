// Writing the plan of a book.
#![tactic(auto)]

ghost use Rattle.std.specs.Prelude.{◌≡◌, ◌+◌, ◌*◌, ◌-◌, ◌≤◌, ◌<◌, ◌++◌, cond, length};
ghost use Rattle.std.proofs.lemmas.List.Edits.{sets};
ghost use Rattle.words.specs.Lists.{part_at, lists_from};
ghost use Rattle.words.specs.Words.{Below, zeros};
ghost use Rattle.book.specs.Book.{left_of};
ghost use Rattle.book.specs.Form.{DONE, form_of, book_of};
ghost use Rattle.rules.specs.Facts.{flat};
ghost use Rattle.plan.specs.Form.{plan_size, plan_settings_at, rows_at};
ghost use Rattle.writer.specs.Bytes.{plan_contents, book_body, row_of, rows_of, plan_bytes};
ghost use Rattle.writer.specs.Table.{marks_of, with_due, due_bytes, far_cell, row_by, Writable, ClearFrom};

use book::{Book, Node};
use forms::put_contents;
use kinds::{has, lowest, without};
use lengths::length_at;
use plan::{PLAN_NODES_AT, PLAN_SETTINGS_AT, one_cell};
use rules::NodeFacts;
use words::{copy_bytes, put_u16};

// Writes a plan's contents.
fn put_plan_contents(plan: &mut [u8], count: usize, kinds: usize)
    requires { (plan_size count kinds ≤ length plan.old) × (plan_size count kinds < 65536) × (kinds < 65536) }
    ensures { plan.new ≡ sets plan.old 0 (plan_contents count kinds) }
{
    let sizes = [4, 6 * count, count * (kinds + 1), 2 * count];
    put_contents(plan, &sizes);
}

// Copies a part of bytes to where a plan's settings begin.
fn put_part(plan: &mut [u8], bytes: &[u8], from: usize, size: usize)
    requires { (from + size ≤ length bytes.now) × (plan_settings_at + size ≤ length plan.old) }
    ensures copied { plan.new ≡ sets plan.old plan_settings_at (part_at bytes.now from size) }
    ensures bytes_below { Below 256 bytes.now }
{
    copy_bytes(bytes, from, plan, PLAN_SETTINGS_AT, size);
}

// Writes a book's settings and nodes.
fn put_book(plan: &mut [u8], book: &Book)
    requires { rows_at (book_of book.now).count ≤ length plan.old }
    ensures { plan.new ≡ sets plan.old plan_settings_at (book_body (book_of book.now)) }
{
    let size = 4 + 6 * book.count();
    put_part(plan, book.bytes(), book.settings_at(), size);
}

// The left of a node, 0 where it has none.
fn left_of(node: Node) -> usize
    ensures { result ≡ left_of node }
{
    match node {
        Node::Either(left, _) | Node::Then(left, _) | Node::Tagged(left, _) | Node::Ref(left) =>
            left,
        Node::Fail | Node::Empty | Node::Token(_) => 0,
    }
}

// The cell of a node for a kind in FIRST(node) that is not in FIRST(left), given a then's.
fn far_cell(node: Node, skip: u8) -> u8
    ensures { result ≡ far_cell node skip }
{
    match node {
        Node::Fail | Node::Empty => 0,
        Node::Token(_) => 1,
        Node::Either(_, _) => 5,
        Node::Then(_, _) => skip,
        Node::Tagged(_, _) | Node::Ref(_) => 2,
    }
}

// What a node's row is made of: FIRST(node) and FIRST(left), the cell for a kind in both, the cell for one in FIRST(node)
// alone, and the mark.
#[derive(Clone, Copy)]
struct RowParts {
    first: u64,
    left: u64,
    near: u8,
    far: u8,
    mark: u8,
}

// The row of a node, by a table of facts.
fn row_of(book: &Book, n: usize, table: &[NodeFacts]) -> RowParts
    requires form { (form_of book.now).number ≡ DONE }
    requires n_lt_count { n < (book_of book.now).count }
    requires count_in_bounds { (book_of book.now).count ≤ length table.now }
    ensures { row_by result.first result.left result.near result.far (book_of book.now).kinds result.mark
        ≡ row_of (marks_of (flat table.now) (book_of book.now).count) (book_of book.now) n }
{
    let node = book.node(n);
    let facts = table[n];
    let left = table[left_of(node)];
    let skip = if has(left.nullable, 0) { 4 } else { 3 };
    RowParts {
        first: facts.first,
        left: left.first,
        near: one_cell(node),
        far: far_cell(node, skip),
        mark: u8::from(has(facts.nullable, 0)),
    }
}

// Writes a row into zeros: for each kind in FIRST(node) a cell, one if it is in FIRST(left), another if not; then the mark.
fn put_row(plan: &mut [u8], at: usize, kinds: usize, row: RowParts)
    requires { (at + (kinds + 1) ≤ length plan.old) × (kinds ≤ 64) × ClearFrom plan.old at }
    ensures { plan.new ≡ sets plan.old at (row_by row.first row.left row.near row.far kinds row.mark) }
{
    let mut rest = row.first;
    let mut k = lowest(rest);
    while k < kinds {
        plan[at + k] = if has(row.left, k) { row.near } else { row.far };
        rest = without(rest, k);
        k = lowest(rest);
    }
    plan[at + kinds] = row.mark;
}

// Writes all rows, by a table of facts, into zeros.
fn write_rows(book: &Book, table: &[NodeFacts], plan: &mut [u8])
    requires writable { Writable book.now (flat table.now) plan.old (book_of book.now).count (book_of book.now).kinds }
    requires clear { ClearFrom plan.old (rows_at (book_of book.now).count) }
    ensures { plan.new ≡ sets plan.old (rows_at (book_of book.now).count)
        (rows_of (marks_of (flat table.now) (book_of book.now).count) (book_of book.now)) }
{
    let kinds = book.kinds();
    let mut at = PLAN_NODES_AT + 6 * book.count();
    for n in 0..book.count() {
        put_row(plan, at, kinds, row_of(book, n, table));
        at += kinds + 1;
    }
}

// The most that is written as due.
const MOST_DUE: usize = 65535;

// Writes what is due for all nodes, by a table of lengths, from an offset on.
fn write_dues(count: usize, lengths: &[u32], plan: &mut [u8], from: usize)
    requires { (count ≤ length lengths.now) × (from + 2 * count ≤ length plan.old) × (from + 2 * count < 65536) }
    ensures { plan.new
        ≡ sets plan.old from (lists_from (due_bytes lengths.now count) count 0) }
{
    for n in 0..count {
        put_u16(plan, from + 2 * n, length_at(lengths, n).min(MOST_DUE));
    }
}

// Writes the plan of a book, by tables of its facts and lengths, into the front of a clear buffer.
pub fn write_plan(book: &Book, table: &[NodeFacts], lengths: &[u32], plan: &mut [u8])
    requires writable { Writable book.now (flat table.now) plan.old (book_of book.now).count (book_of book.now).kinds
        × (plan.old ≡ zeros (length plan.old)) }
    requires count_in_bounds { (book_of book.now).count ≤ length lengths.now }
    ensures { plan.new
        ≡ plan_bytes (book_of book.now) (with_due (marks_of (flat table.now) (book_of book.now).count) lengths.now (book_of book.now).count)
        ++ zeros (length plan.old - plan_size (book_of book.now).count (book_of book.now).kinds) }
{
    let count = book.count();
    let kinds = book.kinds();
    put_plan_contents(plan, count, kinds);
    put_book(plan, book);
    write_rows(book, table, plan);
    write_dues(
        count,
        lengths,
        plan,
        PLAN_NODES_AT + 6 * count + count * (kinds + 1),
    );
}
