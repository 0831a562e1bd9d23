// Plans: the form of a plan, numbers 8 and 9.
#![tactic(auto)]

ghost use Rattle.std.specs.Prelude.{◌≡◌, ◌+◌, ◌*◌, ◌≤◌, ◌<◌, ltb, length, MatchResult};
ghost use Rattle.forms.specs.Forms.{contents_are};
ghost use Rattle.book.specs.Form.{DONE, judged};
ghost use Rattle.running.specs.Running.{move_of};
ghost use Rattle.plan.specs.Form.{plan_sections, plan_size, size_good, plan_good, cells_judged};
ghost use Rattle.plan.specs.Form.{plan_nodes_at, plan_count, plan_kinds, plan_start};
ghost use Rattle.plan.specs.Rows.{one_cell, other_cell, bad_column};
ghost use Rattle.plan.specs.Errors.{judged_by, move_by};

mod good;

use book::{Judged, Node, first_bad, node_at, settings_good};
use forms::contents_are;
pub use good::Plan;
use words::u16_at;

// Where the length of a plan's nodes stands, and where its settings and nodes begin.
const NODES_LENGTH_AT: usize = 12;

pub const PLAN_SETTINGS_AT: usize = 26;

pub const PLAN_NODES_AT: usize = 30;

// The answers' numbers.
pub const PLAN_FORM: u32 = 8;

pub const CELL: u32 = 9;

// What stands against a plan: its form, or the first bad cell, with its place.
#[derive(Clone, Copy, PartialEq, Eq)]
pub enum PlanError {
    Form,
    Cell(u32),
}

impl From<PlanError> for Judged {
    ghost from_gives = { λ error judged. judged ≡ judged_by error };

    fn from(error: PlanError) -> Judged {
        let (number, place) = match error {
            PlanError::Form => (PLAN_FORM, 0),
            PlanError::Cell(place) => (CELL, place),
        };
        Judged { number, place }
    }
}

// What a cell for a kind says of a walk: the event is refused or taken; the walk goes left; right is held, and it goes
// left; left is empty, and it goes right; it goes right.
#[derive(Clone, Copy, PartialEq, Eq)]
pub enum Step {
    Refuse,
    Take,
    Left,
    Hold,
    Skip,
    Right,
}

// What a cell says. Inlined first of all, so that a walk's `match` on the step becomes one on the cell.
#[inline(always)]
fn step_of(cell: u8) -> Step
    ensures { move_by result ≡ move_of cell }
{
    match cell {
        1 => Step::Take,
        2 => Step::Left,
        3 => Step::Hold,
        4 => Step::Skip,
        5 => Step::Right,
        _ => Step::Refuse,
    }
}

// How many nodes a plan has, by the length of its nodes.
pub fn plan_count(plan: &[u8]) -> usize
    requires { plan_nodes_at ≤ length plan.now }
    ensures { (result ≡ plan_count plan.now) × (result < 65536) }
{
    u16_at(plan, NODES_LENGTH_AT) / 6
}

// How many kinds a plan has, by its settings.
pub fn plan_kinds(plan: &[u8]) -> usize
    requires { plan_nodes_at ≤ length plan.now }
    ensures { (result ≡ plan_kinds plan.now) × (result < 65536) }
{
    u16_at(plan, PLAN_SETTINGS_AT)
}

// A plan's start, by its settings.
pub fn plan_start(plan: &[u8]) -> usize
    requires { plan_nodes_at ≤ length plan.now }
    ensures { (result ≡ plan_start plan.now) × (result < 65536) }
{
    u16_at(plan, PLAN_SETTINGS_AT + 2)
}

// The lower cell for kinds that a node's type has beside 0; 0 where it has none.
// A number, since the writer writes it and rows are tested for it as the bytes they are.
pub fn one_cell(node: Node) -> u8
    ensures { result ≡ one_cell node }
{
    match node {
        Node::Fail | Node::Empty => 0,
        Node::Token(_) => 1,
        Node::Either(_, _) | Node::Tagged(_, _) | Node::Ref(_) => 2,
        Node::Then(_, _) => 3,
    }
}

// The higher cell for kinds that a node's type has beside 0; 0 where it has none.
fn other_cell(node: Node) -> u8
    ensures { result ≡ other_cell node }
{
    match node {
        Node::Fail | Node::Empty => 0,
        Node::Token(_) => 1,
        Node::Tagged(_, _) | Node::Ref(_) => 2,
        Node::Then(_, _) => 4,
        Node::Either(_, _) => 5,
    }
}

// The first column of a row with a bad cell, for the cells that its node's type has beside 0, where there is one.
fn bad_column(plan: &[u8], at: usize, kinds: usize, one: u8, other: u8) -> usize
    requires { (at + (kinds + 1) ≤ length plan.now) × (bad_column plan.now at kinds one other ≤ kinds) }
    ensures { result ≡ bad_column plan.now at kinds one other }
{
    plan[at..at + kinds]
        .iter()
        .position(|cell| !((*cell == 0) | (*cell == one) | (*cell == other)))
        .unwrap_or(kinds)
}

// Whether a row has no bad cell. Every cell is looked at, without a branch: most rows are good.
// No `all`, which stops at a bad cell, and so branches at each: the bar is that of the plan's test in docs/BENCHMARKS.md.
fn row_good(plan: &[u8], at: usize, kinds: usize, one: u8, other: u8) -> bool
    requires { at + (kinds + 1) ≤ length plan.now }
    ensures { result ≡ ltb kinds (bad_column plan.now at kinds one other) }
{
    let mut all = true;
    for cell in &plan[at..at + kinds] {
        all &= (*cell == 0) | (*cell == one) | (*cell == other);
    }
    all & (plan[at + kinds] <= 1)
}

// The cells' test: the first bad cell in row order, if any.
fn check_cells(plan: &[u8], count: usize, kinds: usize) -> Result<(), PlanError>
    requires { (plan_size count kinds ≤ length plan.now) × (plan_size count kinds < 65536) }
    ensures { MatchResult result (λ _. cells_judged plan.now count kinds ≡ judged DONE 0)
        (λ error. cells_judged plan.now count kinds ≡ judged_by error) }
{
    let rows = PLAN_NODES_AT + 6 * count;
    let mut at = rows;
    for n in 0..count {
        let node = node_at(plan, PLAN_NODES_AT, n);
        let one = one_cell(node);
        let other = other_cell(node);
        if !row_good(plan, at, kinds, one, other) {
            let column = bad_column(plan, at, kinds, one, other);
            return Err(PlanError::Cell((at - rows + column) as u32));
        }
        at += kinds + 1;
    }
    Ok(())
}

// Whether a plan's length is that of its nodes and kinds, for 1 to 512 nodes.
fn size_good(size: usize, count: usize, kinds: usize) -> bool
    requires { (count < 65536) × (kinds < 65536) }
    ensures { result ≡ size_good size count kinds }
{
    (size == PLAN_NODES_AT + 6 * count + count * (kinds + 1) + 2 * count)
        & (1 <= count)
        & (count <= 512)
}

// Whether a plan's contents are those fixed by its nodes and kinds.
fn plan_contents_good(plan: &[u8], count: usize, kinds: usize) -> bool
    requires { (plan_size count kinds ≤ length plan.now) × (kinds < 65536) }
    ensures { result ≡ contents_are plan.now (plan_sections count kinds) }
{
    let sizes = [4, 6 * count, count * (kinds + 1), 2 * count];
    contents_are(plan, &sizes)
}

// Whether a plan's length, contents, settings and nodes are good. What follows the settings' test goes by how few kinds there
// are.
fn plan_good(plan: &[u8], count: usize, kinds: usize) -> bool
    requires { (count < 65536) × (kinds < 65536) }
    ensures { result ≡ plan_good plan.now count kinds }
{
    if !size_good(plan.len(), count, kinds) {
        return false;
    }
    if !settings_good(plan, PLAN_SETTINGS_AT, count) {
        return false;
    }
    plan_contents_good(plan, count, kinds) & first_bad(plan, PLAN_NODES_AT, kinds, count).is_none()
}

// The size of the plan of a book with so many nodes and kinds.
pub fn plan_size(count: usize, kinds: usize) -> usize
    requires { (count ≤ 512) × (kinds ≤ 64) }
    ensures { (result ≡ plan_size count kinds) × (result < 65536) }
{
    PLAN_NODES_AT + 6 * count + count * (kinds + 1) + 2 * count
}
