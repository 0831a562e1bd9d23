// What is due at a record of a tree, by looking back from it, and which records may stand there.
#![tactic(auto)]

ghost use Rattle.std.specs.Prelude.{◌≡◌, ◌<◌, ◌^◌, ◌+◌};
ghost use Rattle.trees.specs.Back.{right_due, found_at, whole_from};
ghost use Rattle.due.specs.Due.{is_nothing};

mod past;
mod powers;

use book::Node;
pub use past::Past;
pub use powers::Powers;
use trees::Due;

// What is added to a node's number in an empty record.
pub const EMPTY: usize = 32768;

// Whether nothing is due.
pub fn is_nothing(due: Due) -> bool
    ensures { result ≡ is_nothing due }
{
    matches!(due, Due::Nothing)
}

// The right of a then whose left is whole.
fn right_due(empty: bool, r: usize) -> Due
    ensures { result ≡ right_due empty r }
{
    if empty { Due::Taking(r) } else { Due::Part(r) }
}

// What is due by the record of a node, with so many whole parts behind it, or nothing.
#[tactic(auto, unfolding(trees::specs::Back::found_at))]
fn found_at(node: Node, whole: usize, empty: bool) -> Due
    ensures { result ≡ found_at node whole empty }
{
    match node {
        Node::Either(l, r) if whole == 0 => Due::OneOf(l, r),
        Node::Then(l, r) if whole == 0 => Due::Both(l, r),
        Node::Then(_, r) if whole == 1 => right_due(empty, r),
        Node::Tagged(l, _) | Node::Ref(l) if whole == 0 => Due::Taking(l),
        _ => Due::Nothing,
    }
}

// How many whole parts stand from the record of a node on, with so many behind it.
#[tactic(auto, unfolding(trees::specs::Back::whole_from))]
fn whole_from(node: Node, whole: usize) -> usize
    requires { whole + 1 < 2 ^ 64 }
    ensures { result ≡ whole_from node whole }
{
    match node {
        Node::Fail | Node::Empty | Node::Token(_) => whole + 1,
        Node::Then(_, _) => whole.saturating_sub(1),
        Node::Either(_, _) | Node::Tagged(_, _) | Node::Ref(_) => whole,
    }
}
