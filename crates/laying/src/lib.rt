// Writing the sample of a book by the parts that are due.
#![tactic(auto)]

ghost use Rattle.std.specs.Prelude.{◌≡◌, ◌+◌, ◌<◌, ◌≤◌, length};
ghost use Rattle.std.proofs.lemmas.List.Edits.{sets};
ghost use Rattle.words.specs.Words.{zeros};
ghost use Rattle.book.specs.Form.{book_of};
ghost use Rattle.rules.specs.Step.{kind_of};
ghost use Rattle.sampling.specs.Parts.{events_of};
ghost use Rattle.laying.specs.Stacked.{Ready, Wrote};

mod parts;

use book::{Book, Node};
use parts::Parts;

// Writes the event of a node, if it is a token. The place behind it.
#[tactic(auto, unfolding(sampling::specs::Parts::events_of))]
fn put_event(node: Node, run: &mut [u8], at: usize) -> usize
    requires { (kind_of node < 64) × (at + length (events_of node) ≤ length run.old) }
    ensures { (run.new ≡ sets run.old at (events_of node))
        × (result ≡ at + length (events_of node)) }
{
    match node {
        Node::Token(k) => {
            run[at] = k as u8;
            at + 1
        }
        _ => at,
    }
}

// Writes the sample from the front of a clear buffer: the part on top is visited, its event is written and its own parts
// are due in its place.
pub fn write_sample(book: &Book, weights: &[u32], run: &mut [u8])
    requires ready { Ready (book_of book.now) weights.now (length run.old) }
    requires run_value { run.old ≡ zeros (length run.old) }
    ensures { Wrote (book_of book.now) run.new (length run.old) }
{
    let mut at = 0;
    let mut parts = Parts::none();
    parts.push_due(weights, book.start());
    while let Some(n) = parts.pop() {
        let node = book.node(n);
        at = put_event(node, run, at);
        parts.push_parts(node, weights);
    }
}
