// The least weights of the runs that a book's nodes derive, by length and then first kind, cut at 65,536 events.
#![tactic(auto)]

ghost use Rattle.std.specs.Prelude.{◌≡◌, ◌+◌, ◌*◌, ◌≤◌, ◌<◌, length};
ghost use Rattle.book.specs.Form.{book_of};
ghost use Rattle.weights.specs.Weight.{CAP, weight_of, weight_at, Weights};
ghost use Rattle.weights.specs.Falling.{token, joined, Fresh};
ghost use Rattle.weights.specs.Laws.{weight_laws};

use book::Book;
use lengths::{Measure, least};

// Where weights are cut: a node with no run of fewer than 65,536 events has this number.
pub const CAP: u32 = 4194304;

// The weight of a run.
struct Weight;

impl Measure for Weight {
    ghost CAP = { CAP };

    ghost token = { token };

    ghost joined = { joined };

    ghost size = { weight_of };

    ghost laws = { weight_laws };

    const CAP: u32 = CAP;

    fn token(kind: usize) -> usize {
        64 + kind
    }

    // The first kind is that of the first run, if it has one.
    fn joined(one: usize, other: usize) -> usize {
        if one < 64 {
            other
        } else {
            one + other / 64 * 64
        }
    }
}

// The weight that stands in the table for a node.
pub fn weight_at(weights: &[u32], n: usize) -> usize
    requires { n < length weights.now }
    ensures { (result ≡ weight_at weights.now n) × (result < 4294967296) }
{
    weights[n] as usize
}

// Fills the table, all at the cap before, with the least weights.
pub fn least_weights(book: &Book, weights: &mut [u32])
    requires { Fresh (book_of book.now).count weights.old }
    ensures { Weights (book_of book.now).node weights.new }
{
    least::<Weight>(&book.nodes(), weights);
}
