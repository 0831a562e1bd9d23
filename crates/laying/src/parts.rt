// The parts that are due, in a stack with fixed memory.
ghost use Rattle.std.specs.Prelude.{◌≡◌, ◌<◌, [], ◌∷◌, ◌+◌, MatchOption, cond, ltb, length};
ghost use Rattle.rules.specs.Step.{left_from, right_from};
ghost use Rattle.weights.specs.Weight.{weight_at};
ghost use Rattle.sampling.specs.Parts.{due_before, parts_on};

use book::Node;
use std::marker::Model;
use weights::weight_at;

// The most parts that are due at once: no more than there are nodes, and one more while those of a node are put.
const PARTS: usize = 513;

// The parts that are due, the one put last on top.
#[derive(Drop)]
pub struct Parts {
    numbers: [u16; PARTS],
    held: usize,
}

impl Model for Parts {
    ghost use Rattle.std.specs.Prelude.{ℕ, List, ◌≤◌};
    ghost use Rattle.laying.specs.Stacked.{stacked};

    ghost Value = { List ℕ };

    ghost view = { λ parts. stacked parts.numbers parts.held };

    ghost invariant = { λ parts. parts.held ≤ 513 };
}

// The lighter of two nodes.
fn lighter(weights: &[u32], l: usize, r: usize) -> usize
    requires { (l < length weights.now) × (r < length weights.now) }
    ensures { (result ≡ cond (ltb (weight_at weights.now l) (weight_at weights.now r)) l r)
        × (result < length weights.now) }
{
    if weight_at(weights, l) < weight_at(weights, r) {
        l
    } else {
        r
    }
}

impl Parts {
    // No parts.
    #[tactic(auto, unfolding(crate::specs::Stacked::stacked))]
    pub fn none() -> Parts
        ensures { result ≡ [] }
    {
        Parts {
            numbers: [0; PARTS],
            held: 0,
        }
    }

    // Puts a part on top.
    fn push(&mut self, n: usize)
        requires { (length self.old < 513) × (n < 65536) }
        ensures { self.new ≡ n ∷ self.old }
    {
        self.numbers[self.held] = n as u16;
        self.held += 1;
    }

    // Takes the part on top, if any is due.
    pub fn pop(&mut self) -> Option<usize>
        ensures { MatchOption result (self.old ≡ []) (λ n. self.old ≡ n ∷ self.new) }
    {
        if self.held == 0 {
            return None;
        }
        self.held -= 1;
        Some(usize::from(self.numbers[self.held]))
    }

    // Puts a part on top, unless its best run is empty.
    pub fn push_due(&mut self, weights: &[u32], n: usize)
        requires { (length self.old < 513) × (n < length weights.now) × (length weights.now < 65536) }
        ensures { self.new ≡ due_before (weight_at weights.now n) n self.old }
    {
        if 64 <= weight_at(weights, n) {
            self.push(n);
        }
    }

    // Puts the parts of a node on top, the left of a then last.
    #[tactic(auto, unfolding(sampling::specs::Parts::parts_on))]
    pub fn push_parts(&mut self, node: Node, weights: &[u32])
        requires room { (length self.old + 1 < 513) × (length weights.now < 65536) }
        requires sides { (left_from 0 node < length weights.now) × (right_from 0 node < length weights.now) }
        ensures { self.new ≡ parts_on node (weight_at weights.now) self.old }
    {
        match node {
            Node::Fail | Node::Empty | Node::Token(_) => {}
            Node::Either(l, r) => self.push(lighter(weights, l, r)),
            Node::Then(l, r) => {
                self.push_due(weights, r);
                self.push_due(weights, l);
            }
            Node::Tagged(l, _) | Node::Ref(l) => self.push(l),
        }
    }
}
