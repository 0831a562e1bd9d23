// What the nodes of a book can do, by a table of their facts, and which records may stand by that.
ghost use Rattle.std.specs.Prelude.{◌≡◌, ◌+◌, ◌^◌, ◌<◌, ◌≤◌, length};
ghost use Rattle.rules.specs.Facts.{flat, facts_at};
ghost use Rattle.trees.specs.Machine.{stands, blank, allows};
ghost use Rattle.due.specs.Due.{DueBelow, able, powers_of};

use crate::EMPTY;
use rules::NodeFacts;
use std::marker::Model;
use trees::Due;

// What so many nodes can do, by the table of their facts: contracts see how many there are, and what each can do.
#[derive(Drop)]
pub struct Powers<'a> {
    table: &'a [NodeFacts],
    count: usize,
}

impl<'a> Model for Powers<'a> {
    ghost use Rattle.std.specs.Prelude.{◌≤◌, length};
    ghost use Rattle.rules.specs.Facts.{flat};
    ghost use Rattle.due.specs.Due.{Able, able};

    ghost Value = { Able };

    ghost view = { λ powers. able powers.count (flat powers.table.now) };

    ghost invariant = { λ powers. powers.count ≤ length powers.table.now };
}

impl<'a> Powers<'a> {
    // What the nodes below a count can do.
    pub fn of(table: &'a [NodeFacts], count: usize) -> Powers<'a>
        requires { count ≤ length table.now }
        ensures { result ≡ able count (flat table.now) }
    {
        Powers { table, count }
    }

    // The facts of a node.
    fn facts(&self, n: usize) -> NodeFacts
        requires { n < self.now.count }
        ensures facts { result ≡ facts_at self.now.table n }
        ensures few { n + EMPTY < 2 ^ 64 }
    {
        let table = self.table;
        table[n]
    }

    // Whether a node can take an event.
    fn takes(&self, n: usize) -> bool
        requires { n < self.now.count }
        ensures { result ≡ (powers_of self.now).takes n }
    {
        self.facts(n).first != 0
    }

    // Whether a record is that of a node that takes an event.
    fn is_taking(&self, n: usize, given: usize) -> bool
        requires { n < self.now.count }
        ensures { result ≡ stands (powers_of self.now) n given }
    {
        (given == n) & self.takes(n)
    }

    // Whether a record is the empty one of a node that can take none.
    fn is_blank(&self, n: usize, given: usize) -> bool
        requires { n < self.now.count }
        ensures { result ≡ blank (powers_of self.now) n given }
    {
        kinds::has(self.facts(n).nullable, 0) & (given == n + EMPTY)
    }

    // Whether a record may stand where this is due.
    #[tactic(auto, using(crate::proofs::Below::first_below, crate::proofs::Below::second_below), unfolding(crate::specs::Due::due_nodes, trees::specs::Machine::allows))]
    pub fn allowed(&self, due: Due, given: usize) -> bool
        requires { DueBelow self.now.count due }
        ensures { result ≡ allows (powers_of self.now) due given }
    {
        match due {
            Due::Nothing => false,
            Due::Part(n) => self.is_taking(n, given) | self.is_blank(n, given),
            Due::Taking(n) => self.is_taking(n, given),
            Due::OneOf(l, r) => self.is_taking(l, given) | self.is_taking(r, given),
            Due::Both(l, r) => {
                self.is_taking(l, given) | (self.is_blank(l, given) & self.takes(r))
            }
        }
    }
}
