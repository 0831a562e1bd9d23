// Good nodes, as a type whose values are all good nodes: contracts see where they stand.
ghost use Rattle.std.specs.Prelude.{◌≡◌, ◌<◌, ◌≤◌};
ghost use Rattle.book.specs.Decode.{GoodNodes};
ghost use Rattle.book.specs.Nodes.{placed, node_in, AreGood};

use crate::{Node, node_at};
use std::marker::Model;

// Good nodes, for 64 kinds, that stand in any bytes: where they begin, and how many they are.
#[derive(Drop)]
pub struct Nodes<'a> {
    bytes: &'a [u8],
    base: usize,
    count: usize,
}

impl<'a> Model for Nodes<'a> {
    ghost use Rattle.book.specs.Nodes.{Placed, placed, AreGood};

    ghost Value = { Placed };

    ghost view = { λ nodes. placed nodes.bytes.now nodes.base nodes.count };

    ghost invariant = { λ nodes. AreGood (placed nodes.bytes.now nodes.base nodes.count) };
}

impl<'a> Nodes<'a> {
    // The nodes that stand in bytes.
    pub fn of(bytes: &'a [u8], base: usize, count: usize) -> Nodes<'a>
        requires { GoodNodes bytes.now base count 64 }
        ensures { result ≡ placed bytes.now base count }
    {
        Nodes { bytes, base, count }
    }

    // The same nodes as a value of its own: what a loop reads of it stays in registers, whatever the loop writes.
    #[inline(always)]
    pub fn own(&self) -> Nodes<'a>
        ensures { result ≡ self.now }
    {
        Nodes {
            bytes: self.bytes,
            base: self.base,
            count: self.count,
        }
    }

    // How many they are.
    pub fn count(&self) -> usize
        ensures good { AreGood self.now }
        ensures count { result ≡ self.now.count }
        ensures few { result ≤ 512 }
    {
        self.count
    }

    // The node with a number.
    #[tactic(auto, using(crate::proofs::Decoded::nodes_below))]
    pub fn node(&self, n: usize) -> Node
        requires { n < self.now.count }
        ensures { result ≡ node_in self.now n }
    {
        node_at(self.bytes, self.base, n)
    }
}
