// A book with its facts at hand, as a type: contracts see the book's bytes and the table.
ghost use Rattle.std.specs.Prelude.{◌≡◌, ◌<◌};
ghost use Rattle.book.specs.Form.{book_of};
ghost use Rattle.rules.specs.Facts.{flat, facts_at};
ghost use Rattle.verdict.specs.Conflicts.{Known, facts_of, AtHand};

use book::Book;
use rules::NodeFacts;
use std::marker::Model;

// A book, and the table that has the facts of its nodes.
#[derive(Drop)]
pub struct KnownBook<'a> {
    book: &'a Book<'a>,
    table: &'a [NodeFacts],
}

impl<'a> Model for KnownBook<'a> {
    ghost use Rattle.rules.specs.Facts.{flat};
    ghost use Rattle.verdict.specs.Conflicts.{Facts, facts_of, AtHand};

    ghost Value = { Facts };

    ghost view = { λ known. facts_of known.book.now (flat known.table.now) };

    ghost invariant = { λ known. AtHand (facts_of known.book.now (flat known.table.now)) };
}

impl<'a> KnownBook<'a> {
    // A book with a table that has its facts.
    pub fn of(book: &'a Book<'a>, table: &'a [NodeFacts]) -> KnownBook<'a>
        requires { Known book.now (book_of book.now).count (flat table.now) }
        ensures { result ≡ facts_of book.now (flat table.now) }
    {
        KnownBook { book, table }
    }

    // The book.
    pub fn book(&self) -> &'a Book<'a>
        ensures book { result.now ≡ self.now.bytes }
        ensures at_hand { AtHand self.now }
    {
        self.book
    }

    // The table.
    pub fn table(&self) -> &'a [NodeFacts]
        ensures { flat result.now ≡ self.now.table }
    {
        self.table
    }

    // The facts of a node.
    pub fn facts(&self, n: usize) -> NodeFacts
        requires { n < (book_of self.now.bytes).count }
        ensures { result ≡ facts_at self.now.table n }
    {
        let table = self.table;
        table[n]
    }
}
