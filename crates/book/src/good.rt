// A book of good form, as a type whose values are all of good form: contracts see its bytes.
ghost use Rattle.std.specs.Prelude.{◌≡◌, ◌<◌, ◌≤◌, MatchResult};
ghost use Rattle.book.specs.Form.{DONE, form_of, book_of, named, settings_at, nodes_at, count_of, names_at, judged};
ghost use Rattle.book.specs.Nodes.{placed, node_in};
ghost use Rattle.book.specs.Errors.{judged_by};

use crate::{BookError, Node, Nodes, check, count_of, has_names, node_at, settings_at};
use std::marker::Model;
use words::u16_at;

// A book of good form: its bytes, where its settings begin, and how many nodes it has.
#[derive(Drop)]
pub struct Book<'a> {
    bytes: &'a [u8],
    settings: usize,
    count: usize,
}

impl<'a> Model for Book<'a> {
    ghost use Rattle.std.specs.Prelude.{List, ℕ, ◌≡◌};
    ghost use Rattle.book.specs.Form.{DONE, form_of, settings_at, count_of};

    ghost Value = { List ℕ };

    ghost view = { λ book. book.bytes.now };

    ghost invariant = { λ book. ((form_of book.bytes.now).number ≡ DONE)
        × (book.settings ≡ settings_at book.bytes.now)
        × (book.count ≡ count_of book.bytes.now) };
}

impl<'a> Book<'a> {
    // The book that bytes are, or the first thing that stands against them.
    #[tactic(auto, using(crate::proofs::Decoded::done_long))]
    pub fn read(bytes: &'a [u8]) -> Result<Book<'a>, BookError>
        ensures { MatchResult result (λ book. (book ≡ bytes.now) × (form_of bytes.now ≡ judged DONE 0))
            (λ error. form_of bytes.now ≡ judged_by error) }
    {
        check(bytes)?;
        Ok(Book::of(bytes))
    }

    // The book that bytes known to be of good form are.
    #[tactic(auto, using(crate::proofs::Decoded::good_form))]
    pub fn of(bytes: &'a [u8]) -> Book<'a>
        requires { (form_of bytes.now).number ≡ DONE }
        ensures { result ≡ bytes.now }
    {
        Book {
            bytes,
            settings: settings_at(bytes),
            count: count_of(bytes),
        }
    }

    // How many nodes it has.
    #[tactic(auto, using(crate::proofs::Decoded::good_form), unfolding(crate::specs::Form::book_of))]
    pub fn count(&self) -> usize
        ensures form { (form_of self.now).number ≡ DONE }
        ensures count { result ≡ (book_of self.now).count }
        ensures few { result ≤ 512 }
    {
        self.count
    }

    // How many kinds it has.
    #[tactic(auto, using(crate::proofs::Decoded::good_form), unfolding(crate::specs::Form::book_of))]
    pub fn kinds(&self) -> usize
        ensures form { (form_of self.now).number ≡ DONE }
        ensures kinds { result ≡ (book_of self.now).kinds }
        ensures few { result ≤ 64 }
    {
        u16_at(self.bytes, self.settings)
    }

    // Its start.
    #[tactic(auto, using(crate::proofs::Decoded::good_form), unfolding(crate::specs::Form::book_of))]
    pub fn start(&self) -> usize
        ensures start { result ≡ (book_of self.now).start }
        ensures below { result < (book_of self.now).count }
    {
        u16_at(self.bytes, self.settings + 2)
    }

    // The node with a number.
    #[tactic(auto, using(crate::proofs::Decoded::good_form, crate::proofs::Decoded::nodes_below), unfolding(crate::specs::Form::book_of))]
    pub fn node(&self, n: usize) -> Node
        requires { n < (book_of self.now).count }
        ensures { result ≡ (book_of self.now).node n }
    {
        node_at(self.bytes, self.nodes_at(), n)
    }

    // Its nodes, which are good ones.
    #[tactic(auto, using(crate::proofs::Decoded::good_form, crate::proofs::Decoded::formed_nodes), unfolding(crate::specs::Form::book_of))]
    pub fn nodes(&self) -> Nodes<'a>
        ensures place { result ≡ placed self.now (nodes_at self.now) (count_of self.now) }
        ensures count { result.count ≡ (book_of self.now).count }
        ensures node { node_in result ≡ (book_of self.now).node }
    {
        Nodes::of(self.bytes, self.nodes_at(), self.count)
    }

    // Its bytes.
    pub fn bytes(&self) -> &'a [u8]
        ensures { result.now ≡ self.now }
    {
        self.bytes
    }

    // Whether it is one with names.
    #[tactic(auto, using(crate::proofs::Decoded::good_form))]
    pub fn has_names(&self) -> bool
        ensures { result ≡ named self.now }
    {
        has_names(self.bytes)
    }

    // Where its settings begin.
    pub fn settings_at(&self) -> usize
        ensures { result ≡ settings_at self.now }
    {
        self.settings
    }

    // Where its nodes begin.
    #[tactic(auto, using(crate::proofs::Decoded::good_form))]
    pub fn nodes_at(&self) -> usize
        ensures { result ≡ nodes_at self.now }
    {
        self.settings + 4
    }

    // Where its nodes end, and its names begin.
    #[tactic(auto, using(crate::proofs::Decoded::good_form), unfolding(crate::specs::Form::book_of))]
    pub fn names_at(&self) -> usize
        ensures { result ≡ names_at self.now }
    {
        self.nodes_at() + 6 * self.count
    }
}
