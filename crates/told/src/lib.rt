// A book with names, told in words on a page.
#![tactic(auto)]

ghost use Rattle.std.specs.Prelude.{◌≡◌, ◌<◌, ◌≤◌};
ghost use Rattle.names.specs.Names.{name_of};
ghost use Rattle.book.specs.Form.{names_at, book_of};
ghost use Rattle.prints.specs.Pages.{Added};
ghost use Rattle.told.specs.Told.{NamedBook, KindIn, NodeIn, pair_text, ref_text, name_text, kind_line};
ghost use Rattle.told.specs.Told.{node_text, node_line, kind_lines, node_lines, start_line, book_lines};

use book::{Book, Node};
use names::name_at;
use prints::Page;
use std::marker::Model;

// A book of good form with names.
#[derive(Drop)]
pub struct Named<'a> {
    book: Book<'a>,
}

impl<'a> Model for Named<'a> {
    ghost use Rattle.std.specs.Prelude.{List, ℕ};
    ghost use Rattle.told.specs.Told.{NamedBook};

    ghost Value = { List ℕ };

    ghost view = { λ named. named.book };

    ghost invariant = { λ named. NamedBook named.book };
}

impl<'a> Named<'a> {
    // The book that bytes are.
    pub fn new(bytes: &'a [u8]) -> Named<'a>
        requires { NamedBook bytes.now }
        ensures { result ≡ bytes.now }
    {
        Named {
            book: Book::of(bytes),
        }
    }

    // How many kinds it has.
    pub fn kinds(&self) -> usize
        ensures named { NamedBook self.now }
        ensures kinds { result ≡ (book_of self.now).kinds }
        ensures few { result ≤ 64 }
    {
        self.book.kinds()
    }

    // The name of a kind, a number below the count (`KindIn`) as ranges and nodes give it: a type for it is no plainer.
    fn name(&self, kind: usize) -> &'a [u8]
        requires { KindIn self.now kind }
        ensures { result.now ≡ name_of self.now (names_at self.now) kind }
    {
        let bytes = self.book.bytes();
        let at = name_at(bytes, self.book.names_at(), kind);
        let size = bytes[at] as usize;
        &bytes[at + 1..at + 1 + size]
    }

    // Adds a space and the name of a kind.
    pub fn add_name(&self, page: &mut Page, kind: usize)
        requires { KindIn self.now kind }
        ensures { Added page.old page.new (name_text self.now kind) }
    {
        page.add(b" ");
        page.add(self.name(kind));
    }

    // Adds a kind's line.
    fn add_kind(&self, page: &mut Page, kind: usize)
        requires { KindIn self.now kind }
        ensures { Added page.old page.new (kind_line self.now kind) }
    {
        page.add(b"kind");
        page.add_spaced(kind as u64);
        self.add_name(page, kind);
        page.add(b"\n");
    }

    // Adds the lines of all kinds.
    fn add_kinds(&self, page: &mut Page)
        ensures { Added page.old page.new (kind_lines self.now) }
    {
        page.add_each(self.kinds(), |page, kind| self.add_kind(page, kind));
    }

    // Adds a token, with its kind's name.
    fn add_token(&self, page: &mut Page, kind: usize)
        requires { KindIn self.now kind }
        ensures { Added page.old page.new (node_text self.now (Node.Token kind)) }
    {
        page.add(b" token");
        self.add_name(page, kind);
    }

    // Adds a node: its type, and its left and right.
    fn add_node_text(&self, page: &mut Page, n: usize, node: Node)
        requires { NodeIn self.now n node }
        ensures { Added page.old page.new (node_text self.now node) }
    {
        match node {
            Node::Fail => page.add(b" fail"),
            Node::Empty => page.add(b" empty"),
            Node::Token(kind) => self.add_token(page, kind),
            Node::Either(left, right) => add_pair(page, b" either", left, right),
            Node::Then(left, right) => add_pair(page, b" then", left, right),
            Node::Tagged(left, label) => add_pair(page, b" tagged", left, label),
            Node::Ref(left) => add_ref(page, left),
        }
    }

    // Adds a node's line.
    fn add_node(&self, page: &mut Page, n: usize)
        requires { n < (book_of self.now).count }
        ensures { Added page.old page.new (node_line self.now n) }
    {
        page.add(b"node");
        page.add_spaced(n as u64);
        self.add_node_text(page, n, self.book.node(n));
        page.add(b"\n");
    }

    // Adds the lines of all nodes.
    fn add_nodes(&self, page: &mut Page)
        ensures { Added page.old page.new (node_lines self.now) }
    {
        page.add_each(self.book.count(), |page, n| self.add_node(page, n));
    }

    // Adds the start's line.
    fn add_start(&self, page: &mut Page)
        ensures { Added page.old page.new (start_line self.now) }
    {
        page.add(b"start");
        page.add_spaced(self.book.start() as u64);
        page.add(b"\n");
    }

    // Adds the lines of the book.
    pub fn add_lines(&self, page: &mut Page)
        ensures { Added page.old page.new (book_lines self.now) }
    {
        self.add_kinds(page);
        self.add_nodes(page);
        self.add_start(page);
    }
}

// Adds a word and two numbers.
fn add_pair(page: &mut Page, word: &[u8], left: usize, right: usize)
    ensures { Added page.old page.new (pair_text word.now left right) }
{
    page.add(word);
    page.add_spaced(left as u64);
    page.add_spaced(right as u64);
}

// Adds a ref.
fn add_ref(page: &mut Page, left: usize)
    ensures { Added page.old page.new (ref_text left) }
{
    page.add(b" ref");
    page.add_spaced(left as u64);
}
