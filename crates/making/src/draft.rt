// What is put down of a sheet that passes, as a type all of whose values have numbers and names that a book can hold.
ghost use Rattle.std.specs.Prelude.{◌≡◌, ◌∷◌, cond, ltb, ◌+◌, ◌*◌, ◌≤◌, ◌<◌, length, get_or};
ghost use Rattle.std.proofs.lemmas.List.Edits.{sets};
ghost use Rattle.words.specs.Words.{word_bytes, zeros};
ghost use Rattle.forms.specs.Forms.{contents_of};
ghost use Rattle.names.specs.Names.{names_bytes};
ghost use Rattle.book.specs.Form.{named_sections, DONE, NODE};
ghost use Rattle.book.specs.Encode.{node_words};
ghost use Rattle.written.specs.Written.{written, with_zeros, handed, Hands};
ghost use Rattle.making.specs.Bytes.{largest, names_down, nodes_words, made_bytes, place_down};

use crate::answered;
use book::{DONE, NODE, Node};
use forms::{contents_size, put_contents};
use outline::{RawNode, Row};
use resolving::{resolve, word_at};
use std::marker::Model;
use words::{copy_bytes, put_u16};
use written::{OUT_ROOM, Written, refuse};

// A sheet's text, and its nodes, rules and kinds as they are put down.
#[derive(Drop)]
pub struct Draft<'a> {
    pub(crate) text: &'a [u8],
    pub(crate) nodes: &'a [RawNode],
    pub(crate) rows: &'a [Row],
    pub(crate) kinds: &'a [usize],
}

impl<'a> Model for Draft<'a> {
    ghost use Rattle.making.specs.Bytes.{Down, down, Writable};

    ghost Value = { Down };

    ghost view = { λ draft. down draft.text.now draft.nodes.now draft.rows.now draft.kinds.now };

    ghost invariant = { λ draft. Writable (down draft.text.now draft.nodes.now draft.rows.now draft.kinds.now) };
}

// A node's type, left and right.
fn fields(node: Node) -> [usize; 3]
    ensures { result ≡ node_words node }
{
    match node {
        Node::Fail => [0, 0, 0],
        Node::Empty => [1, 0, 0],
        Node::Token(kind) => [2, kind, 0],
        Node::Either(left, right) => [3, left, right],
        Node::Then(left, right) => [4, left, right],
        Node::Tagged(left, tag) => [5, left, tag],
        Node::Ref(left) => [6, left, 0],
    }
}

// Writes a node at a place.
fn put_node(book: &mut [u8], at: usize, node: Node)
    requires { (at + 6 ≤ length book.old) × (largest (node_words node) < 65536) }
    ensures { book.new ≡ sets book.old at (word_bytes (node_words node)) }
{
    let words = fields(node);
    put_u16(book, at, words[0]);
    put_u16(book, at + 2, words[1]);
    put_u16(book, at + 4, words[2]);
}

// Writes a name at a place: its size, then its letters.
fn put_name(name: &[u8], book: &mut [u8], at: usize)
    requires { (length name.now ≤ 16) × (at + 1 + length name.now ≤ length book.old) }
    ensures { book.new ≡ sets book.old at (length name.now ∷ name.now) }
{
    book[at] = name.len() as u8;
    copy_bytes(name, 0, book, at + 1, name.len());
}

// Writes the contents of a book with so many nodes, whose names take so many bytes.
fn put_book_contents(book: &mut [u8], count: usize, names: usize)
    requires { (24 + 6 * count + names ≤ length book.old) × (24 + 6 * count + names < 65536) }
    ensures { book.new
        ≡ sets book.old 0 (word_bytes (contents_of (named_sections count names))) }
{
    put_contents(book, &[4, 6 * count, names]);
}

impl<'a> Draft<'a> {
    // Writes the nodes from a place on.
    fn put_nodes(&self, book: &mut [u8], from: usize)
        requires { from + 6 * length self.now.nodes ≤ length book.old }
        ensures { book.new ≡ sets book.old from (word_bytes (nodes_words self.now)) }
    {
        for (n, raw) in self.nodes.iter().enumerate() {
            let node = resolve(self.text, *raw, self.rows, self.kinds);
            put_node(book, from + 6 * n, node);
        }
    }

    // Writes the names of the kinds from a place on.
    fn put_names(&self, book: &mut [u8], from: usize)
        requires { from + length (names_bytes (names_down self.now)) ≤ length book.old }
        ensures { book.new ≡ sets book.old from (names_bytes (names_down self.now)) }
    {
        let mut at = from;
        for kind in self.kinds {
            let name = word_at(self.text, *kind);
            put_name(name, book, at);
            at += 1 + name.len();
        }
    }

    // How many bytes the names of the kinds take.
    fn names_size(&self) -> usize
        ensures size { result ≡ length (names_bytes (names_down self.now)) }
        ensures few { result ≤ 1088 }
    {
        let mut size = 0;
        for kind in self.kinds {
            size += 1 + word_at(self.text, *kind).len();
        }
        size
    }

    // Writes the book into a clear buffer that has room for it; its names take so many bytes.
    fn write(&self, names: usize, book: &mut [u8])
        requires { (names ≡ length (names_bytes (names_down self.now)))
            × (names ≤ 1088)
            × (24 + 6 * length self.now.nodes + names ≤ length book.old)
            × (book.old ≡ zeros (length book.old)) }
        ensures { book.new ≡ with_zeros (made_bytes self.now) (length book.old) }
    {
        let count = self.nodes.len();
        put_book_contents(book, count, names);
        let at = contents_size(3);
        put_u16(book, at, self.kinds.len());
        put_u16(book, at + 2, self.rows[0].last);
        self.put_nodes(book, at + 4);
        self.put_names(book, at + 4 + 6 * count);
    }

    // Hands the book over, if there is room for it.
    pub fn hand(&self, book: &mut [u8]) -> Written
        ensures { Hands (handed (made_bytes self.now) (length book.old)) result book.new }
    {
        let names = self.names_size();
        let size = contents_size(3) + 4 + 6 * self.nodes.len() + names;
        if book.len() < size {
            return refuse(OUT_ROOM, 0, book);
        }
        book.fill(0);
        self.write(names, book);
        Written {
            number: DONE,
            size: size as u32,
            place: 0,
        }
    }

    // The place of the text from which a node comes, or 4 with the number of nodes.
    pub fn place(&self, node: u32) -> Written
        ensures { result ≡ place_down self.now node }
    {
        let node = node as usize;
        if self.nodes.len() <= node {
            return answered(NODE, self.nodes.len());
        }
        answered(DONE, self.nodes[node].place)
    }
}
