// What has been read of a tree of a book, to be looked back at.
ghost use Rattle.std.specs.Prelude.{◌≡◌};
ghost use Rattle.book.specs.Form.{book_of};
ghost use Rattle.trees.specs.Back.{due_at};
ghost use Rattle.due.specs.Due.{Looked, seen};

use crate::{EMPTY, found_at, whole_from};
use book::Book;
use std::marker::Model;
use trees::Due;

// The records of a tree before a place: those that are no empty ones are nodes of its book.
#[derive(Drop)]
pub struct Past<'a> {
    book: &'a Book<'a>,
    tree: &'a [u16],
    at: usize,
}

impl<'a> Model for Past<'a> {
    ghost use Rattle.book.specs.Form.{book_of};
    ghost use Rattle.due.specs.Due.{Looked, Seen, seen};

    ghost Value = { Seen };

    ghost view = { λ past. seen past.book.now past.tree.now past.at };

    ghost invariant = { λ past. Looked (book_of past.book.now) past.tree.now past.at };
}

impl<'a> Past<'a> {
    // The records before a place.
    pub fn of(book: &'a Book<'a>, tree: &'a [u16], at: usize) -> Past<'a>
        requires { Looked (book_of book.now) tree.now at }
        ensures { result ≡ seen book.now tree.now at }
    {
        Past { book, tree, at }
    }

    // What is due behind them, found by looking back.
    pub fn due(&self) -> Due
        ensures { result ≡ due_at (book_of self.now.bytes) self.now.records self.now.at }
    {
        let mut whole = 0;
        let mut empty = false;
        for at in (0..self.at).rev() {
            let given = usize::from(self.tree[at]);
            if EMPTY <= given {
                whole += 1;
                empty = true;
            } else {
                let node = self.book.node(given);
                match found_at(node, whole, empty) {
                    Due::Nothing => {
                        whole = whole_from(node, whole);
                        empty = false;
                    }
                    found => return found,
                }
            }
        }
        if whole == 0 {
            Due::Part(self.book.start())
        } else {
            Due::Nothing
        }
    }
}
