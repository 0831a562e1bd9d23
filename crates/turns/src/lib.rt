// Reading a tree record by record: what is due after each, with slots for the parts due last.
#![tactic(auto)]

ghost use Rattle.std.specs.Prelude.{◌≡◌, ◌<◌, ◌≤◌, ◌^◌, ◌+◌, length, set};
ghost use Rattle.book.specs.Form.{book_of};
ghost use Rattle.rules.specs.Step.{kind_of};
ghost use Rattle.due.specs.Due.{DueBelow, Looked};
ghost use Rattle.trees.specs.declared.Due.TheVariants.{Part};
ghost use Rattle.turns.specs.Slots.{spot_of, next_of, lapse_of, left, hold_of, keep_of};
ghost use Rattle.turns.specs.Slots.{met, event_of, open_of, came, turn_of};

use book::{Book, Node};
use due::{EMPTY, Past};
use std::marker::Model;
use trees::Due;

// How many parts due are kept in slots.
pub const SLOTS: usize = 64;

// Where the reading of a tree stands: what is due; how many of the parts due behind it are kept in slots, and how many
// are not; how many events have come.
#[derive(Clone, Copy)]
pub struct Spot {
    pub due: Due,
    pub kept: usize,
    pub lost: usize,
    pub events: usize,
}

// A reading of a tree: where it stands, and the slots.
#[derive(Clone, Copy)]
pub struct Turns {
    spot: Spot,
    slots: [u16; SLOTS],
}

impl Model for Turns {
    ghost use Rattle.std.specs.Prelude.{◌≤◌};
    ghost use Rattle.turns.specs.Slots.{Left, left};

    ghost Value = { Left };

    ghost view = { λ turns. left turns.spot turns.slots };

    ghost invariant = { λ turns. turns.spot.kept ≤ 64 };

    ghost inverse = { λ l. record { spot = l.spot; slots = l.slots } };
}

// Writes an event, where the run has room for it.
fn note(run: &mut [u8], at: usize, kind: usize)
    requires { kind < 256 }
    ensures { run.new ≡ set run.old at kind }
{
    if at < run.len() {
        run[at] = kind as u8;
    }
}

impl Turns {
    // The start of a book is due, and nothing has been read.
    pub fn of(book: &Book) -> Turns
        ensures spot { result.spot ≡ spot_of (Part (book_of book.now).start) 0 0 0 }
        ensures slots { length result.slots ≡ 64 }
    {
        Turns {
            spot: Spot {
                due: Due::Part(book.start()),
                kept: 0,
                lost: 0,
                events: 0,
            },
            slots: [0; SLOTS],
        }
    }

    // A reading that stands at a spot, with its slots.
    pub fn at(spot: Spot, slots: [u16; SLOTS]) -> Turns
        requires { spot.kept ≤ 64 }
        ensures { result ≡ left spot slots }
    {
        Turns { spot, slots }
    }

    // A part is whole: what is due then, behind the records read. A call of its own would cost a sixth of a reading's time.
    #[inline(always)]
    #[tactic(auto, unfolding(crate::specs::Slots::next_of))]
    fn next(&mut self, past: &Past)
        ensures { self.new ≡ left (next_of (book_of past.now.bytes) past.now.records past.now.at self.old.spot self.old.slots) self.old.slots }
    {
        if 0 < self.spot.kept {
            self.spot.kept -= 1;
            self.spot.due = Due::Part(usize::from(self.slots[self.spot.kept]));
        } else if self.spot.lost == 0 {
            self.spot.due = Due::Nothing;
        } else {
            self.spot.lost -= 1;
            self.spot.due = past.due();
        }
    }

    // Keeps a part in a slot; where all are in use they begin anew.
    #[tactic(auto, unfolding(crate::specs::Slots::hold_of))]
    fn hold(&mut self, r: usize)
        requires { (self.old.spot.lost + self.old.spot.kept + 1 < 2 ^ 64) × (r < 65536) }
        ensures { self.new ≡ hold_of self.old.spot r self.old.slots }
    {
        if self.spot.kept == SLOTS {
            self.spot.lost += SLOTS;
            self.spot.kept = 0;
        }
        self.slots[self.spot.kept] = r as u16;
        self.spot.kept += 1;
    }

    // Where the reading stands.
    pub fn spot(&self) -> Spot
        ensures { result ≡ self.now.spot }
    {
        self.spot
    }

    // The slots.
    pub fn slots(&self) -> [u16; SLOTS]
        ensures { result ≡ self.now.slots }
    {
        self.slots
    }

    // What is due.
    pub fn due(&self) -> Due
        ensures { result ≡ self.now.spot.due }
    {
        self.spot.due
    }

    // How many events have come.
    pub fn events(&self) -> usize
        ensures { result ≡ self.now.spot.events }
    {
        self.spot.events
    }

    // Behind an empty record.
    #[tactic(auto, unfolding(crate::specs::Slots::lapse_of))]
    fn lapse(&mut self, past: &Past)
        ensures { self.new ≡ left (lapse_of (book_of past.now.bytes) past.now.records past.now.at self.old.spot self.old.spot.due self.old.slots) self.old.slots }
    {
        match self.spot.due {
            Due::Both(_, r) => self.spot.due = Due::Taking(r),
            _ => self.next(past),
        }
    }

    // Keeps the right of a then that is due behind its left.
    #[tactic(auto, using(due::proofs::Below::second_below), unfolding(due::specs::Due::due_nodes, crate::specs::Slots::keep_of))]
    fn keep(&mut self, count: usize)
        requires { (self.old.spot.lost + self.old.spot.kept + 1 < 2 ^ 64) × (DueBelow count self.old.spot.due) × (count ≤ 512) }
        ensures { self.new ≡ keep_of self.old.spot self.old.spot.due self.old.slots }
    {
        match self.spot.due {
            Due::Both(_, r) => self.hold(r),
            _ => {}
        }
    }

    // Behind the record of a node that takes an event: a token writes it.
    #[tactic(auto, unfolding(crate::specs::Slots::open_of, crate::specs::Slots::event_of))]
    fn open(&mut self, past: &Past, node: Node, run: &mut [u8])
        requires { (kind_of node < 256) × (self.old.spot.events + 1 < 2 ^ 64) }
        ensures opened { met self.new.spot run.new
            ≡ open_of (book_of past.now.bytes) past.now.records past.now.at node self.old.spot self.old.slots run.old }
        ensures slots { self.new.slots ≡ self.old.slots }
    {
        match node {
            Node::Fail | Node::Empty => self.next(past),
            Node::Token(k) => {
                note(run, self.spot.events, k);
                self.spot.events += 1;
                self.next(past);
            }
            Node::Either(l, r) => self.spot.due = Due::OneOf(l, r),
            Node::Then(l, r) => self.spot.due = Due::Both(l, r),
            Node::Tagged(l, _) | Node::Ref(l) => self.spot.due = Due::Taking(l),
        }
    }

    // Behind the record at a place, which may stand there.
    pub fn turn(&mut self, book: &Book, tree: &[u16], at: usize, run: &mut [u8])
        requires looked { (Looked (book_of book.now) tree.now (at + 1)) × (DueBelow (book_of book.now).count self.old.spot.due) }
        requires counted { (self.old.spot.lost + self.old.spot.kept + 1 < 2 ^ 64) × (self.old.spot.events + 1 < 2 ^ 64) }
        ensures { came self.new.spot self.new.slots run.new
            ≡ turn_of (book_of book.now) tree.now at self.old.spot self.old.slots run.old }
    {
        let past = Past::of(book, tree, at + 1);
        let given = usize::from(tree[at]);
        if EMPTY <= given {
            self.lapse(&past);
        } else {
            self.keep(book.count());
            self.open(&past, book.node(given), run);
        }
    }
}
