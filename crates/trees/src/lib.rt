// Trees of a book as lists of records: what is due next in one.
#![tactic(auto)]

// What is due next in a tree: nothing, where it is whole; the part of a node, with or without events; the part of a
// node, with events; that of one of two nodes, with events; those of two nodes in turn, with events in either.
// `Nothing` stays a case here: `allows`, `kept`, `lapsed` and `found_or` of specs/ are by it as one of the five.
#[derive(Clone, Copy)]
pub enum Due {
    Nothing,
    Part(usize),
    Taking(usize),
    OneOf(usize, usize),
    Both(usize, usize),
}
