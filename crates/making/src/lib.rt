// Making a book with names of a sheet, and the place of the text from which a node comes.
#![tactic(auto)]

ghost use Rattle.std.specs.Prelude.{◌≡◌, ◌≤◌, length, MatchResult};
ghost use Rattle.written.specs.Written.{out, written};
ghost use Rattle.making.specs.Makes.{Makes, Places};
ghost use Rattle.making.specs.Settled.{written_by, SettledAs, RefusedAs};

mod draft;

use book::{DONE, Node};
use draft::Draft;
use outline::{MOST, RawNode, Row, read_sheet};
use resolving::{KINDS, collect, find_again};
use written::{Written, refuse};

// The answers' numbers.
pub const SHEET: u32 = 26;

pub const TWICE: u32 = 27;

pub const BIG: u32 = 28;

pub const KINDLESS: u32 = 29;

// Why no book is made of a text: it is no sheet, which shows at a place; the rule at a place has an earlier one's name;
// there are too many nodes or kinds; there is no kind.
#[derive(Clone, Copy, PartialEq, Eq)]
enum Refusal {
    NoSheet(usize),
    NamedTwice(usize),
    TooBig,
    Kindless,
}

impl From<Refusal> for Written {
    ghost from_gives = { λ refusal written. written ≡ written_by refusal };

    fn from(refusal: Refusal) -> Written {
        match refusal {
            Refusal::NoSheet(place) => answered(SHEET, place),
            Refusal::NamedTwice(place) => answered(TWICE, place),
            Refusal::TooBig => answered(BIG, 0),
            Refusal::Kindless => answered(KINDLESS, 0),
        }
    }
}

// An answer with a place and no size.
fn answered(number: u32, place: usize) -> Written
    ensures { result ≡ written number 0 place }
{
    Written {
        number,
        size: 0,
        place: place as u64,
    }
}

// What stands in room where nothing is put down.
const NO_NODE: RawNode = RawNode {
    node: Node::Fail,
    place: 0,
};

const NO_ROW: Row = Row { name: 0, last: 0 };

// Settles a sheet: reads it, looks for a name that comes again, and puts its nodes, rules and kinds down.
fn settle<'a>(
    sheet: &'a [u8],
    nodes: &'a mut [RawNode],
    rows: &'a mut [Row],
    kinds: &'a mut [usize],
) -> Result<Draft<'a>, Refusal>
    requires { (512 ≤ length nodes.old) × (512 ≤ length rows.old) × (64 ≤ length kinds.old) }
    ensures { MatchResult result (λ draft. SettledAs sheet.now draft) (λ refusal. RefusedAs sheet.now refusal) }
{
    let outline = match read_sheet(sheet, nodes, rows) {
        Ok(outline) => outline,
        Err(place) => return Err(Refusal::NoSheet(place)),
    };
    if let Some(place) = find_again(sheet) {
        return Err(Refusal::NamedTwice(place));
    }
    if MOST < outline.nodes {
        return Err(Refusal::TooBig);
    }
    let nodes = &nodes[..outline.nodes];
    let rows = &rows[..outline.rules];
    let Some(many) = collect(sheet, nodes, rows, kinds) else {
        return Err(Refusal::TooBig);
    };
    if many == 0 {
        return Err(Refusal::Kindless);
    }
    Ok(Draft {
        text: sheet,
        nodes,
        rows,
        kinds: &kinds[..many],
    })
}

// Makes a book with names of a sheet, for any bytes and any room: done with the book, or the first of 26 to 29 and 21,
// and a clear buffer. It lends its own arrays, as `place` does: a function that hands arrays out would copy them.
pub fn make(sheet: &[u8], book: &mut [u8]) -> Written
    ensures { Makes sheet.now (length book.old) (out result book.new) }
{
    let mut nodes = [NO_NODE; MOST];
    let mut rows = [NO_ROW; MOST];
    let mut kinds = [0; KINDS];
    match settle(sheet, &mut nodes, &mut rows, &mut kinds) {
        Ok(draft) => draft.hand(book),
        Err(refusal) => {
            let answer = Written::from(refusal);
            refuse(answer.number, answer.place, book)
        }
    }
}

// The place of the text from which a node of a sheet's book comes, for any bytes and any node; or the first of 26 to
// 29, or 4 with the number of nodes.
pub fn place(sheet: &[u8], node: u32) -> Written
    ensures { Places sheet.now node result }
{
    let mut nodes = [NO_NODE; MOST];
    let mut rows = [NO_ROW; MOST];
    let mut kinds = [0; KINDS];
    match settle(sheet, &mut nodes, &mut rows, &mut kinds) {
        Ok(draft) => draft.place(node),
        Err(refusal) => Written::from(refusal),
    }
}
