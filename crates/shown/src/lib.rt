// What the program `sheet` writes.
#![tactic(auto)]

ghost use Rattle.std.specs.Prelude.{◌≡◌, ◌||◌, eqb};
ghost use Rattle.sheets.specs.Made.{SHEET, TWICE};
ghost use Rattle.prints.specs.Pages.{Added};
ghost use Rattle.shown.specs.Shown.{
  reason_text,
  where_placed,
  refusal_line,
  Wrong,
  BookLent,
  AddedBook,
  Lent,
  AddedShow,
  suffices,
  Answers,
};

use book::DONE;
use compiler::compile;
use listed::{LONGEST_BOOK, PLAN_ROOM};
use making::{BIG, KINDLESS, SHEET, TWICE, make, place};
use marks::{add_place, front_of};
use prints::Page;
use said::Said;
use stands::add_due;
use told::Named;

// A sheet that is refused: by which number, as the C interface's `make` answers, and where.
#[derive(Drop)]
struct Refused<'a> {
    sheet: &'a [u8],
    number: u32,
    place: usize,
}

impl<'a> Refused<'a> {
    // Adds why it is refused.
    fn add_reason(&self, page: &mut Page)
        requires { Wrong self.now.sheet.now self.now.number self.now.place }
        ensures { Added page.old page.new
            (reason_text self.now.sheet.now self.now.number) }
    {
        match self.number {
            SHEET => {
                page.add(b": ");
                add_due(page, front_of(self.sheet, self.place));
            },
            TWICE => page.add(b": this name comes again"),
            BIG => page.add(b": over 512 nodes or 64 kinds"),
            KINDLESS => page.add(b": no event kind"),
            _ => {},
        }
    }

    // Whether it has a place.
    fn has_place(&self) -> bool
        ensures { result ≡ (eqb self.now.number SHEET || eqb self.now.number TWICE) }
    {
        matches!(self.number, SHEET | TWICE)
    }

    // Adds line and column, where it has a place.
    fn add_where_placed(&self, page: &mut Page)
        ensures { Added page.old page.new
            (where_placed self.now.sheet.now self.now.number self.now.place) }
    {
        if self.has_place() {
            add_place(page, self.sheet, self.place);
        }
    }

    // Adds its line.
    fn add_line(&self, page: &mut Page)
        requires { Wrong self.now.sheet.now self.now.number self.now.place }
        ensures { Added page.old page.new
            (refusal_line self.now.sheet.now self.now.number self.now.place) }
    {
        page.add(b"refused");
        page.add_spaced(self.number as u64);
        self.add_where_placed(page);
        self.add_reason(page);
        page.add(b"\n");
    }
}

// Adds the lines of a sheet's book and what the compiler says of it.
fn add_book(page: &mut Page, sheet: &[u8], book: &[u8], plan: &mut [u8])
    requires { BookLent sheet.now book.now plan.old }
    ensures { AddedBook sheet.now book.now page.old page.new }
{
    let answer = compile(book, plan);
    let from = place(sheet, answer.place);
    let book = Named::new(book);
    book.add_lines(page);
    let place = from.place as usize;
    let said = Said {
        sheet,
        book,
        answer,
        place,
    };
    said.add_lines(page);
}

// The longest sheet.
const SHEET_ROOM: usize = 65536;

// Adds what the program writes for a sheet.
fn add_show(page: &mut Page, sheet: &[u8], book: &mut [u8], plan: &mut [u8])
    requires { Lent book.old plan.old }
    ensures { AddedShow sheet.now page.old page.new }
{
    if SHEET_ROOM < sheet.len() {
        return page.add(b"input too long\n");
    }
    let made = make(sheet, book);
    if made.number != DONE {
        let refused = Refused {
            sheet,
            number: made.number,
            place: made.place as usize,
        };
        return refused.add_line(page);
    }
    let size = made.size as usize;
    add_book(page, sheet, &book[..size], plan);
}

// The bytes of an input that decide, and the size of the output.
pub const INPUT_ROOM: usize = SHEET_ROOM + 1;

// `out_room` of specs/, counted from the longest lines.
pub const OUT_ROOM: usize = 150330;

// Whether the lengths of the lent buffers suffice, with so many bytes of input in the first; `Answers` speaks of each.
fn suffice(buffer: usize, size: usize, out: usize, book: usize, plan: usize) -> bool
    ensures { result ≡ suffices buffer size out book plan }
{
    (INPUT_ROOM <= buffer)
        & (size <= buffer)
        & (OUT_ROOM <= out)
        & (book == LONGEST_BOOK)
        & (plan == PLAN_ROOM)
}

// Puts what the program writes for an input whose first bytes, so many, stand in the buffer, and answers its length; 0
// if the buffers do not suffice.
pub fn show(buffer: &[u8], size: usize, out: &mut [u8], book: &mut [u8], plan: &mut [u8]) -> usize
    ensures { Answers buffer.now size
        out.old book.old plan.old out.new result }
{
    if !suffice(buffer.len(), size, out.len(), book.len(), plan.len()) {
        return 0;
    }
    let mut page = Page::new(out);
    add_show(&mut page, &buffer[..size], book, plan);
    page.len()
}
