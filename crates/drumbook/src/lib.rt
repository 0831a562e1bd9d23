// What a C host links: thin exports of the proved calls, each with the contract of the call it passes on.
#![tactic(auto)]

ghost use Rattle.std.specs.Fn.{FnOnceReturnsAt};
ghost use Rattle.std.specs.Prelude.{List, ℕ, ◌≡◌, length, get_or};
ghost use Rattle.book.specs.Form.{form_of};
ghost use Rattle.written.specs.Written.{out, Hands};
ghost use Rattle.moves.specs.Moves.{forward_of, back_of};
ghost use Rattle.moves.specs.Look.{part_of};
ghost use Rattle.compiler.specs.Compiles.{Compiles};
ghost use Rattle.reader.specs.Reads.{Reads};
ghost use Rattle.making.specs.Makes.{Makes, Places};
ghost use Rattle.unread.specs.Unreads.{Unreads};
ghost use Rattle.profile.specs.Profiles.{Measures, Profiles};
ghost use Rattle.sample.specs.Samples.{Samples};
ghost use Rattle.drums.specs.Drums.{idle_drum, open_of, event_of, close_of};
ghost use Rattle.drums.specs.declared.Drum.{Drum};
ghost use Rattle.drums.specs.declared.Stepped.{Stepped};
ghost use Rattle.board.specs.Board.{calls, called};

use book::Judged;
use compiler::Compiled;
use drums::{Drum, Stepped};
use moves::Part;
use profile::Depth;
use reader::Reading;
use written::Written;

// The form of a book, with names or without, for any bytes: done, 1 to 4 or 19, with its place.
#[unsafe(no_mangle)]
pub extern "C" fn drumbook_form(book: &[u8]) -> Judged
    ensures { result ≡ form_of book.now }
{
    book::form(book)
}

// Compiles a book, for any bytes and any plan room: done, 1 to 7, 19 or 22; the plan, or zeros.
#[unsafe(no_mangle)]
pub extern "C" fn drumbook_compile(book: &[u8], plan: &mut [u8]) -> Compiled
    ensures { Compiles book.now (length plan.old) result plan.new }
{
    compiler::compile(book, plan)
}

// Reads a run by a plan, for any bytes, slots and tree room: done or 8 to 16; the tree, or zeros, and slots of zeros.
#[unsafe(no_mangle)]
pub extern "C" fn drumbook_read(
    plan: &[u8],
    run: &[u8],
    held: &mut [u32],
    tree: &mut [u16],
) -> Reading
    ensures { Reads plan.now run.now held.old tree.old result held.new tree.new }
{
    reader::read(plan, run, held, tree)
}

// Moves a book without names forward, for any bytes, house list and room: done or 1 to 4, 19 and 21; the book with the
// first names of the house list, or zeros.
#[unsafe(no_mangle)]
pub extern "C" fn drumbook_forward(book: &[u8], house: &[u8], out: &mut [u8]) -> Written
    ensures { Hands (forward_of book.now house.now (length out.old)) result
        out.new }
{
    moves::forward(book, house, out)
}

// Moves a book with names back, for any bytes, house list and room: done or 1 to 4 and 19 to 21; the book without
// names, or zeros.
#[unsafe(no_mangle)]
pub extern "C" fn drumbook_back(book: &[u8], house: &[u8], out: &mut [u8]) -> Written
    ensures { Hands (back_of book.now house.now (length out.old)) result
        out.new }
{
    moves::back(book, house, out)
}

// Where the name of a kind stands, for any bytes, house list and kind: in the book, in the house list, or nowhere.
#[unsafe(no_mangle)]
pub extern "C" fn drumbook_name(book: &[u8], house: &[u8], kind: u32) -> Part
    ensures { result ≡ part_of book.now house.now kind }
{
    moves::name_part(book, house, kind)
}

// Makes a book with names of a sheet, for any bytes and any room: done, 26 to 29 or 21; the book, or zeros.
#[unsafe(no_mangle)]
pub extern "C" fn drumbook_sheet(sheet: &[u8], book: &mut [u8]) -> Written
    ensures { Makes sheet.now (length book.old) (out result book.new) }
{
    making::make(sheet, book)
}

// The place of the text from which a node of a sheet's book comes, for any bytes and any node: done, 26 to 29 or 4.
#[unsafe(no_mangle)]
pub extern "C" fn drumbook_sheet_place(sheet: &[u8], node: u32) -> Written
    ensures { Places sheet.now node result }
{
    making::place(sheet, node)
}

// Writes the run of a tree of a book, for any bytes, records and room: done, the book's own refusal, or 23 to 25; the
// run, or zeros.
#[unsafe(no_mangle)]
pub extern "C" fn drumbook_unread(book: &[u8], tree: &[u16], run: &mut [u8]) -> Written
    ensures { Unreads book.now tree.now (length run.old)
        (out result run.new) }
{
    unread::unread(book, tree, run)
}

// The greatest number of parts that readings by a book ever hold at once, for any bytes: done, 1 to 6, 19, 22 or 30.
#[unsafe(no_mangle)]
pub extern "C" fn drumbook_greatest(book: &[u8]) -> Depth
    ensures { Measures book.now result }
{
    profile::greatest(book)
}

// Whether a controller of so many slots takes a book, for any bytes and any slots: done, 32, 1 to 6, 19, 22, 30 or 31.
#[unsafe(no_mangle)]
pub extern "C" fn drumbook_profile(book: &[u8], slots: u32) -> Depth
    ensures { Profiles book.now slots result }
{
    profile::profile(book, slots)
}

// A call for the drum with a number: what a step makes of it is stored; where none stands on the list, none is touched.
fn call<F: FnOnce(&Drum) -> Stepped>(
    plan: &[u8],
    drums: &mut [Drum],
    number: u32,
    step: F,
) -> Reading
    requires { F.IsAlwaysCallable step }
    ensures { (made_of : List ℕ → Drum → ℕ → ℕ → Stepped) (kind : ℕ)
        → ((made : Stepped) → FnOnceReturnsAt F.FnOnce step (get_or drums.old number idle_drum) made
        → made ≡ made_of plan.now (get_or drums.old number idle_drum) number kind)
        → calls result drums.new ≡ called made_of plan.now drums.old number kind }
{
    let at = number as usize;
    if at < drums.len() {
        let made = step(&drums[at]);
        drums[at] = made.drum;
        made.reading
    } else {
        drums::absent(plan)
    }
}

// Opens a drum, for any bytes, drums and number: done or 8, 9 and 17.
#[unsafe(no_mangle)]
pub extern "C" fn drumbook_open(plan: &[u8], drums: &mut [Drum], number: u32) -> Reading
    ensures { calls result drums.new ≡ called open_of plan.now drums.old number 0 }
{
    call(plan, drums, number, |d| drums::open(plan, d, number, 0))
}

// Gives a drum an event, for any bytes, drums, number and kind: done or 8 to 13, 15, 17, 18 and 33.
#[unsafe(no_mangle)]
pub extern "C" fn drumbook_event(plan: &[u8], drums: &mut [Drum], number: u32, kind: u8) -> Reading
    ensures { calls result drums.new
        ≡ called event_of plan.now drums.old number kind }
{
    call(plan, drums, number, |d| drums::event(plan, d, number, kind))
}

// Closes a drum, for any bytes, drums and number: done or 8, 9, 14, 17, 18 and 33.
#[unsafe(no_mangle)]
pub extern "C" fn drumbook_close(plan: &[u8], drums: &mut [Drum], number: u32) -> Reading
    ensures { calls result drums.new ≡ called close_of plan.now drums.old number 0 }
{
    call(plan, drums, number, |d| drums::close(plan, d, number, 0))
}

// A sample run of a book, for any bytes and any room: done, the book's own refusal, 24 or 25; the shortest lawful run,
// of these the lowest, or zeros.
#[unsafe(no_mangle)]
pub extern "C" fn drumbook_sample(book: &[u8], run: &mut [u8]) -> Written
    ensures { Samples book.now (length run.old) (out result run.new) }
{
    sample::sample(book, run)
}
