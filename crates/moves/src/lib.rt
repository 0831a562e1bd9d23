// Moving books to the form with names and back, and looking up the name of a kind.
#![tactic(auto)]

ghost use Rattle.std.specs.Prelude.{◌≡◌, ◌≤◌, ◌<◌, ◌+◌, ◌*◌, true, false, MatchResult, Some, None, length};
ghost use Rattle.words.specs.Words.{Below, word_bytes};
ghost use Rattle.forms.specs.Forms.{form_size, contents_size};
ghost use Rattle.names.specs.Names.{HOUSE-NAMES, first_bad_name, names_bytes, name_at, past_name};
ghost use Rattle.written.specs.Written.{Out, Hands, handed};
ghost use Rattle.book.specs.Encode.{body_words};
ghost use Rattle.book.specs.Form.{DONE, form_of, judged, book_of};
ghost use Rattle.book.specs.Errors.{judged_by};
ghost use Rattle.moves.specs.Moves.{own_form, is_own, house_good, house_names, forward_of, back_of, laid_of};
ghost use Rattle.moves.specs.Refusals.{refused_by, Moved};
ghost use Rattle.moves.specs.Look.{source_of, kind_name, part_of, name_part};

use book::{Book, BookError, DONE, Judged, has_names};
use forms::put_contents;
use names::{HOUSE_NAMES, NAMES, find_bad, name_at};
use words::copy_bytes;
use written::{OUT_ROOM, Written, refuse};

// The answer's number: moving back would lose names.
pub const KEPT: u32 = 20;

// What stands against a move: the book's form, the first bad name of the house list, names that would be lost, no room.
#[derive(Clone, Copy, PartialEq, Eq)]
enum MoveError {
    Form(BookError),
    House(u32),
    Kept,
    OutRoom,
}

impl From<BookError> for MoveError {
    ghost use Rattle.moves.specs.declared.MoveError.{MoveError};

    ghost from_gives = { λ error refusal. refusal ≡ MoveError.Form error };

    fn from(error: BookError) -> MoveError {
        MoveError::Form(error)
    }
}

// The book that bytes are, with names or without them, as is asked: one of the other form is 2, or 1 by its length.
fn read_own<'a>(bytes: &'a [u8], named: bool) -> Result<Book<'a>, BookError>
    ensures { MatchResult result
        (λ book. (book ≡ bytes.now) × (is_own named bytes.now ≡ true) × (form_of bytes.now ≡ judged DONE 0))
        (λ error. own_form (is_own named bytes.now) bytes.now ≡ judged_by error) }
{
    match Book::read(bytes) {
        Ok(book) => {
            if book.has_names() == named {
                Ok(book)
            } else {
                Err(BookError::Contents)
            }
        }
        Err(error) => match error {
            BookError::Length => Err(error),
            other => {
                if has_names(bytes) == named {
                    Err(other)
                } else {
                    Err(BookError::Contents)
                }
            }
        },
    }
}

// The test of the house list: 64 good names and nothing else, or the first that is bad.
#[tactic(auto, using(crate::proofs::Answers::first_bad_small))]
fn check_house(house: &[u8]) -> Result<(), MoveError>
    ensures { MatchResult result (λ _. house_good house.now ≡ true)
        (λ error. (house_good house.now ≡ false) × (error ≡ MoveError.House (first_bad_name house.now 0 HOUSE-NAMES))) }
{
    match find_bad(house, 0, HOUSE_NAMES) {
        Ok(()) => Ok(()),
        Err(n) => Err(MoveError::House(n as u32)),
    }
}

// The bytes of the first names of a good house list, one for each kind of a book.
fn first_names<'a>(book: &Book, house: &'a [u8]) -> &'a [u8]
    requires { house_good house.now ≡ true }
    ensures { (result.now ≡ names_bytes (house_names house.now (book_of book.now).kinds)) × (length result.now ≤ 1088) }
{
    &house[..name_at(house, 0, book.kinds())]
}

// The settings and the nodes of a book.
fn body<'a>(book: &Book<'a>) -> &'a [u8]
    requires { Below 256 book.now }
    ensures { (result.now ≡ word_bytes (body_words (book_of book.now)))
        × (length result.now ≡ 4 + 6 * (book_of book.now).count) × ((form_of book.now).number ≡ DONE) }
{
    let settings = book.settings_at();
    let size = 4 + 6 * book.count();
    &book.bytes()[settings..settings + size]
}

// Writes a book with sections of these sizes, and names behind its nodes, if there is room for it: its size.
fn write_book(book: &Book, sizes: &[usize], names: &[u8], out: &mut [u8]) -> Result<u32, MoveError>
    requires { Below 256 book.now × (form_size sizes.now < 65536)
        × (form_size sizes.now ≡ contents_size (length sizes.now) + 4 + 6 * (book_of book.now).count + length names.now) }
    ensures { Moved (handed (laid_of book.now sizes.now names.now) (length out.old)) result (length out.old) out.new }
{
    let body = body(book);
    let at = 2 + 6 * sizes.len();
    let end = at + body.len();
    let size = end + names.len();
    if out.len() < size {
        return Err(MoveError::OutRoom);
    }
    out.fill(0);
    put_contents(out, sizes);
    copy_bytes(body, 0, out, at, body.len());
    copy_bytes(names, 0, out, end, names.len());
    Ok(size as u32)
}

// A book without names, with the first names of the house list: the size of its bytes, or what stands against that.
#[tactic(auto, using(crate::proofs::Answers::form_stands, crate::proofs::Answers::bad_house_stands, crate::proofs::Answers::none_stands, crate::proofs::Laid::named_laid), unfolding(crate::specs::Moves::forward_of))]
fn write_forward(bytes: &[u8], house: &[u8], out: &mut [u8]) -> Result<u32, MoveError>
    ensures { Moved (forward_of bytes.now house.now (length out.old)) result (length out.old) out.new }
{
    let book = read_own(bytes, false)?;
    check_house(house)?;
    let names = first_names(&book, house);
    write_book(&book, &[4, 6 * book.count(), names.len()], names, out)
}

// A book with names, without them: the size of its bytes, or what stands against that.
#[tactic(auto, using(crate::proofs::Answers::form_stands, crate::proofs::Answers::bad_house_stands, crate::proofs::Answers::none_stands, crate::proofs::Laid::plain_laid), unfolding(crate::specs::Moves::back_of))]
fn write_back(bytes: &[u8], house: &[u8], out: &mut [u8]) -> Result<u32, MoveError>
    ensures { Moved (back_of bytes.now house.now (length out.old)) result (length out.old) out.new }
{
    let book = read_own(bytes, true)?;
    check_house(house)?;
    let own = &bytes[book.names_at()..];
    let others = first_names(&book, house);
    if own != others {
        return Err(MoveError::Kept);
    }
    write_book(&book, &[4, 6 * book.count()], &[], out)
}

// The answer of a move that has left a buffer so: a refusal clears it.
fn answer(moved: Result<u32, MoveError>, out: &mut [u8]) -> Written
    ensures { (o : Out) → Moved o moved (length out.old) out.old → Hands o result out.new }
{
    match moved {
        Ok(size) => Written {
            number: DONE,
            size,
            place: 0,
        },
        Err(MoveError::Form(error)) => {
            let form = Judged::from(error);
            refuse(form.number, form.place as u64, out)
        }
        Err(MoveError::House(n)) => refuse(NAMES, n as u64, out),
        Err(MoveError::Kept) => refuse(KEPT, 0, out),
        Err(MoveError::OutRoom) => refuse(OUT_ROOM, 0, out),
    }
}

// Moves a book without names forward, for any bytes, house list and room: done, or the first of 1 to 4, 19 and 21.
pub fn forward(book: &[u8], house: &[u8], out: &mut [u8]) -> Written
    ensures { Hands (forward_of book.now house.now (length out.old)) result
        out.new }
{
    let moved = write_forward(book, house, out);
    answer(moved, out)
}

// Moves a book with names back, for any bytes, house list and room: done, or the first of 1 to 4, 19, 20 and 21.
pub fn back(book: &[u8], house: &[u8], out: &mut [u8]) -> Written
    ensures { Hands (back_of book.now house.now (length out.old)) result
        out.new }
{
    let moved = write_back(book, house, out);
    answer(moved, out)
}

// Where the name of a kind is looked up.
#[derive(Clone, Copy)]
pub enum Source {
    Book,
    House,
}

// Where a kind's name is looked up: in the book where it has names, else in the house list, if these are good.
#[tactic(auto, using(crate::proofs::Parts::source_none, crate::proofs::Parts::source_book, crate::proofs::Parts::source_bad, crate::proofs::Parts::source_house))]
fn source_of(book: &Book, house: &[u8], kind: usize) -> Option<Source>
    ensures { result ≡ source_of book.now house.now kind }
{
    if book.kinds() <= kind {
        return None;
    }
    if book.has_names() {
        return Some(Source::Book);
    }
    match check_house(house) {
        Ok(()) => Some(Source::House),
        Err(_) => None,
    }
}

// A part of the book, 1, or of the house list, 2, by offset and size; all 0 where there is none: numbers, as the C
// interface has it.
#[repr(C)]
#[derive(Clone, Copy)]
pub struct Part {
    pub from: u32,
    pub offset: u32,
    pub size: u32,
}

// The part that is the name with a number, in names that begin at `base`, without its length byte.
fn part_at(from: u32, list: &[u8], base: usize, n: usize) -> Part
    requires { (past_name list.now (name_at list.now base n) ≤ length list.now) × (name_at list.now base n ≤ 4184) }
    ensures { result ≡ name_part from list.now base n }
{
    let at = name_at(list, base, n);
    Part {
        from,
        offset: (at + 1) as u32,
        size: u32::from(list[at]),
    }
}

// Where the name of a kind stands, for any bytes, house list and kind.
#[tactic(auto, using(crate::proofs::Parts::book_there, crate::proofs::Parts::house_there, crate::proofs::Parts::part_refused, crate::proofs::Parts::part_none, crate::proofs::Parts::part_book, crate::proofs::Parts::part_house))]
pub fn name_part(book: &[u8], house: &[u8], kind: u32) -> Part
    ensures { result ≡ part_of book.now house.now kind }
{
    let n = kind as usize;
    let nothing = Part {
        from: 0,
        offset: 0,
        size: 0,
    };
    match Book::read(book) {
        Ok(read) => match source_of(&read, house, n) {
            Some(Source::Book) => part_at(1, book, read.names_at(), n),
            Some(Source::House) => part_at(2, house, 0, n),
            None => nothing,
        },
        Err(_) => nothing,
    }
}

// The name of a kind, for any bytes, house list and kind: a part of the book or of the house list, or nothing.
#[tactic(auto, using(crate::proofs::Parts::book_within, crate::proofs::Parts::house_within, crate::proofs::Parts::name_in_book, crate::proofs::Parts::name_in_house, crate::proofs::Parts::no_name))]
pub fn name<'a>(book: &'a [u8], house: &'a [u8], kind: u32) -> &'a [u8]
    ensures { result.now ≡ kind_name book.now house.now kind }
{
    let found = name_part(book, house, kind);
    let at = found.offset as usize;
    let end = at + found.size as usize;
    match found.from {
        1 => &book[at..end],
        2 => &house[at..end],
        _ => &book[..0],
    }
}
