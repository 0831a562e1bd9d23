// Compiling a book to a plan: numbers 0 to 7, 19 and 22.
#![tactic(auto)]

ghost use Rattle.std.specs.Prelude.{◌≡◌, ◌≤◌, MatchResult, length};
ghost use Rattle.words.specs.Words.{zeros};
ghost use Rattle.book.specs.Form.{DONE, form_of, book_of};
ghost use Rattle.rules.specs.Facts.{flat, table_size};
ghost use Rattle.rules.specs.Growth.{Blank};
ghost use Rattle.lengths.specs.Falling.{Fresh};
ghost use Rattle.verdict.specs.Judges.{judgement, Judges};
ghost use Rattle.compiler.specs.Compiles.{Compiles, answer};
ghost use Rattle.compiler.specs.Errors.{refused_book, compiled_by};

use book::DONE;
use lengths::least_lengths;
use plan::plan_size;
use rules::{NodeFacts, SMALL_TABLE, TABLE};
use verdict::{KnownBook, Refusal, Verdict};
use writer::write_plan;

// The answer's number, after those of judging.
pub const PLAN_ROOM: u32 = 7;

// What compiling answers; of a conflict the flag that both sides are nullable, and the set of the kinds that clash. Numbers
// and a flag stay: C takes this struct.
#[repr(C)]
#[derive(Clone, Copy)]
pub struct Compiled {
    pub number: u32,
    pub place: u32,
    pub size: u32,
    pub both: u32,
    pub clash: u64,
}

// What stands against compiling a book: a refusal of the book, or the room for its plan, with the plan's size.
#[derive(Clone, Copy, PartialEq, Eq)]
enum CompileError {
    Book(Refusal),
    PlanRoom(u32),
}

impl From<Refusal> for CompileError {
    ghost from_gives = { λ refusal error. error ≡ refused_book refusal };

    fn from(refusal: Refusal) -> CompileError {
        CompileError::Book(refusal)
    }
}

impl From<CompileError> for Compiled {
    ghost from_gives = { λ error compiled. compiled ≡ compiled_by error };

    fn from(error: CompileError) -> Compiled {
        match error {
            CompileError::Book(refusal) => {
                let verdict = Verdict::from(refusal);
                Compiled {
                    number: verdict.number,
                    place: verdict.place,
                    size: 0,
                    both: verdict.both,
                    clash: verdict.clash,
                }
            },
            CompileError::PlanRoom(size) => Compiled {
                number: PLAN_ROOM,
                place: 0,
                size,
                both: 0,
                clash: 0,
            },
        }
    }
}

// Writes the plan of a book that passes into a clear buffer, with a fresh table for its lengths. The plan's size.
fn put_plan(known: &KnownBook, least: &mut [u32], plan: &mut [u8]) -> Result<u32, CompileError>
    requires judges { Judges known.now.bytes (judgement DONE 0 0 0) }
    requires fresh { Fresh (book_of known.now.bytes).count least.old }
    requires clear { plan.old ≡ zeros (length plan.old) }
    ensures { MatchResult result
        (λ size. Compiles known.now.bytes (length plan.old) (answer DONE 0 size 0 0) plan.new)
        (λ error. Compiles known.now.bytes (length plan.old) (compiled_by error) plan.new) }
{
    let book = known.book();
    let size = plan_size(book.count(), book.kinds());
    if plan.len() < size {
        return Err(CompileError::PlanRoom(size as u32));
    }
    least_lengths(&book.nodes(), least);
    write_plan(book, known.table(), least, plan);
    Ok(size as u32)
}

// Compiles a book into a clear buffer, with tables for its facts and lengths, blank and fresh and long enough where its form
// is good. The plan's size.
fn compile_by(
    book: &[u8],
    table: &mut [NodeFacts],
    least: &mut [u32],
    plan: &mut [u8],
) -> Result<u32, CompileError>
    requires blank { (form_of book.now).number ≡ DONE → Blank (table_size (book_of book.now).count) (flat table.old) }
    requires fresh { (form_of book.now).number ≡ DONE → Fresh (book_of book.now).count least.old }
    requires clear { plan.old ≡ zeros (length plan.old) }
    ensures { MatchResult result
        (λ size. Compiles book.now (length plan.old) (answer DONE 0 size 0 0) plan.new)
        (λ error. Compiles book.now (length plan.old) (compiled_by error) plan.new) }
{
    let passed = verdict::judge(book, table)?;
    put_plan(&KnownBook::of(&passed, table), least, plan)
}

// Compiles a book with tables for so many nodes, as many as it has where its form is good.
fn compile_with<const NODES: usize>(book: &[u8], plan: &mut [u8]) -> Compiled
    requires large { (form_of book.now).number ≡ DONE → (book_of book.now).count ≤ NODES }
    requires few { NODES ≤ 512 }
    ensures { Compiles book.now (length plan.old) result plan.new }
{
    plan.fill(0);
    let mut table = [NodeFacts::NONE; NODES];
    let mut least = [lengths::CAP; NODES];
    match compile_by(book, &mut table, &mut least, plan) {
        Ok(size) => Compiled {
            number: DONE,
            place: 0,
            size,
            both: 0,
            clash: 0,
        },
        Err(error) => Compiled::from(error),
    }
}

// Compiles a book, for any bytes and any plan room: done with the plan, or the first of 1 to 4, 19, 22 and 5 to 7 and a
// clear plan buffer. A small book has small tables, which are quicker to fill.
pub fn compile(book: &[u8], plan: &mut [u8]) -> Compiled
    ensures { Compiles book.now (length plan.old) result plan.new }
{
    if book::count_claimed(book) <= SMALL_TABLE {
        compile_with::<SMALL_TABLE>(book, plan)
    } else {
        compile_with::<TABLE>(book, plan)
    }
}
