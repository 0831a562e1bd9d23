// A sample run of a book: the shortest lawful run, of these the lowest; numbers 24 and 25.
#![tactic(auto)]

ghost use Rattle.std.specs.Prelude.{◌≡◌, length, MatchResult};
ghost use Rattle.book.specs.Form.{DONE, form_of, book_of};
ghost use Rattle.rules.specs.Facts.{flat, table_size};
ghost use Rattle.rules.specs.Growth.{Blank};
ghost use Rattle.verdict.specs.Judges.{judgement, Judges};
ghost use Rattle.weights.specs.Weight.{Weights};
ghost use Rattle.written.specs.Written.{written, Hands};
ghost use Rattle.sample.specs.declared.SampleError.TheVariants.{Judged};
ghost use Rattle.sample.specs.Samples.{out, Samples};
ghost use Rattle.sample.specs.Errors.{refused_by};

use book::{Book, DONE};
use laying::write_sample;
use rules::NodeFacts;
use verdict::{Refusal, Verdict};
use weights::{CAP, least_weights, weight_at};
use written::{RUN_LONG, RUN_ROOM, Written, refuse};

// The most nodes of a book.
const NODES: usize = 512;

// What stands against a sample of a book: what stands against the book; that each of its runs has too many events, or no
// room for the sample.
#[derive(Clone, Copy, PartialEq, Eq)]
pub enum SampleError {
    Judged(Refusal),
    RunLong,
    RunRoom,
}

impl From<Refusal> for SampleError {
    ghost from_gives = { λ refusal error. error ≡ Judged refusal };

    fn from(refusal: Refusal) -> SampleError {
        SampleError::Judged(refusal)
    }
}

// Writes the sample of a book that passes, with its least weights at hand: its size, or what stands against it.
fn hand_run(book: &Book, weights: &[u32], run: &mut [u8]) -> Result<u32, SampleError>
    requires judges { Judges book.now (judgement DONE 0 0 0) }
    requires weights { Weights (book_of book.now).node weights.now × (length weights.now ≡ 512) }
    ensures { MatchResult result
        (λ size. Samples book.now (length run.old) (out (written DONE size 0) run.new))
        (λ error. Samples book.now (length run.old) (refused_by error (length run.old))) }
{
    let weight = weight_at(weights, book.start());
    if CAP as usize <= weight {
        return Err(SampleError::RunLong);
    }
    let size = weight / 64;
    if run.len() < size {
        return Err(SampleError::RunRoom);
    }
    run.fill(0);
    write_sample(book, weights, run);
    Ok(size as u32)
}

// Writes the sample of a book, with a table for its facts, blank and long enough where its form is good: its size, or what
// stands against it.
fn sample_by(book: &[u8], table: &mut [NodeFacts], run: &mut [u8]) -> Result<u32, SampleError>
    requires { (form_of book.now).number ≡ DONE → Blank (table_size (book_of book.now).count) (flat table.old) }
    ensures { MatchResult result
        (λ size. Samples book.now (length run.old) (out (written DONE size 0) run.new))
        (λ error. Samples book.now (length run.old) (refused_by error (length run.old))) }
{
    let passed = verdict::judge(book, table)?;
    let mut weights = [CAP; NODES];
    least_weights(&passed, &mut weights);
    hand_run(&passed, &weights, run)
}

// The refusal with the number and place of what stands against a sample, and a clear buffer.
fn refuse_by(error: SampleError, run: &mut [u8]) -> Written
    ensures { Hands (refused_by error (length run.old)) result run.new }
{
    match error {
        SampleError::Judged(refusal) => {
            let verdict = Verdict::from(refusal);
            refuse(verdict.number, u64::from(verdict.place), run)
        }
        SampleError::RunLong => refuse(RUN_LONG, 0, run),
        SampleError::RunRoom => refuse(RUN_ROOM, 0, run),
    }
}

// A sample run of a book, for any bytes and any room: done with the shortest lawful run, of these the lowest, or the
// book's own refusal, 24 or 25, and a clear buffer.
pub fn sample(book: &[u8], run: &mut [u8]) -> Written
    ensures { Samples book.now (length run.old) (out result run.new) }
{
    let mut table = [NodeFacts::NONE; rules::TABLE];
    match sample_by(book, &mut table, run) {
        Ok(size) => Written {
            number: DONE,
            size,
            place: 0,
        },
        Err(error) => refuse_by(error, run),
    }
}
