// Answers of calls that write bytes: number, size and place; all other bytes are zeros.
#![tactic(auto)]

ghost use Rattle.std.specs.Prelude.{length};
ghost use Rattle.written.specs.Written.{refused_with, Hands};

// The answer's number, last of all tests.
pub const OUT_ROOM: u32 = 21;

// The numbers of a call that writes a run: it has too many events, or there is no room for it.
pub const RUN_LONG: u32 = 24;

pub const RUN_ROOM: u32 = 25;

// What a call that writes bytes answers, as the C interface has it: refusals are numbers.
#[repr(C)]
#[derive(Clone, Copy)]
pub struct Written {
    pub number: u32,
    pub size: u32,
    pub place: u64,
}

// A refusal: its number and place, size 0, and a clear buffer.
pub fn refuse(number: u32, place: u64, out: &mut [u8]) -> Written
    ensures { Hands (refused_with number place (length out.old)) result out.new }
{
    out.fill(0);
    Written {
        number,
        size: 0,
        place,
    }
}
