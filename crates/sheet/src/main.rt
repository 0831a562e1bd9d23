// The program `sheet`: reads a sheet from standard input, and writes its book in words and what the compiler says of
// it, or where the sheet goes wrong and what is due there.
#![tactic(auto)]

use input::fill;
use std::io;
use std::io::Write;

fn main(rt: HostRuntime) -> io::Result<()> {
    // The longest sheet and one byte more: no later byte changes what is written.
    let mut input = [0u8; shown::INPUT_ROOM];
    let size = fill(&mut rt.reader(), &mut input)?;
    let mut out = [0u8; shown::OUT_ROOM];
    // The longest book, and the largest plan.
    let mut book = [0u8; listed::LONGEST_BOOK];
    let mut plan = [0u8; listed::PLAN_ROOM];
    let count = shown::show(&input, size, &mut out, &mut book, &mut plan);
    // The buffers suffice: there is always something to write.
    prove!(0 < count);
    rt.stdout().write_all(&out[..count])
}
