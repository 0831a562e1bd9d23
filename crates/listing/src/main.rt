// The listing program: reads a book and a run from standard input, and writes the run's records, or what is refused.
#![tactic(auto)]

use input::fill;
use std::io;
use std::io::Write;

fn main(rt: HostRuntime) -> io::Result<()> {
    // The length, the longest book, 4,096 events and one event more: no later byte changes what is written.
    let mut input = [0u8; listed::INPUT_ROOM];
    let size = fill(&mut rt.reader(), &mut input)?;
    // The first line, and 8,192 lines of records.
    let mut out = [0u8; listed::OUT_ROOM];
    // The largest plan.
    let mut plan = [0u8; listed::PLAN_ROOM];
    let mut held = [0u32; listed::SLOT_ROOM];
    let mut tree = [0u16; listed::TREE_ROOM];
    let count = listed::list(&input, size, &mut out, &mut plan, &mut held, &mut tree);
    // The buffers suffice: there is always something to write.
    prove!(0 < count);
    rt.stdout().write_all(&out[..count])
}
