// The bytes that the programs work on, from a reader.
#![tactic(auto)]

ghost use Rattle.std.specs.Prelude.{◌<◌, length, take, IfOk, OnErr};
ghost use Rattle.std.specs.Io.{ReadsAtMost};
ghost use Rattle.std.specs.Io.KnownBytes.{Consumes, IsAtEnd};
ghost use Rattle.input.specs.Fill.{Filled};

use std::io;
use std::io::Read;

// Reads until the buffer is full or the input ends, and answers how many bytes it put at the buffer's start: those that
// the reader gave, and all of them where the buffer isn't full. An error of the reader's ends it, and those that came
// before stand at the buffer's start.
pub fn fill<R: Read>(reader: &mut R, buffer: &mut [u8]) -> io::Result<usize>
    ensures within { ReadsAtMost result buffer.new }
    ensures bytes { IfOk result
        (λ size. Consumes (R.Read.remaining reader.old) (R.Read.remaining reader.new) (take size buffer.new)) }
    ensures end { IfOk result (λ size. size < length buffer.new → IsAtEnd (R.Read.remaining reader.new)) }
    ensures err { OnErr result (Filled (R.Read.remaining reader.old) (R.Read.remaining reader.new) buffer.new) }
{
    let mut size = 0;
    while size < buffer.len() {
        let got = reader.read(&mut buffer[size..])?;
        if got == 0 {
            break;
        }
        size += got;
    }
    Ok(size)
}
