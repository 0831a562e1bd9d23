// 16-bit numbers in byte slices, low byte first; copying parts of slices.
#![tactic(auto)]

ghost use Rattle.std.specs.Prelude.{◌≡◌, ◌+◌, ◌*◌, ◌≤◌, ◌<◌, ◌%◌, ◌/◌, length};
ghost use Rattle.std.proofs.lemmas.List.Edits.{sets};
ghost use Rattle.words.specs.Lists.{part_at, same};
ghost use Rattle.words.specs.Words.{u16_at, zeros, with_u16};

// The 16-bit number at a place, low byte first.
#[tactic(auto, unfolding(crate::specs::Words::u16_at))]
pub fn u16_at(bytes: &[u8], at: usize) -> usize
    requires { at + 1 < length bytes.now }
    ensures { (result ≡ u16_at bytes.now at) × (result < 65536) }
{
    usize::from(bytes[at]) + 256 * usize::from(bytes[at + 1])
}

// Writes a 16-bit number at a place, low byte first.
#[tactic(auto, unfolding(crate::specs::Words::with_u16))]
pub fn put_u16(bytes: &mut [u8], at: usize, value: usize)
    requires { (at + 1 < length bytes.old) × (value < 65536) }
    ensures { bytes.new ≡ with_u16 bytes.old at value }
{
    bytes[at] = (value % 256) as u8;
    bytes[at + 1] = (value / 256 % 256) as u8;
}

// Copies so many bytes of a slice, from a place on, to a place of a lent buffer. One by one: std's `copy_from_slice` would
// have the archive ask a C host for `memmove`.
pub fn copy_bytes(from: &[u8], at: usize, to: &mut [u8], place: usize, size: usize)
    requires { (at + size ≤ length from.now) × (place + size ≤ length to.old) }
    ensures { to.new ≡ sets to.old place (part_at from.now at size) }
{
    for i in 0..size {
        to[place + i] = from[at + i];
    }
}
