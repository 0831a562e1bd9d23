// Names of kinds: number 19, and where a name stands.
#![tactic(auto)]

ghost use Rattle.std.specs.Prelude.{◌≡◌, ◌+◌, ◌≤◌, ◌<◌, length, true, false, MatchResult};
ghost use Rattle.words.specs.Lists.{same};
ghost use Rattle.names.specs.Names.{all_visible, past_name, name_from, whole_at, name_at, name_new, name_good, first_bad_name, names_good};

// The answer's number: bad names.
pub const NAMES: u32 = 19;

// How many names the house list has.
pub const HOUSE_NAMES: usize = 64;

// How many bytes a name has at most.
const LONGEST: usize = 16;

// Where the name whose length byte stands at a place ends.
fn past_name(bytes: &[u8], at: usize) -> usize
    requires { at < length bytes.now }
    ensures { result ≡ past_name bytes.now at }
{
    at + 1 + usize::from(bytes[at])
}

// Whether so many bytes from a place on are all from 33 to 126.
fn all_visible(bytes: &[u8], from: usize, size: usize) -> bool
    requires { from + size ≤ length bytes.now }
    ensures { result ≡ all_visible bytes.now from size }
{
    bytes[from..from + size]
        .iter()
        .all(|byte| matches!(*byte, 33..=126))
}

// Whether the name at a place is whole: a length byte from 1 to 16, and that many bytes from 33 to 126.
fn name_whole(bytes: &[u8], at: usize) -> bool
    requires { at ≤ length bytes.now }
    ensures { result ≡ whole_at bytes.now at }
{
    if bytes.len() <= at {
        return false;
    }
    let size = usize::from(bytes[at]);
    if size < 1 || LONGEST < size || bytes.len() < past_name(bytes, at) {
        return false;
    }
    all_visible(bytes, at + 1, size)
}

// Whether the names at two places are the same.
fn same_name(bytes: &[u8], one: usize, other: usize) -> bool
    requires { (past_name bytes.now one ≤ length bytes.now) × (past_name bytes.now other ≤ length bytes.now) }
    ensures { result ≡ same (name_from bytes.now one) (name_from bytes.now other) }
{
    &bytes[one + 1..past_name(bytes, one)] == &bytes[other + 1..past_name(bytes, other)]
}

// Whether no name before the one with a number, which begins at a place, is the same.
fn name_new(bytes: &[u8], base: usize, n: usize, at: usize) -> bool
    requires { (at ≡ name_at bytes.now base n) × (past_name bytes.now at ≤ length bytes.now) }
    ensures { result ≡ name_new bytes.now base n }
{
    let mut earlier = base;
    for _ in 0..n {
        if same_name(bytes, earlier, at) {
            return false;
        }
        earlier = past_name(bytes, earlier);
    }
    true
}

// Whether the name with a number, which begins at a place, is good.
fn name_good(bytes: &[u8], base: usize, n: usize, at: usize) -> bool
    requires { (at ≡ name_at bytes.now base n) × (at ≤ length bytes.now) }
    ensures { result ≡ name_good bytes.now base n }
{
    name_whole(bytes, at) && name_new(bytes, base, n, at)
}

// The first bad one of so many names that are to stand from a place to the end; their count where only the end is amiss.
pub fn find_bad(bytes: &[u8], base: usize, count: usize) -> Result<(), usize>
    requires { base ≤ length bytes.now }
    ensures { MatchResult result (λ _. names_good bytes.now base count ≡ true)
        (λ n. (names_good bytes.now base count ≡ false) × (n ≡ first_bad_name bytes.now base count)) }
{
    let mut at = base;
    for n in 0..count {
        if !name_good(bytes, base, n, at) {
            return Err(n);
        }
        at = past_name(bytes, at);
    }
    if at != bytes.len() {
        return Err(count);
    }
    Ok(())
}

// Where the name with a number begins.
pub fn name_at(bytes: &[u8], base: usize, n: usize) -> usize
    requires { name_at bytes.now base n ≤ length bytes.now }
    ensures { result ≡ name_at bytes.now base n }
{
    let mut at = base;
    for _ in 0..n {
        at = past_name(bytes, at);
    }
    at
}
