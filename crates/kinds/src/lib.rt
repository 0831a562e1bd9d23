// Sets of kinds as 64-bit masks.
#![tactic(auto)]

ghost use Rattle.std.specs.Prelude.{◌<◌, ◌≡◌};
ghost use Rattle.kinds.specs.Kinds.{has?, every_kind, only_kind, without_kind, lowest_kind};

// The set of all kinds.
#[tactic(auto, unfolding(crate::specs::Kinds::every_kind))]
pub fn every() -> u64
    ensures { result ≡ every_kind }
{
    u64::MAX
}

// The set of one kind.
pub fn single(kind: usize) -> u64
    requires { kind < 64 }
    ensures { result ≡ only_kind kind }
{
    1 << kind
}

// Whether a set has a kind.
pub fn has(set: u64, kind: usize) -> bool
    requires { kind < 64 }
    ensures { result ≡ has? set kind }
{
    (set >> kind) & 1 == 1
}

// A set without one of its kinds.
pub fn without(set: u64, kind: usize) -> u64
    requires { kind < 64 }
    ensures { result ≡ without_kind set kind }
{
    set ^ single(kind)
}

// The lowest kind of a set, 64 for the empty set: so `lowest_kind` has it, and a walk over a set of kinds ends by it.
#[tactic(auto, unfolding(crate::specs::Kinds::lowest_kind))]
pub fn lowest(set: u64) -> usize
    ensures { result ≡ lowest_kind set }
{
    set.trailing_zeros() as usize
}
