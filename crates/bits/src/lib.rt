// A set of identifiers or of devices: 32 places, place k in it where bit k of the number is 1.
// Every function takes any number for a place. A place above 31 is in no set.
#![tactic(auto)]

ghost use Rattle.std.specs.Prelude.{◌≡◌};
ghost use Rattle.bits.specs.Set.{bit, join as set_join, leave as set_leave, size};
ghost use Rattle.bits.specs.First.{Finds};

// 1 where place k is in the set x, else 0.
pub fn get(x: u32, k: u32) -> u32
    ensures { result ≡ bit x k }
{
    if 31 < k {
        return 0;
    }
    (x >> k) % 2
}

// The set x with place k in it.
pub fn join(x: u32, k: u32) -> u32
    ensures { result ≡ set_join x k }
{
    if 31 < k {
        return x;
    }
    x | (1 << k)
}

// The set x without place k.
pub fn leave(x: u32, k: u32) -> u32
    ensures { result ≡ set_leave x k }
{
    if 31 < k {
        return x;
    }
    x & !(1 << k)
}

// How many places are in the set x.
pub fn count(x: u32) -> u32
    ensures { result ≡ size x }
{
    x.count_ones()
}

// The first member of x at or after the place next, going round from 31 to 0. The mask is split at
// next: the lowest one at or above it, and where there is none, the lowest one of all.
pub fn first(x: u32, next: u32) -> Option<u32>
    ensures { Finds x next result }
{
    if x == 0 {
        return None;
    }
    let place = next % 32;
    let upper = x >> place;
    if 0 < upper {
        return Some(place + upper.trailing_zeros());
    }
    Some(x.trailing_zeros())
}
