// Areas that a caller lends: a word put into one whole, or not at all, and whole areas copied, filled
// or looked at.
#![tactic(auto)]

ghost use Rattle.std.specs.Prelude.{◌≡◌, ◌+◌, leb, length};
ghost use Rattle.std.specs.Int.Bits.{bit_or};
ghost use Rattle.std.specs.List.{fold};
ghost use Rattle.areas.specs.Put.{Puts, copied, all_zero, all_short};
ghost use Rattle.lists.specs.Table.{table};

// Puts the word at a place of the area, and answers the place after it. A word with no room for all
// of it changes nothing, and the answer is the place itself. It is public, and pages are made of it.
pub fn put(area: &mut [u8], at: usize, word: &[u8]) -> usize
    ensures { Puts area.old at word.now area.new result }
{
    if !has_room(area.len(), at, word.len()) {
        return at;
    }
    // Byte by byte: `copy_from_slice` would have the archive for C ask for `memmove`.
    for i in 0..word.len() {
        area[at + i] = word[i];
    }
    at + word.len()
}

// Whether an area of `length` bytes has `size` of them from `at` on. The sum could wrap, so it
// compares what is left.
pub fn has_room(length: usize, at: usize, size: usize) -> bool
    ensures { result ≡ leb (at + size) length }
{
    if length < at {
        return false;
    }
    size <= length - at
}

// Makes the area `dst` the same as `src`. An area of another length stays as it was.
#[tactic(auto, unfolding(crate::specs::Put::copied))]
pub fn copy(src: &[u32], dst: &mut [u32])
    ensures { dst.new ≡ copied src.now dst.old }
{
    if dst.len() != src.len() {
        return;
    }
    // Word by word, for the same reason as in `put`.
    for i in 0..src.len() {
        dst[i] = src[i];
    }
}

// Makes every word of the area the value.
pub fn fill(area: &mut [u32], value: u32)
    ensures { area.new ≡ table (length area.old) (λ _. value) }
{
    area.fill(value);
}

// All words of the area, as sets, merged into one. That is done with several at a time, where a search
// for a word that stands out would look at each.
fn merged(area: &[u32]) -> u32
    ensures { result ≡ fold bit_or 0 area.now }
{
    area.iter().fold(0, |all, word| all | *word)
}

// Is every word of the area 0?
#[tactic(auto, using(crate::proofs::Below::merged_zero), unfolding(crate::specs::Put::all_zero))]
pub fn zeros(area: &[u32]) -> bool
    ensures { result ≡ all_zero area.now }
{
    merged(area) == 0
}

// Has every word of the area 16 bits? They have where what they are merged into has.
#[tactic(auto, using(crate::proofs::Below::merged_short), unfolding(crate::specs::Put::all_short))]
pub fn short(area: &[u32]) -> bool
    ensures { result ≡ all_short area.now }
{
    merged(area) < 65536
}
