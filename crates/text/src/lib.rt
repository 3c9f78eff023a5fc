// Numbers in decimal, put into a lent area whole or not at all, and read; and lines of them that more
// than one text has.
#![tactic(auto)]

ghost use Rattle.std.specs.Prelude.{◌≡◌, ◌+◌, ◌-◌, ◌≤◌, ◌<◌, length, ◌++◌};
ghost use Rattle.areas.specs.Put.{put_at, Puts};
ghost use Rattle.text.specs.Text.{decimal};
ghost use Rattle.text.specs.Text.{headed, bad, joint};
ghost use Rattle.text.specs.Text.{digit as text_digit};

mod page;
mod reads;

pub use page::Page;
pub use reads::read_number;

// The functions over an area and a place are public, and a page is made of them. They put digits by
// themselves, since a word is put whole or not at all (RULES, "Areas"), which `write!` does not do.

// Puts the number's decimal digits at a place of the area, as `areas::put` does a word.
pub fn put_number(area: &mut [u8], at: usize, n: u32) -> usize
    ensures { Puts area.old at (decimal n) area.new result }
{
    let size = places(n);
    if !areas::has_room(area.len(), at, size) {
        return at;
    }
    let end = at + size;
    spell(area, end, n);
    end
}

// A number, and a word behind it.
pub fn put_then(area: &mut [u8], at: usize, n: u32, word: &[u8]) -> usize
    ensures { Puts area.old at (decimal n ++ word.now) area.new result }
{
    let size = places(n);
    if !areas::has_room(area.len(), at, size) {
        return at;
    }
    if !areas::has_room(area.len(), at + size, word.len()) {
        return at;
    }
    let after = put_number(area, at, n);
    areas::put(area, after, word)
}

// A word, a number, and the line's end.
pub fn put_headed(area: &mut [u8], at: usize, word: &[u8], n: u32) -> usize
    ensures { Puts area.old at (headed word.now n) area.new result }
{
    if !areas::has_room(area.len(), at, word.len()) {
        return at;
    }
    if !areas::has_room(area.len(), at + word.len(), places(n) + 1) {
        return at;
    }
    let number = areas::put(area, at, word);
    put_then(area, number, n, b"\n")
}

// The text of a plan file that is refused by a number, at a block.
pub fn put_bad(area: &mut [u8], at: usize, number: u32, block: u32) -> usize
    ensures { Puts area.old at (bad number block) area.new result }
{
    let size = 6 + places(number) + places(block);
    if !areas::has_room(area.len(), at, size) {
        return at;
    }
    let first = areas::put(area, at, b"bad ");
    let second = put_then(area, first, number, b" ");
    put_then(area, second, block, b"\n")
}

// The line of two ports that are joined, each as its device and its number there.
pub fn put_joint(area: &mut [u8], at: usize, q: u32, p: u32) -> usize
    ensures { Puts area.old at (joint q p) area.new result }
{
    let size = 4 + places(q / 8) + places(q % 8) + places(p / 8) + places(p % 8);
    if !areas::has_room(area.len(), at, size) {
        return at;
    }
    let second = put_then(area, at, q / 8, b" ");
    let third = put_then(area, second, q % 8, b" ");
    let fourth = put_then(area, third, p / 8, b" ");
    put_then(area, fourth, p % 8, b"\n")
}

// How many decimal digits the number has. There is no list to walk: it is divided until it is used up. A few such sizes have their sum in a word.
fn places(n: u32) -> usize
    ensures exact { result ≡ length (decimal n) }
    ensures few { result ≤ 10 }
{
    let mut k = 1;
    let mut rest = n;
    while 10 <= rest {
        rest /= 10;
        k += 1;
    }
    k
}

// Writes the number's digits so that the last of them stands before `end`. The last digit is the
// one at hand, so they go from right to left.
fn spell(area: &mut [u8], end: usize, n: u32)
    requires n_len_bound { length (decimal n) ≤ end }
    requires end_in_bounds { end ≤ length area.old }
    ensures { area.new ≡ put_at area.old (end - length (decimal n)) (decimal n) }
{
    let mut i = end;
    let mut rest = n;
    while 10 <= rest {
        i -= 1;
        area[i] = digit(rest % 10);
        rest /= 10;
    }
    i -= 1;
    area[i] = digit(rest);
}

fn digit(d: u32) -> u8
    requires { d < 10 }
    ensures { result ≡ text_digit d }
{
    b'0' + d as u8
}
