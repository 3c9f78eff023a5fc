// Bytes written out as text, a line for each: its number, and the code that it is.
#![tactic(auto)]

ghost use Rattle.std.specs.Prelude.{◌++◌, ◌+◌, ◌≤◌, length};
ghost use Rattle.text.specs.Page.{Writes};
ghost use Rattle.text.specs.Text.{decimal};
ghost use Rattle.listing.specs.Listing.{name, line, Lists};

use codes::Code;
use text::Page;

// The longest line, `191 acknowledge 31` and its end.
pub const LONGEST: usize = 19;

// How many bytes have their line, and how long the lines are together.
#[derive(Clone, Copy, Debug, PartialEq, Eq)]
pub struct Listed {
    pub taken: usize,
    pub length: usize,
}

// Writes the bytes' lines to the front of the area, for as long as a longest line has room. What
// was not taken can be listed by another call.
pub fn list(bytes: &[u8], area: &mut [u8]) -> Listed
    ensures { Lists bytes.now area.old result.taken result.length area.new }
{
    let mut page = Page { area, at: 0 };
    for (taken, byte) in bytes.iter().enumerate() {
        if page.area.len() - page.at < LONGEST {
            return Listed {
                taken,
                length: page.at,
            };
        }
        put_line(&mut page, *byte);
    }
    Listed {
        taken: bytes.len(),
        length: page.at,
    }
}

// The line of a byte, where the page has room for it: how much is left depends on all that stands there, so
// that it is asked for here and below by a clause.
fn put_line(page: &mut Page, byte: u8)
    requires { page.old.at + length (line byte) ≤ length page.old.area.now }
    ensures { Writes (line byte) page.old page.new }
{
    // In two pieces: `then` would count the digits twice.
    page.number(u32::from(byte));
    page.word(b" ");
    put_name(page, codes::read(byte));
    page.word(b"\n");
}

fn put_name(page: &mut Page, code: Code)
    requires { page.old.at + length (name code) ≤ length page.old.area.now }
    ensures { Writes (name code) page.old page.new }
{
    match code {
        Code::Time(value) => put_valued(page, b"time ", value),
        Code::Interrupt(k) => put_valued(page, b"interrupt ", k),
        Code::Acknowledge(k) => put_valued(page, b"acknowledge ", k),
        Code::Reserved(top, low) => {
            put_valued(page, b"reserved ", top);
            put_valued(page, b" ", low);
        }
    }
}

// A word, and a number after it.
fn put_valued(page: &mut Page, word: &[u8], value: u8)
    requires { page.old.at + length (word.now ++ decimal value) ≤ length page.old.area.now }
    ensures { Writes (word.now ++ decimal value) page.old page.new }
{
    page.word(word);
    page.number(u32::from(value));
}
