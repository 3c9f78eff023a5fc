// What the program `why` prints: the bytes of a plan file, of a state file if there is one, and three
// numbers go in, the whole text comes out, in a lent area.
#![tactic(auto)]

ghost use Rattle.std.specs.Prelude.{◌+◌, ◌≤◌, length};
ghost use Rattle.answers.specs.Refusals.{number_in, value_in};
ghost use Rattle.reasons.specs.Why.{is_given, bytes_of, Prints, longest, TellsWhy};
ghost use Rattle.reasons.specs.Inner.Pieces.{WritesSome};

mod answer;
mod given;
mod lines;

use answers::Refusal;
use text::Page;

// No text is longer: `cut 256`, and 256 lines like `31 7 does-not-forward`.
pub const LONGEST: usize = 5640;

// The bytes of a state file: four for each word.
pub const STATE: usize = 4 * state::WORDS;

// Makes the text in front of its area; the value is its length. The bytes of a state file are given, or
// none, and then the start state is taken. Refused by 3.
pub fn why(
    file: &[u8],
    given: Option<&[u8]>,
    source: u32,
    k: u32,
    device: u32,
    text: &mut [u8],
) -> Result<u32, Refusal>
    ensures { TellsWhy file.now (is_given given.entry) (bytes_of given.entry) source k device text.old (number_in result) (value_in result) text.new }
{
    if text.len() < LONGEST {
        return Err(Refusal::WrongArea);
    }
    let mut page = Page { area: text, at: 0 };
    put_why(file, given, source, k, device, &mut page);
    Ok(page.at as u32)
}

// The text, put on a page that has room for the longest.
fn put_why(file: &[u8], given: Option<&[u8]>, source: u32, k: u32, device: u32, page: &mut Page)
    requires { page.old.at + longest ≤ length page.old.area.now }
    ensures { WritesSome (Prints file.now (is_given given.entry) (bytes_of given.entry) source k device) page.old page.new }
{
    let plan = match planfile::read(file) {
        Ok(plan) => plan,
        Err(fault) => return page.bad(u32::from(fault.refusal), fault.block),
    };
    if let Err(refusal) = answer::put_answer(
        &plan,
        given,
        source as usize,
        k,
        device as usize,
        page,
    ) {
        page.headed(b"r", u32::from(refusal));
    }
}
