// What the program `settle` prints: the bytes of a plan file go in, the whole text comes out, in a
// lent area.
#![tactic(auto)]

ghost use Rattle.std.specs.Prelude.{◌+◌, ◌≤◌, length};
ghost use Rattle.answers.specs.Decides.{Decides};
ghost use Rattle.answers.specs.Refusals.{number_in, value_in};
ghost use Rattle.report.specs.Report.{Fits, longest, Reports, lent};
ghost use Rattle.report.specs.Inner.Pieces.{PutsText};
ghost use Rattle.state.specs.State.{BothFit};

mod lines;

use answers::Refusal;
use text::Page;

// As long as a text can be: its first line, and 1,024 lines like `31 31 4096 32`.
pub const LONGEST: usize = 14347;

// Makes the text of a plan file in front of its area; the value is its length. The other two areas
// are for the states of the network, and end as zeros.
pub fn report(
    file: &[u8],
    state: &mut [u32],
    second: &mut [u32],
    text: &mut [u8],
) -> Result<u32, Refusal>
    ensures { Reports file.now (lent state.old second.old text.old) (number_in result) (value_in result) (lent state.new second.new text.new) }
{
    if !fits(state.len(), second.len(), text.len()) {
        return Err(Refusal::WrongArea);
    }
    let mut page = Page { area: text, at: 0 };
    put_text(file, state, second, &mut page);
    areas::fill(state, 0);
    areas::fill(second, 0);
    Ok(page.at as u32)
}

// Are the areas as long as they have to be?
fn fits(state: usize, second: usize, text: usize) -> bool
    ensures { Decides (Fits state second text) result }
{
    state::both_fit(state, second) && LONGEST <= text
}

// The text of a file, put on a page that has room for the longest.
fn put_text(file: &[u8], state: &mut [u32], second: &mut [u32], page: &mut Page)
    requires { BothFit (length state.old) (length second.old) × (page.old.at + longest ≤ length page.old.area.now) }
    ensures { PutsText file.now page.old page.new }
{
    let plan = match planfile::read(file) {
        Ok(plan) => plan,
        Err(fault) => return page.bad(u32::from(fault.refusal), fault.block),
    };
    let mut found = [0u32; bench::FOUND];
    // A plan that was read is not refused, nor are areas that fit.
    bench::trials(plan, state, second, &mut found).unwrap();
    page.headed(b"network ", plan.core.devices as u32);
    lines::put_lines(&plan, &found, page);
}
