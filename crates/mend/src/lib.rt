// Rescues a plan file in which device blocks are damaged: what good blocks tell of them is enough to
// rebuild them as silent routers.
#![tactic(auto)]

ghost use Rattle.answers.specs.Refusals.{number_in};
ghost use Rattle.std.specs.Prelude.{◌≡◌, length, ◌≤◌};
ghost use Rattle.mend.specs.Rescue.{Rescues, lent, longest, used_in};
ghost use Rattle.mend.specs.Told.{Prints};
ghost use Rattle.mend.specs.Inner.Steps.{Ready, peers_in, routers_over, Finishes, Mends};
ghost use Rattle.plan.specs.Refusals.{count_in, verdict_in};

use answers::Refusal;
use claims::Claimants;
use plan::Fault;
use scan::{Blocks, Marks};
use text::Page;

mod claims;
mod lines;
mod routers;
mod scan;

// No text is longer: 32 lines like `block 32`, and 256 like `31 7 31 7`.
pub const LONGEST: usize = 2848;

// The length of the longest file.
const MOST: usize = 16896;

// What was printed: the outcome, and the length of the text.
#[derive(Clone, Copy, Debug, PartialEq, Eq)]
pub struct Printed {
    pub outcome: Result<(), Refusal>,
    pub used: u32,
}

// Makes the mended file over the whole area, and in front of the other area the text that says what was
// mended, of which the length is the answer. A refusal leaves both as they were.
pub fn rescue(file: &[u8], area: &mut [u8], text: &mut [u8]) -> Result<u32, Fault>
    ensures { Rescues file.now (lent area.old text.old) (verdict_in result).number (verdict_in result).at (used_in result) (lent area.new text.new) }
{
    if area.len() != file.len() || text.len() < LONGEST {
        return Err(Fault {
            refusal: Refusal::WrongArea,
            block: 0,
        });
    }
    planfile::front(file)?;
    let blocks = Blocks { file };
    let damaged = scan::scan(&blocks)?;
    let mut made = [0u8; MOST];
    mend(&blocks, &damaged, &mut made, area, text)
}

// The rest of it, where nothing is wrong with block 0 and the good blocks. The mended file is made in an
// area of its own, since the one that is lent stays as it was if the result is refused.
fn mend(
    blocks: &Blocks<'_>,
    damaged: &Marks,
    made: &mut [u8; MOST],
    area: &mut [u8],
    text: &mut [u8],
) -> Result<u32, Fault>
    requires ready { Ready blocks.now.file.now damaged.now }
    requires area_len { (length area.old ≡ length blocks.now.file.now) × (longest ≤ length text.old) }
    ensures { Mends blocks.now.file.now (lent area.old text.old) (verdict_in result).number (verdict_in result).at (used_in result) (lent area.new text.new) }
{
    let pointed = claims::pointed(blocks, damaged);
    let claimants = claims::claimants(&pointed);
    if let Some(block) = claims::contested(&pointed, &claimants, damaged) {
        return Err(Fault {
            refusal: Refusal::TwoClaims,
            block,
        });
    }
    let made = &mut made[..blocks.file.len()];
    build(blocks, &claimants, damaged, made);
    finish(made, &claimants, damaged, area, text)
}

// Makes the mended file in an area that is as long as the file.
fn build(blocks: &Blocks<'_>, claimants: &Claimants, damaged: &Marks, made: &mut [u8])
    requires { length made.old ≡ length blocks.now.file.now }
    ensures { made.new ≡ routers_over (peers_in claimants.now) damaged.now (count_in blocks.now.file.now) blocks.now.file.now }
{
    made.copy_from_slice(blocks.file);
    routers::put_blocks(claimants, damaged, made);
}

// What the reader refuses is no result; all else is put into the areas, as it is done.
fn finish(
    made: &[u8],
    claimants: &Claimants,
    damaged: &Marks,
    area: &mut [u8],
    text: &mut [u8],
) -> Result<u32, Fault>
    requires { (length area.old ≡ length made.now) × (longest ≤ length text.old) }
    ensures { Finishes made.now (peers_in claimants.now) damaged.now (lent area.old text.old) (verdict_in result).number (verdict_in result).at (used_in result) (lent area.new text.new) }
{
    planfile::read(made)?;
    area.copy_from_slice(made);
    let mut page = Page { area: text, at: 0 };
    lines::put_lines(claimants, damaged, &mut page);
    Ok(page.at as u32)
}

// The same for whoever prints it: a refusal is a text too.
pub fn print(file: &[u8], area: &mut [u8], text: &mut [u8]) -> Printed
    ensures { Prints file.now (lent area.old text.old) (number_in result.outcome) result.used (lent area.new text.new) }
{
    match rescue(file, area, text) {
        Ok(used) => Printed {
            outcome: Ok(()),
            used,
        },
        Err(fault) if text.len() < LONGEST => Printed {
            outcome: Err(fault.refusal),
            used: 0,
        },
        Err(fault) => Printed {
            outcome: Err(fault.refusal),
            used: text::put_bad(text, 0, u32::from(fault.refusal), fault.block) as u32,
        },
    }
}
