// The blocks of the devices: which are damaged, and what is wrong with the others.
ghost use Rattle.std.specs.Prelude.{◌+◌};
ghost use Rattle.planfile.specs.Parts.{refusal_in};
ghost use Rattle.mend.specs.Inner.Steps.{Fronted, Scans, by_check};

use answers::Refusal;
use plan::{DeviceNo, Fault};

// A file of which the front passes: it has as many blocks as its header says, of up to 32 devices. Only
// `planfile` sees its own such type, which it makes of a file that it has scanned to the end. Like all structs
// of lent things it derives what copies it alone: a copy of the rest would serve nobody.
#[derive(Clone, Copy)]
pub(crate) struct Blocks<'a> {
    pub file: &'a [u8],
    ghost fronted: { Fronted file.now },
}

// Which devices have a damaged block.
pub(crate) type Marks = [bool; 32];

// Is the block of device d damaged? The check is the first test of a block, so that it alone fails or
// something is wrong with a good block.
fn is_damaged(file: &[u8], device: DeviceNo) -> Result<bool, Fault>
    ensures { by_check device (refusal_in file.now (device + 1)) result }
{
    let d = device.index();
    match planfile::refusal_at(file, d + 1) {
        Ok(()) => Ok(false),
        Err(Refusal::WrongCheck) => Ok(true),
        Err(refusal) => Err(Fault {
            refusal,
            block: (d + 1) as u32,
        }),
    }
}

// A damaged block does not stop the search, and the first refusal of a good one does.
pub(crate) fn scan(blocks: &Blocks<'_>) -> Result<Marks, Fault>
    ensures { Scans blocks.now.file.now result }
{
    let file = blocks.file;
    let mut damaged = [false; 32];
    let n = file.len() / planfile::BLOCK - 1;
    for d in 0..n {
        damaged[d] = is_damaged(file, DeviceNo::new(d).unwrap())?;
    }
    Ok(damaged)
}
