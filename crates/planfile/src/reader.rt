// The reader: the refusals in their order, the first found wins; then the plan.
ghost use Rattle.std.specs.Prelude.{◌≡◌, ◌≤◌, Ok, Err, IfOk, MatchResult};
ghost use Rattle.answers.specs.Refusals.{number_in};
ghost use Rattle.plan.specs.Refusals.{first, length_fits, verdict_in};
ghost use Rattle.plan.specs.Reading.{reads, read_in};
ghost use Rattle.planfile.specs.Parts.{front_tests, refusal_in};
ghost use Rattle.planfile.specs.Inner.Scan.{scanned, device_scan, at_block};

use crate::build::Blocks;
use crate::{block, device, header};
use answers::Refusal;
use plan::{Fault, Plan};

// The length of the longest file: block 0, and 32 devices.
const MOST: usize = 16896;

// The reader knows the file and the block that it has come to: a form that the project asks for
// (DECISIONS 136). Nobody compares or prints one.
#[derive(Clone, Copy)]
pub struct Reader<'a> {
    pub file: &'a [u8],
    pub block: usize,
}

// The refusal that a block of a file gets by itself; a block that the file does not have in full is a
// fault of its length.
fn refusal_in(file: &[u8], b: usize) -> Result<(), Refusal>
    ensures { number_in result ≡ refusal_in file.now b }
{
    if file.len() / block::BLOCK <= b {
        return Err(Refusal::WrongLength);
    }
    if b == 0 {
        return header::refusal(block::of(file, 0));
    }
    let front = block::of(file, 0);
    let n = usize::from(front[header::DEVICES]);
    device::refusal(n, front[header::MASTER], b - 1, block::of(file, b))
}

impl Reader<'_> {
    // The refusal of the block that it has come to.
    fn refusal(self) -> Result<(), Refusal>
        ensures { number_in result ≡ refusal_in self.entry.file.now self.entry.block }
    {
        refusal_in(self.file, self.block)
    }
}

// The refusal of a block, for whoever has a file and a number.
pub fn refusal_at(file: &[u8], b: usize) -> Result<(), Refusal>
    ensures { number_in result ≡ refusal_in file.now b }
{
    Reader { file, block: b }.refusal()
}

#[tactic(auto, unfolding(plan::specs::Refusals::length_fits))]
fn length_fits(file: &[u8]) -> bool
    ensures { result ≡ length_fits file.now }
{
    let n = file.len();
    block::BLOCK <= n && n <= MOST && n % block::BLOCK == 0
}

// The same, with the block that it is at.
fn fault_at(file: &[u8], b: usize) -> Result<(), Fault>
    requires { b ≤ 32 }
    ensures { verdict_in result ≡ at_block b (refusal_in file.now b) }
{
    refusal_at(file, b).map_err(|refusal| Fault {
        refusal,
        block: b as u32,
    })
}

// The first refusal among the blocks of the devices.
fn scan_devices(blocks: &Blocks<'_>) -> Result<(), Fault>
    ensures { verdict_in result ≡ device_scan blocks.now.file.now }
{
    let file = blocks.file;
    let n = usize::from(file[header::DEVICES]);
    for d in 0..n {
        fault_at(file, d + 1)?;
    }
    Ok(())
}

// The first refusal of what stands in front of the devices' blocks: the length, block 0, and the number
// of blocks.
pub fn front(file: &[u8]) -> Result<(), Fault>
    ensures { verdict_in result ≡ first (front_tests file.now) }
{
    if !length_fits(file) {
        return Err(Fault {
            refusal: Refusal::WrongLength,
            block: 0,
        });
    }
    fault_at(file, 0)?;
    let n = usize::from(file[header::DEVICES]);
    if file.len() != block::BLOCK * (1 + n) {
        return Err(Fault {
            refusal: Refusal::WrongCount,
            block: 0,
        });
    }
    Ok(())
}

// The first refusal of all but the connections and the sources, which are searched in the plan; or, if
// there is none, the blocks.
fn scan<'a>(file: &'a [u8]) -> Result<Blocks<'a>, Fault>
    ensures refusal { verdict_in result ≡ scanned file.entry.now }
    ensures same { IfOk result (λ blocks. blocks.file ≡ file.entry) }
{
    front(file)?;
    let blocks = Blocks { file };
    scan_devices(&blocks)?;
    Ok(blocks)
}

// Reads a plan file, of any length and any bytes, into a plan that is lent; a refusal leaves that as it was.
// What ports bar is read last, since no refusal that is left needs it. Who reads for one call lends the plan,
// so that it stands on the stack once.
pub fn load(file: &[u8], plan: &mut Plan) -> Result<(), Fault>
    ensures { MatchResult result (λ _. read_in (Ok plan.new) ≡ reads file.now) (λ fault. (read_in (Err fault) ≡ reads file.now) × (plan.new ≡ plan.old)) }
{
    let blocks = scan(file)?;
    let core = blocks.core();
    let peers = blocks.peers();
    let bad = plan::bad_block(core.devices, core.ports, &peers);
    if bad != 0 {
        return Err(Fault {
            refusal: Refusal::WrongConnection,
            block: bad,
        });
    }
    if !plan::sources_fit(core.events, core.source, core.devices) {
        return Err(Fault {
            refusal: Refusal::TwoSources,
            block: 0,
        });
    }
    plan.core = core;
    plan.peers = peers;
    plan.barred = blocks.barred();
    Ok(())
}

// The plan of a plan file.
pub fn read(file: &[u8]) -> Result<Plan, Fault>
    ensures { read_in result ≡ reads file.now }
{
    let mut plan = plan::blank();
    load(file, &mut plan)?;
    Ok(plan)
}
