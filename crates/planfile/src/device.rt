// The block of a device: the refusal that it gets by itself, and how it is written.
ghost use Rattle.std.specs.Prelude.{◌≡◌, cond, ◌+◌, ◌*◌, ◌/◌, ◌%◌, ◌<◌, eqb};
ghost use Rattle.answers.specs.Refusals.{number_in};
ghost use Rattle.lists.specs.Table.{every, joined};
ghost use Rattle.plan.specs.Block.{rest_zero};
ghost use Rattle.plan.specs.Fields.{device_fields, role_in, ports_in, bar_in, unconnected as fields_unconnected, connected as fields_connected, entry, entry_fits, bar_fits, device_fits};
ghost use Rattle.plan.specs.Refusals.{first, device_tests};
ghost use Rattle.plan.specs.Inner.File.{filled, block_of, own_holdings, entry_holdings, bar_holdings, device_holdings};
ghost use Rattle.plan.specs.Inner.Memory.{at, peer_at};
ghost use Rattle.planfile.specs.Parts.{device_put};

use crate::block;
use crate::block::Block;
use answers::Refusal;
use plan::{Core, DeviceNo};

// Where its own fields stand, where the entries of its ports begin, and the masks of what these bar, and
// where those end.
const NUMBER: usize = 1;

pub(crate) const ROLE: usize = 2;

pub(crate) const PORTS: usize = 3;

pub(crate) const SOURCE: usize = 4;

pub(crate) const HANDLER: usize = 8;

pub(crate) const ENTRIES: usize = 12;

pub(crate) const BARS: usize = 44;

const END: usize = 108;

// Where the fields of an entry stand in it; the last one has to be zero.
pub(crate) const PEER_DEVICE: usize = 0;

pub(crate) const PEER_PORT: usize = 1;

const PERMISSIONS: usize = 2;

const SPARE: usize = 3;

// The permissions of port p. Here and below a port is the number of one in a block: the definitions take the
// block and p, so that an entry of four bytes would have to be proved to be that of p in each contract.
pub(crate) fn permissions(block: &Block, p: usize) -> u8
    requires { p < 8 }
    ensures { result ≡ entry block.now p 2 }
{
    block[ENTRIES + 4 * p + PERMISSIONS]
}

// ---- what it may hold

#[tactic(auto, unfolding(plan::specs::Fields::unconnected))]
fn unconnected(block: &Block, p: usize) -> bool
    requires { p < 8 }
    ensures { result ≡ fields_unconnected block.now p }
{
    let at = ENTRIES + 4 * p;
    block[at + PEER_DEVICE] == 255
        && block[at + PEER_PORT] == 255
        && block[at + PERMISSIONS] == 0
        && block[at + SPARE] == 0
}

#[tactic(auto, unfolding(plan::specs::Fields::connected))]
fn connected(n: usize, block: &Block, p: usize) -> bool
    requires { p < 8 }
    ensures { result ≡ fields_connected n block.now p }
{
    let at = ENTRIES + 4 * p;
    usize::from(block[at + PEER_DEVICE]) < n
        && block[at + PEER_PORT] < 8
        && block[at + PERMISSIONS] <= 15
        && block[at + SPARE] == 0
}

#[tactic(auto, unfolding(plan::specs::Fields::entry_fits))]
fn entry_fits(n: usize, block: &Block, p: usize) -> bool
    requires { p < 8 }
    ensures { result ≡ entry_fits n block.now p }
{
    if usize::from(block[PORTS]) <= p {
        return unconnected(block, p);
    }
    connected(n, block, p) || unconnected(block, p)
}

fn entries_fit(n: usize, block: &Block) -> bool
    ensures { result ≡ every 8 (entry_fits n block.now) }
{
    (0..8).all(|p| entry_fits(n, block, p))
}

// Do only ports that may bar anything? Their masks stand in front; behind them all is 0, which is asked of
// bytes: a mask is 0 where its bytes are.
fn bars_fit(block: &Block) -> bool
    ensures { let s = block.now in result ≡ every 16 (λ j. bar_fits (role_in s) (ports_in s) j (bar_in s j)) }
{
    let free = plan::free_masks(block[ROLE], block[PORTS]);
    block::zeros(BARS + 4 * free, END, block)
}

// The fields of device d, one of n.
#[tactic(auto, unfolding(plan::specs::Fields::device_fits))]
fn fields_fit(n: usize, master: u8, d: usize, block: &Block) -> bool
    ensures { result ≡ device_fits n master d block.now }
{
    plan::ports_fit(block[ROLE], block[PORTS])
        && plan::masks_fit(
            block[ROLE],
            block::four(block, SOURCE),
            block::four(block, HANDLER),
        )
        && plan::master_is_node(master, d, block[ROLE])
        && entries_fit(n, block)
        && bars_fit(block)
}

// Are all bytes zero that lie in no field?
fn rest_zero(block: &Block) -> bool
    ensures { result ≡ rest_zero device_fields block.now }
{
    block::zeros(END, block::CHECK, block)
}

// The refusal that the block of device d, of n, gets by itself.
#[tactic(auto, unfolding(plan::specs::Refusals::first, plan::specs::Refusals::device_tests))]
pub(crate) fn refusal(n: usize, master: u8, d: usize, block: &Block) -> Result<(), Refusal>
    ensures { number_in result ≡ (first (device_tests n master d block.now)).number }
{
    if !block::checked(block) {
        return Err(Refusal::WrongCheck);
    }
    if block[block::KIND] != 2 {
        return Err(Refusal::WrongKind);
    }
    if usize::from(block[NUMBER]) != d {
        return Err(Refusal::WrongKind);
    }
    if !fields_fit(n, master, d, block) {
        return Err(Refusal::WrongField);
    }
    if !rest_zero(block) {
        return Err(Refusal::NotZero);
    }
    Ok(())
}

// ---- how it is written

// Puts the device's own numbers.
fn put_own(core: &Core, device: DeviceNo, block: &mut Block)
    ensures { let c = core.now in block.new ≡ filled block.old (own_holdings device (at c.role device) (at c.ports device) (at c.source device) (at c.handler device)) }
{
    let d = device.index();
    block::put(block, block::KIND, 1, 2);
    block::put(block, NUMBER, 1, d as u32);
    block::put(block, ROLE, 1, u32::from(core.role[d]));
    block::put(block, PORTS, 1, u32::from(core.ports[d]));
    block::put(block, SOURCE, 4, core.source[d]);
    block::put(block, HANDLER, 4, core.handler[d]);
}

// The device and the port of a peer, as an entry has them. One function of both would answer a pair that is
// taken apart at once.
fn peer_device(peer: u16) -> u32
    ensures { result ≡ cond (eqb peer 256) 255 (peer / 8) }
{
    if peer == plan::NOBODY {
        return 255;
    }
    u32::from(peer / 8)
}

fn peer_port(peer: u16) -> u32
    ensures { result ≡ cond (eqb peer 256) 255 (peer % 8) }
{
    if peer == plan::NOBODY {
        return 255;
    }
    u32::from(peer % 8)
}

// Puts the entry of port p.
fn put_entry(p: usize, peer: u16, permissions: u8, block: &mut Block)
    requires { p < 8 }
    ensures { block.new ≡ filled block.old (entry_holdings p peer permissions) }
{
    let at = ENTRIES + 4 * p;
    block::put(block, at + PEER_DEVICE, 1, peer_device(peer));
    block::put(block, at + PEER_PORT, 1, peer_port(peer));
    block::put(block, at + PERMISSIONS, 1, u32::from(permissions));
    block::put(block, at + SPARE, 1, 0);
}

// Puts the entries of the ports of device d. The parts of a plan come apart here and below, as a rescue has
// them, which makes no plan; and a port is counted, since its number is its place in each of them.
fn put_entries(device: DeviceNo, permissions: &[u8; 256], peers: &[[u16; 8]; 32], block: &mut Block)
    ensures { block.new ≡ filled block.old (joined 8 (λ p. entry_holdings p (peer_at peers.now device p) (at permissions.now (8 * device + p)))) }
{
    let d = device.index();
    for p in 0..8 {
        put_entry(p, peers[d][p], permissions[8 * d + p], block);
    }
}

// Puts what the ports of device d bar.
fn put_bars(device: DeviceNo, barred: &[u32; 512], block: &mut Block)
    ensures { block.new ≡ filled block.old (joined 16 (λ j. bar_holdings j (at barred.now (16 * device + j)))) }
{
    let d = device.index();
    for j in 0..16 {
        block::put(block, BARS + 4 * j, 4, barred[16 * d + j]);
    }
}

// The block of device d.
pub(crate) fn made(
    core: &Core,
    peers: &[[u16; 8]; 32],
    barred: &[u32; 512],
    device: DeviceNo,
) -> Block
    ensures { result ≡ block_of (device_holdings core.now peers.now barred.now device) }
{
    let mut block = [0; block::BLOCK];
    put_own(core, device, &mut block);
    put_entries(device, &core.permissions, peers, &mut block);
    put_bars(device, barred, &mut block);
    block::seal(&mut block);
    block
}

// The same put into any area, and of any device: where it is not one block, or there is no such device,
// the area stays as it was.
#[tactic(auto, unfolding(crate::specs::Parts::device_put))]
pub fn put_device(
    core: &Core,
    peers: &[[u16; 8]; 32],
    barred: &[u32; 512],
    d: usize,
    area: &mut [u8],
)
    ensures { area.new ≡ device_put core.now peers.now barred.now d area.old }
{
    let Some(device) = DeviceNo::new(d) else {
        return;
    };
    if area.len() != block::BLOCK {
        return;
    }
    area.copy_from_slice(&made(core, peers, barred, device));
}
