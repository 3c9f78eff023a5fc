// Block 0: what it holds, the refusal that it gets by itself, and how it is written.
ghost use Rattle.std.specs.Prelude.{◌≡◌, ◌<◌, ◌≤◌};
ghost use Rattle.answers.specs.Refusals.{number_in};
ghost use Rattle.lists.specs.Table.{joined};
ghost use Rattle.plan.specs.Block.{rest_zero};
ghost use Rattle.plan.specs.Header.{header_fields, header_in, SameHeader, header_fits};
ghost use Rattle.plan.specs.Refusals.{first, header_tests};
ghost use Rattle.plan.specs.Inner.File.{filled, block_of, common_holdings, pair_holdings, header_holdings};

use crate::block;
use crate::block::Block;
use answers::Refusal;
use plan::{Header, Loads};

// Where its fields stand, those in front first, and then the pairs of the identifiers, of which the
// routers' loads stand in front of the nodes'; and where each of these two parts ends.
pub(crate) const DEVICES: usize = 1;

const ROUTER_LOAD: usize = 2;

const NODE_LOAD: usize = 4;

const EVENTS: usize = 6;

pub(crate) const MASTER: usize = 10;

const FRONT_END: usize = 11;

const ROUTER_PAIRS: usize = 16;

const NODE_PAIRS: usize = 18;

const END: usize = 144;

// All loads. A plan has the node's first, where the file has the router's. They are put by pairs, which an
// array made place by place would take apart.
fn loads(block: &Block) -> Loads
    ensures { result ≡ (header_in block.now).loads }
{
    let mut out = [0u16; 66];
    out[0] = block::two(block, NODE_LOAD);
    out[1] = block::two(block, ROUTER_LOAD);
    for k in 0..32 {
        let at = 2 + 2 * k;
        out[at] = block::two(block, NODE_PAIRS + 4 * k);
        out[at + 1] = block::two(block, ROUTER_PAIRS + 4 * k);
    }
    out
}

pub(crate) fn read(block: &Block) -> Header
    ensures { SameHeader result (header_in block.now) }
{
    Header {
        devices: usize::from(block[DEVICES]),
        master: block[MASTER],
        events: block::four(block, EVENTS),
        loads: loads(block),
    }
}

fn fields_fit(block: &Block) -> bool
    ensures { result ≡ header_fits (header_in block.now) }
{
    plan::header_fits(read(block))
}

// Are all bytes zero that lie in no field?
fn rest_zero(block: &Block) -> bool
    ensures { result ≡ rest_zero header_fields block.now }
{
    block::zeros(FRONT_END, ROUTER_PAIRS, block) && block::zeros(END, block::CHECK, block)
}

// The refusal that block 0 gets by itself.
#[tactic(auto, unfolding(plan::specs::Refusals::first, plan::specs::Refusals::header_tests))]
pub(crate) fn refusal(block: &Block) -> Result<(), Refusal>
    ensures { number_in result ≡ (first (header_tests block.now)).number }
{
    if !block::checked(block) {
        return Err(Refusal::WrongCheck);
    }
    if block[block::KIND] != 1 {
        return Err(Refusal::WrongKind);
    }
    if !fields_fit(block) {
        return Err(Refusal::WrongField);
    }
    if !rest_zero(block) {
        return Err(Refusal::NotZero);
    }
    Ok(())
}

// Puts the numbers that it holds but for the pairs. That there are 32 devices at most is known of a held plan,
// and asked of three functions alone.
fn put_common(header: &Header, block: &mut Block)
    requires { header.now.devices ≤ 32 }
    ensures { block.new ≡ filled block.old (common_holdings header.now) }
{
    block::put(block, block::KIND, 1, 1);
    block::put(block, DEVICES, 1, header.devices as u32);
    block::put(block, ROUTER_LOAD, 2, u32::from(header.loads[1]));
    block::put(block, NODE_LOAD, 2, u32::from(header.loads[0]));
    block::put(block, EVENTS, 4, header.events);
    block::put(block, MASTER, 1, u32::from(header.master));
}

// Puts the pair of identifier k, of which the loop below has 32.
fn put_pair(k: usize, loads: &Loads, block: &mut Block)
    requires { k < 32 }
    ensures { block.new ≡ filled block.old (pair_holdings loads.now k) }
{
    let at = 2 + 2 * k;
    block::put(block, ROUTER_PAIRS + 4 * k, 2, u32::from(loads[at + 1]));
    block::put(block, NODE_PAIRS + 4 * k, 2, u32::from(loads[at]));
}

// The pairs of all identifiers, each at its own place of both.
fn put_pairs(loads: &Loads, block: &mut Block)
    ensures { block.new ≡ filled block.old (joined 32 (pair_holdings loads.now)) }
{
    for k in 0..32 {
        put_pair(k, loads, block);
    }
}

// Block 0 with all of them.
pub(crate) fn made(header: &Header) -> Block
    requires { header.now.devices ≤ 32 }
    ensures { result ≡ block_of (header_holdings header.now) }
{
    let mut block = [0; block::BLOCK];
    put_common(header, &mut block);
    put_pairs(&header.loads, &mut block);
    block::seal(&mut block);
    block
}
