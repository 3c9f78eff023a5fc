// Damaged blocks rebuilt: each device as a router, by who claims its ports.
ghost use Rattle.std.specs.Prelude.{◌≡◌, ◌+◌, ◌-◌, ◌*◌, ◌/◌, ◌%◌, ◌≤◌, ◌<◌, length, replicate};
ghost use Rattle.lists.specs.Table.{table};
ghost use Rattle.plan.specs.Header.{core_with, no_header};
ghost use Rattle.mend.specs.Inner.Steps.{peer_in, peers_in, ports_in, row_in, router_of, routers_over};

use crate::claims::Claimants;
use crate::scan::Marks;
use plan::{Core, DeviceNo, Header};

// The peer that a claim makes.
fn peer(claimant: Option<u8>) -> u16
    ensures { result ≡ peer_in claimant }
{
    claimant.map_or(plan::NOBODY, u16::from)
}

// How many ports device d has: up to the highest that is claimed, and at least one. It goes up and keeps the
// last, as `ports_in` of the rules does.
fn ports_of(claimants: &Claimants, device: DeviceNo) -> u8
    ensures { result ≡ ports_in (peers_in claimants.now) device }
{
    let d = device.index();
    let mut port = 0;
    for p in 0..8 {
        if peer(claimants[8 * d + p]) != plan::NOBODY {
            port = p;
        }
    }
    (1 + port) as u8
}

// The same of every device.
fn ports(claimants: &Claimants) -> [u8; 32]
    ensures { result ≡ table 32 (ports_in (peers_in claimants.now)) }
{
    std::array::from_fn(
        |d|
            requires { d < 32 }
        { ports_of(claimants, DeviceNo::new(d).unwrap()) },
    )
}

// The peers of device d: its ports lead back to those that claim them.
fn row(claimants: &Claimants, device: DeviceNo) -> [u16; 8]
    ensures { result ≡ row_in (peers_in claimants.now) device }
{
    let d = device.index();
    std::array::from_fn(|p| peer(claimants[8 * d + p]))
}

fn peers(claimants: &Claimants) -> [[u16; 8]; 32]
    ensures { result ≡ table 32 (row_in (peers_in claimants.now)) }
{
    std::array::from_fn(
        |d|
            requires { d < 32 }
            ensures { result ≡ row_in (peers_in claimants.entry.now) d }
        { row(claimants, DeviceNo::new(d).unwrap()) },
    )
}

// Every device as a router without masks and permissions.
fn core(claimants: &Claimants) -> Core
    ensures { result ≡ core_with no_header (replicate 32 1) (table 32 (ports_in (peers_in claimants.now))) (replicate 32 0) (replicate 32 0) (replicate 256 0) }
{
    let header = Header {
        devices: 0,
        master: 0,
        events: 0,
        loads: [0; 66],
    };
    plan::core_with(
        header,
        [1; 32],
        ports(claimants),
        [0; 32],
        [0; 32],
        [0; 256],
    )
}

// Puts the block of device d, if it is marked. Core and peers come apart, as `put_device` takes them: no
// whole plan is made of claims.
fn put_block(mark: bool, core: &Core, peers: &[[u16; 8]; 32], device: DeviceNo, area: &mut [u8])
    requires { 512 * (2 + device) ≤ length area.old }
    ensures { area.new ≡ router_of mark core.now peers.now device area.old }
{
    if !mark {
        return;
    }
    let d = device.index();
    let start = planfile::BLOCK * (1 + d);
    let block = &mut area[start..start + planfile::BLOCK];
    planfile::put_device(core, peers, &[0; 512], d, block);
}

// Puts the blocks of all devices that are marked, over those of a file of up to 32 devices.
pub(crate) fn put_blocks(claimants: &Claimants, damaged: &Marks, area: &mut [u8])
    requires { (512 ≤ length area.old) × (length area.old ≤ 16896) × (length area.old % 512 ≡ 0) }
    ensures { area.new ≡ routers_over (peers_in claimants.now) damaged.now (length area.old / 512 - 1) area.old }
{
    let core = core(claimants);
    let peers = peers(claimants);
    let n = area.len() / planfile::BLOCK - 1;
    for d in 0..n {
        put_block(damaged[d], &core, &peers, DeviceNo::new(d).unwrap(), area);
    }
}
