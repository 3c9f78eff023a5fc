// The plan of a network in memory: its parts, what its fields may hold, and whether a file holds it.
#![tactic(auto)]

ghost use Rattle.std.specs.Prelude.{◌≡◌};
ghost use Rattle.plan.specs.Header.{header_of, header_fits, core_with};
ghost use Rattle.plan.specs.Reading.{zeros};

use answers::Refusal;

mod fields;
mod held;
mod joins;
mod numbers;
mod sources;

pub use fields::{devices_fit, free_masks, loads_fit, masks_fit, master_is_node, ports_fit};
pub use held::is_held;
pub use joins::bad_block;
pub use numbers::{DeviceNo, PortNo};
pub use sources::sources_fit;

// The loads of timers, in pairs, the node's and then the router's: first the pair that is common to all
// identifiers, then one for each identifier, of which 0 and 0 say that it takes the common one. They are
// one list, since `load_for` of the rules, and `pair_at`, have them by their places in it.
pub type Loads = [u16; 66];

// The numbers and flat arrays of a plan. The master is a node's number plus 1, or 0 for none. Events
// are the identifiers that nobody acknowledges. Permissions stand by port, 8 x device + port. Absent
// devices and ports have 0 everywhere. Each part is a list by device or port, as `core_with` and the
// definitions of `Network` in `state` have it. Roles, the master and peers are numbers, since `Held` and
// `header_fits` speak of any number there: refusal 1 is for a plan that holds another one.
#[derive(Clone, Copy, Debug, PartialEq, Eq)]
pub struct Core {
    pub devices: usize,
    pub master: u8,
    pub events: u32,
    pub loads: Loads,
    pub role: [u8; 32],
    pub ports: [u8; 32],
    pub source: [u32; 32],
    pub handler: [u32; 32],
    pub permissions: [u8; 256],
}

// The numbers of a plan that block 0 of its file holds, as they stand in Core.
#[derive(Clone, Copy, Debug, PartialEq, Eq)]
pub struct Header {
    pub devices: usize,
    pub master: u8,
    pub events: u32,
    pub loads: Loads,
}

// The number for no peer.
pub const NOBODY: u16 = 256;

// The whole plan. A peer is 8 x its device + its port, or nobody. What port q bars of codes of a kind is
// a set, at 2 x q + kind; it is no part of the core, so that who copies that does not copy this too.
#[derive(Clone, Copy, Debug, PartialEq, Eq)]
pub struct Plan {
    pub core: Core,
    pub peers: [[u16; 8]; 32],
    pub barred: [u32; 512],
}

// Why a file is no plan file, and the block that it is at.
#[derive(Clone, Copy, Debug, PartialEq, Eq)]
pub struct Fault {
    pub refusal: Refusal,
    pub block: u32,
}

// ---- the numbers that block 0 holds: a number more is a line in each of these. The loads go through a
// variable, since the check does not cover an array that is copied from field to field. A core comes by value
// and its parts apart, as the definitions `header_of` and `core_with` have them.

pub fn header_of(core: Core) -> Header
    ensures { result ≡ header_of core }
{
    let loads = core.loads;
    Header {
        devices: core.devices,
        master: core.master,
        events: core.events,
        loads,
    }
}

// Of parts that a reader takes from its file one by one.
pub fn core_with(
    header: Header,
    role: [u8; 32],
    ports: [u8; 32],
    source: [u32; 32],
    handler: [u32; 32],
    permissions: [u8; 256],
) -> Core
    ensures { result ≡ core_with header role ports source handler permissions }
{
    let loads = header.loads;
    Core {
        devices: header.devices,
        master: header.master,
        events: header.events,
        loads,
        role,
        ports,
        source,
        handler,
        permissions,
    }
}

// The plan of all zeros, which `reads` of the rules has beside a refusal.
#[tactic(auto, unfolding(crate::specs::Reading::zeros))]
pub fn blank() -> Plan
    ensures { result ≡ zeros }
{
    let header = Header {
        devices: 0,
        master: 0,
        events: 0,
        loads: [0; 66],
    };
    Plan {
        core: core_with(header, [0; 32], [0; 32], [0; 32], [0; 32], [0; 256]),
        peers: [[0; 8]; 32],
        barred: [0; 512],
    }
}

// May block 0 hold these?
#[tactic(auto, using(std::proofs::lemmas::Bool::Decides::nat_tests), unfolding(crate::specs::Fields::master_fits))]
pub fn header_fits(header: Header) -> bool
    ensures { result ≡ header_fits header }
{
    fields::devices_fit(header.devices)
        && fields::loads_fit(usize::from(header.loads[1]), usize::from(header.loads[0]))
        && usize::from(header.master) <= header.devices
        && fields::pairs_fit(&header.loads)
}
