// The state of a network: where its words stand, whether it is sound, the one that every run starts
// from, and how a code is queued at a port.
#![tactic(auto)]

ghost use Rattle.std.specs.Prelude.{◌≡◌, get_or};
ghost use Rattle.answers.specs.Decides.{Decides};
ghost use Rattle.state.specs.Network.{load_for};
ghost use Rattle.state.specs.State.{BothFit};

use plan::Loads;

mod first;
mod port;
mod sound;

pub use first::{begin, start};
pub use port::{queue, queue_all, queue_time};
pub use sound::{is_sound, refusal, word};

pub const WORDS: usize = 2880;

// A state. The public functions that take an area of any length look once whether it is one.
pub type Words = [u32; WORDS];

// A device has its register and its 32 timers, from 33 x d on.
pub const DEVICE: usize = 33;

// Behind all devices are the ports, with four words each: the waiting interrupts, the waiting
// acknowledges, where the search for the next one starts, and whether it runs.
pub const PORTS: usize = 1056;

pub const PORT: usize = 4;

pub const INTERRUPTS: usize = 0;

pub const ACKNOWLEDGES: usize = 1;

pub const NEXT: usize = 2;

pub const RUNNING: usize = 3;

// Behind the ports are the Time-Codes: a counter for each device, and a word for each port, which has
// the waiting value plus 1, or 0, and LATELY more where the last code sent was a Time-Code.
pub const COUNTERS: usize = 2080;

pub const TIMES: usize = 2112;

pub const LATELY: u32 = 128;

// Behind the Time-Codes are two words for each port: how many interrupts it dropped, and how many
// acknowledges, up to MOST_DROPS.
pub const DROPS: usize = 2368;

pub const MOST_DROPS: u32 = 65535;

// Is each of two areas, of which the lengths are given, as long as a state?
pub fn both_fit(state: usize, second: usize) -> bool
    ensures { Decides (BothFit state second) result }
{
    if state != WORDS {
        return false;
    }
    second == WORDS
}

// What the timer of identifier k is loaded with at a device of the role, 0 or 1: the load of its own
// pair, or the common one where that is 0.
#[tactic(auto, unfolding(crate::specs::Network::load_for))]
pub fn load_for(loads: &Loads, role: u8, k: u32) -> u32
    ensures { result ≡ load_for loads.now role k }
{
    let role = usize::from(role);
    let own = load_at(loads, 2 + (2 * k as usize + role));
    let common = load_at(loads, role);
    if own != 0 {
        return own;
    }
    common
}

// Load i of a plan; past the end it is 0.
fn load_at(loads: &Loads, i: usize) -> u32
    ensures { result ≡ get_or loads.now i 0 }
{
    loads.get(i).map_or(0, |load| u32::from(*load))
}
