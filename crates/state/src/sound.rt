// Whether a state is sound for a plan.
ghost use Rattle.std.specs.Prelude.{◌≡◌, ◌/◌, ◌<◌, ◌≤◌};
ghost use Rattle.answers.specs.Decides.{Decides};
ghost use Rattle.answers.specs.Ordered.{Ordered};
ghost use Rattle.answers.specs.Refusals.{number_in};
ghost use Rattle.device.specs.Kinds.{kind_of};
ghost use Rattle.state.specs.Network.{role, ports_of, peer, permissions};
ghost use Rattle.state.specs.Sound.{Sound, state_asks};
ghost use Rattle.state.specs.State.{word as state_word};
ghost use Rattle.state.specs.Inner.Tests.{timer_sound, device_timed, all_timed, rest_zero, flag_sound, may_wait, waiting_sound, port_kept, port_zero, place_sound, device_ports, ports_sound, counter_sound, counters_sound, time_kept, time_sound, times_sound, counts_sound, drops_sound, sounds};

use crate::{
    ACKNOWLEDGES, COUNTERS, DEVICE, DROPS, INTERRUPTS, LATELY, NEXT, PORT, PORTS, RUNNING, TIMES,
    WORDS, Words,
};
use answers::Refusal;
use device::Kind;
use plan::{DeviceNo, Plan, PortNo};

// Is the state, of any length, sound for the plan? The plan comes by value at the door.
pub fn is_sound(plan: Plan, state: &[u32]) -> bool
    ensures { Decides (Sound plan state.now) result }
{
    is_sound_for(&plan, state)
}

// The same of a plan that is lent.
fn is_sound_for(plan: &Plan, state: &[u32]) -> bool
    ensures { Decides (Sound plan.now state.now) result }
{
    let Some(words) = state.as_array::<WORDS>() else {
        return false;
    };
    tests(plan, words)
}

// All that is tested of a state's words.
#[tactic(auto, unfolding(crate::specs::Inner::Tests::sounds))]
fn tests(plan: &Plan, state: &Words) -> bool
    ensures { result ≡ sounds plan.now state.now }
{
    all_timed(plan, state)
        && rest_zero(plan.core.devices, state)
        && ports_sound(plan, state)
        && counters_sound(plan.core.devices, state)
        && times_sound(plan, state)
        && drops_sound(plan, state)
}

// What every call on a state is refused with first: a plan that no file holds, and then a state that
// is not sound.
pub fn refusal(plan: &Plan, state: &[u32]) -> Result<(), Refusal>
    ensures { Ordered (state_asks plan.now state.now) (number_in result) }
{
    if !plan.is_held() {
        return Err(Refusal::NotHeld);
    }
    if !is_sound_for(plan, state) {
        return Err(Refusal::Unsound);
    }
    Ok(())
}

// Word i; past the end it is 0.
#[tactic(auto, unfolding(crate::specs::State::word))]
pub fn word(state: &[u32], i: usize) -> u32
    ensures { result ≡ state_word state.now i }
{
    state.get(i).copied().unwrap_or(0)
}

// Are the timers of all devices sound? A state has room for 32.
#[tactic(auto, unfolding(crate::specs::Inner::Tests::all_timed))]
fn all_timed(plan: &Plan, state: &Words) -> bool
    ensures { result ≡ all_timed plan.now.core.devices plan.now.core.loads plan.now.core.role state.now }
{
    let n = plan.core.devices.min(32);
    (0..n).all(|d| device_timed(plan, state, DeviceNo::new(d).unwrap()))
}

// Are the timers of device d sound? Where it holds nothing all are 0, which is asked of them at once.
#[tactic(auto, unfolding(crate::specs::Inner::Tests::device_timed, crate::specs::State::word))]
fn device_timed(plan: &Plan, state: &Words, device: DeviceNo) -> bool
    ensures { result ≡ device_timed plan.now.core.loads (role plan.now device) state.now device }
{
    let d = device.index();
    let register = state[DEVICE * d];
    if register == 0 {
        let from = DEVICE * d + 1;
        let to = DEVICE * (d + 1);
        return areas::zeros(&state[from..to]);
    }
    let core = &plan.core;
    (0..32).all(|k| {
        let load = crate::load_for(&core.loads, core.role[d], k);
        timer_sound(
            bits::get(register, k),
            state[DEVICE * d + 1 + k as usize],
            load,
        )
    })
}

// Does the timer run, within its load, where the bit is 1, and is it 0 where the bit is 0?
#[tactic(auto, unfolding(crate::specs::Inner::Tests::timer_sound))]
fn timer_sound(on: u32, timer: u32, load: u32) -> bool
    ensures { result ≡ timer_sound on timer load }
{
    if on == 1 {
        return 1 <= timer && timer <= load;
    }
    timer == 0
}

// Are the words behind those of n devices 0, up to the ports? A state has room for 32.
fn rest_zero(n: usize, state: &Words) -> bool
    ensures { result ≡ rest_zero n state.now }
{
    let from = DEVICE * n.min(32);
    areas::zeros(&state[from..PORTS])
}

// Are the words of every port sound, and 0 where there is none?
#[tactic(auto, unfolding(crate::specs::Inner::Tests::ports_sound))]
fn ports_sound(plan: &Plan, state: &Words) -> bool
    ensures { result ≡ ports_sound plan.now.core.ports plan.now.core.permissions plan.now.peers state.now }
{
    (0..32).all(|d| device_ports(plan, state, DeviceNo::new(d).unwrap()))
}

// Are the ports of device d sound? Where it has none all their words are 0, which is asked of them at
// once.
#[tactic(auto, unfolding(crate::specs::Inner::Tests::device_ports))]
fn device_ports(plan: &Plan, state: &Words, device: DeviceNo) -> bool
    ensures { result ≡ device_ports state.now device (ports_of plan.now device) plan.now.core.permissions plan.now.peers }
{
    let d = device.index();
    if plan.core.ports[d] == 0 {
        let from = PORTS + 8 * PORT * d;
        let to = from + 8 * PORT;
        return areas::zeros(&state[from..to]);
    }
    (0..8).all(|p| port_sound(plan, state, device.port(p).unwrap()))
}

// Is port q sound, where its device has so many, and else 0?
#[tactic(auto, unfolding(crate::specs::Inner::Tests::port_sound))]
fn port_sound(plan: &Plan, state: &Words, port: PortNo) -> bool
    ensures { result ≡ place_sound plan.now.core.ports plan.now.core.permissions plan.now.peers state.now port }
{
    let q = port.index();
    if q % 8 < usize::from(plan.core.ports[q / 8]) {
        return port_kept(plan, state, port);
    }
    port_zero(state, port)
}

fn port_zero(state: &Words, port: PortNo) -> bool
    ensures { result ≡ port_zero state.now port }
{
    let q = port.index();
    let at = PORTS + PORT * q;
    areas::zeros(&state[at..at + PORT])
}

// Is port q sound, that its device has?
#[tactic(auto, unfolding(crate::specs::Inner::Tests::port_kept, crate::specs::State::word))]
fn port_kept(plan: &Plan, state: &Words, port: PortNo) -> bool
    ensures { result ≡ port_kept state.now port (peer plan.now port) (permissions plan.now port) }
{
    let q = port.index();
    let at = PORTS + PORT * q;
    let running = state[at + RUNNING];
    state[at + NEXT] <= 31
        && flag_sound(state, running, plan.peers[q / 8][q % 8])
        && waiting_sound(
            state[at + INTERRUPTS],
            state[at + ACKNOWLEDGES],
            running,
            plan.core.permissions[q],
        )
}

// Is the running flag 0 or 1, as at the other end, and 0 where there is none?
#[tactic(auto, unfolding(crate::specs::Inner::Tests::flag_sound, crate::specs::State::word))]
fn flag_sound(state: &Words, running: u32, peer: u16) -> bool
    ensures { result ≡ flag_sound state.now running peer }
{
    if 1 < running {
        return false;
    }
    if peer == plan::NOBODY {
        return running == 0;
    }
    if plan::NOBODY < peer {
        return true;
    }
    running == state[PORTS + PORT * usize::from(peer) + RUNNING]
}

// Have the waiting sets no common bit, and may what is in them wait?
#[tactic(auto, unfolding(crate::specs::Inner::Tests::waiting_sound))]
fn waiting_sound(interrupts: u32, acknowledges: u32, running: u32, permissions: u8) -> bool
    ensures { result ≡ waiting_sound interrupts acknowledges running permissions }
{
    interrupts & acknowledges == 0
        && may_wait(Kind::Interrupt, interrupts, running, permissions)
        && may_wait(Kind::Acknowledge, acknowledges, running, permissions)
}

// Codes of a kind wait only where the port runs and may send them.
#[tactic(auto, unfolding(crate::specs::Inner::Tests::may_wait))]
fn may_wait(kind: Kind, codes: u32, running: u32, permissions: u8) -> bool
    ensures { result ≡ may_wait (kind_of kind) codes running permissions }
{
    codes == 0 || (running != 0 && kind.may_send(u32::from(permissions)))
}

// Has each of n devices a counter of six bits, and is it 0 where there is none?
#[tactic(auto, unfolding(crate::specs::Inner::Tests::counters_sound))]
fn counters_sound(n: usize, state: &Words) -> bool
    ensures { result ≡ counters_sound n state.now }
{
    (0..32).all(|d| counter_sound(state, n, DeviceNo::new(d).unwrap()))
}

#[tactic(auto, unfolding(crate::specs::Inner::Tests::counter_sound, crate::specs::State::word))]
fn counter_sound(state: &Words, n: usize, device: DeviceNo) -> bool
    ensures { result ≡ counter_sound state.now n device }
{
    let d = device.index();
    let counter = state[COUNTERS + d];
    if d < n {
        return counter < 64;
    }
    counter == 0
}

// Is every port's word of Time-Codes sound, and 0 where there is no port?
#[tactic(auto, unfolding(crate::specs::Inner::Tests::times_sound))]
fn times_sound(plan: &Plan, state: &Words) -> bool
    ensures { result ≡ times_sound plan.now.core.ports state.now }
{
    (0..256).all(|q| time_sound(plan, state, PortNo::new(q).unwrap()))
}

// Is port q's word of Time-Codes sound, where its device has so many ports, and else 0?
#[tactic(auto, unfolding(crate::specs::Inner::Tests::time_sound, crate::specs::State::word))]
fn time_sound(plan: &Plan, state: &Words, port: PortNo) -> bool
    ensures { result ≡ time_sound state.now port (ports_of plan.now (port / 8)) }
{
    let q = port.index();
    let time = state[TIMES + q];
    if q % 8 < usize::from(plan.core.ports[q / 8]) {
        return time_kept(time, state[PORTS + PORT * q + RUNNING]);
    }
    time == 0
}

// Is the word one of its range, and has it a value only where the port runs?
#[tactic(auto, unfolding(crate::specs::Inner::Tests::time_kept))]
fn time_kept(time: u32, running: u32) -> bool
    ensures { result ≡ time_kept time running }
{
    time % LATELY <= 64 && time < 2 * LATELY && (running != 0 || time % LATELY == 0)
}

// Are the counts of drops within their bound, and 0 where no router has the port?
fn drops_sound(plan: &Plan, state: &Words) -> bool
    ensures { result ≡ drops_sound plan.now.core.devices plan.now.core.role plan.now.core.ports state.now }
{
    let core = &plan.core;
    let n = core.devices.min(32);
    let own = (0..n).all(|d| {
        let counts = plan::free_masks(core.role[d], core.ports[d]);
        counts_sound(state, DeviceNo::new(d).unwrap(), counts)
    });
    // All that is behind the devices at once.
    own && areas::zeros(&state[DROPS + 16 * n..])
}

// Are the counts of device d within their bound, as many as it has of them, and are the others 0?
fn counts_sound(state: &Words, device: DeviceNo, own: usize) -> bool
    requires { own ≤ 16 }
    ensures { result ≡ counts_sound state.now device own }
{
    let at = DROPS + 16 * device.index();
    // The bound is the most that 16 bits hold.
    areas::short(&state[at..at + own]) && areas::zeros(&state[at + own..at + 16])
}
