// What hosts and links may do between rounds. A call changes the state that it is given, or answers
// with its first condition that does not hold, and changes nothing.
#![tactic(auto)]

ghost use Rattle.std.specs.Prelude.{◌≡◌, ◌↔◌, true, List, ◌∷◌, ℕ, ◌+◌, ◌*◌, ◌≤◌, ◌<◌, length, get_or, IfOk, IfSome, IsSome};
ghost use Rattle.answers.specs.Decides.{Decides};
ghost use Rattle.answers.specs.Ordered.{ask, Ordered};
ghost use Rattle.answers.specs.Refusals.{number_in};
ghost use Rattle.device.specs.Kinds.{kind_of};
ghost use Rattle.plan.specs.Fields.{nobody};
ghost use Rattle.plan.specs.declared.Plan.{Plan};
ghost use Rattle.state.specs.State.{running};
ghost use Rattle.state.specs.Network.{peer};
ghost use Rattle.state.specs.Queue.{sends_at};
ghost use Rattle.state.specs.Mark.{mark as mark_mark};
ghost use Rattle.calls.specs.Calls.{device_asks, own_asks, owns, send_asks, call_asks, link_asks, tick_asks, called_in, Takes, drained, flagged, switched, Links, advanced, Ticks, SomeRuns, Resets};
ghost use Rattle.calls.specs.Inner.Steps.{Zeros, cleared, emptied, untimed, uncounted};

use answers::Refusal;
use device::Kind;
use plan::{Core, DeviceNo, NOBODY, Plan, PortNo};
use state::{
    ACKNOWLEDGES, COUNTERS, DEVICE, DROPS, INTERRUPTS, NEXT, PORT, PORTS, RUNNING, TIMES, WORDS,
    Words,
};

// No port is left out.
const NONE: usize = NOBODY as usize;

// The two ends of a link.
#[derive(Clone, Copy, Debug, PartialEq, Eq)]
struct Ends {
    near: PortNo,
    far: PortNo,
}

// In the five calls the plan comes by value, as at every public door of the project, and is lent from there
// on.

// The host of a node requests an identifier.
pub fn request(plan: Plan, state: &mut [u32], device: usize, k: u32) -> Result<(), Refusal>
    ensures { Takes plan 0 device k state.old (number_in result) state.new }
{
    call(&plan, Kind::Interrupt, state, device, k)
}

// The host of a node acknowledges an identifier.
pub fn acknowledge(plan: Plan, state: &mut [u32], device: usize, k: u32) -> Result<(), Refusal>
    ensures { Takes plan 1 device k state.old (number_in result) state.new }
{
    call(&plan, Kind::Acknowledge, state, device, k)
}

// The link at a port is to run, or to stop.
pub fn link(
    plan: Plan,
    state: &mut [u32],
    device: usize,
    port: usize,
    running: bool,
) -> Result<(), Refusal>
    ensures { Links plan device port running state.old (number_in result) state.new }
{
    let ends = ends_at(&plan, state, device, port, running)?;
    let words = state.as_mut_array::<WORDS>().unwrap();
    switch(words, ends, running);
    Ok(())
}

// The host of the master ticks: its counter goes on by one, and the Time-Code is queued at its ports.
pub fn tick(plan: Plan, state: &mut [u32], device: usize) -> Result<(), Refusal>
    ensures { Ticks plan device state.old (number_in result) state.new }
{
    let master = master_at(&plan, state, device)?;
    let words = state.as_mut_array::<WORDS>().unwrap();
    advance(words, master);
    Ok(())
}

// A device is reset: its register, timers and counter, what waits at its ports, and what they dropped.
pub fn reset(plan: Plan, state: &mut [u32], device: usize) -> Result<(), Refusal>
    ensures { Resets plan device state.old (number_in result) state.new }
{
    let d = device_at(&plan, state, device)?;
    let words = state.as_mut_array::<WORDS>().unwrap();
    clear(words, d);
    empty(words, d);
    unclock(words, d);
    uncount(words, d);
    Ok(())
}

// What every call asks: a plan that some file holds, a sound state, and a device of the plan.
fn device_at(plan: &Plan, state: &[u32], device: usize) -> Result<DeviceNo, Refusal>
    ensures asked { Ordered (device_asks plan.now device state.now) (number_in result) }
    ensures number { IfOk result (λ d. d ≡ device) }
{
    state::refusal(plan, state)?;
    if plan.core.devices <= device {
        return Err(Refusal::NoSuchDevice);
    }
    Ok(DeviceNo::new(device).unwrap())
}

// A request or an acknowledge.
fn call(plan: &Plan, kind: Kind, state: &mut [u32], device: usize, k: u32) -> Result<(), Refusal>
    ensures { Takes plan.now (kind_of kind) device k state.old (number_in result) state.new }
{
    call_refusal(plan, kind, state, device, k)?;
    let words = state.as_mut_array::<WORDS>().unwrap();
    mark_and_queue(&plan.core, kind, words, device, k);
    Ok(())
}

// The call for whoever has made the tests, by the number of the kind. Where there is no such device,
// identifier or kind, or the area is no state, nothing changes: that is promised of any number, and of a core
// by value, so it takes both as they are.
pub fn take(core: Core, kind: u8, state: &mut [u32], d: usize, k: u32)
    ensures { (peers : List (List ℕ)) (barred : List ℕ) → state.new ≡ called_in (record { core = core; peers = peers; barred = barred }) kind d k state.old }
{
    let Ok(kind) = Kind::try_from(kind) else {
        return;
    };
    let Some(words) = state.as_mut_array::<WORDS>() else {
        return;
    };
    mark_and_queue(&core, kind, words, d, k);
}

// The same in the words of a state: the bit and the timer change, and the code is queued at every
// port. Where there is no such device or identifier, nothing changes.
pub fn mark_and_queue(core: &Core, kind: Kind, state: &mut Words, d: usize, k: u32)
    ensures { (peers : List (List ℕ)) (barred : List ℕ) → state.new ≡ called_in (record { core = core.now; peers = peers; barred = barred }) (kind_of kind) d k state.old }
{
    let Some(device) = DeviceNo::new(d) else {
        return;
    };
    if 31 < k {
        return;
    }
    mark(core, kind, state, device, k);
    state::queue(state, &core.permissions, d, NONE, kind, k);
}

// The bit is set and the timer loaded, or the bit is cleared and the timer stopped. That k is below 32 is
// asked for by a clause: no other function here takes an identifier that it does not test.
fn mark(core: &Core, kind: Kind, state: &mut Words, d: DeviceNo, k: u32)
    requires { k < 32 }
    ensures { (peers : List (List ℕ)) (barred : List ℕ) → state.new ≡ mark_mark (record { core = core.now; peers = peers; barred = barred }) (kind_of kind) d k state.old }
{
    let d = d.index();
    let at = DEVICE * d;
    state[at] = kind.marked(state[at], k);
    state[at + 1 + k as usize] = match kind {
        Kind::Interrupt => state::load_for(&core.loads, core.role[d], k),
        Kind::Acknowledge => 0,
    };
}

// What a request or an acknowledge is refused with.
fn call_refusal(
    plan: &Plan,
    kind: Kind,
    state: &[u32],
    device: usize,
    k: u32,
) -> Result<(), Refusal>
    ensures { Ordered (call_asks plan.now (kind_of kind) device k state.now) (number_in result) }
{
    let d = device_at(plan, state, device)?;
    own_refusal(owned(plan, kind, d), k)?;
    if !kind.is_used(plan.core.events, k) {
        return Err(Refusal::NotAcknowledged);
    }
    send_refusal(state, &plan.core.permissions, device, kind.number(), k)
}

// What it is refused with for its identifier, by the mask that its kind goes by.
pub fn own_refusal(mask: u32, k: u32) -> Result<(), Refusal>
    ensures { Ordered (own_asks mask k) (number_in result) }
{
    if 31 < k {
        return Err(Refusal::NoSuchIdentifier);
    }
    if bits::get(mask, k) != 1 {
        return Err(Refusal::NotItsOwn);
    }
    Ok(())
}

// What it is refused with for the state of its device, which has to be one of 32. The kind is a number,
// as the function is public and may not change: of one above 1 no port may send codes.
pub fn send_refusal(
    state: &[u32],
    permissions: &[u8; 256],
    d: usize,
    kind: u8,
    k: u32,
) -> Result<(), Refusal>
    ensures { Ordered (ask 4 (d < 32) ∷ send_asks permissions.now kind d k state.now) (number_in result) }
{
    let Some(device) = DeviceNo::new(d) else {
        return Err(Refusal::NoSuchDevice);
    };
    if !any_runs(state, device) {
        return Err(Refusal::NothingRuns);
    }
    if !any_sends(state, permissions, device, kind) {
        return Err(Refusal::NotPermitted);
    }
    if bits::get(state::word(state, DEVICE * device.index()), k) != u32::from(kind) {
        return Err(Refusal::BitStands);
    }
    Ok(())
}

// The mask that a kind goes by: sources request, handlers acknowledge.
fn owned(plan: &Plan, kind: Kind, d: DeviceNo) -> u32
    ensures { result ≡ owns plan.now (kind_of kind) d }
{
    match kind {
        Kind::Interrupt => plan.core.source[d.index()],
        Kind::Acknowledge => plan.core.handler[d.index()],
    }
}

// The master, where it is the device and may tick.
fn master_at(plan: &Plan, state: &[u32], device: usize) -> Result<DeviceNo, Refusal>
    ensures asked { Ordered (tick_asks plan.now device state.now) (number_in result) }
    ensures number { IfOk result (λ d. d ≡ device) }
{
    let d = device_at(plan, state, device)?;
    if usize::from(plan.core.master) != d.index() + 1 {
        return Err(Refusal::NotTheMaster);
    }
    if !any_runs(state, d) {
        return Err(Refusal::NothingRuns);
    }
    Ok(d)
}

// The counter of device d goes on by one, and the Time-Code is queued at every port.
fn advance(state: &mut Words, d: DeviceNo)
    ensures { state.new ≡ advanced d state.old }
{
    let d = d.index();
    let v = device::next_time(state[COUNTERS + d]);
    state[COUNTERS + d] = v;
    state::queue_time(state, d, NONE, v as u8);
}

// Does some port of device d run? The words of a port that the device lacks are 0.
fn any_runs(state: &[u32], d: DeviceNo) -> bool
    ensures { Decides (SomeRuns d state.now) result }
{
    let first = 8 * d.index();
    (0..8).any(|p| state::word(state, PORTS + PORT * (first + p) + RUNNING) == 1)
}

// Does some port of device d run that may send the kind? Here and below the kind is a number, as
// `send_refusal` is given it.
fn any_sends(state: &[u32], permissions: &[u8; 256], d: DeviceNo, kind: u8) -> bool
    ensures { Decides ((p : ℕ) × (p < 8) × (sends_at (get_or permissions.now (8 * d + p) 0) kind (8 * d + p) state.now ≡ true)) result }
{
    let first = 8 * d.index();
    (0..8).any(|p| sends(state, first + p, kind, permissions[first + p]))
}

// Does port q run, which has these permissions, and may it send the kind? The port comes of the search above,
// one of eight, and is made no type for one look.
fn sends(state: &[u32], q: usize, kind: u8, permissions: u8) -> bool
    requires { q < 256 }
    ensures { result ≡ sends_at permissions kind q state.now }
{
    state::word(state, PORTS + PORT * q + RUNNING) == 1
        && device::may_send(kind, u32::from(permissions))
}

// The two ends of the link at a port, where it can become what is wanted.
fn ends_at(
    plan: &Plan,
    state: &[u32],
    device: usize,
    port: usize,
    running: bool,
) -> Result<Ends, Refusal>
    ensures asked { Ordered (link_asks plan.now running device port state.now) (number_in result) }
    ensures numbers { IfOk result (λ ends. (ends.near ≡ 8 * device + port) × (ends.far ≡ peer plan.now (8 * device + port))) }
{
    let d = device_at(plan, state, device)?;
    if usize::from(plan.core.ports[d.index()]) <= port {
        return Err(Refusal::NoSuchDevice);
    }
    let near = d.port(port).unwrap();
    let Some(far) = far_end(plan, near) else {
        return Err(Refusal::NothingRuns);
    };
    if state::word(state, PORTS + PORT * near.index() + RUNNING) == u32::from(running) {
        return Err(Refusal::LinkStands);
    }
    Ok(Ends { near, far })
}

// The port at the other end of port q, where it is joined to one.
fn far_end(plan: &Plan, q: PortNo) -> Option<PortNo>
    ensures there { IsSome result ↔ (peer plan.now q < nobody) }
    ensures number { IfSome result (λ far. far ≡ peer plan.now q) }
{
    PortNo::new(usize::from(plan.peers[q.index() / 8][q.index() % 8]))
}

// A link runs from now on, or stops, at both ends. A stop loses what waits there, and whether a
// Time-Code was sent last, and nothing else: registers, timers and counters outlast it.
fn switch(state: &mut Words, ends: Ends, running: bool)
    ensures { (plan : Plan) → ends.far ≡ peer plan ends.near → state.new ≡ switched plan running ends.near state.old }
{
    if running {
        flag(state, ends, 1);
        return;
    }
    drain(state, ends.near);
    drain(state, ends.far);
    flag(state, ends, 0);
}

// The ends of a link get their flag.
#[tactic(auto, unfolding(state::specs::State::put))]
fn flag(state: &mut Words, ends: Ends, running: u32)
    ensures { state.new ≡ flagged running ends.near ends.far state.old }
{
    state[PORTS + PORT * ends.near.index() + RUNNING] = running;
    state[PORTS + PORT * ends.far.index() + RUNNING] = running;
}

// Nothing waits at port q any more, and no Time-Code counts as sent last. Where its search starts
// stays.
#[tactic(auto, unfolding(state::specs::State::put))]
fn drain(state: &mut Words, q: PortNo)
    ensures { state.new ≡ drained q state.old }
{
    let at = PORTS + PORT * q.index();
    state[at + INTERRUPTS] = 0;
    state[at + ACKNOWLEDGES] = 0;
    state[TIMES + q.index()] = 0;
}

// The register and the timers of device d become 0.
#[tactic(auto, using(crate::proofs::Zeros::is_cleared))]
fn clear(state: &mut Words, d: DeviceNo)
    ensures { state.new ≡ cleared d state.old }
{
    wipe(state, DEVICE * d.index(), DEVICE);
}

// The sets that wait at the ports of device d, and where each search starts, become 0. Three words of each
// port are written and the fourth is not, so it goes by the port.
fn empty(state: &mut Words, d: DeviceNo)
    ensures { state.new ≡ emptied d state.old }
{
    let d = d.index();
    for p in 0..8 {
        let at = PORTS + PORT * (8 * d + p);
        state[at + INTERRUPTS] = 0;
        state[at + ACKNOWLEDGES] = 0;
        state[at + NEXT] = 0;
    }
}

// The counter of device d, and what its ports have of Time-Codes, become 0.
#[tactic(auto, using(crate::proofs::Zeros::is_untimed), unfolding(state::specs::State::put))]
fn unclock(state: &mut Words, d: DeviceNo)
    ensures { state.new ≡ untimed d state.old }
{
    wipe(state, TIMES + 8 * d.index(), 8);
    state[COUNTERS + d.index()] = 0;
}

// What the ports of device d dropped becomes 0.
#[tactic(auto, using(crate::proofs::Zeros::is_uncounted))]
fn uncount(state: &mut Words, d: DeviceNo)
    ensures { state.new ≡ uncounted d state.old }
{
    wipe(state, DROPS + 16 * d.index(), 16);
}

// So many words from one place on become 0.
fn wipe(state: &mut Words, from: usize, count: usize)
    requires { from + count ≤ length state.old }
    ensures { Zeros from (from + count) state.old state.new }
{
    state[from..from + count].fill(0);
}
