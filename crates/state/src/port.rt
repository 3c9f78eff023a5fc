// A port's words, and queueing at it.
ghost use Rattle.std.specs.Prelude.{◌≡◌, ◌<◌};
ghost use Rattle.device.specs.Kinds.{kind_of};
ghost use Rattle.state.specs.Queue.{queue_at, queue_in, queue_time as queue_time_at, queue_time_in};
ghost use Rattle.state.specs.Inner.Port.{queued_port};

use crate::{ACKNOWLEDGES, INTERRUPTS, LATELY, NEXT, PORT, PORTS, RUNNING, TIMES, WORDS, Words};
use device::Kind;
use plan::{DeviceNo, PortNo};

// What waits at a port, where its search starts, and whether it runs.
#[derive(Clone, Copy, Debug, PartialEq, Eq)]
pub struct Port {
    pub interrupts: u32,
    pub acknowledges: u32,
    pub next: u32,
    pub running: u32,
}

// By value: the work. The three functions differ only in where the record stands, each as the
// decision on queueing by place asks for it.
#[tactic(auto, unfolding(crate::specs::Inner::Port::queued_port))]
fn queued(port: Port, kind: Kind, k: u32) -> Port
    ensures { result ≡ queued_port (kind_of kind) k port }
{
    if port.running != 1 {
        return port;
    }
    match kind {
        Kind::Interrupt => Port {
            interrupts: bits::join(port.interrupts, k),
            acknowledges: bits::leave(port.acknowledges, k),
            ..port
        },
        Kind::Acknowledge => Port {
            interrupts: bits::leave(port.interrupts, k),
            acknowledges: bits::join(port.acknowledges, k),
            ..port
        },
    }
}

// Where it stands.
fn queue_at(port: &mut Port, kind: Kind, k: u32)
    ensures { port.new ≡ queued_port (kind_of kind) k port.old }
{
    *port = queued(*port, kind, k);
}

// By value again, by way of the lent record, for every other caller.
fn queued_by(port: Port, kind: Kind, k: u32) -> Port
    ensures { result ≡ queued_port (kind_of kind) k port }
{
    let mut own = port;
    queue_at(&mut own, kind, k);
    own
}

// At port q of the state, which has these permissions.
fn queue_port(state: &mut Words, port: PortNo, kind: Kind, k: u32, permissions: u8)
    ensures { state.new ≡ queue_at permissions (kind_of kind) k port state.old }
{
    if !kind.may_send(u32::from(permissions)) {
        return;
    }
    let at = PORTS + PORT * port.index();
    let before = Port {
        interrupts: state[at + INTERRUPTS],
        acknowledges: state[at + ACKNOWLEDGES],
        next: state[at + NEXT],
        running: state[at + RUNNING],
    };
    let after = queued_by(before, kind, k);
    state[at + INTERRUPTS] = after.interrupts;
    state[at + ACKNOWLEDGES] = after.acknowledges;
}

// At every port of device d but one, by the permissions of all ports; `but` may be nobody. Where
// there is no such device, nothing changes.
#[tactic(auto, unfolding(crate::specs::Queue::queue_in, crate::specs::Queue::queue_all_at))]
pub fn queue(state: &mut Words, permissions: &[u8; 256], d: usize, but: usize, kind: Kind, k: u32)
    ensures { state.new ≡ queue_in permissions.now (kind_of kind) k d but state.old }
{
    let Some(device) = DeviceNo::new(d) else {
        return;
    };
    for p in 0..8 {
        let port = device.port(p).unwrap();
        let q = port.index();
        if q != but {
            queue_port(state, port, kind, k, permissions[q]);
        }
    }
}

// The same of any area, and for a kind that is given by its number. Where there is no such kind, or
// the area is no state, nothing changes. The kind stays a number and the area a slice, as what
// `queue_in` says of every number and length may not be asked of fewer.
pub fn queue_all(state: &mut [u32], permissions: &[u8; 256], d: usize, but: usize, kind: u8, k: u32)
    ensures { state.new ≡ queue_in permissions.now kind k d but state.old }
{
    let Ok(kind) = Kind::try_from(kind) else {
        return;
    };
    let Some(words) = state.as_mut_array::<WORDS>() else {
        return;
    };
    queue(words, permissions, d, but, kind, k);
}

// ---- Time-Codes

// The Time-Code with the value v waits at port q, if it runs, in place of the one that waited there.
#[tactic(auto, unfolding(crate::specs::Queue::queue_time, crate::specs::State::word, crate::specs::State::put))]
fn wait_time(state: &mut Words, port: PortNo, v: u8)
    ensures { state.new ≡ queue_time_at v port state.old }
{
    let q = port.index();
    if state[PORTS + PORT * q + RUNNING] != 1 {
        return;
    }
    let lately = state[TIMES + q] / LATELY % 2;
    state[TIMES + q] = LATELY * lately + (u32::from(v) + 1);
}

// At every port of device d but one; `but` may be nobody. Where there is no such device, or the area
// is no state, nothing changes. The loop is that of `queue` over another step: one loop over a closure
// needs a clause on what each call leaves, which is no plainer than the second loop.
#[tactic(auto, unfolding(crate::specs::Queue::queue_time_in, crate::specs::Queue::queue_time_all))]
pub fn queue_time(state: &mut [u32], d: usize, but: usize, v: u8)
    ensures { state.new ≡ queue_time_in v d but state.old }
{
    let Some(device) = DeviceNo::new(d) else {
        return;
    };
    let Some(words) = state.as_mut_array::<WORDS>() else {
        return;
    };
    for p in 0..8 {
        let port = device.port(p).unwrap();
        if port.index() != but {
            wait_time(words, port, v);
        }
    }
}
