// One round: timers, sending, arrivals, in this order. The old state is read, the next one built in
// another area, so that a code crosses one link a round.
ghost use Rattle.std.specs.Prelude.{◌≡◌, [], ◌∷◌, ℕ, ◌+◌, ◌*◌, ◌/◌, ◌%◌, ◌<◌, ◌≤◌, length, get_or};
ghost use Rattle.answers.specs.Refusals.{number_in, value_in};
ghost use Rattle.lists.specs.Loop.{up_to};
ghost use Rattle.plan.specs.declared.Plan.{Plan};
ghost use Rattle.state.specs.Network.{router, events, load_of};
ghost use Rattle.bench.specs.Round.{told_word, nothing, fall, fallen, first_waits, goes, sends, posts, posted, sent_bytes, timed, forwarded, one_more, lost, tells, acted, arrived, reached, areas};
ghost use Rattle.bench.specs.RoundCall.{Plays};
ghost use Rattle.bench.specs.Inner.Idle.{Rests, Blank, Laid, Idles, Copies, Silent};
ghost use Rattle.bench.specs.Inner.Shown.{about, Notes, Leads, byte_in, Played};

use crate::{NOTHING, SENT, TOLD};
use answers::Refusal;
use codes::Code;
use device::{Action, Kind, Side};
use plan::{DeviceNo, Plan, PortNo};
use state::{
    ACKNOWLEDGES, COUNTERS, DEVICE, DROPS, INTERRUPTS, LATELY, MOST_DROPS, NEXT, PORT, PORTS,
    RUNNING, TIMES, WORDS, Words,
};

// ---- the words told

// What a host is told of.
#[derive(Clone, Copy, Debug, PartialEq, Eq)]
enum About {
    Interrupt = 1,
    Acknowledge = 2,
    Timeout = 3,
    Time = 4,
}

// A word told to the host of device d.
fn told_word(kind: About, d: DeviceNo, k: u8) -> u32
    ensures { result ≡ told_word (about kind) d k }
{
    65536 * (kind as u32) + 256 * d.index() as u32 + u32::from(k)
}

// The words told, as far as the area has room for them, and how many were told. Those that have no
// room count too, so that a caller who reads no words lends no room. What the count may be stands in
// the contracts, and not in the type, as each step leaves so much for those behind it.
#[derive(Drop)]
struct Told<'a> {
    area: &'a mut [u32],
    count: usize,
}

impl Told<'_> {
    // The host of device d is told.
    fn tell(&mut self, kind: About, d: DeviceNo, k: u8)
        requires { self.old.count < 4096 }
        ensures { Notes (told_word (about kind) d k ∷ []) self.old self.new }
    {
        let word = told_word(kind, d, k);
        if self.count < self.area.len() {
            self.area[self.count] = word;
        }
        self.count += 1;
    }

    // It is told of a code.
    #[tactic(auto, unfolding(crate::specs::Round::tells))]
    fn inform(&mut self, code: Code, d: DeviceNo)
        requires { self.old.count < 4096 }
        ensures { Notes (tells d code) self.old self.new }
    {
        match code {
            Code::Interrupt(k) => self.tell(About::Interrupt, d, k),
            Code::Acknowledge(k) => self.tell(About::Acknowledge, d, k),
            Code::Time(v) => self.tell(About::Time, d, v),
            Code::Reserved(_, _) => {}
        }
    }
}

// ---- 1. timers

// Timer k of device d goes down by 1; where it comes to 0 its bit goes too, and a node tells its host.
// That k is below 32 is asked for by a clause: no other function here takes an identifier.
fn fall_one(router: bool, d: DeviceNo, k: u32, state: &mut Words, told: &mut Told)
    requires { (k < 32) × (told.old.count < 4096) }
    ensures { Leads (fall router d k) 1 state.old told.old state.new told.new }
{
    let home = DEVICE * d.index();
    let at = home + 1 + k as usize;
    let left = state[at];
    if left == 0 {
        return;
    }
    if left != 1 {
        state[at] = left - 1;
        return;
    }
    state[home] = bits::leave(state[home], k);
    state[at] = 0;
    if router {
        return;
    }
    told.tell(About::Timeout, d, k as u8);
}

// The timers of device d, in the order of their identifiers. One whose bit is clear does not run, and
// is passed over: the members of the set are taken out one by one, as no list holds them.
fn fall_device(router: bool, d: DeviceNo, state: &mut Words, told: &mut Told)
    requires { (told.old.count ≤ 1024) × Rests state.old d }
    ensures { Leads (up_to (fall router d) 32) 32 state.old told.old state.new told.new }
{
    let mut rest = state[DEVICE * d.index()];
    while rest != 0 {
        let k = rest.trailing_zeros();
        fall_one(router, d, k, state, told);
        rest = bits::leave(rest, k);
    }
}

// All timers, by device then identifier. Here and below devices and ports are counted: their words stand by
// their numbers in several areas and in the plan.
fn fall_all(plan: &Plan, state: &mut Words, told: &mut Told)
    requires { Laid plan.now × Idles plan.now state.old × (told.old.count ≡ 0) }
    ensures { Leads (fallen plan.now) 1024 state.old told.old state.new told.new }
{
    for d in 0..plan.core.devices {
        let device = DeviceNo::new(d).unwrap();
        fall_device(plan.core.role[d] == 1, device, state, told);
    }
}

// ---- 2. sending

// The first identifier that waits at port q, at or after next.
#[tactic(auto, unfolding(state::specs::State::word))]
fn choice(q: PortNo, old: &Words) -> Option<u32>
    ensures { result ≡ first_waits old.now q }
{
    let at = PORTS + PORT * q.index();
    bits::first(
        old[at + INTERRUPTS] | old[at + ACKNOWLEDGES],
        old[at + NEXT],
    )
}

// The byte of interrupt 0, and how far behind an interrupt's byte the acknowledge's is.
const FIRST: u32 = codes::INTERRUPTS as u32;

const APART: u32 = codes::ACKNOWLEDGES as u32 - FIRST;

// Does a Time-Code go, by the port's word and by what else waits? It goes first, but after one
// another code has its turn, if any waits.
#[tactic(auto, unfolding(crate::specs::Round::goes))]
fn time_goes(time: u32, other: Option<u32>) -> bool
    ensures { result ≡ goes (time % 128) (time / 128 % 2) other }
{
    if time % LATELY == 0 {
        return false;
    }
    if other.is_none() {
        return true;
    }
    time / LATELY % 2 == 0
}

// What port q sends, chosen from the old state; in the next one it waits no more, and next moves
// where it was no Time-Code.
fn post_one(port: PortNo, old: &Words, next: &mut Words) -> u32
    ensures { (result ≡ sends old.now port) × (next.new ≡ posts old.now port next.old) }
{
    let q = port.index();
    let at = PORTS + PORT * q;
    let found = choice(port, old);
    let time = old[TIMES + q];
    if time_goes(time, found) {
        next[TIMES + q] = LATELY;
        return (time % LATELY - 1) % 64;
    }
    let Some(k) = found else {
        return NOTHING;
    };
    next[at + INTERRUPTS] = bits::leave(next[at + INTERRUPTS], k);
    next[at + ACKNOWLEDGES] = bits::leave(next[at + ACKNOWLEDGES], k);
    next[at + NEXT] = (k + 1) % 32;
    next[TIMES + q] = next[TIMES + q] % LATELY;
    // The kind is counted: of two kinds as likely a branch would guess wrong half the time.
    let kind = 1 - bits::get(old[at + INTERRUPTS], k);
    FIRST + APART * kind + k
}

// All ports, by device. A port that its device lacks has nothing to send, and is passed over.
fn post_all(plan: &Plan, old: &Words, next: &mut Words, sent: &mut [u32; SENT])
    requires { Laid plan.now × Idles plan.now old.now × Silent plan.now.core.devices plan.now.core.ports sent.old }
    ensures { (next.new ≡ posted plan.now old.now next.old) × (sent.new ≡ sent_bytes plan.now old.now) }
{
    for d in 0..plan.core.devices {
        let first = 8 * d;
        let end = first + usize::from(plan.core.ports[d]);
        for q in first..end {
            let port = PortNo::new(q).unwrap();
            sent[q] = post_one(port, old, next);
        }
    }
}

// ---- 3. arrivals

// An accepted code loads its timer or stops it.
#[tactic(auto, unfolding(crate::specs::Round::timed, state::specs::State::put))]
fn time(plan: &Plan, code: Code, device: DeviceNo, state: &mut Words)
    ensures { state.new ≡ timed (load_of plan.now device) device code state.old }
{
    let d = device.index();
    match code {
        Code::Interrupt(k) => {
            state[DEVICE * d + 1 + usize::from(k)] = state::load_for(
                &plan.core.loads,
                plan.core.role[d],
                u32::from(k),
            )
        }
        Code::Acknowledge(k) => state[DEVICE * d + 1 + usize::from(k)] = 0,
        Code::Time(_) | Code::Reserved(_, _) => {}
    }
}

// A forwarded code waits at every other port of the device. Here and where codes are told of or counted,
// the cases are written out one by one, as `forwarded`, `tells` and `lost` of the rules are.
#[tactic(auto, unfolding(crate::specs::Round::forwarded, state::specs::Queue::queue_in, state::specs::Queue::queue_time_in))]
fn forward(plan: &Plan, code: Code, port: PortNo, state: &mut Words)
    ensures { state.new ≡ forwarded plan.now.core.permissions port code state.old }
{
    let d = port.device().index();
    let q = port.index();
    let permissions = &plan.core.permissions;
    match code {
        Code::Interrupt(k) => {
            state::queue(state, permissions, d, q, Kind::Interrupt, u32::from(k))
        }
        Code::Acknowledge(k) => {
            state::queue(state, permissions, d, q, Kind::Acknowledge, u32::from(k))
        }
        Code::Time(v) => state::queue_time(state, d, q, v),
        Code::Reserved(_, _) => {}
    }
}

// One more than a count of drops, which does not go above the most that there can be.
#[tactic(auto, unfolding(crate::specs::Round::one_more))]
fn one_more(drops: u32) -> u32
    ensures { result ≡ one_more drops }
{
    if MOST_DROPS <= drops {
        return drops;
    }
    drops + 1
}

// A code that port q drops is counted there, and goes no further.
#[tactic(auto, unfolding(crate::specs::Round::lost, state::specs::State::put, state::specs::State::word))]
fn lose(code: Code, port: PortNo, state: &mut Words)
    ensures { state.new ≡ lost port code state.old }
{
    let at = DROPS + 2 * port.index();
    match code {
        Code::Interrupt(_) => state[at + INTERRUPTS] = one_more(state[at + INTERRUPTS]),
        Code::Acknowledge(_) => state[at + ACKNOWLEDGES] = one_more(state[at + ACKNOWLEDGES]),
        Code::Time(_) | Code::Reserved(_, _) => {}
    }
}

// What the reaction of port q's device asks for.
fn act(plan: &Plan, action: Action, port: PortNo, state: &mut Words, told: &mut Told)
    requires { told.old.count < 4096 }
    ensures { Leads (acted (load_of plan.now (port / 8)) plan.now.core.permissions port action) 1 state.old told.old state.new told.new }
{
    match action {
        Action::Forwarded(code) => {
            time(plan, code, port.device(), state);
            forward(plan, code, port, state);
        }
        Action::Told(code) => {
            time(plan, code, port.device(), state);
            told.inform(code, port.device());
        }
        Action::Dropped(code) => lose(code, port, state),
        Action::Named(_) | Action::LinkError(_) | Action::Ignored(_) => {}
    }
}

// A byte arrives at port q, and its device reacts.
fn arrive_one(plan: &Plan, port: PortNo, byte: u8, state: &mut Words, told: &mut Told)
    requires { told.old.count < 4096 }
    ensures { Leads (arrived (load_of plan.now (port / 8)) plan.now.core.permissions port plan.now.barred (router plan.now (port / 8)) (events plan.now) byte) 1 state.old told.old state.new told.new }
{
    let q = port.index();
    let d = port.device().index();
    let home = DEVICE * d;
    let side = Side {
        router: plan.core.role[d] == 1,
        running: state[PORTS + PORT * q + RUNNING] == 1,
        permissions: u32::from(plan.core.permissions[q]),
        events: plan.core.events,
        barred: [plan.barred[2 * q], plan.barred[2 * q + 1]],
    };
    let reaction = device::react(side, state[home], state[COUNTERS + d], byte);
    state[COUNTERS + d] = reaction.counter;
    state[home] = reaction.register;
    act(plan, reaction.action, port, state, told);
}

// The byte that a port sent, if it sent one; no port sends nothing.
fn heard(peer: u16, sent: &[u32; SENT]) -> Option<u8>
    ensures { result ≡ byte_in (get_or sent.now peer nothing) }
{
    let word = *sent.get(usize::from(peer))?;
    u8::try_from(word).ok()
}

// What the far ends sent arrives, by receiving device, then port. A port that its device lacks leads
// nowhere, and is passed over.
fn arrive_all(plan: &Plan, sent: &[u32; SENT], state: &mut Words, told: &mut Told)
    requires { Laid plan.now × (told.old.count ≤ 1024) }
    ensures { Leads (reached plan.now sent.now) 256 state.old told.old state.new told.new }
{
    for d in 0..plan.core.devices {
        let first = 8 * d;
        let past = first + usize::from(plan.core.ports[d]);
        for q in first..past {
            if let Some(byte) = heard(plan.peers[d][q % 8], sent) {
                arrive_one(plan, PortNo::new(q).unwrap(), byte, state, told);
            }
        }
    }
}

// ---- the round

// The words of a state from one place to another, one by one, as in `areas::copy`.
fn copy(from: usize, to: usize, old: &Words, next: &mut Words)
    requires { (from ≤ to) × (to ≤ length old.now) }
    ensures { Copies from to old.now next.old next.new }
{
    for i in from..to {
        next[i] = old[i];
    }
}

// The words of n devices, 32 at most in a held plan, and of their ports, those of Time-Codes and drops too. Both areas are 0
// elsewhere, so the states are then equal.
fn bring(n: usize, old: &Words, next: &mut Words)
    requires { (n ≤ 32) × Blank n old.now × Blank n next.old }
    ensures { next.new ≡ old.now }
{
    copy(0, DEVICE * n, old, next);
    copy(PORTS, PORTS + PORT * (8 * n), old, next);
    copy(COUNTERS, COUNTERS + n, old, next);
    copy(TIMES, TIMES + 8 * n, old, next);
    copy(DROPS, DROPS + 16 * n, old, next);
}

// The round, with no checks. It copies and looks at the devices that exist, and no more: next is 0
// elsewhere already, and sent has nothing there. It answers how many words were told. What it asks for comes
// of a held plan and a sound state, and rounds keep it; each of its four clauses is of other areas, so that
// no one type would carry them.
pub(crate) fn play(
    plan: &Plan,
    old: &Words,
    next: &mut Words,
    sent: &mut [u32; SENT],
    told: &mut [u32],
) -> usize
    requires { Laid plan.now × Idles plan.now old.now × Blank plan.now.core.devices next.old × Silent plan.now.core.devices plan.now.core.ports sent.old }
    ensures { Played plan.now old.now told.old next.new sent.new told.new result }
{
    let mut told = Told {
        area: told,
        count: 0,
    };
    bring(plan.core.devices, old, next);
    fall_all(plan, next, &mut told);
    post_all(plan, old, next, sent);
    arrive_all(plan, sent, next, &mut told);
    told.count
}

// ---- the public door

// One round of a plan from an old state: the next state, the bytes sent, and the words told with
// zeros behind them. The value is how many words were told. The plan comes by value, as at every public door
// of the project.
pub fn round(
    plan: Plan,
    old: &[u32],
    next: &mut [u32],
    sent: &mut [u32],
    told: &mut [u32],
) -> Result<u32, Refusal>
    ensures { Plays plan old.now (areas next.old sent.old told.old) (number_in result) (value_in result) (areas next.new sent.new told.new) }
{
    state::refusal(&plan, old)?;
    // A state that is not refused is as long as a state.
    let old = old.as_array::<WORDS>().unwrap();
    let Some(next) = next.as_mut_array::<WORDS>() else {
        return Err(Refusal::WrongArea);
    };
    let Some(sent) = sent.as_mut_array::<SENT>() else {
        return Err(Refusal::WrongArea);
    };
    if told.len() != TOLD {
        return Err(Refusal::WrongArea);
    }
    areas::fill(next, 0);
    areas::fill(sent, NOTHING);
    areas::fill(told, 0);
    let count = play(&plan, old, next, sent, told);
    Ok(count as u32)
}
