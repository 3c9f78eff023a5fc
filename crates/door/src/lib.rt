// The bench for C: the calls over numbers and areas, for the functions of include/bench.h, and for
// nobody else in C. A promise here holds where what is lent is apart, which the language sees to and C
// does not; the header tests it. A plan is the bytes of its file, which each call reads first: it answers
// the reader's number where the file is not accepted, so that no call meets a plan that it refuses by 1.
// A number behind a name: the function had other parameters once, and what was compiled for those must
// not link.
#![tactic(auto)]

ghost use Rattle.std.specs.Prelude.{◌≡◌, ℕ};
ghost use Rattle.answers.specs.Refusals.{number_of, number_in, value_in, answer_of};
ghost use Rattle.codes.specs.Codes.{reads, writes};
ghost use Rattle.codes.specs.Numbers.{kind_of, top_of, value_of, Says, code_of};
ghost use Rattle.device.specs.Reaction.{reacts, action_of, code_in};
ghost use Rattle.plan.specs.Reading.{plan_of};
ghost use Rattle.plan.specs.Refusals.{verdict, verdict_in};
ghost use Rattle.state.specs.Start.{Starts};
ghost use Rattle.calls.specs.Calls.{Takes, Ticks, Links, Resets};
ghost use Rattle.bench.specs.RoundCall.{Plays};
ghost use Rattle.bench.specs.Round.{areas};
ghost use Rattle.bench.specs.Settling.{rounds_in};
ghost use Rattle.reach.specs.Reach.{Reaches};
ghost use Rattle.ways.specs.Crossings.{TellsCrossings};
ghost use Rattle.ways.specs.Chain.{TellsChain};
ghost use Rattle.ways.specs.Cut.{TellsCut};
ghost use Rattle.reasons.specs.Why.{TellsWhy};
ghost use Rattle.mend.specs.Rescue.{Rescues, lent};
ghost use Rattle.door.specs.Numbers.{nonzero, side_of, Reacts};
ghost use Rattle.door.specs.OnFile.{OnFile, Changes, Gives};
ghost use Rattle.door.specs.Own.{SettlesOwn, ReportsOwn};

use answers::Refusal;
use codes::Code;
use device::{Action, Side};
use plan::{Fault, Plan};
use reach::answer::Reach;

// ---- numbers for cases: the interface of C needs them, and a word that it lends for each value

fn kind_of(code: Code) -> u32
    ensures { result ≡ kind_of code }
{
    match code {
        Code::Time(_) => 0,
        Code::Interrupt(_) => 1,
        Code::Acknowledge(_) => 2,
        Code::Reserved(_, _) => 3,
    }
}

fn top_of(code: Code) -> u32
    ensures { result ≡ top_of code }
{
    match code {
        Code::Time(_) => 0,
        Code::Interrupt(_) | Code::Acknowledge(_) => 2,
        Code::Reserved(top, _) => u32::from(top),
    }
}

fn value_of(code: Code) -> u32
    ensures { result ≡ value_of code }
{
    match code {
        Code::Time(value)
        | Code::Interrupt(value)
        | Code::Acknowledge(value)
        | Code::Reserved(_, value) => u32::from(value),
    }
}

// Top bits are left out: only a reserved code has some that its kind does not say, and none is written.
#[tactic(auto, unfolding(codes::specs::Numbers::code_of))]
fn code_of(kind: u32, value: u8) -> Code
    ensures { result ≡ code_of kind 0 value }
{
    match kind {
        0 => Code::Time(value),
        1 => Code::Interrupt(value),
        2 => Code::Acknowledge(value),
        _ => Code::Reserved(0, value),
    }
}

fn action_of(action: Action) -> u32
    ensures { result ≡ action_of action }
{
    match action {
        Action::Named(_) => 0,
        Action::LinkError(_) => 1,
        Action::Ignored(_) => 2,
        Action::Forwarded(_) => 3,
        Action::Told(_) => 4,
        Action::Dropped(_) => 5,
    }
}

fn code_in(action: Action) -> Code
    ensures { result ≡ code_in action }
{
    match action {
        Action::Named(code)
        | Action::LinkError(code)
        | Action::Ignored(code)
        | Action::Forwarded(code)
        | Action::Told(code)
        | Action::Dropped(code) => code,
    }
}

// ---- answers

// The number of an answer: 0 for done.
fn number<T: Drop>(answer: Result<T, Refusal>) -> u32
    ensures { result ≡ number_in answer }
{
    match answer {
        Ok(_) => 0,
        Err(refusal) => u32::from(refusal),
    }
}

// The same, and the value beside it: 0 where it is refused.
fn number_and_value(answer: Result<u32, Refusal>, value: &mut u32) -> u32
    ensures number { result ≡ number_in answer }
    ensures value { value.new ≡ value_in answer }
{
    *value = answer.unwrap_or(0);
    number(answer)
}

// What is said of a file: the number, and the block that it is at; 0 and 0 where nothing is wrong.
fn number_and_block<T: Drop>(answer: Result<T, Fault>, block: &mut u32) -> u32
    ensures { record { number = result; at = block.new } ≡ verdict_in answer }
{
    match answer {
        Ok(_) => {
            *block = 0;
            0
        }
        Err(fault) => {
            *block = fault.block;
            u32::from(fault.refusal)
        }
    }
}

// What a call over the plan of a file answers. A file that is not accepted is refused as the reader
// refuses it, and then the call is not made.
fn over<T, F: FnMut(Plan) -> Result<T, Refusal>>(file: &[u8], call: &mut F) -> Result<T, Refusal>
    requires { F.IsAlwaysCallable call.old }
    ensures accepted { (verdict file.now).number ≡ 0 → F.step call.old (plan_of file.now) result call.new }
    ensures refused { ((verdict file.now).number ≡ 0 → ⊥) → (number_in result ≡ (verdict file.now).number) × (call.new ≡ call.old) }
{
    let mut plan = plan::blank();
    match planfile::load(file, &mut plan) {
        Ok(()) => call(plan),
        Err(Fault { refusal, .. }) => Err(refusal),
    }
}

// ---- codes, and one device

// The kind of the code in a byte, its top bits and its value.
#[unsafe(no_mangle)]
pub extern "C" fn bench_for_header_code_read_2(byte: u8, top: &mut u32, value: &mut u32) -> u32
    ensures { Says (reads byte) result top.new value.new }
{
    let code = codes::read(byte);
    *top = top_of(code);
    *value = value_of(code);
    kind_of(code)
}

// The byte of a code, or refusal 5: whatever top bits it would have, a reserved code is not written. No
// code has a value above 63.
#[unsafe(no_mangle)]
pub extern "C" fn bench_for_header_code_write(kind: u32, value: u32, byte: &mut u32) -> u32
    ensures { (top : ℕ) → record { number = result; value = byte.new } ≡ writes (code_of kind top value) }
{
    number_and_value(byte_of(kind, value), byte)
}

fn byte_of(kind: u32, value: u32) -> Result<u32, Refusal>
    ensures { (top : ℕ) → answer_of result ≡ writes (code_of kind top value) }
{
    if 63 < value {
        return Err(Refusal::NoSuchIdentifier);
    }
    let byte = codes::write(code_of(kind, value as u8))?;
    Ok(u32::from(byte))
}

// What a device does with a byte that arrives at a port which bars these interrupts and acknowledges, and
// the code that it hands on; its register and its counter are updated.
#[unsafe(no_mangle)]
pub extern "C" fn bench_for_header_react_guarded(
    role: u32,
    running: u32,
    permissions: u32,
    events: u32,
    interrupts: u32,
    acknowledges: u32,
    bits: &mut u32,
    counter: &mut u32,
    byte: u8,
    kind: &mut u32,
    top: &mut u32,
    value: &mut u32,
) -> u32
    ensures { Reacts (reacts (side_of role running permissions events interrupts acknowledges) bits.old counter.old byte) result bits.new counter.new kind.new top.new value.new }
{
    let side = Side {
        router: role != 0,
        running: running != 0,
        permissions,
        events,
        barred: [interrupts, acknowledges],
    };
    let reaction = device::react(side, *bits, *counter, byte);
    *bits = reaction.register;
    *counter = reaction.counter;
    let action = reaction.action;
    let code = code_in(action);
    *kind = kind_of(code);
    *top = top_of(code);
    *value = value_of(code);
    action_of(action)
}

// ---- plans

// What the reader says of a file: a number and a block.
#[unsafe(no_mangle)]
pub extern "C" fn bench_for_header_plan_read(file: &[u8], block: &mut u32) -> u32
    ensures { (result ≡ (verdict file.now).number) × (block.new ≡ (verdict file.now).at) }
{
    let mut plan = plan::blank();
    number_and_block(planfile::load(file, &mut plan), block)
}

// ---- between rounds

// The start, on a frame of its own: the plan that it tests does not stand beneath the reader then, and the
// call stays within the stack that the header says.
#[inline(never)]
fn start(plan: Plan, state: &mut [u32]) -> Result<(), Refusal>
    ensures { Starts plan state.old (number_in result) state.new }
{
    bench::start(plan, state)
}

#[unsafe(no_mangle)]
pub extern "C" fn bench_for_header_start(plan: &[u8], state: &mut [u32]) -> u32
    ensures { Changes plan.now Starts state.old result state.new }
{
    number(over(plan, &mut |p| start(p, state)))
}

#[unsafe(no_mangle)]
pub extern "C" fn bench_for_header_request(
    plan: &[u8],
    state: &mut [u32],
    device: usize,
    k: u32,
) -> u32
    ensures { Changes plan.now (λ p. Takes p 0 device k) state.old result state.new }
{
    number(over(plan, &mut |p| bench::request(p, state, device, k)))
}

#[unsafe(no_mangle)]
pub extern "C" fn bench_for_header_acknowledge(
    plan: &[u8],
    state: &mut [u32],
    device: usize,
    k: u32,
) -> u32
    ensures { Changes plan.now (λ p. Takes p 1 device k) state.old result state.new }
{
    number(over(plan, &mut |p| bench::acknowledge(p, state, device, k)))
}

// A flag of 0 stops the link, and any other starts it.
#[unsafe(no_mangle)]
pub extern "C" fn bench_for_header_link(
    plan: &[u8],
    state: &mut [u32],
    device: usize,
    port: usize,
    running: u32,
) -> u32
    ensures { Changes plan.now (λ p. Links p device port (nonzero running)) state.old result state.new }
{
    number(over(
        plan,
        &mut |p| bench::link(p, state, device, port, running != 0),
    ))
}

#[unsafe(no_mangle)]
pub extern "C" fn bench_for_header_tick(plan: &[u8], state: &mut [u32], device: usize) -> u32
    ensures { Changes plan.now (λ p. Ticks p device) state.old result state.new }
{
    number(over(plan, &mut |p| bench::tick(p, state, device)))
}

#[unsafe(no_mangle)]
pub extern "C" fn bench_for_header_reset(plan: &[u8], state: &mut [u32], device: usize) -> u32
    ensures { Changes plan.now (λ p. Resets p device) state.old result state.new }
{
    number(over(plan, &mut |p| bench::reset(p, state, device)))
}

// ---- rounds, settling, reach, and the text

// One round; how many words were told goes to `count`.
#[unsafe(no_mangle)]
pub extern "C" fn bench_for_header_round(
    plan: &[u8],
    old: &[u32],
    next: &mut [u32],
    sent: &mut [u32],
    told: &mut [u32],
    count: &mut u32,
) -> u32
    ensures { Gives plan.now (λ p. Plays p old.now) (areas next.old sent.old told.old) result count.new (areas next.new sent.new told.new) }
{
    let answer = over(plan, &mut |p| bench::round(p, old, next, sent, told));
    number_and_value(answer, count)
}

// Rounds until no port waits; how many goes to `rounds`.
#[unsafe(no_mangle)]
#[tactic(auto, using(crate::proofs::Told::refused_rounds))]
pub extern "C" fn bench_for_header_settle(
    plan: &[u8],
    state: &mut [u32],
    allowance: u32,
    rounds: &mut u32,
) -> u32
    ensures { Gives plan.now (λ p before. SettlesOwn p before allowance) state.old result rounds.new state.new }
{
    let answer = over(plan, &mut |p| settle(p, state, allowance));
    *rounds = rounds_in(allowance, answer);
    number(answer)
}

// The second area is made here: one that C lends could be the state itself.
fn settle(plan: Plan, state: &mut [u32], allowance: u32) -> Result<u32, Refusal>
    ensures { SettlesOwn plan state.old allowance (number_in result) (rounds_in allowance result) state.new }
{
    let mut second = [0u32; bench::WORDS];
    bench::settle(plan, state, &mut second, allowance)
}

// The rounds that were played: all that were allowed where a port still waits.
fn rounds_in(allowance: u32, answer: Result<u32, Refusal>) -> u32
    ensures { result ≡ rounds_in allowance answer }
{
    match answer {
        Ok(played) => played,
        Err(Refusal::StillWaits) => allowance,
        Err(_) => 0,
    }
}

// The devices that interrupts of k reach from a device: how many, the set of them, and how many ports
// were examined.
#[unsafe(no_mangle)]
pub extern "C" fn bench_for_header_reach_ports(
    plan: &[u8],
    state: &[u32],
    device: usize,
    k: u32,
    devices: &mut u32,
    set: &mut u32,
    examined: &mut u32,
) -> u32
    ensures { OnFile plan.now (λ p. Reaches p state.now device k result devices.new set.new examined.new) result ((devices.new ≡ 0) × (set.new ≡ 0) × (examined.new ≡ 0)) }
{
    let answer = over(plan, &mut |p| reach::reach(p, state, device, k));
    let none = Reach {
        value: 0,
        set: 0,
        examined: 0,
    };
    let reached = answer.unwrap_or(none);
    *devices = reached.value;
    *set = reached.set;
    *examined = reached.examined;
    number(answer)
}

// The text that the program settle prints for a file; its length goes to `used`. The areas for states
// are made here, as for settling.
#[unsafe(no_mangle)]
pub extern "C" fn bench_for_header_report(file: &[u8], text: &mut [u8], used: &mut u32) -> u32
    ensures { ReportsOwn file.now text.old result used.new text.new }
{
    let mut state = [0u32; bench::WORDS];
    let mut second = [0u32; bench::WORDS];
    number_and_value(report::report(file, &mut state, &mut second, text), used)
}

// ---- why an interrupt got to a device, or not

// How many crossings away from a source each device is; the most goes to `most`.
#[unsafe(no_mangle)]
pub extern "C" fn bench_for_header_crossings(
    plan: &[u8],
    state: &[u32],
    source: usize,
    k: u32,
    crossings: &mut [u32],
    most: &mut u32,
) -> u32
    ensures { Gives plan.now (λ p. TellsCrossings p state.now source k) crossings.old result most.new crossings.new }
{
    let answer = over(
        plan,
        &mut |p| ways::crossings(p, state, source, k, crossings),
    );
    number_and_value(answer, most)
}

// The ports of a shortest chain from a source to a device; how many goes to `crossings`.
#[unsafe(no_mangle)]
pub extern "C" fn bench_for_header_chain(
    plan: &[u8],
    state: &[u32],
    source: usize,
    k: u32,
    device: usize,
    ports: &mut [u32],
    crossings: &mut u32,
) -> u32
    ensures { Gives plan.now (λ p. TellsChain p state.now k source device) ports.old result crossings.new ports.new }
{
    let answer = over(
        plan,
        &mut |p| ways::chain(p, state, source, k, device, ports),
    );
    number_and_value(answer, crossings)
}

// The cause at each port that leads out of what a source reaches; how many there are goes to `count`.
#[unsafe(no_mangle)]
pub extern "C" fn bench_for_header_cut(
    plan: &[u8],
    state: &[u32],
    source: usize,
    k: u32,
    causes: &mut [u32],
    count: &mut u32,
) -> u32
    ensures { Gives plan.now (λ p. TellsCut p state.now source k) causes.old result count.new causes.new }
{
    let answer = over(plan, &mut |p| ways::cut(p, state, source, k, causes));
    number_and_value(answer, count)
}

// The text that the program why prints for a plan file, a state file's bytes unless `given` is 0, and
// three numbers; its length goes to `used`.
#[unsafe(no_mangle)]
pub extern "C" fn bench_for_header_why(
    plan: &[u8],
    given: u32,
    state: &[u8],
    source: u32,
    k: u32,
    device: u32,
    text: &mut [u8],
    used: &mut u32,
) -> u32
    ensures { TellsWhy plan.now (nonzero given) state.now source k device text.old result used.new text.new }
{
    let bytes = (given != 0).then_some(state);
    number_and_value(reasons::why(plan, bytes, source, k, device, text), used)
}

// ---- a damaged plan

// Rescues a plan file: the number, the block that it is at, and the length of the text.
#[unsafe(no_mangle)]
pub extern "C" fn bench_for_header_rescue(
    file: &[u8],
    mended: &mut [u8],
    text: &mut [u8],
    block: &mut u32,
    used: &mut u32,
) -> u32
    ensures { Rescues file.now (lent mended.old text.old) result block.new used.new (lent mended.new text.new) }
{
    let rescued = mend::rescue(file, mended, text);
    *used = rescued.unwrap_or(0);
    number_and_block(rescued, block)
}
