// The trials: for each device and identifier the network starts afresh, the device requests, and it
// settles. The plan is checked once for all of them, and no state is, since each is made here.
ghost use Rattle.std.specs.Prelude.{◌≡◌, ◌≤◌, ◌<◌, ℕ, get_or};
ghost use Rattle.answers.specs.Refusals.{number_in};
ghost use Rattle.lists.specs.Table.{table};
ghost use Rattle.plan.specs.Reading.{Held};
ghost use Rattle.plan.specs.declared.Plan.{Plan};
ghost use Rattle.state.specs.State.{words};
ghost use Rattle.bench.specs.Trials.{holders as trials_holders, Tries, Finds, TriesAll, lent};
ghost use Rattle.bench.specs.Inner.Trial.{Comes};

use crate::{FOUND, ROUNDS, settling};
use answers::Refusal;
use device::Kind;
use plan::Plan;
use state::{DEVICE, WORDS, Words};

// What comes of a request that is not refused, and how many devices hold the identifier then.
#[derive(Clone, Copy, Debug, PartialEq, Eq)]
enum Tried {
    Settled { rounds: u32, held: u32 },
    Waiting { held: u32 },
}

// How many of the first n devices hold identifier k. The library's `sum` would ask for the bound of the
// whole in front; the loop has it as it goes.
fn holders(n: usize, state: &Words, k: u32) -> u32
    requires { n ≤ 32 }
    ensures { result ≡ trials_holders n k state.now }
{
    let mut held: u32 = 0;
    for d in 0..n {
        held += bits::get(state[DEVICE * d], k);
    }
    held
}

// Device d and one identifier. Most are refused by what the plan says, before anything is copied or
// written. A device comes by its number, since the plan may not have it; that it is below 32, and that the plan
// is held, is known of the loop around.
fn attempt(
    plan: &Plan,
    state: &mut Words,
    second: &mut Words,
    d: usize,
    k: u32,
) -> Result<Tried, Refusal>
    requires { Held plan.now × (second.old ≡ table words (λ _. 0)) × (d < 32) }
    ensures { Comes plan.now d k result × (second.new ≡ table words (λ _. 0)) }
{
    if plan.core.devices <= d {
        return Err(Refusal::NoSuchDevice);
    }
    calls::own_refusal(plan.core.source[d], k)?;
    state::begin(&plan.peers, state);
    calls::send_refusal(
        state,
        &plan.core.permissions,
        d,
        Kind::Interrupt.number(),
        k,
    )?;
    calls::mark_and_queue(&plan.core, Kind::Interrupt, state, d, k);
    let settled = settling::run(plan, state, second, ROUNDS);
    let held = holders(plan.core.devices, state, k);
    match settled {
        Ok(rounds) => Ok(Tried::Settled { rounds, held }),
        Err(_) => Ok(Tried::Waiting { held }),
    }
}

// The three words of what is found.
fn three_words(found: Result<Tried, Refusal>) -> [u32; 3]
    ensures { (plan : Plan) (d k : ℕ) → Comes plan d k found → Tries plan d k (get_or result 0 0) (get_or result 1 0) (get_or result 2 0) }
{
    match found {
        Ok(Tried::Settled { rounds, held }) => [0, rounds, held],
        Ok(Tried::Waiting { held }) => [u32::from(Refusal::StillWaits), ROUNDS, held],
        Err(refusal) => [u32::from(refusal), 0, 0],
    }
}

// All places, with no checks. C is lent one area for all, three words a place, so a place is also where its
// words stand.
fn try_all(plan: &Plan, state: &mut Words, second: &mut Words, found: &mut [u32; FOUND])
    requires { Held plan.now × (second.old ≡ table words (λ _. 0)) }
    ensures { Finds plan.now found.new × (second.new ≡ table words (λ _. 0)) }
{
    for i in 0..1024 {
        let place = three_words(attempt(plan, state, second, i / 32, (i % 32) as u32));
        // One by one: copied as a part they would wait in memory first.
        found[3 * i] = place[0];
        found[3 * i + 1] = place[1];
        found[3 * i + 2] = place[2];
    }
}

// ---- the public door

// What is found of each of the 1,024 places, 32 x device + identifier: the network starts afresh,
// the device requests, and it settles. Three words a place: what the request is answered with, or
// 12 where something waits still after 4,096 rounds; the rounds; and how many devices then hold the
// identifier. The other two areas are for the states, and end as zeros. The plan comes by value, as at every
// public door of the project.
pub fn trials(
    plan: Plan,
    state: &mut [u32],
    second: &mut [u32],
    found: &mut [u32],
) -> Result<(), Refusal>
    ensures { TriesAll plan (lent state.old second.old found.old) (number_in result) (lent state.new second.new found.new) }
{
    if !plan.is_held() {
        return Err(Refusal::NotHeld);
    }
    let Some(state) = state.as_mut_array::<WORDS>() else {
        return Err(Refusal::WrongArea);
    };
    let Some(second) = second.as_mut_array::<WORDS>() else {
        return Err(Refusal::WrongArea);
    };
    let Some(found) = found.as_mut_array::<FOUND>() else {
        return Err(Refusal::WrongArea);
    };
    areas::fill(second, 0);
    try_all(&plan, state, second, found);
    areas::fill(state, 0);
    Ok(())
}
