// Settling: rounds are played until no port waits. Two areas take turns as the state, so that a round
// copies nothing back, and the words told have no room, since nobody reads them.
ghost use Rattle.std.specs.Prelude.{◌≡◌, cond, eqb, ◌%◌, ◌≤◌};
ghost use Rattle.answers.specs.Decides.{Decides};
ghost use Rattle.answers.specs.Refusals.{number_in};
ghost use Rattle.lists.specs.Table.{table};
ghost use Rattle.plan.specs.Reading.{Held};
ghost use Rattle.state.specs.State.{words};
ghost use Rattle.state.specs.Sound.{Sound};
ghost use Rattle.bench.specs.Round.{round};
ghost use Rattle.bench.specs.Inner.Idle.{Blank, Laid, Idles, Silent};
ghost use Rattle.bench.specs.Settling.{Quiet, most_rounds, rounds_in, Settles, pair};
ghost use Rattle.bench.specs.Inner.Ends.{Ends};

use crate::{NOTHING, ROUNDS, SENT, rounds};
use answers::Refusal;
use plan::Plan;
use state::{ACKNOWLEDGES, INTERRUPTS, LATELY, PORT, PORTS, TIMES, WORDS, Words};

// Does no port wait, where there are n devices? Three words of each are looked at, one after the other: in
// a closure for `all` that is no plainer.
fn quiet(n: usize, state: &Words) -> bool
    requires { (n ≤ 32) × Blank n state.now }
    ensures { Decides (Quiet state.now) result }
{
    for q in 0..8 * n {
        let at = PORTS + PORT * q;
        if state[at + INTERRUPTS] != 0 {
            return false;
        }
        if state[at + ACKNOWLEDGES] != 0 {
            return false;
        }
        if state[TIMES + q] % LATELY != 0 {
            return false;
        }
    }
    true
}

// An area is made the same as another.
#[tactic(auto, unfolding(areas::specs::Put::copied))]
fn copy(from: &Words, to: &mut Words)
    ensures { to.new ≡ from.now }
{
    areas::copy(from, to);
}

// Two areas that take turns: the state, and the one that the next state is built in.
#[derive(Drop)]
struct Turns<'a> {
    now: &'a mut Words,
    next: &'a mut Words,
}

impl<'a> Turns<'a> {
    // A round, after which the areas have changed roles.
    fn play(&mut self, plan: &Plan, sent: &mut [u32; SENT])
        requires { Laid plan.now × Idles plan.now self.old.now.now × Blank plan.now.core.devices self.old.next.now × Silent plan.now.core.devices plan.now.core.ports sent.old }
        ensures turned { (self.new.now.ghost_name ≡ self.old.next.ghost_name) × (self.new.next.ghost_name ≡ self.old.now.ghost_name) }
        ensures played { self.new.now.now ≡ (round plan.now self.old.now.now).next }
        ensures left { self.new.next.now ≡ self.old.now.now }
        ensures mute { Silent plan.now.core.devices plan.now.core.ports sent.new }
    {
        rounds::play(plan, self.now, self.next, sent, &mut []);
        std::mem::swap(&mut self.now, &mut self.next);
    }

    // After n rounds: the state ends in the area that it began in, and the other one as zeros.
    fn end(&mut self, n: u32)
        ensures now_at { self.new.now.ghost_name ≡ cond (eqb (n % 2) 0) self.old.now.ghost_name self.old.next.ghost_name }
        ensures next_at { self.new.next.ghost_name ≡ cond (eqb (n % 2) 0) self.old.next.ghost_name self.old.now.ghost_name }
        ensures left { self.new.now.now ≡ self.old.now.now }
        ensures cleared { self.new.next.now ≡ table words (λ _. 0) }
    {
        if n % 2 == 1 {
            copy(self.now, self.next);
            std::mem::swap(&mut self.now, &mut self.next);
        }
        *self.next = [0; WORDS];
    }

    // The settling, with no checks; the second area is all zeros. Each area is in the end where it was.
    fn settle(&mut self, plan: &Plan, allowance: u32) -> Result<u32, Refusal>
        requires { Held plan.now × Sound plan.now self.old.now.now × (self.old.next.now ≡ table words (λ _. 0)) × (allowance ≤ most_rounds) }
        ensures same_now { self.new.now.ghost_name ≡ self.old.now.ghost_name }
        ensures same_next { self.new.next.ghost_name ≡ self.old.next.ghost_name }
        ensures ends { Ends plan.now self.old.now.now allowance (number_in result) (rounds_in allowance result) (pair self.new.now.now self.new.next.now) }
    {
        let mut sent = [NOTHING; SENT];
        // It is counted until a state is quiet, which no range knows before.
        let mut n: u32 = 0;
        while !quiet(plan.core.devices, self.now) {
            if n == allowance {
                self.end(n);
                return Err(Refusal::StillWaits);
            }
            self.play(plan, &mut sent);
            n += 1;
        }
        self.end(n);
        Ok(n)
    }
}

// The settling of two areas, with no checks; the second one is all zeros. That the plan is held and the
// state sound is asked for by clauses: both are anybody's data, and the doors alone test them.
pub(crate) fn run(
    plan: &Plan,
    state: &mut Words,
    second: &mut Words,
    allowance: u32,
) -> Result<u32, Refusal>
    requires { Held plan.now × Sound plan.now state.old × (second.old ≡ table words (λ _. 0)) × (allowance ≤ most_rounds) }
    ensures { Ends plan.now state.old allowance (number_in result) (rounds_in allowance result) (pair state.new second.new) }
{
    let mut turns = Turns {
        now: state,
        next: second,
    };
    turns.settle(plan, allowance)
}

// ---- the public door

// Plays rounds of a plan until no port waits, at most as many as are allowed. The value is how many
// were played; the state is the one then reached, and second ends as zeros. The plan comes by value, as at
// every public door of the project.
pub fn settle(
    plan: Plan,
    state: &mut [u32],
    second: &mut [u32],
    allowance: u32,
) -> Result<u32, Refusal>
    ensures { Settles plan (pair state.old second.old) allowance (number_in result) (rounds_in allowance result) (pair state.new second.new) }
{
    state::refusal(&plan, state)?;
    let Some(second) = second.as_mut_array::<WORDS>() else {
        return Err(Refusal::WrongArea);
    };
    if allowance > ROUNDS {
        return Err(Refusal::TooManyRounds);
    }
    areas::fill(second, 0);
    // A state that is not refused is as long as a state.
    let state = state.as_mut_array::<WORDS>().unwrap();
    run(&plan, state, second, allowance)
}
