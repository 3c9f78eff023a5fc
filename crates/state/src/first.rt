// The state that every run starts from.
ghost use Rattle.std.specs.Prelude.{◌≡◌};
ghost use Rattle.answers.specs.Refusals.{number_in};
ghost use Rattle.state.specs.Start.{start_of, begun, Starts};

use crate::{PORT, PORTS, RUNNING, WORDS, Words};
use answers::Refusal;
use plan::Plan;

// The start state: every connected port runs, and all else is 0. The plan comes by value at the door.
pub fn start(plan: Plan, state: &mut [u32]) -> Result<(), Refusal>
    ensures { Starts plan state.old (number_in result) state.new }
{
    if !plan.is_held() {
        return Err(Refusal::NotHeld);
    }
    let Some(words) = state.as_mut_array::<WORDS>() else {
        return Err(Refusal::WrongArea);
    };
    write_first(&plan.peers, words);
    Ok(())
}

// The start state of ports with these peers, for whoever has checked the plan. An area of another
// length stays as it was.
#[tactic(auto, unfolding(crate::specs::Start::begun))]
pub fn begin(peers: &[[u16; 8]; 32], state: &mut [u32])
    ensures { state.new ≡ begun peers.now state.old }
{
    let Some(words) = state.as_mut_array::<WORDS>() else {
        return;
    };
    write_first(peers, words);
}

// A port's flag is one word of its four, so the state is walked by ports.
fn write_first(peers: &[[u16; 8]; 32], state: &mut Words)
    ensures { state.new ≡ start_of peers.now }
{
    state.fill(0);
    for q in 0..256 {
        if peers[q / 8][q % 8] != plan::NOBODY {
            state[PORTS + PORT * q + RUNNING] = 1;
        }
    }
}
