// The ways of interrupts over a network as it stands: how many crossings away each device is, a shortest
// chain of ports to one, and the ports that lead out of what is reached. Areas are the caller's; a refusal
// changes none of them.
//
// Each device is looked at once a layer, of which there are 31 at most. Each port is looked at to see where
// it leads, and in its device's layer: twice in all for crossings; for a cut once more; and for a chain too,
// to see what leads to its device, and on the devices of the chain up to seven ports once again.
#![tactic(auto)]

ghost use Rattle.std.specs.Prelude.{◌≡◌};
ghost use Rattle.answers.specs.Ordered.{Ordered};
ghost use Rattle.answers.specs.Refusals.{number_in, value_in};
ghost use Rattle.ways.specs.Calls.{question_asks};
ghost use Rattle.ways.specs.Crossings.{TellsCrossings};
ghost use Rattle.ways.specs.Chain.{TellsChain};
ghost use Rattle.ways.specs.Cut.{TellsCut, number_of, Names};

mod causes;
mod layers;
mod picks;

use answers::Refusal;
use causes::Border;
use layers::Roads;
use picks::Slope;
use plan::{DeviceNo, Plan};

// The words of the areas: one for each device, one for each port of a chain and one behind them, and one
// for each port.
pub const CROSSINGS: usize = 32;

pub const CHAIN: usize = 32;

pub const CUT: usize = 256;

// No device is so many crossings away: it stands for none, as areas of C have no `Option` and the rules
// have a number for it.
pub const UNREACHED: u32 = 32;

// What stands behind the ports of a chain, for the same reason.
pub const NOBODY: u32 = 256;

// Why nothing goes over a port: it does not run, it may not send, the port at its other end may not
// receive, its device does not forward, and the port at its other end bars the identifier. Numbers are
// names: the last is looked for before the one in front of it.
#[derive(Clone, Copy, Debug, PartialEq, Eq)]
pub enum Cause {
    Stopped = 1,
    MayNotSend = 2,
    MayNotReceive = 3,
    DoesNotForward = 4,
    Barred = 5,
}

// A number that is no cause.
#[derive(Clone, Copy, Debug, PartialEq, Eq)]
pub struct UnknownCause(pub u32);

// Its number in an area, where 0 stands for none.
impl From<Cause> for u32 {
    ghost from_gives = { λ cause number. number ≡ number_of cause };

    fn from(cause: Cause) -> u32 {
        cause as u32
    }
}

impl TryFrom<u32> for Cause {
    type Error = UnknownCause;

    ghost try_from_gives = { Names };

    fn try_from(number: u32) -> Result<Self, UnknownCause> {
        match number {
            1 => Ok(Cause::Stopped),
            2 => Ok(Cause::MayNotSend),
            3 => Ok(Cause::MayNotReceive),
            4 => Ok(Cause::DoesNotForward),
            5 => Ok(Cause::Barred),
            _ => Err(UnknownCause(number)),
        }
    }
}

// What a source, an identifier and a device are refused by.
fn question_refusal(plan: &Plan, source: usize, k: u32, device: usize) -> Result<(), Refusal>
    ensures { Ordered (question_asks plan.now source k device) (number_in result) }
{
    if plan.core.devices <= device {
        return Err(Refusal::NoSuchDevice);
    }
    reach::source_refusal(plan.core.devices, &plan.core.source, source, k)
}

// In the three calls the plan comes by value, as at every public door of the project, and is lent from there
// on.

// The least number of crossings from a source to each device for interrupts of k, and the greatest of
// them, D. Refused by 1, 2, 3, 4, 5 and 6.
pub fn crossings(
    plan: Plan,
    state: &[u32],
    source: usize,
    k: u32,
    far: &mut [u32],
) -> Result<u32, Refusal>
    ensures { TellsCrossings plan state.now source k far.old (number_in result) (value_in result) far.new }
{
    state::refusal(&plan, state)?;
    let Some(far) = far.as_mut_array::<CROSSINGS>() else {
        return Err(Refusal::WrongArea);
    };
    question_refusal(&plan, source, k, source)?;
    let roads = Roads {
        role: &plan.core.role,
        to: &reach::ahead_all(&plan, state, k),
    };
    roads.walk(DeviceNo::new(source).unwrap(), far);
    Ok(layers::greatest(far))
}

// A shortest chain of ports from a source to a device for interrupts of k, of several the first by port
// numbers. It is picked from the source on by how many crossings away from the device the others are.
// Refused by 1, 2, 3, 4, 5 and 6.
pub fn chain(
    plan: Plan,
    state: &[u32],
    source: usize,
    k: u32,
    device: usize,
    ports: &mut [u32],
) -> Result<u32, Refusal>
    ensures { TellsChain plan state.now k source device ports.old (number_in result) (value_in result) ports.new }
{
    state::refusal(&plan, state)?;
    let Some(ports) = ports.as_mut_array::<CHAIN>() else {
        return Err(Refusal::WrongArea);
    };
    question_refusal(&plan, source, k, device)?;
    let to = reach::ahead_all(&plan, state, k);
    let back = Roads {
        role: &plan.core.role,
        to: &layers::behind_all(&plan.peers, &to),
    };
    let mut far = [UNREACHED; CROSSINGS];
    back.walk(DeviceNo::new(device).unwrap(), &mut far);
    *ports = [NOBODY; CHAIN];
    let n = far[source];
    if n < UNREACHED {
        let slope = Slope {
            role: &plan.core.role,
            to: &to,
            far: &far,
        };
        slope.follow(DeviceNo::new(source).unwrap(), ports);
    }
    Ok(n)
}

// The cause at each port that leads out of what a source reaches for interrupts of k, 0 at all others, and
// how many lead out. Refused by 1, 2, 3, 4, 5 and 6.
pub fn cut(
    plan: Plan,
    state: &[u32],
    source: usize,
    k: u32,
    causes: &mut [u32],
) -> Result<u32, Refusal>
    ensures { TellsCut plan state.now source k causes.old (number_in result) (value_in result) causes.new }
{
    state::refusal(&plan, state)?;
    let Some(causes) = causes.as_mut_array::<CUT>() else {
        return Err(Refusal::WrongArea);
    };
    question_refusal(&plan, source, k, source)?;
    let roads = Roads {
        role: &plan.core.role,
        to: &reach::ahead_all(&plan, state, k),
    };
    let mut far = [UNREACHED; CROSSINGS];
    roads.walk(DeviceNo::new(source).unwrap(), &mut far);
    // A sound state has all its words.
    let border = Border {
        plan: &plan,
        state: state.as_array().unwrap(),
        far: &far,
        k,
    };
    Ok(border.put_causes(causes))
}
