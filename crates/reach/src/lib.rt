// The reach of an identifier: the devices that its interrupts come to from a source.
#![tactic(auto)]

ghost use Rattle.answers.specs.Ordered.{Ordered};
ghost use Rattle.answers.specs.Refusals.{number_in};
ghost use Rattle.reach.specs.Reach.{source_asks, devices_in, set_in, examined_in, Reaches};

pub mod answer;
mod visits;

use answer::Reach;
use answers::Refusal;
use plan::{DeviceNo, Plan};
use visits::Net;
pub use visits::ahead_all;

// The devices that interrupts of identifier k reach from a device, by running and permitted links,
// through routers, and how many ports were examined. Refused by 1, 2, 4, 5 and 6. The plan comes by value, as
// at every public door of the project.
pub fn reach(plan: Plan, state: &[u32], device: usize, k: u32) -> Result<Reach, Refusal>
    ensures { Reaches plan state.now device k (number_in result) (devices_in result) (set_in result) (examined_in result) }
{
    state::refusal(&plan, state)?;
    source_refusal(plan.core.devices, &plan.core.source, device, k)?;
    let alone = bits::join(0, device as u32);
    // A sound state has all its words, and a plan has room for 32 devices.
    let net = Net {
        plan: &plan,
        state: state.as_array().unwrap(),
        k,
    };
    let seen = net.each_port(DeviceNo::new(device).unwrap(), alone);
    Ok(Reach {
        value: bits::count(seen.set),
        set: seen.set,
        examined: seen.examined,
    })
}

// The first of 4, 5 and 6 that a source and an identifier are refused by, where there are n devices and
// these are the identifiers that each is a source of.
pub fn source_refusal(n: usize, sources: &[u32], device: usize, k: u32) -> Result<(), Refusal>
    ensures { Ordered (source_asks n sources.now device k) (number_in result) }
{
    if n <= device {
        return Err(Refusal::NoSuchDevice);
    }
    if 31 < k {
        return Err(Refusal::NoSuchIdentifier);
    }
    // A device behind the list is a source of nothing.
    if sources.len() <= device {
        return Err(Refusal::NotItsOwn);
    }
    if bits::get(sources[device], k) != 1 {
        return Err(Refusal::NotItsOwn);
    }
    Ok(())
}
