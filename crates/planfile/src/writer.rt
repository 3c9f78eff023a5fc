// A plan written as the bytes of its file.
ghost use Rattle.std.specs.Prelude.{◌≡◌, ◌+◌, ◌*◌, ◌≤◌, length};
ghost use Rattle.answers.specs.Refusals.{number_in};
ghost use Rattle.plan.specs.Inner.File.{file_of};
ghost use Rattle.plan.specs.Writing.{Writes};

use crate::{block, device, header};
use answers::Refusal;
use plan::{DeviceNo, Plan};

// Writes the plan's file over the whole area. A plan that no accepted file holds is refused as not held,
// an area that is not of the file's length as a wrong one, and the area is then as it was. The plan comes
// by value at the door.
pub fn write(plan: Plan, area: &mut [u8]) -> Result<(), Refusal>
    ensures { Writes plan area.old (number_in result) area.new }
{
    if !plan.is_held() {
        return Err(Refusal::NotHeld);
    }
    if area.len() != block::BLOCK * (1 + plan.core.devices) {
        return Err(Refusal::WrongArea);
    }
    put_file(&plan, area);
    Ok(())
}

// Writes the whole area, which is as long as the plan's file: a length that is reckoned, and no type has.
fn put_file(plan: &Plan, area: &mut [u8])
    requires { (plan.now.core.devices ≤ 32) × (length area.old ≡ 512 * (1 + plan.now.core.devices)) }
    ensures { area.new ≡ file_of plan.now }
{
    area[..block::BLOCK].copy_from_slice(&header::made(&plan::header_of(plan.core)));
    for d in 0..plan.core.devices {
        let start = block::BLOCK * (1 + d);
        let device = DeviceNo::new(d).unwrap();
        let made = device::made(&plan.core, &plan.peers, &plan.barred, device);
        area[start..start + block::BLOCK].copy_from_slice(&made);
    }
}
