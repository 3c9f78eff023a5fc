// A chain picked port by port, each the first that leads nearer to the end.
ghost use Rattle.std.specs.Prelude.{◌≡◌, ◌*◌, ◌<◌, ◌++◌, drop, get_or};
ghost use Rattle.ways.specs.Inner.Picked.{nearer as picked_nearer, pick as picked_pick, picked, Downhill};

use crate::{CHAIN, CROSSINGS};
use plan::{DeviceNo, PortNo};

// The role of each device, the device that each port leads to, or 32, and how many crossings away from
// the end each device is. Nobody compares or prints it.
#[derive(Clone, Copy)]
pub(crate) struct Slope<'a> {
    pub role: &'a [u8; 32],
    pub to: &'a [usize; 256],
    pub far: &'a [u32; CROSSINGS],
}

impl<'a> Slope<'a> {
    // Does port q lead to a device that is n crossings away from the end, and may be passed?
    #[tactic(auto, unfolding(crate::specs::Inner::Picked::nearer))]
    fn nearer(&self, n: u32, q: PortNo) -> bool
        ensures { result ≡ picked_nearer self.now.role.now self.now.to.now self.now.far.now n q }
    {
        let e = self.to[q.index()];
        e < CROSSINGS && self.far[e] == n && (n == 0 || self.role[e] == 1)
    }

    // The first such port of a device, as a place in the tables. The last one is not looked at: if no other is,
    // it is such a port.
    fn pick(&self, n: u32, device: DeviceNo) -> usize
        ensures { (result ≡ picked_pick self.now.role.now self.now.to.now self.now.far.now n 7 (8 * device)) × (result < 256) }
    {
        let first = 8 * device.index();
        let last = first + 7;
        (first..last)
            .find(|q| self.nearer(n, PortNo::new(*q).unwrap()))
            .unwrap_or(last)
    }

    // The chain from a device on, in front of its area, as many ports as crossings.
    pub(crate) fn follow(&self, from: DeviceNo, ports: &mut [u32; CHAIN])
        requires { (get_or self.now.far.now from 0 < 32) × Downhill self.now.role.now self.now.to.now self.now.far.now }
        ensures { ports.new ≡ picked self.now.role.now self.now.to.now self.now.far.now (get_or self.now.far.now from 0) from ++ drop (get_or self.now.far.now from 0) ports.old }
    {
        let n = self.far[from.index()];
        let mut at = from;
        // A place of the area is also a number of crossings, so it is counted.
        for i in 0..n {
            let q = self.pick(n - 1 - i, at);
            ports[i as usize] = q as u32;
            at = DeviceNo::new(self.to[q]).unwrap();
        }
    }
}
