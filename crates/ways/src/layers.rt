// The walk by layers: a device is in layer n where it is n crossings away from the first one, and no
// fewer.
ghost use Rattle.std.specs.Prelude.{◌≡◌, false};
ghost use Rattle.lists.specs.Table.{table};
ghost use Rattle.ways.specs.Inner.Layers.{meet as layers_meet, goes_on, spread as layers_spread, layer as layers_layer, layers, behind, Greatest};

use crate::{CROSSINGS, UNREACHED};
use plan::{DeviceNo, PortNo};

// The role of each device, and the device that each port leads to, or 32, as the rules of `layers` have
// it. So the same walk goes back where `to` has the devices that lead to each port's own. Nobody compares or
// prints it.
#[derive(Clone, Copy)]
pub(crate) struct Roads<'a> {
    pub role: &'a [u8; 32],
    pub to: &'a [usize; 256],
}

impl<'a> Roads<'a> {
    // The layer of each device, from a first device on. A device that none leads to stays unreached.
    pub(crate) fn walk(&self, from: DeviceNo, far: &mut [u32; CROSSINGS])
        ensures { far.new ≡ layers self.now.to.now self.now.role.now from }
    {
        *far = [UNREACHED; CROSSINGS];
        far[from.index()] = 0;
        for n in 0..31 {
            if !self.layer(n, far) {
                return;
            }
        }
    }

    // The devices of layer n pass on. Answers whether any did: where none does there is no layer behind.
    fn layer(&self, n: u8, far: &mut [u32; CROSSINGS]) -> bool
        ensures { (far.new ≡ layers_layer self.now.to.now self.now.role.now n far.old) × (result ≡ false → far.new ≡ far.old) }
    {
        let mut any = false;
        for d in 0..CROSSINGS {
            let device = DeviceNo::new(d).unwrap();
            if self.goes_on(n, device, far) {
                self.spread(n, device, far);
                any = true;
            }
        }
        any
    }

    // Is a device in layer n, and does it pass on? The first device does, whatever it is, and routers do.
    #[tactic(auto, unfolding(crate::specs::Inner::Layers::goes_on))]
    fn goes_on(&self, n: u8, device: DeviceNo, far: &[u32; CROSSINGS]) -> bool
        ensures { result ≡ goes_on self.now.role.now n device far.now }
    {
        let d = device.index();
        far[d] == u32::from(n) && (n == 0 || self.role[d] == 1)
    }

    // What the ports of a device lead to is met from layer n.
    fn spread(&self, n: u8, device: DeviceNo, far: &mut [u32; CROSSINGS])
        ensures { far.new ≡ layers_spread self.now.to.now n device far.old }
    {
        let to = self.to;
        let first = 8 * device.index();
        for e in &to[first..first + 8] {
            meet(n, *e, far);
        }
    }
}

// Device e is in the layer behind n, if it exists and was in none.
#[tactic(auto, unfolding(crate::specs::Inner::Layers::meet))]
fn meet(n: u8, e: usize, far: &mut [u32; CROSSINGS])
    ensures { far.new ≡ layers_meet n e far.old }
{
    if e < CROSSINGS && far[e] == UNREACHED {
        far[e] = u32::from(n) + 1;
    }
}

// For each port the device that leads to its own by the port at its other end, or 32.
pub(crate) fn behind_all(peers: &[[u16; 8]; 32], to: &[usize; 256]) -> [usize; 256]
    ensures { result ≡ table 256 (behind peers.now to.now) }
{
    std::array::from_fn(|q| behind_one(peers, to, PortNo::new(q).unwrap()))
}

#[tactic(auto, unfolding(crate::specs::Inner::Layers::behind))]
fn behind_one(peers: &[[u16; 8]; 32], to: &[usize; 256], port: PortNo) -> usize
    ensures { result ≡ behind peers.now to.now port }
{
    let q = port.index();
    let Some(other) = PortNo::new(usize::from(peers[q / 8][q % 8])) else {
        return 32;
    };
    if 32 <= to[other.index()] {
        return 32;
    }
    other.device().index()
}

// The last layer that has a device. The library's `max` would have a case for no device at all, which
// there is not.
pub(crate) fn greatest(far: &[u32; CROSSINGS]) -> u32
    ensures { Greatest 32 far.now result }
{
    let mut most = 0;
    for n in far {
        if most < *n && *n < UNREACHED {
            most = *n;
        }
    }
    most
}
