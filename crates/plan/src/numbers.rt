// Numbers of devices and of ports that a network has room for: once one is made, no function asks
// again.
ghost use Rattle.std.specs.Prelude.{◌≡◌, ◌+◌, ◌*◌, ◌/◌, ◌<◌, ◌↔◌, ℕ, IsSome, IfSome};

use std::marker::Model;

// The number of a device, 0 to 31.
#[derive(Clone, Copy, Debug, PartialEq, Eq)]
pub struct DeviceNo {
    number: usize,
}

impl Model for DeviceNo {
    ghost Value = { ℕ };

    ghost view = { λ d. d.number };

    ghost invariant = { λ d. d.number < 32 };

    ghost inverse = { λ n. record { number = n } };
}

impl DeviceNo {
    pub fn new(number: usize) -> Option<DeviceNo>
        ensures there { IsSome result ↔ (number < 32) }
        ensures number { IfSome result (λ d. d ≡ number) }
    {
        if number < 32 {
            return Some(DeviceNo { number });
        }
        None
    }

    pub fn index(self) -> usize
        ensures equal { result ≡ self }
        ensures below { result < 32 }
    {
        self.number
    }

    // Its port p, of which it has up to 8.
    pub fn port(self, p: usize) -> Option<PortNo>
        ensures there { IsSome result ↔ (p < 8) }
        ensures number { IfSome result (λ q. q ≡ 8 * self + p) }
    {
        if p < 8 {
            return Some(PortNo {
                number: 8 * self.number + p,
            });
        }
        None
    }
}

// The number of a port among those of all devices: 8 x its device + its number there.
#[derive(Clone, Copy, Debug, PartialEq, Eq)]
pub struct PortNo {
    number: usize,
}

impl Model for PortNo {
    ghost Value = { ℕ };

    ghost view = { λ q. q.number };

    ghost invariant = { λ q. q.number < 256 };

    ghost inverse = { λ n. record { number = n } };
}

impl PortNo {
    pub fn new(number: usize) -> Option<PortNo>
        ensures there { IsSome result ↔ (number < 256) }
        ensures number { IfSome result (λ q. q ≡ number) }
    {
        if number < 256 {
            return Some(PortNo { number });
        }
        None
    }

    pub fn index(self) -> usize
        ensures equal { result ≡ self }
        ensures below { result < 256 }
    {
        self.number
    }

    // The device that has it.
    pub fn device(self) -> DeviceNo
        ensures { result ≡ self / 8 }
    {
        DeviceNo {
            number: self.number / 8,
        }
    }
}
