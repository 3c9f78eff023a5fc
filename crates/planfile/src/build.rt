// The parts of a plan from the blocks of a file in which nothing is wrong but perhaps a connection.
ghost use Rattle.std.specs.Prelude.{◌≡◌, ℕ, ◌+◌, ◌*◌, ◌/◌, ◌<◌, ◌≤◌, length, get_or};
ghost use Rattle.lists.specs.Table.{table};
ghost use Rattle.plan.specs.Fields.{peer_number};
ghost use Rattle.plan.specs.Refusals.{device_block, count_in};
ghost use Rattle.plan.specs.Reading.{plan_of};
ghost use Rattle.planfile.specs.Parts.{peer_read};

use crate::block::Block;
use crate::{block, device, header};
use plan::Core;

// What is made of each of the first n of so many places, and at the others what stands for none. An array
// made by `from_fn` would be no plainer: it would ask each place whether it is below n.
fn each<T: Copy, const N: usize, F: Fn(usize) -> T>(n: usize, none: T, of: F) -> [T; N]
    requires room { n ≤ N }
    requires callable { (i : ℕ) → i < n → F.pre of i }
    ensures long { length result ≡ N }
    ensures made { (i : ℕ) → i < n → F.post of i (get_or result i none) }
    ensures absent { (i : ℕ) → n ≤ i → get_or result i none ≡ none }
{
    let mut out = [none; N];
    for i in 0..n {
        out[i] = of(i);
    }
    out
}

// The peer of port p of a device, by its block: 8 x the peer's device + its port, or 256. The definition
// `peer_number` takes a block and p, as those of `device` do.
#[tactic(auto, unfolding(plan::specs::Fields::peer_number))]
fn peer(block: &Block, p: usize) -> u16
    requires { p < 8 }
    ensures { result ≡ peer_number block.now p }
{
    let at = device::ENTRIES + 4 * p;
    let device = u16::from(block[at + device::PEER_DEVICE]);
    if device == 255 {
        return plan::NOBODY;
    }
    8 * device + u16::from(block[at + device::PEER_PORT])
}

// The same of any file, device and port: nobody, where the file has no such block, and of no such port.
#[tactic(auto, unfolding(crate::specs::Parts::peer_read))]
pub fn peer_at(file: &[u8], d: usize, p: usize) -> u16
    ensures { result ≡ peer_read file.now d p }
{
    let blocks = file.len() / block::BLOCK;
    if blocks <= d {
        return plan::NOBODY;
    }
    if blocks - d == 1 {
        return plan::NOBODY;
    }
    if 8 <= p {
        return plan::NOBODY;
    }
    peer(block::of(file, 1 + d), p)
}

// The peers of the ports of device d.
fn peer_row(file: &[u8], d: usize) -> [u16; 8]
    requires { 1 + d < length file.now / 512 }
    ensures { result ≡ table 8 (peer_number (device_block file.now d)) }
{
    let block = block::of(file, 1 + d);
    each(8, plan::NOBODY, |p| peer(block, p))
}

// A file that has as many blocks as its header says, of up to 32 devices. Like all structs of lent things it
// derives what copies it alone: nobody compares or prints it.
#[derive(Clone, Copy)]
pub(crate) struct Blocks<'a> {
    pub file: &'a [u8],
    ghost few: { count_in file.now ≤ 32 },
    ghost whole: { length file.now ≡ 512 * (1 + count_in file.now) },
}

impl<'a> Blocks<'a> {
    // The numbers of a plan.
    pub(crate) fn core(&self) -> Core
        ensures { result ≡ (plan_of self.now.file.now).core }
    {
        let file = self.file;
        let header = header::read(block::of(file, 0));
        let n = header.devices;
        let role = each(n, 0, |d| block::of(file, 1 + d)[device::ROLE]);
        let ports = each(n, 0, |d| block::of(file, 1 + d)[device::PORTS]);
        let source = each(
            n,
            0,
            |d| block::four(block::of(file, 1 + d), device::SOURCE),
        );
        let handler = each(
            n,
            0,
            |d| block::four(block::of(file, 1 + d), device::HANDLER),
        );
        let permissions = each(
            8 * n,
            0,
            |q| device::permissions(block::of(file, 1 + q / 8), q % 8),
        );
        plan::core_with(header, role, ports, source, handler, permissions)
    }

    // The peers of every device and port.
    pub(crate) fn peers(&self) -> [[u16; 8]; 32]
        ensures { result ≡ (plan_of self.now.file.now).peers }
    {
        let file = self.file;
        let n = usize::from(file[header::DEVICES]);
        each(
            n,
            [plan::NOBODY; 8],
            |d|
                requires { 1 + d < length file.now / 512 }
                ensures { result ≡ table 8 (peer_number (device_block file.entry.now d)) }
            { peer_row(file, d) },
        )
    }

    // What every port bars, by 16 x device + 2 x port + kind. By device and then by mask, and not by `each`: the
    // 64 bytes of a device stand together, here as in its block, so that they are copied as one.
    pub(crate) fn barred(&self) -> [u32; 512]
        ensures { result ≡ (plan_of self.now.file.now).barred }
    {
        let file = self.file;
        let n = usize::from(file[header::DEVICES]);
        let mut out = [0; 512];
        for d in 0..n {
            let block = block::of(file, 1 + d);
            for j in 0..16 {
                out[16 * d + j] = block::four(block, device::BARS + 4 * j);
            }
        }
        out
    }
}
