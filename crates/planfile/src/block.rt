// Any block of a plan file: its numbers, its check, its zeros, and how they are read and written.
ghost use Rattle.std.specs.Prelude.{◌≡◌, ◌+◌, ◌/◌, ◌<◌, ◌≤◌, length};
ghost use Rattle.plan.specs.Block.{block, number_at, check as block_check, checked as block_checked};
ghost use Rattle.plan.specs.Inner.File.{put_number, sealed};
ghost use Rattle.planfile.specs.Inner.Zeros.{zeros_in};

// How long a block is, and where two of its fields stand: its kind, and its check, which is the last.
pub const BLOCK: usize = 512;

pub type Block = [u8; BLOCK];

pub(crate) const KIND: usize = 0;

pub(crate) const CHECK: usize = 510;

// Block b of a file that has it in full.
pub(crate) fn of(file: &[u8], b: usize) -> &Block
    requires { b < length file.now / 512 }
    ensures { result.now ≡ block file.now b }
{
    let (blocks, _) = file.as_chunks::<BLOCK>();
    &blocks[b]
}

// ---- numbers: the low byte stands first

// The number of two bytes from i on.
pub(crate) fn two(block: &Block, i: usize) -> u16
    requires { i < 511 }
    ensures { result ≡ number_at block.now i 2 }
{
    u16::from_le_bytes([block[i], block[i + 1]])
}

// The number of four bytes from i on.
pub(crate) fn four(block: &Block, i: usize) -> u32
    requires { i < 509 }
    ensures { result ≡ number_at block.now i 4 }
{
    u32::from_le_bytes([block[i], block[i + 1], block[i + 2], block[i + 3]])
}

// Puts a number of so many bytes from i on; of a larger one the lowest bytes.
pub(crate) fn put(block: &mut Block, i: usize, width: usize, number: u32)
    requires { (width ≤ 4) × (i + width ≤ 512) }
    ensures { block.new ≡ put_number block.old i width number }
{
    block[i..i + width].copy_from_slice(&number.to_le_bytes()[..width]);
}

// ---- the check

// What the check has to be, by additions only: a small controller may have no room for products.
// Down from the last byte a running sum is taken at each place. Byte i is in those of places i to 0,
// so that in all of them together it counts i + 1 times, as its weight says. They come to 33,227,775
// at most, which fits 32 bits.
// Bytes are taken by two, which is quicker; 510 is even. The running sums of a pair are sum + high and
// sum + both: sum goes to sums, which counts twice in the end, and the pair's own part to own. The index
// goes down by two: an iterator over pairs, turned around, would be no plainer.
pub(crate) fn check(block: &Block) -> u16
    ensures { result ≡ block_check block.now }
{
    let mut sum: u32 = 0;
    let mut sums: u32 = 0;
    let mut own: u32 = 0;
    let mut i = CHECK;
    while i > 1 {
        i -= 2;
        let high = u32::from(block[i + 1]);
        let both = high + u32::from(block[i]);
        sums += sum;
        own += high + both;
        sum += both;
    }
    ((sums + sums + own) % 65521) as u16
}

#[tactic(auto, unfolding(plan::specs::Block::checked))]
pub(crate) fn checked(block: &Block) -> bool
    ensures { result ≡ block_checked block.now }
{
    two(block, CHECK) == check(block)
}

// Puts the check behind all other bytes.
#[tactic(auto, unfolding(plan::specs::Inner::File::sealed))]
pub(crate) fn seal(block: &mut Block)
    ensures { block.new ≡ sealed block.old }
{
    let sum = u32::from(check(block));
    put(block, CHECK, 2, sum);
}

// ---- zeros

// Are the bytes from one on up to another, which is not looked at, zero? All are merged into one, several
// at a time, where a search for one that is not would look at each.
pub(crate) fn zeros(from: usize, to: usize, block: &Block) -> bool
    requires { (from ≤ to) × (to ≤ 510) }
    ensures { result ≡ zeros_in from to block.now }
{
    block[from..to].iter().fold(0, |all, byte| all | *byte) == 0
}
