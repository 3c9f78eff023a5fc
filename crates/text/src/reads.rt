// Numbers read from decimal digits.
ghost use Rattle.std.specs.Prelude.{◌≡◌, ◌+◌, ◌-◌, ◌*◌, min};
ghost use Rattle.text.specs.Text.{Says, IsDigit, greatest};

// Reads bytes as a number in decimal, with zeros in front or without. Bytes of which one is no digit,
// and no bytes at all, are no number. The greatest number of 32 bits stands for every greater one.
pub fn read_number(digits: &[u8]) -> Option<u32>
    ensures { Says digits.now result }
{
    if digits.is_empty() {
        return None;
    }
    let mut v = 0;
    for b in digits {
        if !b.is_ascii_digit() {
            return None;
        }
        v = with_digit(v, *b);
    }
    Some(v)
}

// The number with one digit more behind it.
fn with_digit(v: u32, b: u8) -> u32
    requires { IsDigit b }
    ensures { result ≡ min (10 * v + (b - 48)) greatest }
{
    v.saturating_mul(10).saturating_add(u32::from(b - b'0'))
}
