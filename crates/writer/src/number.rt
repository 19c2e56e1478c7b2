//! Numbers in decimal.

ghost use Rattle.std.specs.Prelude.{◌≡◌, ◌≤◌, length, decimal};

/// How many digits a number has.
pub(crate) fn number_len(number: u32) -> usize
    ensures value { result ≡ length (decimal number) }
    ensures short { result ≤ 10 }
{
    // By cases for the numbers of words and lengths, where `ilog10` alone takes longer.
    match number {
        0..=9 => 1,
        10..=99 => 2,
        100..=999 => 3,
        _ => number.ilog10() as usize + 1,
    }
}

/// Fills a part that is as long as the number with its digits, the last one first. What is left for the first place is one digit.
pub(crate) fn fill_number(part: &mut [u8], number: u32)
    requires { length part.old ≡ length (decimal number) }
    ensures { part.new ≡ decimal number }
{
    let mut rest = number;
    // By index: after a loop over `iter_mut().rev()` nothing is known of the digits.
    for place in (1..part.len()).rev() {
        part[place] = b'0' + (rest % 10) as u8;
        rest /= 10;
    }
    part[0] = b'0' + rest as u8;
}
