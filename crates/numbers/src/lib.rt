// Numbers: decimal numbers as the program's lines hold them (docs/RULES.md, section 12).
// `put_number` writes one, `read_number` reads one; each undoes the other (proofs/Inverse.antt).
// Its definitions use those of refusals for ranges and of rows for a buffer; its code uses nothing.
#![tactic(auto)]

ghost use Rattle.std.specs.Prelude.{◌≡◌, ◌+◌, ◌≤◌, length};
ghost use Rattle.rows.specs.Log.{over};
ghost use Rattle.numbers.specs.Decimal.{decimal, number_in};

const DIGITS_MAX: usize = 10;

// The number's digits, from place `at` on, without leading zeros; the place behind them.
#[tactic(auto, using(crate::proofs::WriteLaws::decimal_small, crate::proofs::WriteLaws::one_more, crate::proofs::WriteLaws::wrote_small, crate::proofs::WriteLaws::wrote_more))]
pub fn put_number(output: &mut [u8], at: usize, n: u32) -> usize
    requires { at + length (decimal n) ≤ length output.old }
    ensures { (result ≡ at + length (decimal n))
        × (output.new ≡ over output.old at (decimal n)) }
{
    let last = if n < 10 {
        at
    } else {
        put_number(&mut *output, at, n / 10)
    };
    output[last] = b'0' + (n % 10) as u8;
    last + 1
}

// 1 to 10 digits up to 4,294,967,295; leading zeros are allowed.
// No `parse`: it takes a sign and more digits, which docs/RULES.md, section 12, refuses.
#[tactic(auto, using(crate::proofs::ReadLaws::read_large))]
pub fn read_number(bytes: &[u8]) -> Option<u32>
    ensures { result ≡ number_in bytes.now }
{
    if !(1..=DIGITS_MAX).contains(&bytes.len()) {
        return None;
    }
    let mut value: u32 = 0;
    for byte in bytes {
        if !byte.is_ascii_digit() {
            return None;
        }
        value = value.checked_mul(10)?.checked_add(u32::from(*byte - b'0'))?;
    }
    Some(value)
}
