//! Numbers printed in decimal.

ghost use Rattle.std.specs.Prelude.{◌≡◌, ◌+◌, ◌-◌, ◌/◌, ◌%◌, ◌^◌, ◌<◌, ◌≤◌, ◌++◌, decimal, OnOk};

use std::alloc::AllocError;

/// The powers of ten that a number of 32 bits reaches.
const POWERS: [u32; 10] = [
    1,
    10,
    100,
    1_000,
    10_000,
    100_000,
    1_000_000,
    10_000_000,
    100_000_000,
    1_000_000_000,
];

fn power(k: usize) -> u32
    requires { k < 10 }
    ensures { result ≡ 10 ^ k }
{
    POWERS[k]
}

/// The digit of `n` at place `k` from the right, as a byte.
fn digit(n: u32, k: usize) -> u8
    requires { k < 10 }
    ensures { result ≡ 48 + (n / 10 ^ k) % 10 }
{
    b'0' + (n / power(k) % 10) as u8
}

/// How many digits the numeral of `n` has: one, and one more for each further power that `n` reaches.
fn digits(n: u32) -> usize
    ensures within { (1 ≤ result) × (result ≤ 10) }
    ensures below { n < 10 ^ result }
    ensures above { 1 < result → 10 ^ (result - 1) ≤ n }
{
    1 + POWERS[1..].iter().take_while(|power| **power <= n).count()
}

/// Adds the decimal numeral of `n` to `out`.
pub(crate) fn print_number(out: &mut Vec<u8>, n: u32) -> Result<(), AllocError>
    ensures { OnOk result (out.new.items ≡ out.old.items ++ decimal n) }
{
    for k in (0..digits(n)).rev() {
        out.push(digit(n, k))?;
    }
    Ok(())
}
