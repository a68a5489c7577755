// A number in decimal digits, without leading zeros: how many it has, and writing them into a row of bytes.
#![tactic(auto)]

ghost use Rattle.std.specs.Prelude.{◌≡◌, ◌+◌, ◌≤◌, length};
ghost use Rattle.pool.specs.Pool.{written};
ghost use Rattle.decimal.specs.Decimal.{digits};

use base::chars::ZERO;

// How many digits n has.
pub fn digit_count(n: u32) -> usize
    ensures { result ≡ length (digits n) }
{
    let mut count = 1;
    let mut rest = n;
    while 10 <= rest {
        rest = rest / 10;
        count += 1;
    }
    count
}

// Writes the digits of n into a row of bytes, from index `at` on: the index behind them. The last one is written first.
pub fn put_digits(row: &mut [u8], at: usize, n: u32) -> usize
    requires { at + length (digits n) ≤ length row.old }
    ensures { (result ≡ at + length (digits n)) × (row.new ≡ written row.old at (digits n)) }
{
    let end = at + digit_count(n);
    let mut i = end;
    let mut rest = n;
    loop {
        i -= 1;
        row[i] = (ZERO + rest % 10) as u8;
        if rest < 10 {
            return end;
        }
        rest = rest / 10;
    }
}
