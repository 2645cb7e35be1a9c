//! The greatest common divisor, by Euclid's remainders.

ghost use Rattle.std.specs.Prelude.{◌≡◌};
ghost use Rattle.std.specs.Int.{IsGcd};
ghost use Rattle.az_lin.specs.CommonDivisor.{IsGcdOfAll, gcd_of, gcd_of_all};

/// The greatest common divisor, which is 0 where both numbers are.
pub fn gcd(a: u128, b: u128) -> u128
    ensures value { result ≡ gcd_of a b }
    ensures law { IsGcd a b result }
{
    let mut greater = a;
    let mut less = b;
    while less != 0 {
        let rest = greater % less;
        greater = less;
        less = rest;
    }
    greater
}

/// The greatest common divisor of the magnitudes, which is 0 where all of them are.
pub fn gcd_all(numbers: &[i128]) -> u128
    ensures value { result ≡ gcd_of_all numbers.now }
    ensures law { IsGcdOfAll numbers.now result }
{
    let mut divisor = 0;
    'numbers: for number in numbers {
        divisor = gcd(divisor, number.unsigned_abs());
    }
    divisor
}
