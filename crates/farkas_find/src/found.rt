//! The numbers that back-substitution has found.

ghost use Rattle.std.specs.Prelude.{◌≡◌, ◌*ℤ◌, ◌<ℤ◌, pos, All, SomeIff, option_map, map};
ghost use Rattle.std.specs.Int.{int_div_euclid};
ghost use Rattle.az_lin.specs.Affine.{IsWide};
ghost use Rattle.farkas_find.specs.BackSubstitution.{point_in, reduced, IsDenominator};

use az_lin::{gcd, gcd_all, wide_product};

/// A number for each column, over one positive denominator. It is 0 where none is found yet.
#[derive(Debug, Drop)]
pub(crate) struct Found {
    pub(crate) nums: Vec<i128>,
    pub(crate) den: i128,
}

/// Each number times the factor, or `None` exactly where one leaves ±(2^127 - 1).
pub(crate) fn multiplied(nums: Vec<i128>, factor: &i128) -> Option<Vec<i128>>
    ensures { SomeIff (option_map (λ got. got.items) result) (All (λ number. IsWide (factor.now *ℤ number)) nums.items)
        (map (λ number. factor.now *ℤ number) nums.items) }
{
    let mut done = nums;
    'nums: for place in 0..done.len() {
        let Some(product) = wide_product(*factor, done[place]) else {
            return None;
        };
        done[place] = product;
    }
    Some(done)
}

/// Each number divided, and rounded down.
fn divided(nums: Vec<i128>, divisor: &i128) -> Vec<i128>
    requires { pos 0 <ℤ divisor.now }
    ensures { result.items ≡ map (λ number. int_div_euclid number divisor.now) nums.items }
{
    let mut done = nums;
    'nums: for place in 0..done.len() {
        done[place] = done[place].div_euclid(*divisor);
    }
    done
}

/// Numbers and denominator without a common divisor.
#[tactic(auto, unfolding(crate::specs::BackSubstitution::reduced))]
pub(crate) fn reduced(found: Found) -> Found
    requires { IsDenominator found.den }
    ensures value { point_in result ≡ reduced (point_in found) }
    ensures denominator { IsDenominator result.den }
{
    let common = gcd(found.den.unsigned_abs(), gcd_all(found.nums.as_slice())) as i128;
    if common == 1 {
        return found;
    }
    Found {
        nums: divided(found.nums, &common),
        den: found.den.div_euclid(common),
    }
}
