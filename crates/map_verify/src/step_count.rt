//! How many steps derivations have.

ghost use Rattle.std.specs.Prelude.{◌≡◌, ◌+◌, ◌<◌, MatchOption};
ghost use Rattle.map_verify.specs.Verdicts.{steps_in};

use az_lin::Derivation;

/// How many steps are left of so many; `None` exactly where the derivations have more.
pub(crate) fn steps_left(count: u64, derivations: &[Derivation]) -> Option<u64>
    ensures { MatchOption result (count < steps_in derivations.now) (λ left. left + steps_in derivations.now ≡ count) }
{
    let mut left = count;
    'derivations: for number in 0..derivations.len() {
        let steps = derivations[number].steps.len() as u64;
        if left < steps {
            return None;
        }
        left -= steps;
    }
    Some(left)
}
