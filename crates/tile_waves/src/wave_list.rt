//! The waves of a program.

ghost use Rattle.std.specs.Prelude.{◌≡◌};

use az_lin::List;
use execution::Instance;
use std::marker::Model;

/// The instances of a program, in the order in which they are carried out.
#[derive(Debug, Drop)]
pub struct Waves {
    pub(crate) list: List<List<List<Instance>>>,
}

impl Model for Waves {
    ghost use Rattle.std.specs.Coded.{codes};
    ghost use Rattle.tile_waves.specs.Waves.{AllWaves};

    ghost Value = { AllWaves };

    ghost coded = { Prim.hlevel codes };

    ghost view = { λ waves. waves.list };
}

impl Waves {
    pub fn list(&self) -> &[List<List<Instance>>]
        ensures { result.now ≡ self.now }
    {
        self.list.as_slice()
    }
}
