//! A name or another short text, which contracts see as its bytes.

ghost use Rattle.std.specs.Prelude.{◌≡◌, IfOk, IfErr};
ghost use Rattle.az_lin.specs.declared.fault.LinFault.TheVariants.{Memory};

use crate::{LinFault, TryCopy};
use std::alloc::Global;
use std::marker::Model;

#[derive(Debug, Drop)]
pub struct Name {
    text: String,
}

impl Model for Name {
    ghost use Rattle.std.specs.Prelude.{List, ℕ, string_bytes};

    ghost Value = { List ℕ };

    ghost view = { λ name. string_bytes name.text };
}

impl Name {
    pub fn from_str(alloc: Global, text: &str) -> Result<Name, LinFault>
        ensures ok { IfOk result (λ name. name ≡ text.now) }
        ensures cause { IfErr result (λ fault. fault ≡ Memory) }
    {
        let text = String::from_str(alloc, text)?;
        Ok(Name { text })
    }

    pub fn as_str(&self) -> &str
        ensures { result.now ≡ self.now }
    {
        self.text.as_str()
    }
}

impl TryCopy for Name {
    fn copy(&self, alloc: Global) -> Result<Self, LinFault> {
        Name::from_str(alloc, self.as_str())
    }
}
