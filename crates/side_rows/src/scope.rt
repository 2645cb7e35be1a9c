//! The names of the columns of a place.

ghost use Rattle.std.specs.Prelude.{◌≡◌, ◌++◌, [], length, map, IfOk, IfErr};
ghost use Rattle.az_lin.specs.declared.fault.LinFault.TheVariants.{Memory};
ghost use Rattle.std.specs.List.{list_any};
ghost use Rattle.std.specs.Str.{bytes_eq};

use az_lin::{LinFault, Name};
use std::alloc::Global;
use std::marker::Model;

/// Names in the order of their columns. They are lent and not copied, as a name may be as long as the
/// text, and the parameters are in the scope of every place.
#[derive(Drop)]
pub struct Scope<'a> {
    names: Vec<&'a Name>,
}

impl<'a> Model for Scope<'a> {
    ghost use Rattle.std.specs.Prelude.{List, ℕ, map};

    ghost Value = { List (List ℕ) };

    ghost view = { λ scope. map (λ name. name.now) scope.names.items };
}

pub fn is_in(names: &[Name], name: &str) -> bool
    ensures { result ≡ list_any (bytes_eq name.now) names.now }
{
    names.iter().any(|other| name == other.as_str())
}

/// Whether one of the names, which stand elsewhere, is this one.
fn is_among(names: &[&Name], name: &str) -> bool
    ensures { result ≡ list_any (λ other. bytes_eq name.now other.now) names.now }
{
    names.iter().any(|other| name == other.as_str())
}

impl<'a> Scope<'a> {
    pub fn new(alloc: Global) -> Scope<'a>
        ensures { result ≡ [] }
    {
        Scope {
            names: Vec::new(alloc),
        }
    }

    /// The names, which stand in the text.
    pub fn names(&self) -> &[&'a Name]
        ensures { map (λ name. name.now) result.now ≡ self.now }
    {
        self.names.as_slice()
    }

    pub fn len(&self) -> usize
        ensures { result ≡ length self.now }
    {
        self.names.len()
    }

    pub fn has(&self, name: &str) -> bool
        ensures { result ≡ list_any (bytes_eq name.now) self.now }
    {
        is_among(self.names(), name)
    }

    /// The scope with more names after it.
    pub fn wider(&self, alloc: Global, more: &'a [Name]) -> Result<Scope<'a>, LinFault>
        ensures ok { IfOk result (λ scope. scope ≡ self.now ++ more.now) }
        ensures cause { IfErr result (λ fault. fault ≡ Memory) }
    {
        let mut names = Vec::with_capacity(alloc, self.names.len())?;
        'outer: for name in self.names() {
            names.push(*name)?;
        }
        'inner: for name in more {
            names.push(name)?;
        }
        Ok(Scope { names })
    }
}

/// The scope of some names and more after them.
pub fn joined<'a>(alloc: Global, names: &'a [Name], more: &'a [Name]) -> Result<Scope<'a>, LinFault>
    ensures ok { IfOk result (λ scope. scope ≡ names.now ++ more.now) }
    ensures cause { IfErr result (λ fault. fault ≡ Memory) }
{
    let outer = Scope::new(alloc).wider(alloc, names)?;
    outer.wider(alloc, more)
}
