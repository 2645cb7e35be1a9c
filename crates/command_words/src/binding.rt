//! What a word binds.

ghost use Rattle.std.specs.Prelude.{◌≡◌, ◌↔◌, ℕ, ℤ, List, IsTrue, IfOk, IfSome, IfNone};
ghost use Rattle.az_text.specs.Tokens.{is_word_byte, AllAre, IsWord};
ghost use Rattle.command_words.specs.Bindings.{IsBinding};
ghost use Rattle.command_words.specs.declared.binding.Binding.{Binding as Bound};
ghost use Rattle.command_words.specs.declared.binding.Binding.TheVariants.{Parameter, Table};

use crate::integer::integer;
use az_lin::Name;
use std::alloc::{AllocError, Global};

#[derive(Debug, Drop)]
pub enum Binding {
    /// A parameter's number.
    Parameter { name: Name, number: i128 },
    /// The file with an input's table.
    Table { name: Name, file: Name },
}

fn is_word_byte(byte: u8) -> bool
    ensures { result ≡ is_word_byte byte }
{
    byte.is_ascii_alphanumeric() || byte == b'_'
}

fn are_word_bytes(bytes: &[u8]) -> bool
    ensures { IsTrue result ↔ AllAre is_word_byte bytes.now }
{
    bytes.iter().all(|byte| is_word_byte(*byte))
}

/// Whether the text is a letter, and then letters, digits and underscores.
fn is_word(text: &str) -> bool
    ensures { IsTrue result ↔ IsWord text.now }
{
    match text.as_bytes() {
        [] => false,
        [first, rest @ ..] => first.is_ascii_alphabetic() && are_word_bytes(rest),
    }
}

/// A name in memory of its own.
pub(crate) fn name(alloc: Global, text: &str) -> Result<Name, AllocError>
    ensures { IfOk result (λ name. name ≡ text.now) }
{
    match Name::from_str(alloc, text) {
        Ok(name) => Ok(name),
        Err(_) => Err(AllocError),
    }
}

/// The number that the word gives a parameter, with the parameter's name.
fn parameter(word: &str) -> Option<(&str, i128)>
    ensures found { IfSome result (λ bound. IsBinding word.now (Parameter bound.0.now bound.1)) }
    ensures none { IfNone result ((name : List ℕ) (number : ℤ) → IsBinding word.now (Parameter name number) → ⊥) }
{
    let (name, digits) = word.split_once('=')?;
    if !is_word(name) {
        return None;
    }
    let number = integer(digits)?;
    Some((name, number))
}

/// The file with the input's table, with the input's name.
fn table(word: &str) -> Option<(&str, &str)>
    ensures found { IfSome result (λ bound. IsBinding word.now (Table bound.0.now bound.1.now)) }
    ensures none { IfNone result ((name file : List ℕ) → IsBinding word.now (Table name file) → ⊥) }
{
    let (name, file) = word.split_once('@')?;
    if is_word(name) && !file.is_empty() {
        Some((name, file))
    } else {
        None
    }
}

pub(crate) fn binding_of(alloc: Global, word: &str) -> Result<Option<Binding>, AllocError>
    ensures found { IfOk result (λ found. IfSome found (λ binding. IsBinding word.now binding)) }
    ensures none { IfOk result (λ found. IfNone found ((binding : Bound) → IsBinding word.now binding → ⊥)) }
{
    if let Some((parameter, number)) = parameter(word) {
        let name = name(alloc, parameter)?;
        return Ok(Some(Binding::Parameter { name, number }));
    }
    match table(word) {
        Some((input, file)) => {
            let name = name(alloc, input)?;
            let file = self::name(alloc, file)?;
            Ok(Some(Binding::Table { name, file }))
        }
        None => Ok(None),
    }
}
