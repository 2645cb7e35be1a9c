//! What plain words ask to evaluate.

ghost use Rattle.std.specs.Prelude.{IfOk, IfSome, IfNone, map};
ghost use Rattle.std.specs.List.{AllZip};
ghost use Rattle.command_words.specs.Bindings.{IsBinding};
ghost use Rattle.command_words.specs.Evaluations.{HasPlain};
ghost use Rattle.command_words.specs.declared.evaluation.Evaluation.{Evaluation as Asked};

use crate::Binding;
use crate::binding::{binding_of, name};
use az_lin::{List, Name};
use std::alloc::{AllocError, Global};

/// A program's file, and the bindings in the order of the words.
#[derive(Debug, Drop)]
pub struct Evaluation {
    pub program: Name,
    pub bindings: List<Binding>,
}

/// The bindings that the words say, or `None` where one says none.
fn bindings_of(alloc: Global, words: &[&str]) -> Result<Option<List<Binding>>, AllocError>
    ensures found { IfOk result (λ found. IfSome found (λ bindings. AllZip IsBinding (map (λ word. word.now) words.now) bindings)) }
    ensures none { IfOk result (λ found. IfNone found ((bindings : _) → AllZip IsBinding (map (λ word. word.now) words.now) bindings → ⊥)) }
{
    let mut bindings = Vec::with_capacity(alloc, words.len())?;
    for word in words {
        match binding_of(alloc, word)? {
            Some(binding) => bindings.push(binding)?,
            None => return Ok(None),
        }
    }
    Ok(Some(List::from_vec(bindings)))
}

/// The program and the bindings of plain words.
pub(crate) fn of_plain(alloc: Global, plain: &[&str]) -> Result<Option<Evaluation>, AllocError>
    ensures found { IfOk result (λ found. IfSome found (λ evaluation. HasPlain (map (λ word. word.now) plain.now) evaluation)) }
    ensures none { IfOk result (λ found. IfNone found ((evaluation : Asked) → HasPlain (map (λ word. word.now) plain.now) evaluation → ⊥)) }
{
    let [program, words @ ..] = plain else {
        return Ok(None);
    };
    match bindings_of(alloc, words)? {
        Some(bindings) => {
            let program = name(alloc, program)?;
            Ok(Some(Evaluation { program, bindings }))
        }
        None => Ok(None),
    }
}
