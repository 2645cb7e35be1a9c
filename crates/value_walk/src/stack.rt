//! A stack, which contracts see as the list of its items, the top first.

ghost use Rattle.std.specs.Prelude.{◌≡◌, ◌<◌, ◌^◌, [], ◌∷◌, reverse, length, OnOk, IfOk, MatchOption};

use az_lin::List;
use std::alloc::{AllocError, Global};
use std::marker::Model;

#[derive(Drop)]
pub(crate) struct Stack<T> {
    items: Vec<T>,
}

impl<T> Model for Stack<T> {
    ghost use Rattle.std.specs.Prelude.{List, reverse};
    ghost use Rattle.std.specs.Coded.{coded_list};

    ghost Value = { List T };

    ghost coded = { coded_list T.code };

    ghost view = { λ stack. reverse stack.items.items };
}

impl<T: Drop> Stack<T> {
    pub(crate) fn new(alloc: Global) -> Stack<T>
        ensures { result ≡ [] }
    {
        Stack {
            items: Vec::new(alloc),
        }
    }

    /// An empty stack with room for so many items.
    pub(crate) fn with_capacity(alloc: Global, count: usize) -> Result<Stack<T>, AllocError>
        ensures { IfOk result (λ stack. stack ≡ []) }
    {
        Ok(Stack {
            items: Vec::with_capacity(alloc, count)?,
        })
    }

    pub(crate) fn push(&mut self, item: T) -> Result<(), AllocError>
        ensures ok { OnOk result (self.new ≡ item ∷ self.old) }
        ensures bound { OnOk result (length self.new < 2 ^ 64) }
    {
        self.items.push(item)?;
        let _ = self.items.len();
        Ok(())
    }

    pub(crate) fn pop(&mut self) -> Option<T>
        ensures { MatchOption result ((self.old ≡ []) × (self.new ≡ [])) (λ top. self.old ≡ top ∷ self.new) }
    {
        self.items.pop()
    }

    /// The items, the top first.
    pub(crate) fn into_list(self) -> List<T>
        ensures { result ≡ self }
    {
        let mut items = self.items;
        items.reverse();
        List::from_vec(items)
    }
}
