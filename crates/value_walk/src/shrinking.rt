//! A list that is taken from its end.

ghost use Rattle.std.specs.Prelude.{◌≡◌, [], ◌∷◌, ◌++◌, length, MatchOption};

use az_lin::List;
use std::marker::Model;

/// It gives memory up on the way, so that what is made of its items can have that room.
#[derive(Drop)]
pub(crate) struct Shrinking<T> {
    items: Vec<T>,
}

impl<T> Model for Shrinking<T> {
    ghost use Rattle.std.specs.Prelude.{List};
    ghost use Rattle.std.specs.Coded.{coded_list};

    ghost Value = { List T };

    ghost coded = { coded_list T.code };

    ghost view = { λ list. list.items.items };
}

impl<T: Drop> Shrinking<T> {
    pub(crate) fn of(list: List<T>) -> Shrinking<T>
        ensures { result ≡ list }
    {
        Shrinking {
            items: list.into_vec(),
        }
    }

    pub(crate) fn len(&self) -> usize
        ensures { result ≡ length self.now }
    {
        self.items.len()
    }

    pub(crate) fn pop(&mut self) -> Option<T>
        ensures { MatchOption result ((self.old ≡ []) × (self.new ≡ [])) (λ last. self.old ≡ self.new ++ last ∷ []) }
    {
        let last = self.items.pop();
        self.give_up();
        last
    }

    /// Gives up what isn't used, where that is half of the memory.
    fn give_up(&mut self)
        ensures { self.new ≡ self.old }
    {
        if self.items.len() <= self.items.capacity() / 2 {
            self.items.shrink_to_fit();
        }
    }
}
