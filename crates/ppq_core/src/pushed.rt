//! The items that one pass pushed.
ghost use Rattle.std.specs.Prelude.{◌≡◌, [], ◌∷◌, ◌++◌, is_ok, if◌then◌else◌};

use ppq_record::Memory;
use std::alloc::Global;
use std::marker::Model;

// The items that one pass pushed, in order: contracts see the list.
#[derive(Debug, Drop)]
pub(crate) struct Pushed<R> {
    items: Vec<R>,
}

impl<R> Model for Pushed<R> {
    ghost use Rattle.std.specs.Prelude.{List};

    ghost Value = { List R };

    ghost view = { λ p. p.items.items };
}

impl<R: Copy> Pushed<R> {
    // No items. It does not allocate.
    pub(crate) fn new(alloc: Global) -> Pushed<R>
        ensures { result ≡ [] }
    {
        Pushed {
            items: Vec::new(alloc),
        }
    }

    // Adds an item at the end, at amortized constant cost. If an allocation fails the list stays as
    // it is.
    pub(crate) fn push(&mut self, item: R) -> Result<(), Memory>
        ensures { self.new ≡ (if is_ok result then self.old ++ item ∷ [] else self.old) }
    {
        self.items.push(item)?;
        Ok(())
    }

    // The items, the first pushed first.
    #[inline]
    pub(crate) fn as_slice(&self) -> &[R]
        ensures { result.now ≡ self.now }
    {
        self.items.as_slice()
    }
}
