//! Plain lists as runs.
ghost use Rattle.std.specs.Prelude.{◌≡◌, ◌<◌, ◌^◌, length, map};

use crate::{Listing, Record};

/// Plain lists, shown as runs.
#[derive(Drop)]
pub struct Lists<'a, R: Record + Sync> {
    lists: &'a [Vec<R>],
    ghost few: { length lists.now < 2 ^ 32 },
}

impl<'a, R: Record + Sync> Lists<'a, R> {
    /// Shows lists as runs; it borrows them and copies nothing.
    pub fn new(lists: &'a [Vec<R>]) -> Lists<'a, R>
        requires { length lists.now < 2 ^ 32 }
        ensures { ⟦<Lists<'a, R> as Listing<R>>⟧.lists result ≡ map (λ v. v.items) lists.now }
    {
        Lists { lists }
    }
}

impl<'a, R: Record + Sync> Listing<R> for Lists<'a, R> {
    ghost lists = { λ s. map (λ v. v.items) s.lists.now };

    #[inline]
    fn runs(&self) -> u32 {
        self.lists.len() as u32
    }

    #[inline]
    fn len(&self, run: u32) -> u64 {
        self.lists[run as usize].as_slice().len() as u64
    }

    #[inline]
    fn at(&self, run: u32, i: u64) -> R {
        self.lists[run as usize].as_slice()[i as usize]
    }
}
