//! The next records of runs that are merged.
ghost use Rattle.ppq_merge.specs.Heads.{heads};
ghost use Rattle.ppq_merge.specs.Parts.{AreParts, AreParts-prop};

use ppq_split::{Listing, Record};
use ppq_tree::Heads;
use std::marker::PhantomData;

// The next record of each run between its two places, shown to a tree.
#[derive(Drop)]
pub(crate) struct Fronts<'a, R: Record, Q: Listing<R>> {
    pub(crate) runs: &'a Q,
    pub(crate) from: &'a [u64],
    pub(crate) to: &'a [u64],
    pub(crate) record: PhantomData<R>,
    ghost parts: { AreParts from.now to.now (Q.lists runs.now) } by { AreParts-prop from.now to.now (Q.lists runs.now) },
}

impl<'a, R: Record, Q: Listing<R>> Heads<R> for Fronts<'a, R, Q> {
    ghost heads = { λ f. heads f.from.now f.to.now (Q.lists f.runs.now) };

    #[inline]
    fn leaves(&self) -> u32 {
        self.runs.runs()
    }

    #[inline]
    fn head(&self, leaf: u32) -> Option<R> {
        let place = self.from[leaf as usize];
        if place < self.to[leaf as usize] {
            Some(self.runs.at(leaf, place))
        } else {
            None
        }
    }
}
