//! Some of the workers of a merge.
use crate::team::Team;

// Workers with numbers in a row, whose pieces follow one another.
#[derive(Drop)]
pub(crate) struct Section<'a, 'b, H, Q, G> {
    pub(crate) team: &'a Team<'b, H, Q, G>,
    // The number of the first of them.
    pub(crate) first: u32,
    // The rank at which its piece begins.
    pub(crate) base: u64,
}
