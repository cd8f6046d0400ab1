//! Walks through the buffers of a chain.
ghost use Rattle.std.specs.Prelude.{◌≡◌, ◌+◌, ◌-◌, ◌^◌, ◌<◌, ◌≤◌, length, reverse, slice_get, Some, IfOk, IfErr};
ghost use Rattle.ppq_block.specs.Block.{all_items};
ghost use Rattle.ppq_block.specs.Chain.{chain_items};

use crate::{Buffer, Chain};
use ppq_record::Record;

// The record at a place, counted from the top; or the place after the chain.
#[inline]
pub(crate) fn from_top<R: Record>(chain: &Chain<Buffer<R>>, i: u64) -> Result<R, u64>
    ensures found { IfOk result (λ r. slice_get (all_items (chain_items chain.now)) i ≡ Some r) }
    ensures value { IfOk result R.is_value }
    ensures behind { IfErr result (λ rest. length (all_items (chain_items chain.now)) + rest ≡ i) }
{
    let mut node = chain;
    let mut rest = i;
    while let Chain::Link(here) = node {
        let len = u64::from(here.item.len());
        if rest < len {
            return Ok(here.item.at(rest as u32));
        }
        rest -= len;
        node = &here.next;
    }
    Err(rest)
}

// The record at a place in a chain whose top is the last buffer, counted from the last record on.
fn from_end<R: Record>(chain: &Chain<Buffer<R>>, i: u64) -> R
    requires { i < length (all_items (reverse (chain_items chain.now))) }
    ensures record { slice_get (all_items (reverse (chain_items chain.now))) (length (all_items (reverse (chain_items chain.now))) - (i + 1)) ≡ Some result }
    ensures value { R.is_value result }
{
    let mut node = chain;
    let mut rest = i;
    while let Chain::Link(here) = node {
        let len = u64::from(here.item.len());
        if rest < len {
            return here.item.at((len - 1 - rest) as u32);
        }
        rest -= len;
        node = &here.next;
    }
    unreachable!()
}

// How many records there are in all.
fn records<R: Record>(chain: &Chain<Buffer<R>>) -> u64
    requires { length (chain_items chain.now) < 2 ^ 32 }
    ensures { result ≡ length (all_items (chain_items chain.now)) }
{
    let mut node = chain;
    let mut total = 0;
    while let Chain::Link(here) = node {
        total += u64::from(here.item.len());
        node = &here.next;
    }
    total
}

// The record at a place in a chain of at most so many nodes whose top is the last buffer. It walks
// twice, since only the end is at hand.
pub(crate) fn from_bottom<R: Record>(chain: &Chain<Buffer<R>>, nodes: u32, i: u64) -> R
    requires nodes { length (chain_items chain.now) ≤ nodes }
    requires within { i < length (all_items (reverse (chain_items chain.now))) }
    ensures record { slice_get (all_items (reverse (chain_items chain.now))) i ≡ Some result }
    ensures value { R.is_value result }
{
    let behind = records(chain) - (i + 1);
    from_end(chain, behind)
}
