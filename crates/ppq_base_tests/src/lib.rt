//! Tests of what stands below the runs: records, the outside in memory, sizes, shared words, trees, heaps and merging.
#![tactic(auto)]

#[cfg(test)]
mod budget;
#[cfg(test)]
mod core_laws;
#[cfg(test)]
mod heap;
#[cfg(test)]
mod heaps;
#[cfg(test)]
mod hints;
#[cfg(test)]
mod kinds;
#[cfg(test)]
mod outside;
#[cfg(test)]
mod pairs;
#[cfg(test)]
mod pool;
#[cfg(test)]
mod record;
#[cfg(test)]
mod row;
#[cfg(test)]
mod split;
#[cfg(test)]
mod table;
#[cfg(test)]
mod tree;
