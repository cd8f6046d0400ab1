//! The rule of levels, written a second time: each edge lifts its target above its source, over and over, until none
//! does.
use itoa::Buffer;
use ppq_record::Pair;
use std::alloc::{AllocError, Global};

// The level of a node by a list of levels, 0 of a node that is not there.
fn level_at(levels: &[u64], node: u64) -> u64 {
    let Ok(place) = usize::try_from(node) else {
        return 0;
    };
    levels.get(place).copied().unwrap_or(0)
}

// Lifts the target of an edge above its source, and says whether it was not there yet.
fn lift(levels: &mut [u64], edge: Pair) -> bool {
    let wanted = level_at(levels, edge.key).saturating_add(1);
    let Ok(place) = usize::try_from(edge.value) else {
        return false;
    };
    let Some(level) = levels.get_mut(place) else {
        return false;
    };
    if *level >= wanted {
        return false;
    }
    *level = wanted;
    true
}

// The levels of so many nodes. Each turn over all edges settles one node more at least.
fn levels_of(alloc: Global, edges: &[Pair], nodes: u64) -> Result<Vec<u64>, AllocError> {
    let mut levels: Vec<u64> = Vec::new(alloc);
    for _node in 0..nodes {
        levels.push(0)?;
    }
    for _turn in 0..nodes {
        let mut lifted = false;
        for edge in edges {
            lifted |= lift(levels.as_mut_slice(), *edge);
        }
        if !lifted {
            return Ok(levels);
        }
    }
    Ok(levels)
}

// Adds a number to a text, and a byte behind it.
fn number(text: &mut Vec<u8>, number: u64, behind: &[u8]) -> Result<(), AllocError> {
    let mut digits = Buffer::new();
    text.extend_from_slice(digits.format(number).as_bytes())?;
    text.extend_from_slice(behind)
}

// The lines of so many nodes.
pub(crate) fn text_of(alloc: Global, edges: &[Pair], nodes: u64) -> Result<Vec<u8>, AllocError> {
    let levels = levels_of(alloc, edges, nodes)?;
    let mut text: Vec<u8> = Vec::new(alloc);
    for node in 0..nodes {
        number(&mut text, node, b" ")?;
        number(&mut text, level_at(&levels, node), b"\n")?;
    }
    Ok(text)
}
