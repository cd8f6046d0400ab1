//! Nodes in boxes, each linked to the next one: a stack that does not allocate.
ghost use Rattle.std.specs.Prelude.{◌≡◌, ◌↔◌, [], ◌∷◌, ◌++◌, reverse, slice_get, option_copied, IsTrue, IsNone, IfNone, IfSome};
ghost use Rattle.ppq_block.specs.Chain.{chain_items};

use std::mem;

/// An item with room for the link to a next node.
#[cycle(chain)]
#[derive(Drop)]
pub struct Node<T> {
    pub item: T,
    pub next: Chain<T>,
}

/// Nodes from the top one on.
#[cycle(chain)]
pub enum Chain<T> {
    End,
    Link(Box<Node<T>>),
}

// A loop, so that a long chain does not use up the stack.
impl<T: Drop> Drop for Chain<T> {
    fn drop(mut self) {
        loop {
            match self {
                Chain::End => return,
                Chain::Link(node) => {
                    let Node { item: _item, next } = Box::into_inner(node);
                    self = next;
                }
            }
        }
    }
}

impl<T: Drop> Chain<T> {
    /// Whether there is no node.
    #[inline]
    pub fn is_end(&self) -> bool
        ensures { IsTrue result ↔ (chain_items self.now ≡ []) }
    {
        match self {
            Chain::End => true,
            Chain::Link(_) => false,
        }
    }

    /// What the node at a place holds, the top one at 0. It walks there.
    pub fn get(&self, i: u32) -> Option<&T>
        ensures { option_copied result ≡ slice_get (chain_items self.now) i }
    {
        let mut node = self;
        let mut rest = i;
        while let Chain::Link(here) = node {
            if rest == 0 {
                return Some(&here.item);
            }
            rest -= 1;
            node = &here.next;
        }
        None
    }

    // The top node with those after it.
    #[inline]
    fn into_top(self) -> Option<Box<Node<T>>>
        ensures none { IfNone result (chain_items self ≡ []) }
        ensures top { IfSome result (λ node. chain_items self ≡ node.value.item ∷ chain_items node.value.next) }
    {
        match self {
            Chain::End => None,
            Chain::Link(node) => Some(node),
        }
    }

    /// Adds a node that is linked to nothing on top.
    #[inline]
    pub fn push(&mut self, mut node: Box<Node<T>>)
        requires { chain_items node.value.next ≡ [] }
        ensures { chain_items self.new ≡ node.value.item ∷ chain_items self.old }
    {
        node.next = mem::replace(self, Chain::End);
        *self = Chain::Link(node);
    }

    /// Takes the top node, which is then linked to nothing.
    #[inline]
    pub fn pop(&mut self) -> Option<Box<Node<T>>>
        ensures none { IsNone result ↔ (chain_items self.old ≡ []) }
        ensures top { IfSome result (λ node. chain_items self.old ≡ node.value.item ∷ chain_items self.new) }
        ensures alone { IfSome result (λ node. chain_items node.value.next ≡ []) }
        ensures rest { IfNone result (chain_items self.new ≡ []) }
    {
        match mem::replace(self, Chain::End).into_top() {
            None => None,
            Some(mut node) => {
                *self = mem::replace(&mut node.next, Chain::End);
                Some(node)
            }
        }
    }

    /// Moves all nodes onto another chain, one by one, so that the last of them is on top.
    pub fn pour(&mut self, into: &mut Chain<T>)
        ensures moved { chain_items into.new ≡ reverse (chain_items self.old) ++ chain_items into.old }
        ensures left { chain_items self.new ≡ [] }
    {
        while let Some(node) = self.pop() {
            into.push(node);
        }
    }
}
