//! Symbols that equations join, as a forest: each symbol but the first of its tree hangs on one that came before it.

ghost use Rattle.std.specs.Prelude.{◌≡◌, ℕ, ◌∷◌, [], ◌++◌, ◌+◌, ◌<◌, ◌≤◌, length, slice_set, slice_index_or, Some, None, IfOk, OnOk};
ghost use Rattle.pv_diff.specs.Chains.{AreChains, HasEnd, end_at};
ghost use Rattle.pv_diff.specs.Forest.{AreTrees, HasRoot, IsSeen, IsForest, IsGrowing, IsWhole, Keeps, IsPath, IsTwoWay, link, link_at, root_at, slot_at, seen_at};

use crate::chains::Chains;
use pv_base::NoMemory;
use std::alloc::Global;

/// The equation by which a node hangs on another one, its parent.
#[derive(Clone, Copy, Debug, Drop)]
pub struct Link {
    pub place: u32,
    pub parent: usize,
}

/// A symbol in the forest, by its slot: the node at which its tree starts, and what it hangs on there.
#[derive(Clone, Copy, Debug, Drop)]
pub struct Node {
    pub slot: usize,
    pub root: usize,
    pub link: Option<Link>,
}

/// The nodes in the order in which they came, and for each slot its node, once it has one.
#[derive(Drop)]
pub struct Forest {
    pub nodes: Vec<Node>,
    pub seen: Vec<Option<usize>>,
}

impl Forest {
    /// No node, for so many slots.
    fn new(alloc: Global, count: usize) -> Result<Forest, NoMemory>
        ensures size { IfOk result (λ forest. length forest.seen.items ≡ count) }
        ensures nodes { IfOk result (λ forest. forest.nodes.items ≡ []) }
        ensures seen { IfOk result (λ forest. (k : ℕ) → seen_at forest.seen.items k ≡ None) }
    {
        let none: Option<usize> = None;
        Ok(Forest {
            nodes: Vec::new(alloc),
            seen: vec![in alloc; none; count]?,
        })
    }

    /// One more node, for a slot that has none.
    fn attach(&mut self, node: Node) -> Result<(), NoMemory>
        requires slot { node.slot < length self.old.seen.items }
        ensures nodes { OnOk result (self.new.nodes.items ≡ self.old.nodes.items ++ node ∷ []) }
        ensures seen { OnOk result (self.new.seen.items ≡ slice_set self.old.seen.items node.slot (Some (length self.old.nodes.items))) }
    {
        let index = self.nodes.len();
        self.nodes.push(node)?;
        self.seen[node.slot] = Some(index);
        Ok(())
    }

    /// Hangs the slot that an end leads to on the node `at`, if it has no node yet.
    fn hang(
        &mut self,
        chains: &Chains,
        index: usize,
        at: usize,
        root: usize,
    ) -> Result<(), NoMemory>
        requires two_way { IsTwoWay (length self.old.seen.items) chains.now.ends.items chains.now.first.items }
        requires growing { IsGrowing chains.now.ends.items chains.now.first.items self.old.nodes.items self.old.seen.items at root }
        requires at { at < length self.old.nodes.items }
        requires index { index < length chains.now.ends.items }
        requires joined { HasEnd chains.now.ends.items chains.now.first.items (slot_at self.old.nodes.items at) (end_at chains.now.ends.items index).to (end_at chains.now.ends.items index).place }
        ensures growing { OnOk result (IsGrowing chains.now.ends.items chains.now.first.items self.new.nodes.items self.new.seen.items at root) }
        ensures keeps { OnOk result (Keeps self.old.nodes.items self.old.seen.items self.new.nodes.items self.new.seen.items) }
        ensures rooted { OnOk result (HasRoot self.new.nodes.items self.new.seen.items (end_at chains.now.ends.items index).to root) }
    {
        let end = chains.ends[index];
        match self.seen[end.to] {
            Some(_) => Ok(()),
            None => {
                self.attach(Node {
                    slot: end.to,
                    root,
                    link: Some(Link {
                        place: end.place,
                        parent: at,
                    }),
                })?;
                Ok(())
            }
        }
    }

    /// Hangs on the node `at` what is joined to its slot and has no node yet.
    fn visit(&mut self, chains: &Chains, at: usize, root: usize) -> Result<(), NoMemory>
        requires chains { AreChains chains.now.ends.items chains.now.first.items }
        requires size { length chains.now.first.items ≡ length self.old.seen.items }
        requires two_way { IsTwoWay (length self.old.seen.items) chains.now.ends.items chains.now.first.items }
        requires growing { IsGrowing chains.now.ends.items chains.now.first.items self.old.nodes.items self.old.seen.items at root }
        requires at { at < length self.old.nodes.items }
        ensures growing { OnOk result (IsGrowing chains.now.ends.items chains.now.first.items self.new.nodes.items self.new.seen.items (at + 1) root) }
        ensures keeps { OnOk result (Keeps self.old.nodes.items self.old.seen.items self.new.nodes.items self.new.seen.items) }
    {
        let mut next = chains.first[self.nodes[at].slot];
        while let Some(index) = next {
            self.hang(chains, index, at, root)?;
            next = chains.ends[index].next;
        }
        Ok(())
    }

    /// Grows a tree from a slot that has no node yet.
    fn grow(&mut self, chains: &Chains, slot: usize) -> Result<(), NoMemory>
        requires chains { AreChains chains.now.ends.items chains.now.first.items }
        requires size { length chains.now.first.items ≡ length self.old.seen.items }
        requires two_way { IsTwoWay (length self.old.seen.items) chains.now.ends.items chains.now.first.items }
        requires whole { IsWhole chains.now.ends.items chains.now.first.items self.old.nodes.items self.old.seen.items }
        requires slot { slot < length self.old.seen.items }
        requires fresh { seen_at self.old.seen.items slot ≡ None }
        requires front { 0 < slot → 0 < length self.old.nodes.items }
        ensures whole { OnOk result (IsWhole chains.now.ends.items chains.now.first.items self.new.nodes.items self.new.seen.items) }
        ensures keeps { OnOk result (Keeps self.old.nodes.items self.old.seen.items self.new.nodes.items self.new.seen.items) }
        ensures seen { OnOk result (IsSeen self.new.seen.items slot) }
    {
        let root = self.nodes.len();
        let link: Option<Link> = None;
        self.attach(Node { slot, root, link })?;
        let mut at = root;
        while at < self.nodes.len() {
            self.visit(chains, at, root)?;
            at += 1;
        }
        Ok(())
    }

    /// Grows a tree from a slot, if it has no node yet.
    fn reach(&mut self, chains: &Chains, slot: usize) -> Result<(), NoMemory>
        requires chains { AreChains chains.now.ends.items chains.now.first.items }
        requires size { length chains.now.first.items ≡ length self.old.seen.items }
        requires two_way { IsTwoWay (length self.old.seen.items) chains.now.ends.items chains.now.first.items }
        requires whole { IsWhole chains.now.ends.items chains.now.first.items self.old.nodes.items self.old.seen.items }
        requires slot { slot < length self.old.seen.items }
        requires front { 0 < slot → 0 < length self.old.nodes.items }
        ensures whole { OnOk result (IsWhole chains.now.ends.items chains.now.first.items self.new.nodes.items self.new.seen.items) }
        ensures keeps { OnOk result (Keeps self.old.nodes.items self.old.seen.items self.new.nodes.items self.new.seen.items) }
        ensures seen { OnOk result (IsSeen self.new.seen.items slot) }
    {
        match self.seen[slot] {
            Some(_) => Ok(()),
            None => {
                self.grow(chains, slot)?;
                Ok(())
            }
        }
    }
}

/// The forest of all slots, as the chains join them.
pub fn forest_of(alloc: Global, chains: &Chains) -> Result<Forest, NoMemory>
    requires chains { AreChains chains.now.ends.items chains.now.first.items }
    requires two_way { IsTwoWay (length chains.now.first.items) chains.now.ends.items chains.now.first.items }
    ensures whole { IfOk result (λ forest. IsWhole chains.now.ends.items chains.now.first.items forest.nodes.items forest.seen.items) }
    ensures size { IfOk result (λ forest. length forest.seen.items ≡ length chains.now.first.items) }
    ensures seen { IfOk result (λ forest. (k : ℕ) → k < length chains.now.first.items → IsSeen forest.seen.items k) }
{
    let mut forest = Forest::new(alloc, chains.first.len())?;
    for slot in 0..chains.first.len() {
        forest.reach(chains, slot)?;
    }
    Ok(forest)
}

/// What a node that is not the first of its tree hangs on.
fn link_of(nodes: &[Node], at: usize) -> Link
    requires trees { AreTrees nodes.now }
    requires at { at < length nodes.now }
    requires hangs { root_at nodes.now at < at }
    ensures { link_at nodes.now at ≡ Some result }
{
    match nodes[at].link {
        Some(link) => link,
        None => unreachable!(),
    }
}

/// The places of the equations between two nodes of one tree, on the shortest way.
pub fn path(alloc: Global, nodes: &[Node], from: usize, to: usize) -> Result<Vec<u32>, NoMemory>
    requires trees { AreTrees nodes.now }
    requires from { from < length nodes.now }
    requires to { to < length nodes.now }
    requires same { root_at nodes.now from ≡ root_at nodes.now to }
    ensures { IfOk result (λ places. IsPath nodes.now from to places.items) }
{
    let mut places = Vec::new(alloc);
    let mut back = Vec::new(alloc);
    let mut left = from;
    let mut right = to;
    while left != right {
        if left < right {
            let link = link_of(nodes, right);
            back.push(link.place)?;
            right = link.parent;
        } else {
            let link = link_of(nodes, left);
            places.push(link.place)?;
            left = link.parent;
        }
    }
    back.reverse();
    places.append(&mut back)?;
    Ok(places)
}
