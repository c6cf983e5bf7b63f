//! An arena of nodes.

ghost use Rattle.std.specs.Prelude.{◌≡◌, ◌<◌, [], length, option_map, slice_get, Some, IfOk, OnErr};
ghost use Rattle.scev_arena.specs.Nodes.{node_bits};
ghost use Rattle.scev_arena.specs.Meaning.{tree_of};
ghost use Rattle.scev_arena.specs.Standing.{MayStand, IsTreeAt, IsArena, IsGrown};
ghost use Rattle.scev_arena.specs.Limits.{first_limit};

use crate::limit::Limit;
use crate::measure::{Measure, node_measure};
use crate::node::Node;
use indexmap::IndexMap;
use scev_base::{ExprId, Width};
use std::alloc::{AllocError, Global};
use std::marker::Model;

/// Nodes, each once, which contracts see as their list. An `ExprId` is a place in it.
///
/// An arena only grows, so what a place holds stays.
#[derive(Drop)]
pub struct Arena {
    // each node with the measure of what its place holds
    nodes: IndexMap<Node, Measure>,
}

impl Model for Arena {
    ghost use Rattle.std.specs.Prelude.{◌≡◌, List};
    ghost use Rattle.indexmap.specs.IndexMap.{keys, values};
    ghost use Rattle.scev_arena.specs.declared.node.Node.{Node};
    ghost use Rattle.scev_arena.specs.Measures.{measures_of};
    ghost use Rattle.scev_arena.specs.Standing.{IsArena};

    ghost Value = { List Node };

    ghost view = { λ a. keys a.nodes };

    ghost invariant = { λ a. IsArena (keys a.nodes) × (values a.nodes ≡ measures_of (keys a.nodes)) };
}

impl Arena {
    /// No nodes.
    pub fn new(alloc: Global) -> Arena
        ensures { result ≡ [] }
    {
        Arena {
            nodes: IndexMap::new(alloc),
        }
    }

    /// The place of a node: that of an equal one, or else the new last place.
    ///
    /// `Err` comes only where no memory is found for a new node, and the arena is then as before.
    ///
    /// Time of one hash of the node, and linear in it.
    pub fn intern(&mut self, n: Node) -> Result<ExprId, AllocError>
        requires { MayStand self.old n }
        ensures place { IfOk result (λ id. slice_get self.new id.0 ≡ Some n) }
        ensures grows { IfOk result (λ id. IsGrown self.old n self.new id) }
        ensures err { OnErr result (self.new ≡ self.old) }
        ensures arena { IsArena self.new }
    {
        let measure = node_measure(self.nodes.values().as_slice(), &n);
        let (place, _) = self.nodes.insert_full(n, measure)?;
        Ok(ExprId(place as u64))
    }

    /// The node at a place.
    pub fn node(&self, id: ExprId) -> &Node
        requires { id.0 < length self.now }
        ensures node { slice_get self.now id.0 ≡ Some result.now }
        ensures arena { IsArena self.now }
    {
        &self.nodes.keys().as_slice()[id.0 as usize]
    }

    /// The width of the tree or the atom at a place.
    pub fn width(&self, id: ExprId) -> Width
        requires { id.0 < length self.now }
        ensures { option_map node_bits (slice_get self.now id.0) ≡ Some result.bits }
    {
        self.node(id).width()
    }

    /// The first limit that the tree at a place is above, or that a tree in it is above; none where it is within all
    /// limits. Constant time.
    pub fn limit(&self, id: ExprId) -> Option<Limit>
        requires { IsTreeAt self.now id }
        ensures { result ≡ first_limit (tree_of self.now id) }
    {
        self.nodes.values().as_slice()[id.0 as usize].limit()
    }

    /// The number of nodes, which is the next place.
    pub fn len(&self) -> usize
        ensures len { result ≡ length self.now }
        ensures arena { IsArena self.now }
    {
        self.nodes.len()
    }
}
