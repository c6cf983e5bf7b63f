//! Nodes of an arena.

ghost use Rattle.std.specs.Prelude.{◌≡◌};
ghost use Rattle.scev_arena.specs.Nodes.{node_bits};

use poly_terms::Term;
use scev_base::{ExprId, Width};
use scev_tree::Kind;
use sqlite_items::Items;
use std::hash::{Hash, Hasher};

/// A tree or an atom, whose parts are places of an arena.
///
/// Two nodes are equal where they are of one sort and their parts are equal.
#[derive(Debug, Drop)]
pub enum Node {
    /// A tree, as a polynomial: monomials with their coefficients, both in the order of expressions. The ids of a
    /// monomial are places of atoms.
    Tree {
        /// The width of the tree.
        width: Width,
        /// The monomials with their coefficients.
        terms: Items<Term>,
    },
    /// An atom over trees.
    Atom {
        /// What it is.
        kind: Kind,
        /// The width of the atom.
        width: Width,
        /// The places of its parts.
        parts: Items<ExprId>,
    },
}

impl Node {
    /// The width of the tree or the atom.
    pub fn width(&self) -> Width
        ensures { result.bits ≡ node_bits self.now }
    {
        match self {
            Node::Tree { width, .. } => *width,
            Node::Atom { width, .. } => *width,
        }
    }
}

impl PartialEq for Node {
    ghost use Rattle.scev_arena.specs.Nodes.{same_node};
    ghost use Rattle.scev_arena.specs.NodeLaws.{same_node_partial};

    ghost eq = { same_node };

    ghost laws = { same_node_partial };

    fn eq(&self, other: &Node) -> bool {
        match (self, other) {
            (
                Node::Tree { width, terms },
                Node::Tree {
                    width: other_width,
                    terms: other_terms,
                },
            ) => width.bits == other_width.bits && terms.as_slice() == other_terms.as_slice(),
            (
                Node::Atom { kind, width, parts },
                Node::Atom {
                    kind: other_kind,
                    width: other_width,
                    parts: other_parts,
                },
            ) => {
                kind == other_kind
                    && width.bits == other_width.bits
                    && parts.as_slice() == other_parts.as_slice()
            }
            _ => false,
        }
    }
}

impl Eq for Node {
    ghost use Rattle.scev_arena.specs.NodeLaws.{same_node_laws};

    ghost laws = { same_node_laws };
}

impl Hash for Node {
    ghost use Rattle.scev_arena.specs.Nodes.{node_input};
    ghost use Rattle.scev_arena.specs.NodeLaws.{same_node_alike};

    ghost hash_input = { node_input };

    ghost respects_eq = { same_node_alike };

    fn hash<H: Hasher>(&self, state: &mut H) {
        match self {
            Node::Tree { width, terms } => {
                state.write_u8(0);
                width.bits.hash(state);
                terms.as_slice().hash(state);
            }
            Node::Atom { kind, width, parts } => {
                state.write_u8(1);
                kind.hash(state);
                width.bits.hash(state);
                parts.as_slice().hash(state);
            }
        }
    }
}
