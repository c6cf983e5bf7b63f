//! Measures of trees and atoms.

ghost use Rattle.std.specs.Prelude.{◌≡◌, ◌<◌, length};
ghost use Rattle.scev_arena.specs.Measures.{nothing, beside, around, limit_of, is_high_kind};
ghost use Rattle.scev_arena.specs.Measures.{measure_at, together, term_measure, terms_together, node_measure};
ghost use Rattle.scev_arena.specs.Measures.{AreWithin, TermsAreWithin, IsWithin};

use crate::limit::Limit;
use crate::node::Node;
use poly_terms::Term;
use scev_base::ExprId;
use scev_base::limits::{DEGREE, DEPTH, FACTORS, MONOMIALS, NODES};
use scev_tree::Kind;

/// Stands for each depth above the limit.
const TOO_DEEP: u32 = DEPTH as u32 + 1;

/// Stands for each number of nodes above the limit.
const TOO_MANY: u32 = NODES as u32 + 1;

/// What tells the first limit that a tree is above: what is known of all that stands in it.
#[derive(Clone, Copy)]
pub(crate) struct Measure {
    /// Whether a polynomial is too wide.
    wide: bool,
    /// Whether a recurrence is too high.
    high: bool,
    /// The depth, up to `TOO_DEEP`.
    depth: u32,
    /// The number of nodes, up to `TOO_MANY`.
    nodes: u32,
}

impl Measure {
    /// That of nothing.
    fn nothing() -> Measure
        ensures { result ≡ nothing }
    {
        Measure {
            wide: false,
            high: false,
            depth: 0,
            nodes: 0,
        }
    }

    /// That of both, side by side.
    fn beside(self, other: Measure) -> Measure
        ensures { result ≡ beside self other }
    {
        Measure {
            wide: self.wide || other.wide,
            high: self.high || other.high,
            depth: self.depth.max(other.depth),
            nodes: self.nodes.saturating_add(other.nodes).min(TOO_MANY),
        }
    }

    /// That of a tree or an atom, of what stands in it: a level and a node more. It may be too wide or too high itself.
    fn around(self, wide: bool, high: bool) -> Measure
        ensures { result ≡ around wide high self }
    {
        Measure {
            wide: wide || self.wide,
            high: high || self.high,
            depth: self.depth.saturating_add(1).min(TOO_DEEP),
            nodes: self.nodes.saturating_add(1).min(TOO_MANY),
        }
    }

    /// The first limit that a tree of this measure is above.
    pub(crate) fn limit(self) -> Option<Limit>
        ensures { result ≡ limit_of self }
    {
        if self.wide {
            Some(Limit::TooWide)
        } else if self.high {
            Some(Limit::TooHigh)
        } else if self.depth == TOO_DEEP || self.nodes == TOO_MANY {
            Some(Limit::TooDeep)
        } else {
            None
        }
    }
}

/// The measure at a place.
fn measure_at(measures: &[Measure], id: ExprId) -> Measure
    requires { id.0 < length measures.now }
    ensures { result ≡ measure_at measures.now id }
{
    measures[id.0 as usize]
}

/// The measure of what stands at all of these places.
fn together(measures: &[Measure], ids: &[ExprId]) -> Measure
    requires { AreWithin (length measures.now) ids.now }
    ensures { result ≡ together measures.now ids.now }
{
    let mut sum = Measure::nothing();
    for id in ids {
        sum = sum.beside(measure_at(measures, *id));
    }
    sum
}

/// The measure of a monomial. It is too wide where it has too many factors.
fn term_measure(measures: &[Measure], t: &Term) -> Measure
    requires { AreWithin (length measures.now) t.now.ids }
    ensures { result ≡ term_measure measures.now t.now }
{
    let sum = together(measures, t.ids.as_slice());
    Measure {
        wide: t.ids.len() > FACTORS || sum.wide,
        high: sum.high,
        depth: sum.depth,
        nodes: sum.nodes,
    }
}

/// The measure of all of these monomials.
fn terms_together(measures: &[Measure], terms: &[Term]) -> Measure
    requires { TermsAreWithin (length measures.now) terms.now }
    ensures { result ≡ terms_together measures.now terms.now }
{
    let mut sum = Measure::nothing();
    for t in terms {
        sum = sum.beside(term_measure(measures, t));
    }
    sum
}

/// Whether an atom of so many parts is a recurrence of a degree above the limit.
fn is_high(kind: Kind, parts: usize) -> bool
    ensures { result ≡ is_high_kind kind parts }
{
    match kind {
        Kind::Rec(_) => parts > DEGREE + 1,
        _ => false,
    }
}

/// The measure of a node, of those at the places that it names.
///
/// Time linear in the node.
pub(crate) fn node_measure(measures: &[Measure], n: &Node) -> Measure
    requires { IsWithin (length measures.now) n.now }
    ensures { result ≡ node_measure measures.now n.now }
{
    match n {
        Node::Tree { terms, .. } => {
            let wide = terms.len() > MONOMIALS;
            terms_together(measures, terms.as_slice()).around(wide, false)
        }
        Node::Atom { kind, parts, .. } => {
            let high = is_high(*kind, parts.len());
            together(measures, parts.as_slice()).around(false, high)
        }
    }
}
