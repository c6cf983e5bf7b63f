//! The order of kinds.

ghost use Rattle.std.specs.Prelude.{◌≡◌, ◌∷◌};
ghost use Rattle.std.specs.Ordering.{nat_cmp};
ghost use Rattle.scev_tree.specs.Order as tree;
ghost use Rattle.scev_walk.specs.Reading.{code_order, home_number};

use scev_base::{LoopId, Width};
use scev_tree::Kind;
use std::cmp::Ordering;

/// Which of two atoms stands first by its kind and its width: that of the lower rank, of one rank the narrower one, and
/// then by the numbers of loops and registers.
pub(crate) fn compare_kinds(kind: Kind, width: Width, other: Kind, other_width: Width) -> Ordering
    ensures { result ≡ code_order (tree.rank kind ∷ (width.bits ∷ tree.numbers kind))
        (tree.rank other ∷ (other_width.bits ∷ tree.numbers other)) }
{
    let by_rank = rank(kind).cmp(&rank(other));
    let by_width = width.bits.cmp(&other_width.bits);
    by_rank.then(by_width).then(compare_numbers(kind, other))
}

/// The place of a kind among all.
fn rank(kind: Kind) -> u8
    ensures { result ≡ tree.rank kind }
{
    match kind {
        Kind::Trunc => 0,
        Kind::Zext => 1,
        Kind::Sext => 2,
        Kind::Udiv => 3,
        Kind::Smax => 4,
        Kind::Umax => 5,
        Kind::Smin => 6,
        Kind::Umin => 7,
        Kind::Seq => 8,
        Kind::Rec(_) => 9,
        Kind::Leaf(_, _) => 10,
    }
}

/// Which of two kinds of one rank has the lower numbers.
fn compare_numbers(kind: Kind, other: Kind) -> Ordering
    ensures { tree.rank kind ≡ tree.rank other → result ≡ code_order (tree.numbers kind) (tree.numbers other) }
{
    match (kind, other) {
        (Kind::Rec(l), Kind::Rec(k)) => l.0.cmp(&k.0),
        (Kind::Leaf(register, home), Kind::Leaf(other_register, other_home)) => {
            register
                .0
                .cmp(&other_register.0)
                .then(compare_homes(home, other_home))
        }
        _ => Ordering::Equal,
    }
}

/// Which of two registers is defined in the loop of the lower number. One that is defined in no loop stands first.
fn compare_homes(home: Option<LoopId>, other: Option<LoopId>) -> Ordering
    ensures { result ≡ nat_cmp (home_number home) (home_number other) }
{
    match (home, other) {
        (None, None) => Ordering::Equal,
        (None, Some(_)) => Ordering::Less,
        (Some(_), None) => Ordering::Greater,
        (Some(l), Some(k)) => l.0.cmp(&k.0),
    }
}
