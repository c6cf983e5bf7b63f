//! Places of leaves in an arena.

use scev_arena::{Arena, Node};
use scev_base::{ExprId, ValueId, Width};
use scev_tree::Kind;
use sqlite_items::Items;
use std::alloc::{AllocError, Global};
use std::test::Fail;

const WORD: Width = Width { bits: 32 };

/// How many leaves are interned.
const LEAVES: u64 = 500_000;

/// The place of the leaf of a register of 32 bits.
fn leaf(arena: &mut Arena, alloc: Global, register: u64) -> Result<ExprId, AllocError> {
    arena.intern(Node::Atom {
        kind: Kind::Leaf(ValueId(register), None),
        width: WORD,
        parts: Items::new(alloc),
    })
}

/// Each leaf has the place that it was given first.
#[test]
fn leaves_keep_their_places(rt: HostRuntime) -> Result<(), Fail> {
    let mut arena = Arena::new(rt.alloc());
    for register in 0..LEAVES {
        assert_eq!(rt; leaf(&mut arena, rt.alloc(), register)?, ExprId(register));
    }
    for register in 0..LEAVES {
        assert_eq!(rt; leaf(&mut arena, rt.alloc(), register)?, ExprId(register));
    }
    assert_eq!(rt; arena.len() as u64, LEAVES);
    Ok(())
}
