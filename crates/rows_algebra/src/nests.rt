//! Nests of loops.

use scev_base::{LoopId, LoopNest};
use sqlite_items::Items;
use std::test::Fail;

/// Each loop, how deep it stands, and the loops that it contains: loop 0 stands in loop 2, and that in loop 1.
const LOOPS: [(u64, u64, [bool; 3]); 3] = [
    (0, 3, [true, false, false]),
    (1, 1, [true, true, true]),
    (2, 2, [true, false, true]),
];

#[test]
fn parents_stand_in_any_order(rt: HostRuntime) -> Result<(), Fail> {
    let parents = Items::from_slice(rt.alloc(), &[Some(2), None, Some(1)])?;
    let nest = LoopNest::new(parents);
    assert_eq!(rt; nest.loop_count(), 3);
    for (outer, depth, contained) in LOOPS {
        assert!(rt; outer < nest.loop_count());
        assert_eq!(rt; nest.depth(LoopId(outer)), depth);
        for (inner, is_contained) in contained.iter().enumerate() {
            let inner = inner as u64;
            assert!(rt; inner < nest.loop_count());
            assert_eq!(rt; nest.contains(LoopId(outer), LoopId(inner)), *is_contained);
        }
    }
    Ok(())
}
