//! Loads and stores, and where the parts of an object stand.

use self::Act::{Load, Store};
use ir_memory::Loaded::{Number, Poison};
use ir_memory::{Blocks, Byte, Loaded, is_access_width, offset_of};
use scev_base::{Width, trunc};
use std::test::Fail;

/// What a load chooses where nothing was stored.
const CHOICE: u64 = 0x1234_5678_9ABC_DEF0;

/// An access, by its block, its offset, and its width in bits.
#[derive(Clone, Copy)]
enum Act {
    /// Stores the value, and says whether it is stored.
    Store(u64, u64, u32, Loaded, bool),
    /// Loads the value, None where the access is refused.
    Load(u64, u64, u32, Option<Loaded>),
}

/// The size of a memory's one block, and what is done in turn.
const MEMORIES: [(u64, &[Act]); 3] = [
    // The lowest byte comes first.
    (
        6,
        &[
            Store(0, 1, 32, Number(0x0102_0304), true),
            Load(0, 0, 8, Some(Number(0xF0))),
            Load(0, 1, 8, Some(Number(4))),
            Load(0, 2, 8, Some(Number(3))),
            Load(0, 3, 8, Some(Number(2))),
            Load(0, 4, 8, Some(Number(1))),
            Load(0, 5, 8, Some(Number(0xF0))),
            Load(0, 2, 16, Some(Number(0x0203))),
            Load(0, 4, 16, Some(Number(0xDEF0))),
        ],
    ),
    // A byte in which nothing was stored makes a load choose; poison in one makes it poison.
    (
        8,
        &[
            Store(0, 0, 8, Number(7), true),
            Load(0, 0, 64, Some(Number(CHOICE))),
            Store(0, 2, 16, Poison, true),
            Load(0, 0, 64, Some(Poison)),
            Load(0, 3, 16, Some(Poison)),
            Load(0, 0, 16, Some(Number(0xDEF0))),
            Store(0, 0, 64, Number(9), true),
            Load(0, 0, 64, Some(Number(9))),
        ],
    ),
    // Outside the block, also where the end of the access wraps, and in no block.
    (
        4,
        &[
            Load(0, 4, 8, None),
            Load(0, 1, 32, None),
            Load(0, u64::MAX, 8, None),
            Load(1, 0, 8, None),
            Store(0, u64::MAX - 3, 32, Number(1), false),
            Load(0, 0, 32, Some(Number(0x9ABC_DEF0))),
        ],
    ),
];

fn load(memory: &Blocks, block: u64, offset: u64, bits: u32) -> Option<Loaded> {
    let w = Width::new(bits)?;
    if is_access_width(w) {
        memory.load(block, offset, w, CHOICE).ok()
    } else {
        None
    }
}

fn store(memory: &mut Blocks, block: u64, offset: u64, bits: u32, value: Loaded) -> bool {
    let Some(w) = Width::new(bits) else {
        return false;
    };
    let value = match value {
        Number(number) => Number(trunc(number, w)),
        Poison => Poison,
    };
    is_access_width(w) && memory.store(block, offset, w, value).is_ok()
}

#[test]
fn loads_and_stores(rt: HostRuntime) -> Result<(), Fail> {
    for (size, acts) in MEMORIES {
        let mut memory = Blocks::new(rt.alloc());
        assert_eq!(rt; memory.add_block(size)?, 0);
        for act in acts {
            match *act {
                Store(block, offset, bits, value, is_stored) => {
                    assert_eq!(rt; store(&mut memory, block, offset, bits, value), is_stored);
                }
                Load(block, offset, bits, value) => {
                    assert_eq!(rt; load(&memory, block, offset, bits), value);
                }
            }
        }
    }
    Ok(())
}

#[test]
fn copies_share_nothing(rt: HostRuntime) -> Result<(), Fail> {
    let mut memory = Blocks::new(rt.alloc());
    memory.add_block(3)?;
    memory.add_block(0)?;
    let copy = memory.copy(rt.alloc())?;
    assert!(rt; store(&mut memory, 0, 2, 8, Number(255)));
    for (read, number) in [(&memory, 255), (&copy, 0xF0)] {
        assert_eq!(rt; load(read, 0, 2, 8), Some(Number(number)));
    }
    assert_eq!(rt; copy.len(), 2);
    for (block, size) in [(0, Some(3)), (1, Some(0)), (2, None)] {
        assert_eq!(rt; copy.size(block), size);
    }
    Ok(())
}

#[test]
fn too_large_a_block_changes_nothing(rt: HostRuntime) {
    let mut memory = Blocks::new(rt.alloc());
    assert!(rt; memory.is_empty());
    for size in [u64::MAX, 1 << 62] {
        assert!(rt; memory.add_block(size).is_err());
        assert!(rt; memory.is_empty());
    }
}

/// A base, the index and the size of each part, and where the last one stands.
const OFFSETS: [(u64, &[(u64, u64)], u64); 3] = [
    (10, &[], 10),
    (10, &[(3, 4), (u64::MAX, 8)], 14),
    (u64::MAX, &[(1, 1)], 0),
];

#[test]
fn offsets_wrap(rt: HostRuntime) {
    for (base, parts, offset) in OFFSETS {
        assert_eq!(rt; offset_of(base, parts), offset);
    }
}

#[test]
fn widths_and_sizes(rt: HostRuntime) -> Result<(), Fail> {
    for (bits, is_stored) in [(64, true), (24, false), (1, false)] {
        let w = Width::new(bits).ok_or("a width")?;
        assert_eq!(rt; is_access_width(w), is_stored);
    }
    assert_eq!(rt; std::mem::size_of::<Byte>(), 2);
    Ok(())
}
