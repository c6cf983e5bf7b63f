//! How many phis components have.

ghost use Rattle.std.specs.Prelude.{◌≡◌, ◌==◌, ◌&&◌, ◌+◌, ◌<◌, ◌^◌, ℕ, None, if◌then◌else◌, length, map, nat_eq};
ghost use Rattle.std.specs.Prelude.{unwrap_or, IfOk, OnOk};
ghost use Rattle.indexmap.specs.IndexMap.{get};
ghost use Rattle.value_groups.specs.Counts.{AreCounted, phis_of};

use indexmap::IndexMap;
use sqlite_items::Items;
use std::alloc::{AllocError, Global};

/// For each value how many phis before it are of its component. The map gets how many there are of each component.
pub(crate) fn numbered(
    alloc: Global,
    turns: &[bool],
    components: &[usize],
    counts: &mut IndexMap<usize, u64>,
) -> Result<Items<u64>, AllocError>
    requires sizes { length turns.now ≡ length components.now }
    requires none { (c : ℕ) → get nat_eq counts.old c ≡ None }
    ensures places { IfOk result (λ places. AreCounted turns.now components.now places) }
    ensures counts { OnOk result ((c : ℕ) → unwrap_or (get nat_eq counts.new c) 0
        ≡ length (phis_of turns.now components.now c (length components.now))) }
{
    let mut places = Vec::new(alloc);
    for v in 0..components.len() {
        let component = components[v];
        let count = counted(counts, component);
        places.push(count)?;
        note(counts, component, count, turns[v])?;
    }
    Ok(Items::from_vec(places))
}

/// One more phi of a component than these, where there is one.
fn note(
    counts: &mut IndexMap<usize, u64>,
    component: usize,
    count: u64,
    is_phi: bool,
) -> Result<(), AllocError>
    requires counted { unwrap_or (get nat_eq counts.old component) 0 ≡ count }
    requires small { count + 1 < 2 ^ 64 }
    ensures { OnOk result ((c : ℕ) → unwrap_or (get nat_eq counts.new c) 0
        ≡ unwrap_or (get nat_eq counts.old c) 0 + (if is_phi && (component == c) then 1 else 0)) }
{
    if is_phi {
        counts.insert(component, count + 1)?;
    }
    Ok(())
}

/// How many phis of a component were counted.
fn counted(counts: &IndexMap<usize, u64>, component: usize) -> u64
    ensures { result ≡ unwrap_or (get nat_eq counts.now component) 0 }
{
    match counts.get(&component) {
        Some(count) => *count,
        None => 0,
    }
}

/// For each component how many phis it has.
pub(crate) fn sizes(
    alloc: Global,
    counts: &IndexMap<usize, u64>,
    components: &[usize],
) -> Result<Items<u64>, AllocError>
    ensures { IfOk result (λ sizes. sizes ≡ map (λ c. unwrap_or (get nat_eq counts.now c) 0) components.now) }
{
    let mut sizes = Vec::new(alloc);
    for component in components {
        sizes.push(counted(counts, *component))?;
    }
    Ok(Items::from_vec(sizes))
}
