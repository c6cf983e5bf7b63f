//! Components and groups.

ghost use Rattle.std.specs.Prelude.{◌≡◌, IfOk};
ghost use Rattle.value_exprs.specs.WellMade.{IsWellMade};
ghost use Rattle.value_groups.specs.Groups.{AreGroupsOf};

use crate::counts::{numbered, sizes};
use crate::dependence::dependence;
use graph_components::components;
use indexmap::IndexMap;
use sqlite_items::Items;
use std::alloc::{AllocError, Global};
use std::marker::Model;
use value_exprs::FunctionView;

/// For each value the number of its component, where two values have one number exactly if each depends on the other;
/// its place in its group, where it is a phi that counts for one; and how many phis its group has.
#[derive(Drop)]
pub struct Groups {
    pub components: Items<usize>,
    pub places: Items<u64>,
    pub sizes: Items<u64>,
}

impl Model for Groups {
    ghost use Rattle.value_groups.specs.Groups.{GroupsParts};

    ghost Value = { GroupsParts };

    ghost view = { λ groups. record {
      components = groups.components;
      places = groups.places;
      sizes = groups.sizes;
    } };
}

/// The groups of a function's values, in the time that it takes to list what each of them depends on, and linear in
/// that list. The error comes only where there is no memory.
pub fn groups_of(alloc: Global, view: &FunctionView) -> Result<Groups, AllocError>
    requires { IsWellMade view.now }
    ensures { IfOk result (λ groups. AreGroupsOf view.now groups) }
{
    let graph = dependence(alloc, view)?;
    let components = components(alloc, graph.as_slice())?;
    let mut counts: IndexMap<usize, u64> = IndexMap::new(alloc);
    let places = numbered(
        alloc,
        view.turns.as_slice(),
        components.as_slice(),
        &mut counts,
    )?;
    let sizes = sizes(alloc, &counts, components.as_slice())?;
    Ok(Groups {
        components,
        places,
        sizes,
    })
}
