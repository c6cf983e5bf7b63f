//! What values depend on.

ghost use Rattle.std.specs.Prelude.{◌≡◌, ◌<◌, ◌⊎◌, ◌↔◌, ◌++◌, ℕ, List, All, Contains, length, map, IfOk, OnOk, IsTrue};
ghost use Rattle.flow_graph.specs.Graph.{IsClosed};
ghost use Rattle.scev_base.specs.declared.ids.ValueId.{ValueId as AnyValue};
ghost use Rattle.value_view.specs.declared.reading.Reading.{Reading as AnyReading};
ghost use Rattle.value_exprs.specs.View.{Holds, home as home_of, number_of_loop, outside};
ghost use Rattle.value_exprs.specs.WellMade.{IsListed, IsWellMade};
ghost use Rattle.value_groups.specs.Groups.{IsDependence};
ghost use Rattle.value_groups.specs.Reads.{IsReadBy, IsReadLeaving};

use scev_base::{LoopId, ValueId};
use sqlite_items::Items;
use std::alloc::{AllocError, Global};
use value_exprs::FunctionView;
use value_view::Reading;

/// The graph with an arc from each value to each one on which it depends. It takes time linear in the readings, in what
/// the conditions of each loop read that a reading leaves, and for each of those loops and one more in how many loops
/// hold the reading's place.
pub(crate) fn dependence(
    alloc: Global,
    view: &FunctionView,
) -> Result<Vec<Items<usize>>, AllocError>
    requires { IsWellMade view.now }
    ensures graph { IfOk result (λ graph. IsDependence view.now graph.items) }
    ensures closed { IfOk result (λ graph. IsClosed graph.items) }
{
    let mut graph = Vec::new(alloc);
    for reads in view.reads.as_slice() {
        graph.push(depends(alloc, view, reads.as_slice())?)?;
    }
    Ok(graph)
}

/// What is depended on by what some instruction reads.
fn depends(
    alloc: Global,
    view: &FunctionView,
    reads: &[Reading],
) -> Result<Items<usize>, AllocError>
    requires view { IsWellMade view.now }
    requires places { All (λ (reading : AnyReading). (reading.register.0 < length view.now.rows)
        × IsListed view.now reading.place) reads.now }
    ensures { IfOk result (λ row. (x : ℕ) → Contains row x ↔ IsReadBy view.now reads.now x) }
{
    let mut row = Vec::new(alloc);
    for reading in reads {
        row.push(reading.register.0 as usize)?;
        note_left(view, *reading, &mut row)?;
    }
    Ok(Items::from_vec(row))
}

/// Adds what the conditions of the exits of the loops read that an operand leaves.
fn note_left(view: &FunctionView, reading: Reading, row: &mut Vec<usize>) -> Result<(), AllocError>
    requires view { IsWellMade view.now }
    requires register { reading.register.0 < length view.now.rows }
    requires place { IsListed view.now reading.place }
    ensures { OnOk result ((more : List ℕ) × (row.new.items ≡ row.old.items ++ more)
        × ((x : ℕ) → Contains more x
        ↔ IsReadLeaving view.now reading.register.0 (number_of_loop reading.place) x)) }
{
    let mut at = home(view, reading.register);
    while let Some(l) = at {
        if holds(view, l, reading.place) {
            return Ok(());
        }
        note_all(view.conditions.as_slice()[l.0 as usize].as_slice(), row)?;
        at = around(view, l);
    }
    Ok(())
}

/// Adds some registers.
fn note_all(registers: &[ValueId], row: &mut Vec<usize>) -> Result<(), AllocError>
    ensures { OnOk result (row.new.items ≡ row.old.items ++ map (λ (x : AnyValue). x.0) registers.now) }
{
    for x in registers {
        row.push(x.0 as usize)?;
    }
    Ok(())
}

/// The innermost loop in which a value is defined.
fn home(view: &FunctionView, v: ValueId) -> Option<LoopId>
    requires view { IsWellMade view.now }
    requires register { v.0 < length view.now.rows }
    ensures home { result ≡ home_of view.now v.0 }
    ensures listed { IsListed view.now result }
{
    match view.rows.as_slice()[v.0 as usize].block {
        Some(b) => match view.innermost.as_slice().get(b.0 as usize) {
            Some(l) => *l,
            None => None,
        },
        None => None,
    }
}

/// Whether a loop holds a place, given by the innermost loop that does.
fn holds(view: &FunctionView, l: LoopId, place: Option<LoopId>) -> bool
    requires inside { l.0 < length view.now.parents }
    requires place { IsListed view.now place }
    ensures { IsTrue result ↔ Holds view.now l.0 (number_of_loop place) }
{
    match place {
        Some(inner) => view.nest.contains(l, inner),
        None => false,
    }
}

/// The loop around a loop.
fn around(view: &FunctionView, l: LoopId) -> Option<LoopId>
    requires { l.0 < length view.now.parents }
    ensures { number_of_loop result ≡ outside view.now l }
{
    match view.around.as_slice()[l.0 as usize] {
        Some(parent) => Some(LoopId(parent)),
        None => None,
    }
}
