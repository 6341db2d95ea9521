//! Which nodes of a flow graph are entered on a path that no earlier node stops.
#![tactic(auto)]

ghost use Rattle.std.specs.Prelude.{◌≡◌, ◌<◌, length, All, IfOk, OnOk};
ghost use Rattle.flow_paths.specs.Paths.{IsInside, Answers, Visited};

use bsan_ids::{ListOf, NoMemory};
use std::alloc::Global;

/// Marks the nodes that aren't marked yet, and notes them as work.
fn visit(next: &[usize], marked: &mut Vec<bool>, work: &mut Vec<usize>) -> Result<(), NoMemory>
    requires inside { All (λ s. s < length marked.old.items) next.now }
    ensures { OnOk result (Visited next.now marked.old.items work.old.items marked.new.items work.new.items) }
{
    for node in next {
        if !marked[*node] {
            marked[*node] = true;
            work.push(*node)?;
        }
    }
    Ok(())
}

/// For each node of a flow graph, whether some path from node 0 enters it, on which none of the
/// nodes before it stops. `graph` has for each node those to which it goes, `stops` whether it
/// stops what comes in.
pub fn entered(
    alloc: Global,
    graph: &[ListOf<usize>],
    stops: &[bool],
) -> Result<Vec<bool>, NoMemory>
    requires some { 0 < length graph.now }
    requires inside { IsInside graph.now }
    requires size { length stops.now ≡ length graph.now }
    ensures { IfOk result (λ marked. Answers graph.now stops.now marked.items) }
{
    let mut marked = vec![in alloc; false; graph.len()]?;
    let mut work = Vec::new(alloc);
    marked[0] = true;
    work.push(0)?;
    while let Some(node) = work.pop() {
        if !stops[node] {
            visit(graph[node].as_slice(), &mut marked, &mut work)?;
        }
    }
    Ok(marked)
}
