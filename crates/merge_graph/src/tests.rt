ghost use Rattle.merge_graph.specs.Levels.{IsNumbered};

use crate::edge::Edge;
use crate::leveling::level_rows;
use crate::numbering::{Numbering, are_between, number};
use crate::waiting::after;
use std::alloc::{AllocError, Global};
use std::test::Fail;

// What is told of so many nodes with these edges: from, to, and whether it builds.
fn told(
    alloc: Global,
    nodes: usize,
    triples: &[(usize, usize, bool)],
) -> Result<String, AllocError> {
    let mut edges = Vec::new(alloc);
    for (from, to, builds) in triples {
        edges.push(Edge {
            from: *from,
            to: *to,
            builds: *builds,
        })?;
    }
    told_of(alloc, nodes, &edges)
}

fn told_of(alloc: Global, nodes: usize, edges: &[Edge]) -> Result<String, AllocError> {
    if !are_between(nodes, edges) {
        return format!(in alloc; "no nodes");
    }
    match number(alloc, nodes, edges)? {
        Numbering::BuildCycle(cycle) => format!(in alloc; "cycle {cycle:?}"),
        Numbering::Numbers { numbers, count } => all_of(alloc, &numbers, count, edges),
    }
}

// The numbers, what each component waits for, and the nodes by level.
fn all_of(
    alloc: Global,
    numbers: &[usize],
    count: usize,
    edges: &[Edge],
) -> Result<String, AllocError>
    requires { IsNumbered edges.now count numbers.now }
{
    let after = after(alloc, numbers, count, edges)?;
    let rows = level_rows(alloc, numbers, count, edges)?;
    format!(in alloc; "{numbers:?} {after:?} {rows:?}")
}

#[test]
fn components_and_their_order(rt: HostRuntime) -> Result<(), Fail> {
    let alloc = rt.alloc();
    assert_eq!(rt; told(alloc, 0, &[])?.as_str(), "[] [] []");
    assert_eq!(rt; told(alloc, 2, &[])?.as_str(), "[0, 1] [[], []] [[0, 1]]");
    let chain = told(alloc, 3, &[(0, 1, false), (1, 2, false)])?;
    assert_eq!(rt; chain.as_str(), "[2, 1, 0] [[], [0], [1]] [[0, 1, 2]]");
    let two = told(alloc, 3, &[(0, 2, false), (2, 0, false), (1, 2, false)])?;
    assert_eq!(rt; two.as_str(), "[0, 1, 0] [[], [0]] [[0, 1, 2]]");
    let smallest = told(alloc, 3, &[(0, 1, false)])?;
    assert_eq!(rt; smallest.as_str(), "[1, 0, 2] [[], [0], []] [[0, 1, 2]]");
    Ok(())
}

#[test]
fn cycles_of_builds(rt: HostRuntime) -> Result<(), Fail> {
    let alloc = rt.alloc();
    assert_eq!(rt; told(alloc, 1, &[(0, 0, true)])?.as_str(), "cycle [0]");
    assert_eq!(rt;
        told(alloc, 1, &[(0, 0, false)])?.as_str(),
        "[0] [[]] [[0]]"
    );
    let first = told(
        alloc,
        5,
        &[(4, 4, true), (2, 1, true), (1, 2, false), (0, 3, true)],
    )?;
    assert_eq!(rt; first.as_str(), "cycle [1, 2]");
    Ok(())
}

#[test]
fn levels_of_waits_and_builds(rt: HostRuntime) -> Result<(), Fail> {
    let alloc = rt.alloc();
    let both = told(alloc, 4, &[(0, 1, true), (1, 2, false), (2, 3, true)])?;
    assert_eq!(rt;
        both.as_str(),
        "[3, 2, 1, 0] [[], [0], [1], [2]] [[3], [1, 2], [0]]"
    );
    let star = told(
        alloc,
        4,
        &[(0, 3, false), (0, 1, false), (0, 3, true), (2, 2, false)],
    )?;
    assert_eq!(rt;
        star.as_str(),
        "[3, 0, 1, 2] [[], [], [], [0, 2]] [[1, 2, 3], [0]]"
    );
    Ok(())
}
