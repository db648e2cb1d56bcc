ghost use Rattle.std.specs.Prelude.{IfOk, ◌<◌};
ghost use Rattle.ms_graph.specs.Components.{IsGraph};

use ms_base::seq::Seq;
use ms_graph::{Edge, Edges, OutOfMemory, components};
use std::alloc::Global;
use std::test::Fail;

/// A graph and the numbers of its nodes.
#[derive(Clone, Copy)]
struct Row {
    message: &'static str,
    nodes: u32,
    edges: &'static [(u32, u32)],
    numbers: &'static [u32],
}

/// The edges whose ends are below the number of nodes.
fn graph(alloc: Global, nodes: u32, pairs: &[(u32, u32)]) -> Result<Edges, OutOfMemory>
    ensures { IfOk result (IsGraph nodes) }
{
    let mut edges = Seq::new(alloc);
    for (from, to) in pairs {
        if *from < nodes && *to < nodes {
            edges.push(Edge {
                from: *from,
                to: *to,
            })?;
        }
    }
    Ok(edges)
}

/// A path of a thousand nodes.
fn long_path(alloc: Global) -> Result<Edges, OutOfMemory>
    ensures { IfOk result (IsGraph 1000) }
{
    let mut edges = Seq::new(alloc);
    for from in 0..999 {
        edges.push(Edge { from, to: from + 1 })?;
    }
    Ok(edges)
}

#[test]
fn small_graphs(rt: HostRuntime) -> Result<(), Fail> {
    let rows = [
        Row {
            message: "no nodes",
            nodes: 0,
            edges: &[],
            numbers: &[],
        },
        Row {
            message: "a self edge",
            nodes: 1,
            edges: &[(0, 0)],
            numbers: &[0],
        },
        Row {
            message: "a path",
            nodes: 3,
            edges: &[(0, 1), (1, 2)],
            numbers: &[2, 1, 0],
        },
        Row {
            message: "a circle",
            nodes: 3,
            edges: &[(0, 1), (1, 2), (2, 0)],
            numbers: &[0, 0, 0],
        },
        Row {
            message: "two circles with an edge between",
            nodes: 4,
            edges: &[(0, 1), (1, 0), (1, 2), (2, 3), (3, 2)],
            numbers: &[1, 1, 0, 0],
        },
    ];
    for row in &rows {
        let edges = graph(rt.alloc(), row.nodes, row.edges)?;
        let numbers = components(rt.alloc(), row.nodes, &edges)?;
        assert_eq!(rt; numbers.as_slice(), row.numbers, "{}", row.message);
    }
    Ok(())
}

#[test]
fn long_paths(rt: HostRuntime) -> Result<(), Fail> {
    let edges = long_path(rt.alloc())?;
    let numbers = components(rt.alloc(), 1000, &edges)?;
    let mut expected = 1000;
    for number in numbers.as_slice() {
        assert!(rt; expected > 0);
        expected -= 1;
        assert_eq!(rt; *number, expected, "a path of 1,000 nodes");
    }
    assert_eq!(rt; expected, 0, "a number for each node");
    Ok(())
}
