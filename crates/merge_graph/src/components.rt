use crate::edge::Edge;
use crate::slots::put_number;
use std::alloc::{AllocError, Global};

/// What is known of a node while the components are looked for.
#[derive(Clone, Copy)]
enum Mark {
    Fresh,
    /// It stands on the way, at this place.
    Open(usize),
    /// Its component is complete, and has this label.
    Closed(usize),
}

/// Nodes on the way that reach each other: where they begin, and where their untried edges do.
#[derive(Clone, Copy)]
struct Block {
    nodes: usize,
    edges: usize,
}

/// A way along edges, from block to block. Behind an edge to an earlier block all blocks from there
/// on are one.
#[derive(Drop)]
struct Way {
    marks: Vec<Mark>,
    nodes: Vec<usize>,
    untried: Vec<usize>,
    blocks: Vec<Block>,
    count: usize,
}

/// Labels of nodes that are the same in a component.
#[derive(Drop)]
pub(crate) struct Labels {
    pub(crate) labels: Vec<usize>,
    pub(crate) count: usize,
}

impl Way {
    fn mark(&self, node: usize) -> Mark {
        match self.marks.get(node) {
            Some(mark) => *mark,
            None => Mark::Closed(0),
        }
    }

    fn put_mark(&mut self, node: usize, mark: Mark) {
        if node < self.marks.len() {
            self.marks[node] = mark;
        }
    }

    /// Goes on to a node.
    fn open(&mut self, node: usize, leaving: &[Vec<usize>]) -> Result<(), AllocError> {
        let nodes = self.nodes.len();
        let edges = self.untried.len();
        self.put_mark(node, Mark::Open(nodes));
        self.blocks.push(Block { nodes, edges })?;
        self.nodes.push(node)?;
        if let Some(row) = leaving.get(node) {
            self.untried.extend_from_slice(row)?;
        }
        Ok(())
    }

    /// The last block is a component: none of its edges is left.
    fn close(&mut self, block: Block) {
        for _ in block.nodes..self.nodes.len() {
            if let Some(node) = self.nodes.pop() {
                self.put_mark(node, Mark::Closed(self.count));
            }
        }
        self.blocks.pop();
        self.count = self.count.saturating_add(1);
    }

    /// Tries an edge of the last block; false where there is no block.
    fn step(&mut self, edges: &[Edge], leaving: &[Vec<usize>]) -> Result<bool, AllocError> {
        let block = match self.blocks.last() {
            Some(block) => *block,
            None => return Ok(false),
        };
        if self.untried.len() <= block.edges {
            self.close(block);
            return Ok(true);
        }
        let to = target(edges, &self.untried);
        match self.mark(to) {
            Mark::Open(at) => {
                if at < block.nodes {
                    self.blocks.pop();
                } else {
                    self.untried.pop();
                }
            }
            Mark::Fresh => {
                self.untried.pop();
                self.open(to, leaving)?;
            }
            Mark::Closed(_) => {
                self.untried.pop();
            }
        }
        Ok(true)
    }

    fn walk_from(
        &mut self,
        node: usize,
        edges: &[Edge],
        leaving: &[Vec<usize>],
    ) -> Result<(), AllocError> {
        if !matches!(self.mark(node), Mark::Fresh) {
            return Ok(());
        }
        self.open(node, leaving)?;
        for _ in 0..usize::MAX {
            if !self.step(edges, leaving)? {
                break;
            }
        }
        Ok(())
    }

    fn labels(&self, alloc: Global) -> Result<Vec<usize>, AllocError> {
        let mut labels = vec![in alloc; 0; self.marks.len()]?;
        for (node, mark) in self.marks.iter().enumerate() {
            if let Mark::Closed(label) = *mark {
                put_number(&mut labels, node, label);
            }
        }
        Ok(labels)
    }
}

/// Where the last of these edges goes.
fn target(edges: &[Edge], untried: &[usize]) -> usize {
    match untried.last() {
        Some(edge) => match edges.get(*edge) {
            Some(edge) => edge.to,
            None => usize::MAX,
        },
        None => usize::MAX,
    }
}

/// The components of a graph, as far as can be trusted: what is found is checked afterwards.
pub(crate) fn label_nodes(
    alloc: Global,
    nodes: usize,
    edges: &[Edge],
    leaving: &[Vec<usize>],
) -> Result<Labels, AllocError> {
    let mut way = Way {
        marks: vec![in alloc; Mark::Fresh; nodes]?,
        nodes: Vec::new(alloc),
        untried: Vec::new(alloc),
        blocks: Vec::new(alloc),
        count: 0,
    };
    for node in 0..nodes {
        way.walk_from(node, edges, leaving)?;
    }
    let labels = way.labels(alloc)?;
    let count = way.count;
    Ok(Labels { labels, count })
}
