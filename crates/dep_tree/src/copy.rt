ghost use Rattle.std.specs.Prelude.{◌≡◌, IfOk};
ghost use Rattle.dep_tree.specs.View.{trees_view, view};

use crate::tree::Node;
use std::alloc::{AllocError, Global};

/// The same dependencies, in memory of their own.
#[cycle(copy)]
pub fn copy_all(alloc: Global, nodes: &[Node]) -> Result<Vec<Node>, AllocError>
    ensures { IfOk result (λ copies. trees_view copies.items ≡ trees_view nodes.now) }
{
    let mut copies = Vec::with_capacity(alloc, nodes.len())?;
    for node in nodes {
        copies.push(copy(alloc, node)?)?;
    }
    Ok(copies)
}

#[cycle(copy)]
fn copy(alloc: Global, node: &Node) -> Result<Node, AllocError>
    ensures { IfOk result (λ copy. view copy ≡ view node.now) }
{
    match node {
        Node::Leaf(atom) => Ok(Node::Leaf(atom.try_clone()?)),
        Node::All(nodes) => Ok(Node::All(copy_all(alloc, nodes)?)),
        Node::AnyOf(nodes) => Ok(Node::AnyOf(copy_all(alloc, nodes)?)),
        Node::When { flag, on, nodes } => Ok(Node::When {
            flag: flag.try_clone()?,
            on: *on,
            nodes: copy_all(alloc, nodes)?,
        }),
    }
}
