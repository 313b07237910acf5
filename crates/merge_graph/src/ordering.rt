use crate::components::Labels;
use crate::edge::Edge;
use crate::places::{row_at, rows};
use crate::slots::{number_at, put_number};
use std::alloc::{AllocError, Global};
use std::collections::BTreeSet;

/// What a numbering is taken to be before it is checked: the number of each node, and of each
/// number its smallest node.
#[derive(Drop)]
pub(crate) struct Guess {
    pub(crate) numbers: Vec<usize>,
    pub(crate) firsts: Vec<usize>,
}

/// Components that get numbers, by their labels.
#[derive(Drop)]
struct Queue {
    smallest: Vec<usize>,
    waits: Vec<usize>,
    ready: BTreeSet<usize>,
}

impl Queue {
    /// The component waits for one less.
    fn release(&mut self, label: usize) -> Result<(), AllocError> {
        let left = number_at(&self.waits, label).saturating_sub(1);
        put_number(&mut self.waits, label, left);
        if left == 0 {
            self.ready.insert(number_at(&self.smallest, label))?;
        }
        Ok(())
    }
}

fn first_queue(alloc: Global, labels: &Labels, edges: &[Edge]) -> Result<Queue, AllocError> {
    let mut smallest = vec![in alloc; 0; labels.count]?;
    for (node, label) in labels.labels.iter().enumerate().rev() {
        put_number(&mut smallest, *label, node);
    }
    let mut waits = vec![in alloc; 0; labels.count]?;
    for edge in edges {
        let from = number_at(&labels.labels, edge.from);
        if from != number_at(&labels.labels, edge.to) {
            let more = number_at(&waits, from).saturating_add(1);
            put_number(&mut waits, from, more);
        }
    }
    let mut ready = BTreeSet::new(alloc);
    for (label, first) in smallest.iter().enumerate() {
        if number_at(&waits, label) == 0 {
            ready.insert(*first)?;
        }
    }
    Ok(Queue {
        smallest,
        waits,
        ready,
    })
}

/// For each label the edges that go to its component.
fn entering(alloc: Global, labels: &Labels, edges: &[Edge]) -> Result<Vec<Vec<usize>>, AllocError> {
    let mut targets = Vec::new(alloc);
    for edge in edges {
        targets.push(number_at(&labels.labels, edge.to))?;
    }
    rows(alloc, &targets, labels.count)
}

/// The component of that label has its number: those that wait for it wait for one less.
fn release_all(
    queue: &mut Queue,
    labels: &Labels,
    edges: &[Edge],
    entering: &[Vec<usize>],
    label: usize,
) -> Result<(), AllocError> {
    for place in row_at(entering, label) {
        if let Some(from) = other_source(labels, edges, *place, label) {
            queue.release(from)?;
        }
    }
    Ok(())
}

/// From where an edge goes to the component of the label, if it comes from another one.
fn other_source(labels: &Labels, edges: &[Edge], place: usize, label: usize) -> Option<usize> {
    let edge = edges.get(place)?;
    let from = number_at(&labels.labels, edge.from);
    if from == label { None } else { Some(from) }
}

/// The numbers of components, as far as can be trusted: they are checked afterwards.
pub(crate) fn put_in_order(
    alloc: Global,
    labels: &Labels,
    edges: &[Edge],
) -> Result<Guess, AllocError> {
    let mut queue = first_queue(alloc, labels, edges)?;
    let entering = entering(alloc, labels, edges)?;
    let mut of_labels = vec![in alloc; 0; labels.count]?;
    let mut firsts = Vec::new(alloc);
    for number in 0..labels.count {
        if let Some(first) = queue.ready.pop_first() {
            let label = number_at(&labels.labels, first);
            put_number(&mut of_labels, label, number);
            firsts.push(first)?;
            release_all(&mut queue, labels, edges, &entering, label)?;
        }
    }
    let mut numbers = Vec::new(alloc);
    for label in &labels.labels {
        numbers.push(number_at(&of_labels, *label))?;
    }
    Ok(Guess { numbers, firsts })
}
