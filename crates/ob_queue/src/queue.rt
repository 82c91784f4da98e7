//! The queue of marked nodes.

ghost use Rattle.std.specs.Prelude.{◌≡◌, ℕ, ◌<◌, ◌≤◌, true, List, [], length, nat_eq, slice_set, OnOk, OnErr};
ghost use Rattle.std.specs.List.{IsDistinct};
ghost use Rattle.ob_graph.specs.Paths.{inputs_of, is_in};
ghost use Rattle.ob_queue.specs.Plans.{is_marked, marked_inputs, CyclesAside, HasNoCycle, InputsFirst};

use crate::walk::{Walk, walk_all};
use ob_base::NoMemory;
use ob_graph::Graph;
use std::alloc::Global;
use std::marker::Model;

/// Marked nodes, which contracts see as the list of whether each node is marked, that of node v at
/// place v. The length of that list is the `spare` of the queue: for the nodes below it `mark` and
/// `plan` have their memory.
#[derive(Debug, Drop)]
pub struct Queue {
    walk: Walk,
    marked: Vec<u32>,
}

impl Model for Queue {
    ghost use Rattle.std.specs.Prelude.{Bool, List, vec_capacity};
    ghost use Rattle.ob_queue.specs.Walks.{IsQueue};

    ghost Value = { List Bool };

    ghost view = { λ q. q.walk.marks };

    ghost invariant = { λ q. IsQueue q.walk q.marked.items (vec_capacity q.marked) };
}

impl Queue {
    ghost use Rattle.std.specs.Borrow.{sem};
    ghost use Rattle.ob_queue.specs.Lending.{EmptiesQueue};

    /// The queue with no spare and nothing marked.
    pub fn new(alloc: Global) -> Queue
        ensures { result ≡ [] }
    {
        Queue {
            walk: Walk::new(alloc),
            marked: Vec::new(alloc),
        }
    }

    /// The number below which nodes may be marked.
    pub fn spare(&self) -> u32
        ensures { result ≡ length self.now }
    {
        self.walk.room() as u32
    }

    /// Makes `spare` at least this number of nodes. What was marked stays marked.
    ///
    /// # Errors
    /// `NoMemory` where an allocation is refused; the queue is then as before.
    pub fn reserve(&mut self, nodes: u32) -> Result<(), NoMemory>
        ensures marked { (v : ℕ) → is_marked self.new v ≡ is_marked self.old v }
        ensures spare { OnOk result (nodes ≤ length self.new) }
        ensures grows { length self.old ≤ length self.new }
        ensures refused { OnErr result (self.new ≡ self.old) }
    {
        let nodes = nodes as usize;
        if nodes <= self.walk.room() {
            return Ok(());
        }
        self.marked.reserve(nodes)?;
        self.walk.reserve(nodes)?;
        Ok(())
    }

    /// Marks a node. It takes no memory.
    pub fn mark(&mut self, node: u32)
        requires { node < length self.old }
        ensures { self.new ≡ slice_set self.old node true }
    {
        if !self.walk.waits(node) {
            self.walk.mark(node);
            self.marked.push_reserved(node);
        }
    }

    /// The marked nodes, each once. The inputs of a node that are marked stand before it, but for
    /// those from which a path of marked inputs leads back to it. Nothing is marked afterwards. It
    /// takes no memory, and time in proportion to the marked nodes and their inputs.
    pub fn plan(&mut self, graph: &Graph) -> &[u32]
        ensures* nothing_marked { sem 𝓛 (EmptiesQueue self.entry) }
        ensures once { IsDistinct nat_eq result.now }
        ensures listed { (v : ℕ) → is_in v result.now ≡ is_marked self.old v }
        ensures inputs_first { HasNoCycle (marked_inputs self.old (inputs_of graph.now)) → InputsFirst (marked_inputs self.old (inputs_of graph.now)) result.now }
        ensures cycles_aside { CyclesAside (marked_inputs self.old (inputs_of graph.now)) result.now }
    {
        walk_all(&mut self.walk, graph, self.marked.as_slice());
        self.marked.clear();
        self.walk.order()
    }
}
