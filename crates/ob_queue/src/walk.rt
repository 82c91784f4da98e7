//! A walk over the inputs of marked nodes, with memory that was reserved before.

ghost use Rattle.std.specs.Prelude.{◌≡◌, ℕ, ◌+◌, ◌-◌, ◌*◌, ◌<◌, ◌≤◌, Bool, true, false, List, [], ◌∷◌, ◌++◌, length, nat_eq, replicate, slice_set, slice_index, take, OnOk, OnErr};
ghost use Rattle.std.specs.List.{IsDistinct};
ghost use Rattle.ob_graph.specs.Paths.{inputs_of, is_in};
ghost use Rattle.ob_queue.specs.Plans.{is_marked, marked_inputs, CyclesAside};
ghost use Rattle.ob_queue.specs.Walks.{Walking};

use ob_base::NoMemory;
use ob_graph::Graph;
use std::alloc::Global;
use std::marker::Model;

/// The nodes that are marked and not begun, those that are begun, and those that are placed.
#[derive(Debug, Drop)]
pub(crate) struct Walk {
    marks: Vec<bool>,
    path: Vec<u32>,
    places: Vec<usize>,
    order: Vec<u32>,
}

impl Model for Walk {
    ghost use Rattle.std.specs.Prelude.{length, vec_capacity};
    ghost use Rattle.ob_queue.specs.Walks.{Walked, HasRoom};

    ghost Value = { Walked };

    ghost view = { λ w. record { marks = w.marks.items; path = w.path.items; places = w.places.items; order = w.order.items } };

    ghost invariant = { λ w. HasRoom (length w.marks.items) (vec_capacity w.path) (vec_capacity w.places) (vec_capacity w.order) };
}

impl Walk {
    /// A walk without marks, with room for no node.
    pub(crate) fn new(alloc: Global) -> Walk
        ensures marks { result.marks ≡ [] }
        ensures path { result.path ≡ [] }
        ensures places { result.places ≡ [] }
    {
        Walk {
            marks: Vec::new(alloc),
            path: Vec::new(alloc),
            places: Vec::new(alloc),
            order: Vec::new(alloc),
        }
    }

    /// How many nodes there is room for.
    pub(crate) fn room(&self) -> usize
        ensures { result ≡ length self.now.marks }
    {
        self.marks.len()
    }

    /// Makes room for the nodes below `nodes`, no fewer than there is room for now.
    ///
    /// # Errors
    /// `NoMemory` where an allocation is refused.
    pub(crate) fn reserve(&mut self, nodes: usize) -> Result<(), NoMemory>
        requires { length self.old.marks ≤ nodes }
        ensures path { self.new.path ≡ self.old.path }
        ensures places { self.new.places ≡ self.old.places }
        ensures marks { OnOk result (self.new.marks ≡ self.old.marks ++ replicate (nodes - length self.old.marks) false) }
        ensures refused { OnErr result (self.new.marks ≡ self.old.marks) }
    {
        self.path.reserve(nodes)?;
        self.places.reserve(nodes)?;
        self.order.reserve(nodes)?;
        self.marks.resize(nodes, false)?;
        Ok(())
    }

    /// Whether a node is marked and not begun.
    pub(crate) fn waits(&self, node: u32) -> bool
        ensures { result ≡ is_marked self.now.marks node }
    {
        match self.marks.get(node as usize) {
            Some(mark) => *mark,
            None => false,
        }
    }

    /// Marks a node.
    pub(crate) fn mark(&mut self, node: u32)
        requires { node < length self.old.marks }
        ensures marks { self.new.marks ≡ slice_set self.old.marks node true }
        ensures path { self.new.path ≡ self.old.path }
        ensures places { self.new.places ≡ self.old.places }
    {
        self.marks[node as usize] = true;
    }

    /// Takes away the plan of before.
    fn clear_order(&mut self)
        ensures order { self.new.order ≡ [] }
        ensures marks { self.new.marks ≡ self.old.marks }
        ensures path { self.new.path ≡ self.old.path }
        ensures places { self.new.places ≡ self.old.places }
    {
        self.order.clear();
    }

    /// Begins a node.
    fn begin(&mut self, node: u32)
        requires node { node < length self.old.marks }
        requires path { length self.old.path < length self.old.marks }
        requires places { length self.old.places ≡ length self.old.path }
        ensures marks { self.new.marks ≡ slice_set self.old.marks node false }
        ensures path { self.new.path ≡ self.old.path ++ node ∷ [] }
        ensures places { self.new.places ≡ self.old.places ++ 0 ∷ [] }
        ensures order { self.new.order ≡ self.old.order }
    {
        self.marks[node as usize] = false;
        self.path.push_reserved(node);
        self.places.push_reserved(0);
    }

    /// Goes on to a place among the inputs of a node of the path.
    fn advance(&mut self, depth: usize, place: usize)
        requires { depth < length self.old.places }
        ensures places { self.new.places ≡ slice_set self.old.places depth place }
        ensures marks { self.new.marks ≡ self.old.marks }
        ensures path { self.new.path ≡ self.old.path }
        ensures order { self.new.order ≡ self.old.order }
    {
        self.places[depth] = place;
    }

    /// Places the last node of the path.
    fn finish(&mut self, node: u32)
        requires path { 0 < length self.old.path }
        requires places { length self.old.places ≡ length self.old.path }
        requires order { length self.old.order < length self.old.marks }
        ensures path { self.new.path ≡ take (length self.old.path - 1) self.old.path }
        ensures places { self.new.places ≡ take (length self.old.path - 1) self.old.places }
        ensures order { self.new.order ≡ self.old.order ++ node ∷ [] }
        ensures marks { self.new.marks ≡ self.old.marks }
    {
        let _node = self.path.pop();
        let _place = self.places.pop();
        self.order.push_reserved(node);
    }

    /// The nodes that are begun and not placed, in the order in which one reads the next.
    fn path(&self) -> &[u32]
        ensures { result.now ≡ self.now.path }
    {
        self.path.as_slice()
    }

    /// The place among its inputs to which each node of the path has come.
    fn places(&self) -> &[usize]
        ensures { result.now ≡ self.now.places }
    {
        self.places.as_slice()
    }

    /// The nodes that are placed, in this order.
    pub(crate) fn order(&self) -> &[u32]
        ensures { result.now ≡ self.now.order }
    {
        self.order.as_slice()
    }
}

/// The first place from `place` on at which an input waits, or the number of inputs.
fn next_waiting(walk: &Walk, inputs: &[u32], place: usize) -> usize
    ensures skipped { (j : ℕ) → place ≤ j → j < result → is_marked walk.now.marks (slice_index inputs.now j) ≡ false }
    ensures waits { result < length inputs.now → is_marked walk.now.marks (slice_index inputs.now result) ≡ true }
{
    let mut next = place;
    while next < inputs.len() && !walk.waits(inputs[next]) {
        next += 1;
    }
    next
}

/// Begins the next input that waits of the last node of the path, or places that node.
fn step(walk: &mut Walk, graph: &Graph)
    requires path { 0 < length walk.old.path }
    requires walking { (queue : List Bool) × Walking queue (inputs_of graph.now) walk.old }
    ensures walking { (queue : List Bool) → Walking queue (inputs_of graph.now) walk.old → Walking queue (inputs_of graph.now) walk.new }
    ensures falls { (v : ℕ) → is_marked walk.new.marks v ≡ true → is_marked walk.old.marks v ≡ true }
    ensures progress { 2 * length walk.new.order + length walk.new.path ≡ 2 * length walk.old.order + length walk.old.path + 1 }
{
    let depth = walk.path().len() - 1;
    let node = walk.path()[depth];
    let inputs = graph.inputs(node);
    let place = next_waiting(walk, inputs, walk.places()[depth]);
    if place < inputs.len() {
        walk.begin(inputs[place]);
        walk.advance(depth, place + 1);
    } else {
        walk.finish(node);
    }
}

/// Places all nodes of the path, each after the inputs that waited.
fn finish_path(walk: &mut Walk, graph: &Graph)
    requires walking { (queue : List Bool) × Walking queue (inputs_of graph.now) walk.old }
    ensures walking { (queue : List Bool) → Walking queue (inputs_of graph.now) walk.old → Walking queue (inputs_of graph.now) walk.new }
    ensures falls { (v : ℕ) → is_marked walk.new.marks v ≡ true → is_marked walk.old.marks v ≡ true }
    ensures path { walk.new.path ≡ [] }
{
    while !walk.path().is_empty() {
        step(walk, graph);
    }
}

/// Places a node where it waits, after the inputs that wait.
fn visit(walk: &mut Walk, graph: &Graph, node: u32)
    requires walking { (queue : List Bool) × Walking queue (inputs_of graph.now) walk.old }
    requires path { walk.old.path ≡ [] }
    ensures walking { (queue : List Bool) → Walking queue (inputs_of graph.now) walk.old → Walking queue (inputs_of graph.now) walk.new }
    ensures falls { (v : ℕ) → is_marked walk.new.marks v ≡ true → is_marked walk.old.marks v ≡ true }
    ensures begun { is_marked walk.new.marks node ≡ false }
    ensures path { walk.new.path ≡ [] }
{
    if walk.waits(node) {
        walk.begin(node);
        finish_path(walk, graph);
    }
}

/// Places the marked nodes, which are these, and takes away their marks. It takes time in
/// proportion to the nodes and their inputs.
pub(crate) fn walk_all(walk: &mut Walk, graph: &Graph, nodes: &[u32])
    requires path { walk.old.path ≡ [] }
    requires places { walk.old.places ≡ [] }
    requires nodes { (v : ℕ) → is_in v nodes.now ≡ is_marked walk.old.marks v }
    ensures path { walk.new.path ≡ [] }
    ensures places { walk.new.places ≡ [] }
    ensures marks { walk.new.marks ≡ replicate (length walk.old.marks) false }
    ensures once { IsDistinct nat_eq walk.new.order }
    ensures listed { (v : ℕ) → is_in v walk.new.order ≡ is_marked walk.old.marks v }
    ensures cycles_aside { CyclesAside (marked_inputs walk.old.marks (inputs_of graph.now)) walk.new.order }
{
    walk.clear_order();
    for node in nodes {
        visit(walk, graph, *node);
    }
}
