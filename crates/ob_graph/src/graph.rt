//! The graph of nodes and their inputs.

ghost use Rattle.std.specs.Prelude.{◌≡◌, ◌≢◌, ℕ, ◌<◌, ◌≤◌, ◌^◌, List, [], length, All, max, OnOk, OnErr};
ghost use Rattle.std.specs.Bool.{Decides};
ghost use Rattle.std.specs.List.Sorted.{IsStrictlyIncreasing};
ghost use Rattle.ob_graph.specs.Paths.{is_in, inputs_of, Path, Reached};

use crate::search::{Search, inputs_at, search_from};
use ob_base::{List, NoMemory};
use std::alloc::Global;
use std::marker::Model;

/// Nodes are the numbers below this one.
pub const MAX_NODES: u32 = 1 << 20;

/// Nodes with the list of inputs of each, which contracts see as these lists, the list of node v at
/// place v. The length of that list is the `spare` of the graph: all nodes lie below it, and for
/// that many nodes `circular` and `reach` have their memory.
#[derive(Debug, Drop)]
pub struct Graph {
    alloc: Global,
    lists: Vec<List<u32>>,
    search: Search,
}

impl Model for Graph {
    ghost use Rattle.std.specs.Prelude.{ℕ, List};
    ghost use Rattle.ob_graph.specs.Searches.{IsGraph};

    ghost Value = { List (List ℕ) };

    ghost view = { λ g. g.lists.items };

    ghost invariant = { λ g. IsGraph g.lists.items g.search.room };
}

/// The least number above these nodes.
fn above_all(node: u32, inputs: &[u32]) -> usize
    requires node { node < 2 ^ 20 }
    requires inputs { All (λ u. u < 2 ^ 20) inputs.now }
    ensures node { node < result }
    ensures inputs { All (λ u. u < result) inputs.now }
    ensures few { result ≤ 2 ^ 20 }
{
    let mut above = node as usize + 1;
    for input in inputs {
        above = above.max(*input as usize + 1);
    }
    above
}

/// Adds nodes without inputs up to this number of nodes.
///
/// # Errors
/// `NoMemory` where an allocation is refused; the lists are then as before.
fn widen(alloc: Global, lists: &mut Vec<List<u32>>, nodes: usize) -> Result<(), NoMemory>
    ensures same { (v : ℕ) → inputs_of lists.new.items v ≡ inputs_of lists.old.items v }
    ensures nodes { OnOk result (length lists.new.items ≡ max (length lists.old.items) nodes) }
    ensures refused { OnErr result (lists.new.items ≡ lists.old.items) }
{
    let len = lists.len();
    if nodes <= len {
        return Ok(());
    }
    lists.reserve(nodes - len)?;
    for _place in len..nodes {
        lists.push_reserved(List::new(alloc));
    }
    Ok(())
}

impl Graph {
    ghost use Rattle.std.specs.Borrow.{sem};
    ghost use Rattle.ob_graph.specs.Lending.{KeepsGraph};

    /// The graph of no node.
    pub fn new(alloc: Global) -> Graph
        ensures { result ≡ [] }
    {
        Graph {
            alloc,
            lists: Vec::new(alloc),
            search: Search::new(alloc),
        }
    }

    /// The number below which all nodes lie: of each that was ever named, as a node or as an input.
    pub fn spare(&self) -> u32
        ensures { result ≡ length self.now }
    {
        self.lists.len() as u32
    }

    /// Gives a node these inputs in place of its own. What was never named before is a node
    /// without inputs from now on, an input too.
    ///
    /// # Errors
    /// `NoMemory` where an allocation is refused; the graph is then as before.
    pub fn set_inputs(&mut self, node: u32, inputs: &[u32]) -> Result<(), NoMemory>
        requires node { node < 2 ^ 20 }
        requires inputs { All (λ u. u < 2 ^ 20) inputs.now }
        ensures own { OnOk result (inputs_of self.new node ≡ inputs.now) }
        ensures others { OnOk result ((v : ℕ) → v ≢ node → inputs_of self.new v ≡ inputs_of self.old v) }
        ensures node { OnOk result (node < length self.new) }
        ensures inputs { OnOk result (All (λ u. u < length self.new) inputs.now) }
        ensures spare { length self.old ≤ length self.new }
        ensures refused { OnErr result (self.new ≡ self.old) }
    {
        let list = List::from_slice(self.alloc, inputs)?;
        let nodes = above_all(node, inputs);
        self.search.reserve(nodes)?;
        widen(self.alloc, &mut self.lists, nodes)?;
        self.lists[node as usize] = list;
        Ok(())
    }

    /// A node's own list of inputs, empty where it has none.
    pub fn inputs(&self, node: u32) -> &[u32]
        ensures { result.now ≡ inputs_of self.now node }
    {
        inputs_at(&self.lists, node)
    }

    /// Takes away a node's own list of inputs. The lists of others, which may name it, stay. It
    /// takes no memory.
    pub fn drop_node(&mut self, node: u32)
        ensures own { inputs_of self.new node ≡ [] }
        ensures others { (v : ℕ) → v ≢ node → inputs_of self.new v ≡ inputs_of self.old v }
        ensures spare { length self.new ≡ length self.old }
    {
        let place = node as usize;
        if place < self.lists.len() {
            self.lists[place] = List::new(self.alloc);
        }
    }

    /// Whether a nonempty path of inputs leads from a node to itself. It takes no memory, and time
    /// in proportion to the nodes that are reached from it and their inputs.
    pub fn circular(&mut self, node: u32) -> bool
        ensures circular { Decides result (Path (inputs_of self.old) node node) }
        ensures graph { self.new ≡ self.old }
    {
        let inputs = inputs_at(&self.lists, node);
        search_from(&mut self.search, &self.lists, inputs);
        self.search.has(node)
    }

    /// The observers, and the nodes to which a path of inputs leads from one of them, each once, in
    /// rising order. It takes no memory, and time in proportion to these nodes and their inputs,
    /// with a logarithm for the order.
    pub fn reach(&mut self, observers: &[u32]) -> &[u32]
        requires { All (λ o. o < length self.old) observers.now }
        ensures* graph { sem 𝓛 (KeepsGraph self.entry) }
        ensures rising { IsStrictlyIncreasing result.now }
        ensures reached { (v : ℕ) → Decides (is_in v result.now) (Reached (inputs_of self.old) observers.now v) }
    {
        search_from(&mut self.search, &self.lists, observers);
        self.search.sort();
        self.search.found()
    }
}
