//! A search over inputs, with memory that was reserved before.

ghost use Rattle.std.specs.Prelude.{◌≡◌, ℕ, ◌<◌, ◌≤◌, ◌↔◌, true, List, [], length, get_or, All, Bool, OnOk, IsPermutation};
ghost use Rattle.std.specs.Bool.{Decides};
ghost use Rattle.std.specs.List.Sorted.{IsStrictlyIncreasing};
ghost use Rattle.ob_graph.specs.Paths.{is_in, Reached, inputs_of};
ghost use Rattle.ob_graph.specs.Searches.{met, met_all};

use ob_base::{List, NoMemory};
use std::alloc::Global;
use std::marker::Model;

/// The nodes that were found, in this order, with a mark at each.
#[derive(Debug, Drop)]
pub(crate) struct Search {
    marks: Vec<bool>,
    found: Vec<u32>,
}

impl Model for Search {
    ghost use Rattle.std.specs.Prelude.{length, vec_capacity};
    ghost use Rattle.ob_graph.specs.Searches.{Found, Marked};

    ghost Value = { Found };

    ghost view = { λ s. record { found = s.found.items; room = length s.marks.items } };

    ghost invariant = { λ s. Marked s.marks.items s.found.items (vec_capacity s.found) };
}

impl Search {
    /// A search that found nothing, with room for no node.
    pub(crate) fn new(alloc: Global) -> Search
        ensures found { result.found ≡ [] }
        ensures room { result.room ≡ 0 }
    {
        Search {
            marks: Vec::new(alloc),
            found: Vec::new(alloc),
        }
    }

    /// Makes room for the nodes below `nodes`.
    ///
    /// # Errors
    /// `NoMemory` where an allocation is refused.
    pub(crate) fn reserve(&mut self, nodes: usize) -> Result<(), NoMemory>
        ensures found { self.new.found ≡ self.old.found }
        ensures grows { self.old.room ≤ self.new.room }
        ensures room { OnOk result (nodes ≤ self.new.room) }
    {
        let room = self.marks.len();
        if nodes <= room {
            return Ok(());
        }
        self.found.reserve(nodes)?;
        self.marks.resize(nodes, false)?;
        Ok(())
    }

    /// Takes what was found out of the search.
    pub(crate) fn clear(&mut self)
        ensures found { self.new.found ≡ [] }
        ensures room { self.new.room ≡ self.old.room }
    {
        while let Some(v) = self.found.pop() {
            self.marks[v as usize] = false;
        }
    }

    /// Adds a node that wasn't found.
    pub(crate) fn meet(&mut self, node: u32)
        requires { node < self.old.room }
        ensures found { self.new.found ≡ met self.old.found node }
        ensures room { self.new.room ≡ self.old.room }
    {
        let place = node as usize;
        if !self.marks[place] {
            self.marks[place] = true;
            self.found.push_reserved(node);
        }
    }

    /// Whether a node was found.
    pub(crate) fn has(&self, node: u32) -> bool
        ensures { result ≡ is_in node self.now.found }
    {
        match self.marks.get(node as usize) {
            Some(mark) => *mark,
            None => false,
        }
    }

    /// The nodes that were found.
    pub(crate) fn found(&self) -> &[u32]
        ensures found { result.now ≡ self.now.found }
        ensures few { length self.now.found ≤ self.now.room }
    {
        self.found.as_slice()
    }

    /// Puts the nodes that were found into rising order.
    pub(crate) fn sort(&mut self)
        ensures found { IsPermutation self.old.found self.new.found }
        ensures rising { IsStrictlyIncreasing self.new.found }
        ensures room { self.new.room ≡ self.old.room }
    {
        self.found.sort_unstable();
    }
}

/// Adds each of these nodes that wasn't found.
fn meet_all(search: &mut Search, nodes: &[u32])
    requires { All (λ u. u < search.old.room) nodes.now }
    ensures found { search.new.found ≡ met_all search.old.found nodes.now }
    ensures room { search.new.room ≡ search.old.room }
{
    let mut rest = nodes;
    while let [node, more @ ..] = rest {
        search.meet(*node);
        rest = more;
    }
}

/// The inputs of a node; none past the end.
pub(crate) fn inputs_at(lists: &[List<u32>], node: u32) -> &[u32]
    ensures { result.now ≡ inputs_of lists.now node }
{
    match lists.get(node as usize) {
        Some(inputs) => inputs.as_slice(),
        None => &[],
    }
}

/// Adds each node to which a path of inputs leads from one that was found. It takes time in
/// proportion to the nodes found and their inputs.
fn spread(search: &mut Search, lists: &[List<u32>])
    requires { (v u : ℕ) → is_in u (inputs_of lists.now v) ≡ true → u < search.old.room }
    ensures found { (v : ℕ) → Decides (is_in v search.new.found) (Reached (inputs_of lists.now) search.old.found v) }
    ensures room { search.new.room ≡ search.old.room }
{
    let mut next = 0;
    while next < search.found().len() {
        let node = search.found()[next];
        meet_all(search, inputs_at(lists, node));
        next += 1;
    }
}

/// Finds exactly the nodes that are reached from these.
pub(crate) fn search_from(search: &mut Search, lists: &[List<u32>], starts: &[u32])
    requires starts { All (λ v. v < search.old.room) starts.now }
    requires inputs { (v u : ℕ) → is_in u (inputs_of lists.now v) ≡ true → u < search.old.room }
    ensures found { (v : ℕ) → Decides (is_in v search.new.found) (Reached (inputs_of lists.now) starts.now v) }
    ensures room { search.new.room ≡ search.old.room }
{
    search.clear();
    meet_all(search, starts);
    spread(search, lists);
}
