ghost use Rattle.std.specs.Prelude.{◌≡◌, ◌<◌, length, slice_get, map, Some};
ghost use Rattle.ob_session.specs.Inputs.{IsBuiltUp};

use ob_base::{List, Text};
use ob_tree::Function;

/// A cell: its id, its variable's name, what it evaluates, and the place, from 0, of the cell whose
/// value it reads.
#[derive(Drop)]
pub struct Cell {
    pub id: Text,
    pub name: Text,
    pub body: Function,
    pub input: Option<usize>,
}

/// The notebook as it is now: the main notebook's id, its cells, which of them are observed, which
/// were live at the last tick, and how many ticks there were.
#[derive(Drop)]
pub struct World {
    pub main: Text,
    pub cells: List<Cell>,
    pub observed: List<bool>,
    pub live: List<bool>,
    pub ticks: u64,
}
