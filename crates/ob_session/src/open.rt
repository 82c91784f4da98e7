ghost use Rattle.std.specs.Prelude.{◌≡◌, ◌<◌, [], length, map, IfOk, IfSome, Some, option_map};
ghost use Rattle.ob_session.specs.Inputs.{IsBuiltUp};
ghost use Rattle.ob_session.specs.Gives.{Gives};
ghost use Rattle.ob_session.specs.Known.{IsNew};
ghost use Rattle.ob_session.specs.World.{resolved, cell_behind, cell_from, cells_from, new_world, world_of_notebook, world_of};
ghost use Rattle.ob_session.specs.Sound.{IsSound};

use crate::known::Known;
use crate::names::function_name;
use crate::sums::{is_sum, is_taken};
use crate::world::{Cell, World};
use ob_base::{Command, List, NewCell, NoMemory, Text};
use ob_parse::{ParseError, parse_cell};
use ob_tree::CellTree;
use std::alloc::{AllocError, Global};

/// The most bytes of a cell's text.
const TEXT_LIMIT: usize = 65_536;

/// Why a bundle opened no world.
#[derive(Clone, Copy, Debug, PartialEq, Eq)]
pub enum OpenError {
    /// The bundle has a part that is not built yet.
    NotBuilt,
    /// An allocation was refused.
    NoMemory,
}

impl From<NoMemory> for OpenError {
    ghost use Rattle.std.specs.Prelude.{◌≡◌};
    ghost use Rattle.ob_session.specs.declared.open.OpenError.TheVariants as errors;

    ghost from_gives = { λ _ e. e ≡ errors.NoMemory };

    fn from(_refused: NoMemory) -> OpenError {
        OpenError::NoMemory
    }
}

impl From<AllocError> for OpenError {
    ghost use Rattle.std.specs.Prelude.{◌≡◌};
    ghost use Rattle.ob_session.specs.declared.open.OpenError.TheVariants as errors;

    ghost from_gives = { λ _ e. e ≡ errors.NoMemory };

    fn from(_refused: AllocError) -> OpenError {
        OpenError::NoMemory
    }
}

// The place of the cell whose value a cell behind these reads.
fn resolved(known: &Known<'_>, name: Option<&Text>) -> Option<Option<usize>>
    ensures value { result ≡ resolved known.now.names (option_map (λ x. x.now) name.entry) }
    ensures within { IfSome result (λ input. IfSome input (λ place. place < length known.now.names)) }
{
    match name {
        None => Some(None),
        Some(name) => match known.place_of_name(name.as_str()) {
            Some(place) => Some(Some(place)),
            None => None,
        },
    }
}

// The cell of a tree behind these.
fn cell_behind<'a>(
    alloc: Global,
    known: &Known<'a>,
    id: &'a Text,
    tree: CellTree,
) -> Result<Cell, OpenError>
    ensures value { Gives result (cell_behind known.now id.now tree) }
    ensures new { IfOk result (IsNew known.now) }
    ensures id { IfOk result (λ cell. cell.id ≡ id.now) }
{
    let CellTree::Named(name, body) = tree else {
        return Err(OpenError::NotBuilt);
    };
    if is_taken(name.as_str()) || !is_sum(&body) {
        return Err(OpenError::NotBuilt);
    }
    if known.has_id(id.as_str()) || known.has_name(name.as_str()) {
        return Err(OpenError::NotBuilt);
    }
    match resolved(known, function_name(&body)) {
        Some(input) => Ok(Cell {
            id: id.copy(alloc)?,
            name,
            body,
            input,
        }),
        None => Err(OpenError::NotBuilt),
    }
}

fn cell_from<'a>(alloc: Global, known: &Known<'a>, new: &'a NewCell) -> Result<Cell, OpenError>
    ensures value { Gives result (cell_from known.now new.now) }
    ensures new { IfOk result (IsNew known.now) }
    ensures id { IfOk result (λ cell. cell.id ≡ new.now.id) }
{
    let text = new.text.as_str();
    if text.len() > TEXT_LIMIT {
        return Err(OpenError::NotBuilt);
    }
    match parse_cell(alloc, text) {
        Ok(tree) => cell_behind(alloc, known, &new.id, tree),
        Err(ParseError::Syntax) => Err(OpenError::NotBuilt),
        Err(ParseError::NoMemory) => Err(OpenError::NoMemory),
    }
}

fn cells_from(alloc: Global, all: &[NewCell]) -> Result<List<Cell>, OpenError>
    ensures value { Gives result (cells_from [] all.now) }
    ensures built_up { IfOk result (λ cells. IsBuiltUp (map (λ c. c.input) cells)) }
{
    let mut cells = List::new(alloc);
    let mut known = Known::new(alloc);
    for new in all {
        let cell = cell_from(alloc, &known, new)?;
        known.add(alloc, new.id.as_str(), cell.name.as_str())?;
        cells.push(cell)?;
    }
    Ok(cells)
}

fn new_world(alloc: Global, main: Text, cells: List<Cell>) -> Result<World, OpenError>
    requires { IsBuiltUp (map (λ c. c.input) cells) }
    ensures value { Gives result (Some (new_world main cells)) }
    ensures sound { IfOk result IsSound }
    ensures fresh { IfOk result (λ w. w.ticks ≡ 0) }
{
    let observed = vec![in alloc; false; cells.len()]?;
    let live = vec![in alloc; false; cells.len()]?;
    Ok(World {
        main,
        cells,
        observed: List::from_vec(observed),
        live: List::from_vec(live),
        ticks: 0,
    })
}

// The world of the notebook that is the main one.
fn world_of_notebook(
    alloc: Global,
    main: &Text,
    id: &Text,
    cells: &[NewCell],
) -> Result<World, OpenError>
    ensures value { Gives result (world_of_notebook main.now id.now cells.now) }
    ensures sound { IfOk result IsSound }
    ensures fresh { IfOk result (λ w. w.ticks ≡ 0) }
{
    if id.as_str() != main.as_str() || cells.len() > 1_000 {
        return Err(OpenError::NotBuilt);
    }
    let cells = cells_from(alloc, cells)?;
    new_world(alloc, main.copy(alloc)?, cells)
}

/// The world that a bundle's notebooks open.
///
/// # Errors
/// `NotBuilt` exactly where they are something else than one notebook, the main one, with at most
/// 1,000 cells of distinct ids and names that are sums over names of cells before them, or where a
/// text has more than 65,536 bytes; `NoMemory` where an allocation is refused.
#[tactic(auto, unfolding(crate::specs::World::world_of))]
pub fn open_world(alloc: Global, main: &Text, notebooks: &[Command]) -> Result<World, OpenError>
    ensures value { Gives result (world_of main.now notebooks.now) }
    ensures sound { IfOk result IsSound }
    ensures fresh { IfOk result (λ w. w.ticks ≡ 0) }
{
    match notebooks {
        [] => Err(OpenError::NotBuilt),
        [Command::Notebook { id, cells }] => world_of_notebook(alloc, main, id, cells.as_slice()),
        [_] => Err(OpenError::NotBuilt),
        [_, _, ..] => Err(OpenError::NotBuilt),
    }
}
