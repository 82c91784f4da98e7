ghost use Rattle.std.specs.Prelude.{◌≡◌, ◌<◌, ℕ, length, map, Some, IfOk};
ghost use Rattle.ob_session.specs.Inputs.{IsBuiltUp};
ghost use Rattle.ob_session.specs.Live.{live_from, with_mark};

use crate::world::Cell;
use ob_base::NoMemory;
use std::alloc::Global;

// Marks the input of a cell, if the cell is marked.
fn mark_input(flags: &mut [bool], place: usize, input: Option<usize>)
    requires place { place < length flags.old }
    requires before { (q : ℕ) → input ≡ Some q → q < place }
    ensures { flags.new ≡ with_mark flags.old place input }
{
    if let Some(input) = input {
        if flags[place] {
            flags[input] = true;
        }
    }
}

// Marks the live cells, where the observed ones are marked. Cells read cells before them, so from
// the last to the first each mark is there in time.
fn mark_live(flags: &mut [bool], cells: &[Cell])
    requires same { length flags.old ≡ length cells.now }
    requires built_up { IsBuiltUp (map (λ c. c.input) cells.now) }
    ensures { flags.new ≡ live_from 0 cells.now flags.old }
{
    for place in (0..cells.len()).rev() {
        mark_input(flags, place, cells[place].input);
    }
}

/// Of each cell whether it is live.
pub fn live_flags(alloc: Global, cells: &[Cell], observed: &[bool]) -> Result<Vec<bool>, NoMemory>
    requires same { length observed.now ≡ length cells.now }
    requires built_up { IsBuiltUp (map (λ c. c.input) cells.now) }
    ensures { IfOk result (λ live. live.items ≡ live_from 0 cells.now observed.now) }
{
    let mut flags = Vec::from_slice(alloc, observed)?;
    mark_live(&mut flags, cells);
    Ok(flags)
}
