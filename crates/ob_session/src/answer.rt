ghost use Rattle.std.specs.Prelude.{◌≡◌, ◌+◌, ◌≤◌, ◌<◌, ◌^◌, IfOk, IfSome, OnOk, OnErr, length};
ghost use Rattle.ob_session.specs.Answer.{open_world, answer, answer_command};
ghost use Rattle.ob_session.specs.Refusals.{Opens, Accepts};
ghost use Rattle.ob_session.specs.Sound.{IsSound};
ghost use Rattle.ob_session.specs.World.{accepts, observed_at, place_of_id};

use crate::open::{OpenError, open_world};
use crate::reply::Reply;
use crate::world::{Cell, World};
use ob_base::{Cause, Command, NoMemory, Text};
use ob_script::{ReadError, read_bundle, read_command};
use std::alloc::Global;

/// Why a bundle or a command was refused.
#[derive(Drop)]
pub enum CommandError {
    Refused(Cause),
    /// An allocation was refused.
    NoMemory,
}

impl From<NoMemory> for CommandError {
    ghost use Rattle.std.specs.Prelude.{◌≡◌};
    ghost use Rattle.ob_session.specs.declared.answer.CommandError.TheVariants as errors;

    ghost from_gives = { λ _ e. e ≡ errors.NoMemory };

    fn from(_refused: NoMemory) -> CommandError {
        CommandError::NoMemory
    }
}

/// The world that a first line opens.
///
/// # Errors
/// `Refused` with the line's first fault of form, or `NotBuilt` where it has none and its bundle is
/// not built; `NoMemory` where an allocation is refused.
#[tactic(auto, unfolding(crate::specs::Answer::open_world))]
pub fn open_line(alloc: Global, line: &[u8]) -> Result<World, CommandError>
    ensures value { Opens result (open_world line.now) }
    ensures sound { IfOk result IsSound }
    ensures fresh { IfOk result (λ w. w.ticks ≡ 0) }
{
    match read_bundle(alloc, line) {
        Ok(bundle) => match open_world(alloc, &bundle.main, bundle.notebooks.as_slice()) {
            Ok(world) => Ok(world),
            Err(OpenError::NotBuilt) => Err(CommandError::Refused(Cause::NotBuilt)),
            Err(OpenError::NoMemory) => Err(CommandError::NoMemory),
        },
        Err(ReadError::Refused(cause)) => Err(CommandError::Refused(cause)),
        Err(ReadError::NoMemory) => Err(CommandError::NoMemory),
    }
}

fn place_of_id(cells: &[Cell], id: &str) -> Option<usize>
    ensures value { result ≡ place_of_id cells.now id.now }
    ensures within { IfSome result (λ place. place < length cells.now) }
{
    for (place, cell) in cells.iter().enumerate() {
        if cell.id.as_str() == id {
            return Some(place);
        }
    }
    None
}

impl World {
    fn observe(&mut self, alloc: Global, cell: &Text) -> Result<(), CommandError>
        requires { IsSound self.old }
        ensures value { Accepts self.old self.new result (observed_at self.old cell.now (place_of_id self.old.cells cell.now)) }
        ensures sound { IsSound self.new }
        ensures ticks { self.new.ticks ≡ self.old.ticks }
    {
        match place_of_id(self.cells.as_slice(), cell.as_str()) {
            Some(place) => {
                self.observed.set(place, true);
                Ok(())
            }
            None => Err(CommandError::Refused(Cause::NoCell(cell.copy(alloc)?))),
        }
    }

    /// Carries out a command other than a tick.
    ///
    /// # Errors
    /// `Refused` with the first cause that holds, `NoMemory` where an allocation is refused; the
    /// world is then as before.
    #[tactic(auto, unfolding(crate::specs::World::accepts))]
    fn accept(&mut self, alloc: Global, command: &Command) -> Result<(), CommandError>
        requires { IsSound self.old }
        ensures value { Accepts self.old self.new result (accepts self.old command.now) }
        ensures sound { IsSound self.new }
        ensures ticks { self.new.ticks ≡ self.old.ticks }
    {
        match command {
            Command::Observe { notebook, cell } => {
                if notebook.as_str() != self.main.as_str() {
                    return Err(CommandError::Refused(Cause::NoNotebook(notebook.copy(alloc)?)));
                }
                self.observe(alloc, cell)
            }
            _ => Err(CommandError::Refused(Cause::NotBuilt)),
        }
    }

    // Carries out a command.
    fn answer_command(&mut self, alloc: Global, command: Command) -> Result<Reply, NoMemory>
        requires sound { IsSound self.old }
        requires number { self.old.ticks + 1 < 2 ^ 64 }
        ensures reply { IfOk result (λ reply. reply ≡ (answer_command self.old (Ok command)).0) }
        ensures world { OnOk result (self.new ≡ (answer_command self.old (Ok command)).1) }
        ensures sound { IsSound self.new }
        ensures ticks { self.new.ticks ≤ self.old.ticks + 1 }
    {
        match command {
            Command::Tick => Ok(Reply::Report(self.tick(alloc)?)),
            other => match self.accept(alloc, &other) {
                Ok(()) => Ok(Reply::Accepted),
                Err(CommandError::Refused(cause)) => Ok(Reply::Refused(cause)),
                Err(CommandError::NoMemory) => Err(NoMemory),
            },
        }
    }

    /// Answers a line after the first.
    ///
    /// # Errors
    /// `NoMemory` where an allocation is refused.
    #[tactic(auto, unfolding(crate::specs::Answer::answer))]
    pub fn answer(&mut self, alloc: Global, line: &[u8]) -> Result<Reply, NoMemory>
        requires sound { IsSound self.old }
        requires number { self.old.ticks + 1 < 2 ^ 64 }
        ensures reply { IfOk result (λ reply. reply ≡ (answer self.old line.now).0) }
        ensures world { OnOk result (self.new ≡ (answer self.old line.now).1) }
        ensures sound { IsSound self.new }
        ensures ticks { self.new.ticks ≤ self.old.ticks + 1 }
    {
        match read_command(alloc, line) {
            Ok(command) => self.answer_command(alloc, command),
            Err(ReadError::Refused(cause)) => Ok(Reply::Refused(cause)),
            Err(ReadError::NoMemory) => Err(NoMemory),
        }
    }
}
