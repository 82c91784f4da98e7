ghost use Rattle.std.specs.Prelude.{◌≡◌, ◌+◌, ◌^◌, ◌<◌, ◌≤◌, ◌++◌, length, IfOk, OnOk, OnErr, unwrap_or, slice_get};
ghost use Rattle.ob_session.specs.Sound.{IsSound};
ghost use Rattle.ob_session.specs.Report.{input_value, outcome, outcomes, label, flag_at, runs_from, shown, values_from, tick_report, after_tick};

use crate::live::live_flags;
use crate::value::function_value;
use crate::world::{Cell, World};
use ob_base::{Event, List, NoMemory, Text, TickReport};
use std::alloc::Global;

fn value_at(values: &[Option<i64>], place: usize) -> Option<i64>
    ensures { result ≡ unwrap_or (slice_get values.now place) None }
{
    match values.get(place) {
        Some(value) => *value,
        None => None,
    }
}

fn outcome(values: &[Option<i64>], cell: &Cell) -> Option<i64>
    ensures { result ≡ outcome values.now cell.now }
{
    let input = match cell.input {
        Some(place) => value_at(values, place),
        None => None,
    };
    function_value(input, &cell.body)
}

fn outcomes(alloc: Global, cells: &[Cell]) -> Result<Vec<Option<i64>>, NoMemory>
    ensures { IfOk result (λ values. values.items ≡ outcomes cells.now) }
{
    let mut values = Vec::new(alloc);
    for cell in cells {
        let value = outcome(&values, cell);
        values.push(value)?;
    }
    Ok(values)
}

fn flag_at(flags: &[bool], place: usize) -> bool
    ensures { result ≡ flag_at flags.now place }
{
    match flags.get(place) {
        Some(flag) => *flag,
        None => false,
    }
}

fn label(alloc: Global, main: &str, cell: &Cell) -> Result<Text, NoMemory>
    ensures { IfOk result (λ text. text ≡ label main.now cell.now) }
{
    let mut text = String::from_str(alloc, main)?;
    text.push_str("#")?;
    text.push_str(cell.id.as_str())?;
    Ok(Text::from_string(text))
}

fn add_runs(
    alloc: Global,
    main: &str,
    before: &[bool],
    now: &[bool],
    cells: &[Cell],
    events: &mut List<Event>,
) -> Result<(), NoMemory>
    ensures { OnOk result (events.new ≡ events.old ++ runs_from main.now before.now now.now 0 cells.now) }
{
    for (place, cell) in cells.iter().enumerate() {
        if flag_at(now, place) && !flag_at(before, place) {
            let label = label(alloc, main, cell)?;
            events.push(Event::Run { label, run: 1 })?;
        }
    }
    Ok(())
}

fn shown(alloc: Global, label: Text, value: Option<i64>) -> Result<Event, NoMemory>
    ensures { IfOk result (λ event. event ≡ shown label value) }
{
    match value {
        Some(value) => {
            let text = Text::from_string(value.to_string(alloc)?);
            Ok(Event::Value { label, text })
        }
        None => {
            let failure = String::from_str(alloc, "RangeError: number out of range")?;
            Ok(Event::Error {
                label,
                failure: Text::from_string(failure),
            })
        }
    }
}

fn add_values(
    alloc: Global,
    main: &str,
    observed: &[bool],
    values: &[Option<i64>],
    cells: &[Cell],
    events: &mut List<Event>,
) -> Result<(), NoMemory>
    ensures { OnOk result (events.new ≡ events.old ++ values_from main.now observed.now values.now 0 cells.now) }
{
    for (place, cell) in cells.iter().enumerate() {
        if flag_at(observed, place) {
            let label = label(alloc, main, cell)?;
            let event = shown(alloc, label, value_at(values, place))?;
            events.push(event)?;
        }
    }
    Ok(())
}

impl World {
    /// One tick: its report, by fresh evaluation of the cells.
    ///
    /// # Errors
    /// `NoMemory` where an allocation is refused; the world is then as before.
    #[tactic(auto, unfolding(crate::specs::Report::tick_report, crate::specs::Report::after_tick))]
    pub fn tick(&mut self, alloc: Global) -> Result<TickReport, NoMemory>
        requires sound { IsSound self.old }
        requires number { self.old.ticks + 1 < 2 ^ 64 }
        ensures report { IfOk result (λ report. report ≡ tick_report self.old) }
        ensures after { OnOk result (self.new ≡ after_tick self.old) }
        ensures sound { IsSound self.new }
        ensures ticks { self.new.ticks ≤ self.old.ticks + 1 }
        ensures err { OnErr result (self.new ≡ self.old) }
    {
        let cells = self.cells.as_slice();
        let observed = self.observed.as_slice();
        let main = self.main.as_str();
        let values = outcomes(alloc, cells)?;
        let now = live_flags(alloc, cells, observed)?;
        let mut events = List::new(alloc);
        add_runs(alloc, main, self.live.as_slice(), &now, cells, &mut events)?;
        add_values(alloc, main, observed, &values, cells, &mut events)?;
        self.live = List::from_vec(now);
        self.ticks += 1;
        Ok(TickReport {
            number: self.ticks,
            events,
            spent: 0,
        })
    }
}
