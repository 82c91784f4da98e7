ghost use Rattle.std.specs.Prelude.{◌≡◌, ◌++◌, IfOk, OnOk, string_bytes, codes};
ghost use Rattle.std.specs.Fmt.{decimal};
ghost use Rattle.std.specs.List.{flat_map};
ghost use Rattle.ob_session.specs.Show.{line_end, show_cause, show_lost, event_line, show_event, show_report, show};

use crate::reply::Reply;
use ob_base::{Cause, Event, LostKind, NoMemory, TickReport};
use std::alloc::{AllocError, Global};

fn joined(alloc: Global, word: &str, rest: &str) -> Result<String, AllocError>
    ensures { IfOk result (λ text. string_bytes text ≡ word.now ++ rest.now) }
{
    let mut text = String::from_str(alloc, word)?;
    text.push_str(rest)?;
    Ok(text)
}

fn numbered(alloc: Global, word: &str, number: u64) -> Result<String, AllocError>
    ensures { IfOk result (λ text. string_bytes text ≡ word.now ++ decimal number) }
{
    let number = number.to_string(alloc)?;
    joined(alloc, word, number.as_str())
}

fn cause_text(alloc: Global, cause: &Cause) -> Result<String, AllocError>
    ensures { IfOk result (λ text. string_bytes text ≡ show_cause cause.now) }
{
    match cause {
        Cause::NotJson => String::from_str(alloc, "NotJson"),
        Cause::BadShape(field) => joined(alloc, "BadShape ", field.as_str()),
        Cause::UnknownCommand => String::from_str(alloc, "UnknownCommand"),
        Cause::NumberRange => String::from_str(alloc, "NumberRange"),
        Cause::NotebookExists(id) => joined(alloc, "NotebookExists ", id.as_str()),
        Cause::NoNotebook(id) => joined(alloc, "NoNotebook ", id.as_str()),
        Cause::NoCell(id) => joined(alloc, "NoCell ", id.as_str()),
        Cause::CellExists(id) => joined(alloc, "CellExists ", id.as_str()),
        Cause::BadPlace(place) => numbered(alloc, "BadPlace ", u64::from(*place)),
        Cause::TextTooLong(bytes) => numbered(alloc, "TextTooLong ", *bytes),
        Cause::ImportMissing(_) => String::from_str(alloc, "ImportMissing"),
        Cause::WithCycle(id) => joined(alloc, "WithCycle ", id.as_str()),
        Cause::TooManyInstances => String::from_str(alloc, "TooManyInstances"),
        Cause::TooManyVariables => String::from_str(alloc, "TooManyVariables"),
        Cause::NoView => String::from_str(alloc, "NoView"),
        Cause::NotBuilt => String::from_str(alloc, "NotBuilt"),
    }
}

fn lost_text(kind: LostKind) -> &'static str
    ensures { result.now ≡ show_lost kind }
{
    match kind {
        LostKind::NotLive => "NotLive",
        LostKind::NoValue => "NoValue",
        LostKind::BadResult => "BadResult",
    }
}

fn push_line(text: &mut String, word: &str, label: &str, rest: &str) -> Result<(), AllocError>
    ensures { OnOk result (string_bytes text.new ≡ string_bytes text.old ++ event_line word.now label.now rest.now) }
{
    text.push_str(word)?;
    text.push_str(label)?;
    text.push_str(" ")?;
    text.push_str(rest)?;
    text.push_str("\n")?;
    Ok(())
}

fn push_numbered(
    text: &mut String,
    alloc: Global,
    word: &str,
    label: &str,
    number: u64,
) -> Result<(), AllocError>
    ensures { OnOk result (string_bytes text.new ≡ string_bytes text.old ++ event_line word.now label.now (decimal number)) }
{
    let number = number.to_string(alloc)?;
    push_line(text, word, label, number.as_str())
}

// Two numbers with a space between.
fn two_numbers(alloc: Global, first: u64, second: u64) -> Result<String, AllocError>
    ensures { IfOk result (λ text. string_bytes text ≡ decimal first ++ codes " " ++ decimal second) }
{
    let mut text = first.to_string(alloc)?;
    let second = second.to_string(alloc)?;
    text.push_str(" ")?;
    text.push_str(second.as_str())?;
    Ok(text)
}

fn push_hook(
    alloc: Global,
    text: &mut String,
    label: &str,
    numbers: (u64, u32),
    failure: &str,
) -> Result<(), AllocError>
    ensures { OnOk result (string_bytes text.new ≡ string_bytes text.old
        ++ event_line (codes "hook ") label.now (decimal numbers.0 ++ codes " " ++ decimal numbers.1 ++ codes " " ++ failure.now)) }
{
    let mut rest = two_numbers(alloc, numbers.0, u64::from(numbers.1))?;
    rest.push_str(" ")?;
    rest.push_str(failure)?;
    push_line(text, "hook ", label, rest.as_str())
}

fn push_event(alloc: Global, text: &mut String, event: &Event) -> Result<(), AllocError>
    ensures { OnOk result (string_bytes text.new ≡ string_bytes text.old ++ show_event event.now) }
{
    match event {
        Event::Invalidate { label, run } => push_numbered(
            text,
            alloc,
            "invalidate ",
            label.as_str(),
            *run,
        ),
        Event::Hook {
            label,
            run,
            hook,
            failure,
        } => push_hook(alloc, text, label.as_str(), (*run, *hook), failure.as_str()),
        Event::Log { label, text: shown } => push_line(
            text,
            "log ",
            label.as_str(),
            shown.as_str(),
        ),
        Event::Run { label, run } => push_numbered(text, alloc, "run ", label.as_str(), *run),
        Event::Step {
            label,
            run,
            position,
        } => {
            let rest = two_numbers(alloc, *run, *position)?;
            push_line(text, "step ", label.as_str(), rest.as_str())
        }
        Event::End { label, run } => push_numbered(text, alloc, "end ", label.as_str(), *run),
        Event::Lost { label, kind } => push_line(text, "lost ", label.as_str(), lost_text(*kind)),
        Event::Value { label, text: shown } => push_line(
            text,
            "value ",
            label.as_str(),
            shown.as_str(),
        ),
        Event::Error { label, failure } => push_line(
            text,
            "error ",
            label.as_str(),
            failure.as_str(),
        ),
    }
}

fn push_events(alloc: Global, text: &mut String, events: &[Event]) -> Result<(), AllocError>
    ensures { OnOk result (string_bytes text.new ≡ string_bytes text.old ++ flat_map show_event events.now) }
{
    for event in events {
        push_event(alloc, text, event)?;
    }
    Ok(())
}

#[tactic(auto, unfolding(crate::specs::Show::show_report))]
fn report_text(alloc: Global, report: &TickReport) -> Result<String, AllocError>
    ensures { IfOk result (λ text. string_bytes text ≡ show_report report.now) }
{
    let number = report.number.to_string(alloc)?;
    let mut text = String::from_str(alloc, "tick ")?;
    text.push_str(number.as_str())?;
    text.push_str("\n")?;
    push_events(alloc, &mut text, report.events.as_slice())?;
    text.push_str("done ")?;
    text.push_str(number.as_str())?;
    text.push_str("\n")?;
    Ok(text)
}

// A word, a cause and a line feed.
fn refusal_text(alloc: Global, word: &str, cause: &Cause) -> Result<String, AllocError>
    ensures { IfOk result (λ text. string_bytes text ≡ word.now ++ show_cause cause.now ++ line_end) }
{
    let cause = cause_text(alloc, cause)?;
    let mut text = joined(alloc, word, cause.as_str())?;
    text.push_str("\n")?;
    Ok(text)
}

/// The bytes of a reply.
///
/// # Errors
/// `NoMemory` where an allocation is refused.
pub fn reply_text(alloc: Global, reply: &Reply) -> Result<String, NoMemory>
    ensures { IfOk result (λ text. string_bytes text ≡ show reply.now) }
{
    match reply {
        Reply::Accepted => Ok(String::from_str(alloc, "ok\n")?),
        Reply::BadBundle(cause) => Ok(refusal_text(alloc, "bad bundle ", cause)?),
        Reply::Refused(cause) => Ok(refusal_text(alloc, "refused ", cause)?),
        Reply::Report(report) => Ok(report_text(alloc, report)?),
    }
}
