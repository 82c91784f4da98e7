//! The texts and messages of failures.
ghost use Rattle.std.specs.Prelude.{◌≡◌, ◌++◌, string_bytes, IfOk, OnOk};
ghost use Rattle.ob_values.specs.Inspect as spec;

use crate::item::{error_name, error_parts};
use crate::print::inspect;
use crate::quoted::put_message;
use ob_base::{Limit, NoMemory, Text, Units};
use ob_values::{Failure, Regions, Value};
use std::alloc::Global;

/// The text of a failure in a report, in UTF-8: a message to 100 units, without quotes; a thrown value
/// that is no error as `inspect` gives it. The form is this project's own.
///
/// # Errors
/// `NoMemory` where an allocation is refused.
pub fn failure_text(alloc: Global, regions: &Regions, failure: &Failure) -> Result<Text, NoMemory>
    ensures { IfOk result (λ text. text ≡ spec.failure_text regions.now failure.now) }
{
    let mut out = String::new(alloc);
    match failure {
        Failure::Syntax => out.push_str("SyntaxError")?,
        Failure::Runtime(message) => {
            out.push_str("RuntimeError: ")?;
            put_message(&mut out, message.as_slice())?;
        }
        Failure::Threw(value) => put_thrown(alloc, &mut out, regions, *value)?,
        Failure::Limit(limit) => {
            out.push_str("RangeError: ")?;
            out.push_str(limit_message(*limit))?;
        }
    }
    Ok(Text::from_string(out))
}

fn put_thrown(
    alloc: Global,
    out: &mut String,
    regions: &Regions,
    value: Value,
) -> Result<(), NoMemory>
    ensures { OnOk result (string_bytes out.new ≡ string_bytes out.old ++ spec.thrown_text regions.now value) }
{
    match error_parts(regions, value) {
        Some((kind, message)) => {
            out.push_str(error_name(kind))?;
            out.push_str(": ")?;
            put_message(out, message)?;
        }
        None => {
            out.push_str("thrown ")?;
            let text = inspect(alloc, regions, value)?;
            out.push_str(text.as_str())?;
        }
    }
    Ok(())
}

fn limit_message(limit: Limit) -> &'static str
    ensures { result.now ≡ spec.limit_message limit }
{
    match limit {
        Limit::Steps => "too many steps",
        Limit::Elements => "too many elements",
        Limit::Calls => "too many calls",
    }
}

/// The message that a failure hands on, whole, in UTF-16 units: that of the runtime, of a limit or of a
/// thrown error; none where the text didn't read or another value was thrown.
///
/// # Errors
/// `NoMemory` where an allocation is refused.
pub fn failure_message(
    alloc: Global,
    regions: &Regions,
    failure: &Failure,
) -> Result<Option<Units>, NoMemory>
    ensures { IfOk result (λ message. message ≡ spec.failure_message regions.now failure.now) }
{
    match failure {
        Failure::Syntax => Ok(None),
        Failure::Runtime(message) => Ok(Some(message.copy(alloc)?)),
        Failure::Threw(value) => match error_parts(regions, *value) {
            Some((_, message)) => Ok(Some(Units::from_vec(Vec::from_slice(alloc, message)?))),
            None => Ok(None),
        },
        Failure::Limit(limit) => Ok(Some(Units::from_bytes(
            alloc,
            limit_message(*limit).as_bytes(),
        )?)),
    }
}
