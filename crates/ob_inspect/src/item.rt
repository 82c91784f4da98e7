//! Items that are not opened, and the parts of errors.
ghost use Rattle.std.specs.Prelude.{◌≡◌, ◌++◌, string_bytes, OnOk};
ghost use Rattle.std.specs.Option.{option_map};
ghost use Rattle.ob_values.specs.Inspect as spec;

use crate::quoted::put_quoted;
use ob_base::NoMemory;
use ob_items::Properties;
use ob_values::{Body, ErrorKind, Ref, Regions, Value};

/// Adds an item that is not opened.
///
/// # Errors
/// `NoMemory` where an allocation is refused.
pub(crate) fn put_item(out: &mut String, regions: &Regions, body: &Body) -> Result<(), NoMemory>
    ensures { OnOk result (string_bytes out.new ≡ string_bytes out.old ++ spec.item_text regions.now body.now) }
{
    match body {
        Body::Text(units) => put_quoted(out, units.as_slice())?,
        Body::Array(values) => out.push_str(closed_array(values.as_slice()))?,
        Body::Object(properties) => out.push_str(closed_object(properties))?,
        Body::Closure(_) => out.push_str("function")?,
        Body::Generator(_) => out.push_str("generator")?,
        Body::Error(kind, message) => put_error(out, regions, *kind, *message)?,
        Body::Invalidation(_) => out.push_str("invalidation")?,
        Body::Box(_) | Body::Inputs(_) => out.push_str("undefined")?,
    }
    Ok(())
}

fn closed_array(values: &[Value]) -> &'static str
    ensures { result.now ≡ spec.closed_array values.now }
{
    match values {
        [] => "[]",
        [_, ..] => "[...]",
    }
}

fn closed_object(properties: &Properties) -> &'static str
    ensures { result.now ≡ spec.closed_object properties.now }
{
    if properties.is_empty() { "{}" } else { "{...}" }
}

fn put_error(
    out: &mut String,
    regions: &Regions,
    kind: ErrorKind,
    message: Ref,
) -> Result<(), NoMemory>
    ensures { OnOk result (string_bytes out.new ≡ string_bytes out.old ++ spec.error_text regions.now kind message) }
{
    out.push_str(error_name(kind))?;
    out.push_str("(")?;
    put_quoted(out, message_units(regions, message))?;
    out.push_str(")")?;
    Ok(())
}

/// The name of a kind of error.
pub(crate) fn error_name(kind: ErrorKind) -> &'static str
    ensures { result.now ≡ spec.error_name kind }
{
    match kind {
        ErrorKind::Error => "Error",
        ErrorKind::TypeError => "TypeError",
        ErrorKind::RangeError => "RangeError",
        ErrorKind::ReferenceError => "ReferenceError",
    }
}

fn message_units(regions: &Regions, message: Ref) -> &[u16]
    ensures { result.now ≡ spec.message_units regions.now message }
{
    match regions.find(message) {
        Some(body) => match body {
            Body::Text(units) => units.as_slice(),
            _ => &[],
        },
        None => &[],
    }
}

/// The kind and the message of a value that is an error.
pub(crate) fn error_parts(regions: &Regions, value: Value) -> Option<(ErrorKind, &[u16])>
    ensures { option_map (λ e. (e.0, e.1.now)) result ≡ spec.error_of regions.now value }
{
    match value {
        Value::Ref(r) => match regions.find(r) {
            Some(body) => match body {
                Body::Error(kind, message) => Some((*kind, message_units(regions, *message))),
                _ => None,
            },
            None => None,
        },
        _ => None,
    }
}
