//! Values as the words of rows are: a text in quotes with `_` for a space, and arrays down to those that
//! stand in an array of the value. Of a long text or array its length stands alone.

use crate::tests::words::BadRow;
use ob_values::{Body, ErrorKind, Ref, Regions, Value};

const LONG: usize = 40;

/// Adds a value.
pub fn put_value(out: &mut String, regions: &Regions, value: Value) -> Result<(), BadRow> {
    match body_of(regions, value) {
        Some(Body::Array(values)) if values.len() > LONG => {
            write!(out, "{} values", values.len())?;
            Ok(())
        }
        Some(Body::Array(values)) => {
            out.push('[')?;
            for (at, part) in values.as_slice().iter().enumerate() {
                out.push_str(if at == 0 { "" } else { "," })?;
                put_part(out, regions, *part)?;
            }
            out.push(']')?;
            Ok(())
        }
        _ => put_leaf(out, regions, value),
    }
}

// Adds an element of an array, which may be an array of leaves.
fn put_part(out: &mut String, regions: &Regions, value: Value) -> Result<(), BadRow> {
    match body_of(regions, value) {
        Some(Body::Array(values)) => {
            out.push('[')?;
            for (at, leaf) in values.as_slice().iter().enumerate() {
                out.push_str(if at == 0 { "" } else { "," })?;
                put_leaf(out, regions, *leaf)?;
            }
            out.push(']')?;
            Ok(())
        }
        _ => put_leaf(out, regions, value),
    }
}

fn put_leaf(out: &mut String, regions: &Regions, value: Value) -> Result<(), BadRow> {
    match body_of(regions, value) {
        Some(Body::Text(units)) => put_text(out, units.as_slice()),
        Some(Body::Error(kind, message)) => put_error(out, regions, *kind, *message),
        Some(_) => {
            out.push_str("item")?;
            Ok(())
        }
        None => put_plain(out, value),
    }
}

fn put_error(
    out: &mut String,
    regions: &Regions,
    kind: ErrorKind,
    message: Ref,
) -> Result<(), BadRow> {
    out.push_str(error_name(kind))?;
    out.push('(')?;
    match body_of(regions, Value::Ref(message)) {
        Some(Body::Text(units)) => put_text(out, units.as_slice())?,
        _ => return Err(BadRow::NoSuchWord),
    }
    out.push(')')?;
    Ok(())
}

fn put_plain(out: &mut String, value: Value) -> Result<(), BadRow> {
    match value {
        Value::Undefined => out.push_str("undefined")?,
        Value::Null => out.push_str("null")?,
        Value::Bool(true) => out.push_str("true")?,
        Value::Bool(false) => out.push_str("false")?,
        Value::Int(number) => write!(out, "{number}")?,
        Value::Builtin(_) => out.push_str("fn")?,
        Value::Holder(_) | Value::Ref(_) => out.push_str("another")?,
    }
    Ok(())
}

fn put_text(out: &mut String, units: &[u16]) -> Result<(), BadRow> {
    if units.len() > LONG {
        write!(out, "{} units", units.len())?;
        return Ok(());
    }
    out.push('\'')?;
    for unit in units {
        let byte = u8::try_from(*unit).unwrap_or(b'?');
        out.push(if byte == b' ' { '_' } else { char::from(byte) })?;
    }
    out.push('\'')?;
    Ok(())
}

fn body_of(regions: &Regions, value: Value) -> Option<&Body> {
    match value {
        Value::Ref(r) => match regions.find(r) {
            Some(body) => Some(body),
            None => None,
        },
        _ => None,
    }
}

/// The name of a kind of errors.
pub fn error_name(kind: ErrorKind) -> &'static str {
    match kind {
        ErrorKind::Error => "Error",
        ErrorKind::TypeError => "TypeError",
        ErrorKind::RangeError => "RangeError",
        ErrorKind::ReferenceError => "ReferenceError",
    }
}
