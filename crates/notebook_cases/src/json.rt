use std::alloc::AllocError;

/// Appends the bytes of a text.
///
/// # Errors
/// `AllocError` where an allocation is refused.
pub fn push_text(line: &mut Vec<u8>, text: &str) -> Result<(), AllocError> {
    line.extend_from_slice(text.as_bytes())
}

/// Appends the text as it stands inside a JSON string (RFC 8259, "Strings").
///
/// # Errors
/// `AllocError` where an allocation is refused.
pub fn push_escaped(line: &mut Vec<u8>, text: &str) -> Result<(), AllocError> {
    for byte in text.bytes() {
        match byte {
            b'"' => push_text(line, "\\\"")?,
            b'\\' => push_text(line, "\\\\")?,
            b'\n' => push_text(line, "\\n")?,
            b'\t' => push_text(line, "\\t")?,
            _ => line.push(byte)?,
        }
    }
    Ok(())
}

/// Appends a field of an object: its key, and its value as a string.
///
/// # Errors
/// `AllocError` where an allocation is refused.
pub fn push_field(line: &mut Vec<u8>, key: &str, value: &str) -> Result<(), AllocError> {
    push_text(line, "\"")?;
    push_text(line, key)?;
    push_text(line, "\":\"")?;
    push_escaped(line, value)?;
    push_text(line, "\"")
}

/// Appends the fields `notebook` and `cell` of a cell that is written as `CELL` or `NOTEBOOK#CELL`.
///
/// # Errors
/// `AllocError` where an allocation is refused.
pub fn push_cell(line: &mut Vec<u8>, cell: &str) -> Result<(), AllocError> {
    let (notebook, cell) = match cell.split_once('#') {
        Some(parts) => parts,
        None => ("main", cell),
    };
    push_field(line, "notebook", notebook)?;
    push_text(line, ",")?;
    push_field(line, "cell", cell)
}
