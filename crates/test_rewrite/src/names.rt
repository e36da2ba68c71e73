//! Names as the texts of which constructors make them.

use acpi_aml::path::Path;
use acpi_base::error::Error;
use acpi_build::error::BuildError;
use acpi_term::name_string::NameString;
use std::alloc::{AllocError, Global};
use std::str;

// Adds a segment, with a dot before it if it isn't the first.
fn push_segment(segment: [u8; 4], is_first: bool, text: &mut String) -> Result<(), AllocError> {
    if !is_first {
        text.push('.')?;
    }
    for byte in segment {
        text.push(char::from(byte))?;
    }
    Ok(())
}

// Adds segments with dots between them, and returns whether there is one at least and nothing else.
fn push_segments(segments: &[u8], text: &mut String) -> Result<bool, AllocError> {
    let mut rest = segments;
    for _ in 0..segments.len() {
        let [a, b, c, d, after @ ..] = rest else {
            break;
        };
        push_segment([*a, *b, *c, *d], rest.len() == segments.len(), text)?;
        rest = after;
    }
    Ok(rest.is_empty() && !segments.is_empty())
}

// Returns the segments of a name without a root.
fn segments(name: &[u8]) -> &[u8] {
    match name {
        [0x2e, segments @ ..] => segments,
        [0x2f, _, segments @ ..] => segments,
        _ => name,
    }
}

// Adds the `\` or the `^` before a name, and returns the bytes after it.
fn push_prefix<'a>(name: &'a [u8], text: &mut String) -> Result<&'a [u8], AllocError> {
    let mut rest = name;
    for _ in 0..name.len() {
        match rest {
            [0x5c, after @ ..] if text.is_empty() => {
                text.push('\\')?;
                return Ok(after);
            }
            [0x5e, after @ ..] => {
                text.push('^')?;
                rest = after;
            }
            _ => break,
        }
    }
    Ok(rest)
}

/// Returns the text of which `Path::name_string` makes a name. A null name has none.
pub fn text_of(alloc: Global, name: &NameString) -> Result<Option<String>, AllocError> {
    let mut text = String::new(alloc);
    let rest = push_prefix(name.as_bytes(), &mut text)?;
    let is_null = matches!(rest, [0x00]) && !text.is_empty();
    if is_null || push_segments(segments(rest), &mut text)? {
        Ok(Some(text))
    } else {
        Ok(None)
    }
}

/// Returns the text of a name that has one.
pub fn path_text(alloc: Global, name: &NameString) -> Result<String, BuildError> {
    match text_of(alloc, name)? {
        Some(text) => Ok(text),
        None => Err(BuildError::Object(Error::NamePart)),
    }
}

/// Returns the path of a name that has a text.
pub fn path_of(alloc: Global, name: &NameString) -> Result<Path, BuildError> {
    let text = path_text(alloc, name)?;
    Ok(Path::name_string(alloc, text.as_str())?)
}

/// Returns the bytes of a name as a text, as the constructor of a field's name takes them.
pub fn raw_text(name: &NameString) -> Result<&str, BuildError> {
    match str::from_utf8(name.as_bytes()) {
        Ok(text) => Ok(text),
        Err(_) => Err(BuildError::Object(Error::NamePart)),
    }
}
