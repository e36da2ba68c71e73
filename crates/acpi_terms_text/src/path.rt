//! Paths: the segments of an object's name from the root on (ACPI 6.5, 5.3).

ghost use Rattle.std.specs.Prelude.{◌≡◌, ◌++◌, IfOk};
ghost use Rattle.std.specs.Str.{bytes_eq};
ghost use Rattle.acpi_terms_text.specs.Path.{parent, path_in, last_segment};

use acpi_read::report::words::segments_of;
use acpi_term::name_string::NameString;
use std::alloc::{AllocError, Global};

/// Returns the path of the scope in which an object is, or of the scope around a scope. The parent of the root is the root.
pub fn parent(path: &[u8]) -> &[u8]
    ensures { result.now ≡ parent path.now }
{
    &path[..path.len().saturating_sub(4)]
}

/// Returns segments after those of a scope.
pub fn joined(alloc: Global, scope: &[u8], segments: &[u8]) -> Result<Vec<u8>, AllocError>
    ensures { IfOk result (λ path. path.items ≡ scope.now ++ segments.now) }
{
    let mut path = Vec::from_slice(alloc, scope)?;
    path.extend_from_slice(segments)?;
    Ok(path)
}

// Returns the path of a name in a scope, in two parts.
fn parts_in<'a>(scope: &'a [u8], name: &'a [u8]) -> (&'a [u8], &'a [u8])
    ensures { result.0.now ++ result.1.now ≡ path_in scope.now name.now }
{
    let mut around = scope;
    let mut rest = name;
    'parents: while let [0x5e, more @ ..] = rest {
        around = parent(around);
        rest = more;
    }
    match rest {
        [] => (around, &[]),
        [0x5c, more @ ..] => (&[], segments_of(more)),
        _ => (around, segments_of(rest)),
    }
}

/// Returns the path of a name in a scope.
pub fn path_in(alloc: Global, scope: &[u8], name: &NameString) -> Result<Vec<u8>, AllocError>
    ensures { IfOk result (λ path. path.items ≡ path_in scope.now name.now) }
{
    let (front, rest) = parts_in(scope, name.as_bytes());
    joined(alloc, front, rest)
}

/// Returns whether a path is this one, which is given in two parts.
pub fn is_joined(front: &[u8], rest: &[u8], path: &[u8]) -> bool
    ensures { result ≡ bytes_eq path.now (front.now ++ rest.now) }
{
    match path.strip_prefix(front) {
        Some(more) => more == rest,
        None => false,
    }
}

/// Returns whether a path is that of a name in a scope.
pub(crate) fn is_path_in(scope: &[u8], name: &[u8], path: &[u8]) -> bool
    ensures { result ≡ bytes_eq path.now (path_in scope.now name.now) }
{
    let (front, rest) = parts_in(scope, name);
    is_joined(front, rest, path)
}

/// Returns the last segment of a name.
pub fn last_segment(name: &[u8]) -> &[u8]
    ensures { result.now ≡ last_segment name.now }
{
    &name[name.len().saturating_sub(4)..]
}
