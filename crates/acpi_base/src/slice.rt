//! Parts of slices.

ghost use Rattle.std.specs.Prelude.{◌≡◌, drop};

/// Returns the items from an offset on: none where there are as many or fewer.
pub fn from_offset<T>(offset: usize, items: &[T]) -> &[T]
    ensures { result.now ≡ drop offset items.now }
{
    if offset < items.len() {
        &items[offset..]
    } else {
        &[]
    }
}
