//! The lines of a text.

ghost use Rattle.std.specs.Prelude.{◌≡◌, ◌<◌, ◌==◌, ◌∷◌, length};
ghost use Rattle.std.specs.Str.Lines.{strip_carriage_return};
ghost use Rattle.acpi_dump.specs.Lines.{lines, line_len};

// Returns how many bytes are before the first line feed, or the length of a text without one.
fn line_len(text: &[u8]) -> usize
    ensures { result ≡ line_len text.now }
{
    'bytes: for (i, byte) in text.iter().enumerate() {
        if *byte == b'\n' {
            return i;
        }
    }
    text.len()
}

/// Returns the first line of a text without its line feed, and the text after it.
pub fn split_line(text: &[u8]) -> (&[u8], &[u8])
    requires { 0 < length text.now }
    ensures lines { lines text.now ≡ result.0.now ∷ lines result.1.now }
    ensures shorter { length result.1.now < length text.now }
{
    let size = line_len(text);
    if size < text.len() {
        (&text[..size], &text[size + 1..])
    } else {
        (text, &text[text.len()..])
    }
}

/// Returns a line without the carriage return at its end, if it has one.
pub fn without_return(line: &[u8]) -> &[u8]
    ensures { result.now ≡ strip_carriage_return line.now }
{
    match line {
        [front @ .., b'\r'] => front,
        _ => line,
    }
}
