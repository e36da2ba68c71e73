//! Names of ASL (ACPI 6.5, 19.2.2). A function whose name begins with `push` adds to a text.

ghost use Rattle.std.specs.Prelude.{◌≡◌, map, ◌++◌, true, false, OnOk, string_bytes};
ghost use Rattle.acpi_read.specs.Report.{printable};
ghost use Rattle.acpi_asl.specs.Name.{fourth, third, second, is_among, is_kept, pair_text, dot_text, segment_text};
ghost use Rattle.acpi_asl.specs.Name.{segments_text, asl_name};

use acpi_read::report::words::segments_of;
use acpi_term::name_string::NameString;
use std::alloc::AllocError;

// A byte of a segment, or `?` if it isn't printable.
fn shown(byte: u8) -> char
    ensures { result ≡ printable byte }
{
    if (0x20..=0x7e).contains(&byte) {
        byte as char
    } else {
        '?'
    }
}

fn push_fourth(d: u8, text: &mut String) -> Result<(), AllocError>
    ensures { OnOk result (string_bytes text.new ≡ string_bytes text.old ++ fourth d) }
{
    if d == b'_' {
        return Ok(());
    }
    text.push(shown(d))
}

fn push_third(c: u8, d: u8, text: &mut String) -> Result<(), AllocError>
    ensures { OnOk result (string_bytes text.new ≡ string_bytes text.old ++ third c d) }
{
    if c == b'_' && d == b'_' {
        return Ok(());
    }
    text.push(shown(c))?;
    push_fourth(d, text)
}

fn push_second(b: u8, c: u8, d: u8, text: &mut String) -> Result<(), AllocError>
    ensures { OnOk result (string_bytes text.new ≡ string_bytes text.old ++ second b c d) }
{
    if b == b'_' && c == b'_' && d == b'_' {
        return Ok(());
    }
    text.push(shown(b))?;
    push_third(c, d, text)
}

/// Segments that keep their underscores, since they would be words of ASL without them.
const KEPT: [&str; 22] = [
    "HZ__", "IF__", "OR__", "ADD_", "AND_", "FOR_", "KHZ_", "LOR_", "MEQ_", "MGE_", "MGT_", "MHZ_",
    "MID_", "MLE_", "MLT_", "MOD_", "MTR_", "NOR_", "NOT_", "ONE_", "PCC_", "XOR_",
];

fn is_among(words: &[&str], segment: &[u8]) -> bool
    ensures { result ≡ is_among (map (λ word. word.now) words.now) segment.now }
{
    'words: for word in words {
        if segment == word.as_bytes() {
            return true;
        }
    }
    false
}

#[tactic(auto, unfolding(crate::specs::Name::is_kept))]
fn is_kept(a: u8, b: u8, c: u8, d: u8) -> bool
    ensures { result ≡ is_kept a b c d }
{
    d == b'_' && is_among(&KEPT, &[a, b, c, d])
}

fn push_pair(a: u8, b: u8, text: &mut String) -> Result<(), AllocError>
    ensures { OnOk result (string_bytes text.new ≡ string_bytes text.old ++ pair_text a b) }
{
    text.push(shown(a))?;
    text.push(shown(b))
}

fn push_four(a: u8, b: u8, c: u8, d: u8, text: &mut String) -> Result<(), AllocError>
    ensures { OnOk result (string_bytes text.new ≡ string_bytes text.old ++ (pair_text a b ++ pair_text c d)) }
{
    push_pair(a, b, text)?;
    push_pair(c, d, text)
}

#[tactic(auto, unfolding(crate::specs::Name::segment_text))]
fn push_segment(a: u8, b: u8, c: u8, d: u8, text: &mut String) -> Result<(), AllocError>
    ensures { OnOk result (string_bytes text.new ≡ string_bytes text.old ++ segment_text a b c d) }
{
    if is_kept(a, b, c, d) {
        return push_four(a, b, c, d, text);
    }
    text.push(shown(a))?;
    push_second(b, c, d, text)
}

fn push_dot(follows: bool, text: &mut String) -> Result<(), AllocError>
    ensures { OnOk result (string_bytes text.new ≡ string_bytes text.old ++ dot_text follows) }
{
    if !follows {
        return Ok(());
    }
    text.push('.')
}

// Adds segments after another, if there are any.
#[cycle(segments)]
#[inline(always)]
fn push_further_segments(segments: &[u8], text: &mut String) -> Result<(), AllocError>
    ensures { OnOk result (string_bytes text.new ≡ string_bytes text.old ++ segments_text true segments.now) }
{
    match segments {
        [] => Ok(()),
        [_, ..] => push_segments(true, segments, text),
    }
}

/// Adds segments, with a dot before the first if it follows another.
#[cycle(segments)]
pub fn push_segments(follows: bool, segments: &[u8], text: &mut String) -> Result<(), AllocError>
    ensures { OnOk result (string_bytes text.new ≡ string_bytes text.old ++ segments_text follows segments.now) }
{
    let [a, b, c, d, rest @ ..] = segments else {
        return Ok(());
    };
    push_dot(follows, text)?;
    push_segment(*a, *b, *c, *d, text)?;
    push_further_segments(rest, text)?;
    Ok(())
}

fn push_name_bytes(bytes: &[u8], text: &mut String) -> Result<(), AllocError>
    ensures { OnOk result (string_bytes text.new ≡ string_bytes text.old ++ asl_name bytes.now) }
{
    let mut rest = bytes;
    'parents: while let [0x5e, more @ ..] = rest {
        text.push('^')?;
        rest = more;
    }
    match rest {
        [] => Ok(()),
        [0x5c, more @ ..] => {
            text.push('\\')?;
            push_segments(false, segments_of(more), text)
        }
        _ => push_segments(false, segments_of(rest), text),
    }
}

/// Adds a name.
pub fn push_name(name: &NameString, text: &mut String) -> Result<(), AllocError>
    ensures { OnOk result (string_bytes text.new ≡ string_bytes text.old ++ asl_name name.now) }
{
    push_name_bytes(name.as_bytes(), text)
}
