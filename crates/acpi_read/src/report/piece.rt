//! The lines of pieces. A function whose name begins with `push` adds to a text.

ghost use Rattle.std.specs.Prelude.{◌≡◌, ◌++◌, ◌≤◌, length, map, string_bytes, OnOk};
ghost use Rattle.std.specs.List.{All};
ghost use Rattle.acpi_base.specs.Walk.{end_of};
ghost use Rattle.acpi_read.specs.Report.{piece_line, piece_lines};

use crate::pieces::Piece;
use acpi_base::walk::Place;
use std::alloc::AllocError;

fn push_piece(kind: Place, piece: &Piece<'_>, text: &mut String) -> Result<(), AllocError>
    requires { end_of kind ≤ length piece.now.bytes.now }
    ensures { OnOk result (string_bytes text.new ≡ string_bytes text.old
        ++ piece_line kind piece.entry.now.offset piece.entry.now.bytes.now) }
{
    let (offset, size) = (piece.offset, piece.bytes.len());
    match kind {
        Place::Nowhere => write!(text, "{offset} entry size {size}\n"),
        place => {
            let kind = place.number(piece.bytes);
            write!(text, "{offset} type {kind} size {size}\n")
        }
    }
}

/// Adds a line for each piece.
pub fn push_pieces(kind: Place, pieces: &[Piece<'_>], text: &mut String) -> Result<(), AllocError>
    requires { All (λ piece. end_of kind ≤ length piece) (map (λ p. p.bytes.now) pieces.now) }
    ensures { OnOk result (string_bytes text.new ≡ string_bytes text.old
        ++ piece_lines kind (map (λ p. p.offset) pieces.now) (map (λ p. p.bytes.now) pieces.now)) }
{
    for piece in pieces {
        push_piece(kind, piece, text)?;
    }
    Ok(())
}
