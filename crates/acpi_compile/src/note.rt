//! What the comments before a term say for which ASL has no word.

use crate::node::Node;

/// The characters after this front.
pub fn after<'a>(note: &'a [u8], front: &[u8]) -> Option<&'a [u8]> {
    if note.starts_with(front) {
        note.get(front.len()..)
    } else {
        None
    }
}

// The width that a note on a PkgLength has, and what follows the note.
fn length_note(note: &[u8]) -> Option<(u8, &[u8])> {
    match after(note, b"/*= PkgLength ") {
        Some([digit @ b'1'..=b'4', b' ', b'*', b'/', rest @ ..]) => Some((*digit - b'0', rest)),
        _ => None,
    }
}

// A note without the width of a PkgLength.
fn rest_of(note: &[u8]) -> &[u8] {
    match length_note(note) {
        Some((_, rest)) => rest,
        None => note,
    }
}

impl Node<'_> {
    /// The place of the first of the notes before it, or its own if there are none.
    pub fn start(&self) -> usize {
        self.at.saturating_sub(self.note.len())
    }

    /// The same without the note on the PkgLength.
    pub fn note_at(&self) -> usize {
        self.at.saturating_sub(rest_of(self.note).len())
    }

    /// The number of bytes of the PkgLength of a term or of a field's entry, if a note says it.
    pub fn length(&self) -> Option<u8> {
        let (width, _) = length_note(self.note)?;
        Some(width)
    }

    /// Whether a note says that the term is a VarPackage.
    pub fn is_var_package(&self) -> bool {
        rest_of(self.note) == b"/*= VarPackage */".as_slice()
    }

    /// Whether a note says that an External statement stands in no block of such statements.
    pub fn stands_alone(&self) -> bool {
        self.note == b"/*= Alone */".as_slice()
    }

    /// Whether a note says that an External statement begins a block of such statements after another.
    pub fn begins_block(&self) -> bool {
        rest_of(self.note) == b"/*= Block */".as_slice()
    }

    /// Whether a note says that an External statement makes no term: it is there for a compiler, since the block has no object of
    /// this name.
    pub fn is_for_compilers(&self) -> bool {
        self.note == b"/*= Absent */".as_slice()
    }

    /// Whether the note is known that stands before a term.
    pub fn has_known_note(&self) -> bool {
        rest_of(self.note).is_empty()
            || self.is_var_package()
            || self.stands_alone()
            || self.begins_block()
    }
}
