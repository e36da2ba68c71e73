//! Objects that are open.

ghost use Rattle.std.specs.Prelude.{◌≡◌, true, false, OnOk, IfOk, IfErr};
ghost use Rattle.acpi_base.specs.declared.error.Error.TheVariants.{PackageElements};
ghost use Rattle.acpi_build.specs.Block.{is_full, with_count};

use acpi_base::error::{Error, R};

/// What an open object contains.
#[derive(Clone, Copy, Debug)]
pub enum Content {
    /// Objects.
    Objects,
    /// The elements of a package: their number so far.
    Elements(u8),
    /// The elements of a package with room: their number so far, and the room.
    Room(u8, u8),
    /// Resource descriptors.
    Descriptors,
}

/// An open object.
#[derive(Clone, Copy, Debug)]
pub struct Level {
    /// The offset at which its content begins.
    pub start: usize,
    /// What it contains.
    pub content: Content,
}

impl Level {
    /// The level after one more object. The error is `PackageElements` at the 256th element of a package, or at one
    /// for which it has no room.
    pub(crate) fn counted(self) -> R<Level>
        ensures ok { IfOk result (λ level. level ≡ with_count self) }
        ensures room { OnOk result (is_full self.content ≡ false) }
        ensures err { IfErr result (λ e. (e ≡ PackageElements) × (is_full self.content ≡ true)) }
    {
        let content = match self.content {
            Content::Elements(255) => return Err(Error::PackageElements),
            Content::Elements(count) => Content::Elements(count + 1),
            Content::Room(count, room) if room <= count => return Err(Error::PackageElements),
            Content::Room(count, room) => Content::Room(count + 1, room),
            content => content,
        };
        Ok(Level {
            start: self.start,
            content,
        })
    }
}
