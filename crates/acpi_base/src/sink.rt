//! Sinks, which receive the bytes of objects and tables.

ghost use Rattle.std.specs.Prelude.{ℕ, List, [], ◌∷◌, ◌++◌, IsTrue, OnOk, IfErr};
ghost use Rattle.std.specs.Int.{to_le_bytes, w16, w32, w64};
ghost use Rattle.acpi_base.specs.Sink.{Meaning, Took, Refused};

use crate::error::R;

/// A receiver of bytes. After an error a sink has taken a prefix of the bytes of that call.
pub trait AmlSink {
    ghost meaning: { Self → Meaning };

    /// One byte. The error is the sink's own, or `Memory`.
    fn byte(&mut self, byte: u8) -> R<()>
        ensures ok { OnOk result (Took (meaning self.old) (byte ∷ []) (meaning self.new)) }
        ensures err { IfErr result (λ e. Refused e (meaning self.old) (byte ∷ []) (meaning self.new)) };

    /// The two bytes of a number, lowest first (ACPI 6.5, 5.2).
    fn word(&mut self, word: u16) -> R<()>
        ensures ok { OnOk result (Took (meaning self.old) (to_le_bytes w16 word) (meaning self.new)) }
        ensures err { IfErr result (λ e. Refused e (meaning self.old) (to_le_bytes w16 word) (meaning self.new)) }
    {
        self.vec(&word.to_le_bytes())
    }

    /// The four bytes of a number, lowest first.
    fn dword(&mut self, dword: u32) -> R<()>
        ensures ok { OnOk result (Took (meaning self.old) (to_le_bytes w32 dword) (meaning self.new)) }
        ensures err { IfErr result (λ e. Refused e (meaning self.old) (to_le_bytes w32 dword) (meaning self.new)) }
    {
        self.vec(&dword.to_le_bytes())
    }

    /// The eight bytes of a number, lowest first.
    fn qword(&mut self, qword: u64) -> R<()>
        ensures ok { OnOk result (Took (meaning self.old) (to_le_bytes w64 qword) (meaning self.new)) }
        ensures err { IfErr result (λ e. Refused e (meaning self.old) (to_le_bytes w64 qword) (meaning self.new)) }
    {
        self.vec(&qword.to_le_bytes())
    }

    /// All the bytes, in order.
    fn vec(&mut self, v: &[u8]) -> R<()>
        ensures ok { OnOk result (Took (meaning self.old) v.now (meaning self.new)) }
        ensures err { IfErr result (λ e. Refused e (meaning self.old) v.now (meaning self.new)) }
    {
        for byte in v {
            self.byte(*byte)?;
        }
        Ok(())
    }

    ghost takes_nothing: { (s : Self) → IsTrue ((meaning s).takes []) };

    ghost takes_beginning: { (s : Self) (a b : List ℕ) → IsTrue ((meaning s).takes (a ++ b)) → IsTrue ((meaning s).takes a) };
}
