//! Resource descriptors whose content a vendor defines.

ghost use Rattle.acpi_base.specs.Object.{Builds};
ghost use Rattle.acpi_ops.specs.Vendor.{vendor_short, vendor_long};

use crate::variable::VariableDescriptor;
use acpi_base::error::{Error, R};
use std::alloc::Global;

/// At most 7 bytes of a vendor (ACPI 6.5, 6.4.2.8, Vendor-Defined Descriptor, Type 0).
pub type VendorShort = VariableDescriptor<VendorShortKind>;

/// The kind of `VendorShort`.
pub struct VendorShortKind;

impl VariableDescriptor<VendorShortKind> {
    /// The content is at offset 1 of the descriptor. The error is `FieldWidth` if it has more than 7 bytes.
    #[tactic(auto, using(crate::proofs::Built::built))]
    pub fn new(alloc: Global, content: &[u8]) -> R<VariableDescriptor<VendorShortKind>>
        ensures { Builds result (vendor_short content.now) }
    {
        if content.len() > 7 {
            return Err(Error::FieldWidth);
        }
        VariableDescriptor::of(alloc, &[&[0x70 + content.len() as u8], content])
    }
}

/// At most 65,535 bytes of a vendor (ACPI 6.5, 6.4.3.2, Vendor-Defined Descriptor, Type 1).
pub type VendorLong = VariableDescriptor<VendorLongKind>;

/// The kind of `VendorLong`.
pub struct VendorLongKind;

impl VariableDescriptor<VendorLongKind> {
    /// The content is at offset 3 of the descriptor. By the standard it begins with a subtype of one byte and a UUID of 16. The
    /// error is `FieldWidth` if it has more than 65,535 bytes.
    #[tactic(auto, using(crate::proofs::Built::built))]
    pub fn new(alloc: Global, content: &[u8]) -> R<VariableDescriptor<VendorLongKind>>
        ensures { Builds result (vendor_long content.now) }
    {
        if content.len() > 0xffff {
            return Err(Error::FieldWidth);
        }
        let length = (content.len() as u16).to_le_bytes();
        VariableDescriptor::of(alloc, &[&[0x84], &length, content])
    }
}
