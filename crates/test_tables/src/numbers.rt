//! The numbers of enums, as their declarations have them, where no loop over the words compares them beside the bytes.

use acpi_tables::bgrt::Orientation;
use acpi_tables::cedt::{CxlVersion, InterleaveArithmetic, ProtocolType, WindowRestrictions};
use acpi_tables::hest::{EnabledStatus, FirmwareFirst};
use acpi_tables::hpet::PageProtection;
use acpi_tables::madt::{Polarity, TriggerMode};
use acpi_tables::rqsc::{ControllerType, ResourceType};
use acpi_tables::spcr::{BaudRate, FlowControl, InterruptController, TerminalType};
use std::test::Fail;
use test_support::equal;

#[test]
fn numbers() -> Result<(), Fail> {
    for (number, wanted) in [
        (PageProtection::NoGuarantee as u32, 0),
        (PageProtection::Page4Kb as u32, 1),
        (PageProtection::Page64Kb as u32, 2),
        (Orientation::Upright as u32, 0),
        (Orientation::Degrees90 as u32, 2),
        (Orientation::Degrees180 as u32, 4),
        (Orientation::Degrees270 as u32, 6),
        (InterruptController::IoApic as u32, 2),
        (InterruptController::IoSapic as u32, 4),
        (InterruptController::ArmGic as u32, 8),
        (InterruptController::RiscvPlic as u32, 16),
        (BaudRate::AsIs as u32, 0),
        (BaudRate::Baud9600 as u32, 3),
        (BaudRate::Baud19200 as u32, 4),
        (BaudRate::Baud57600 as u32, 6),
        (BaudRate::Baud115200 as u32, 7),
        (FlowControl::Dcd as u32, 1),
        (FlowControl::RtsCts as u32, 2),
        (FlowControl::XonXoff as u32, 4),
        (TerminalType::Vt100 as u32, 0),
        (TerminalType::ExtendedVt100 as u32, 1),
        (TerminalType::VtUtf8 as u32, 2),
        (TerminalType::Ansi as u32, 3),
        (FirmwareFirst::Disabled as u32, 0),
        (FirmwareFirst::Enabled as u32, 1),
        (EnabledStatus::Disabled as u32, 0),
        (EnabledStatus::Enabled as u32, 1),
        (ControllerType::Capacity as u32, 0),
        (ControllerType::Bandwidth as u32, 1),
        (ResourceType::Cache as u32, 0),
        (ResourceType::Memory as u32, 1),
        (Polarity::OfBus as u32, 0),
        (Polarity::ActiveHigh as u32, 1),
        (Polarity::ActiveLow as u32, 3),
        (TriggerMode::OfBus as u32, 0),
        (TriggerMode::Edge as u32, 1),
        (TriggerMode::Level as u32, 3),
        (CxlVersion::Cxl1_1 as u32, 0),
        (CxlVersion::Cxl2 as u32, 1),
        (InterleaveArithmetic::Modulo as u32, 0),
        (InterleaveArithmetic::ModuloXor as u32, 1),
        (WindowRestrictions::CxlType2Memory as u32, 1),
        (WindowRestrictions::CxlType3Memory as u32, 2),
        (WindowRestrictions::Volatile as u32, 4),
        (WindowRestrictions::Persistent as u32, 8),
        (WindowRestrictions::FixedConfiguration as u32, 16),
        (ProtocolType::CxlIo as u32, 0),
        (ProtocolType::CxlMem as u32, 1),
    ] {
        equal(&number, &wanted)?;
    }
    Ok(())
}
