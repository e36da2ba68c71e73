//! Laws over the definition of an image. Each function is a law: it does nothing, and ensures it.

ghost use Rattle.acpi_layout.specs.Found.{ImagesHaveOneList, ImagesListOnce};
ghost use Rattle.acpi_layout.specs.Laws.{ImagesStand, ImagesPoint, ImagesAreAligned, GapsAreLeast};
ghost use Rattle.acpi_layout.specs.ReadBack.{ImagesAreFound, ImagesListTheirTables, ReducedIsTold};
ghost use Rattle.acpi_layout.specs.RsdtLaws.{LowImagesStand, LowImagesPoint, LowImagesAreAligned, LowGapsAreLeast};
ghost use Rattle.acpi_layout.specs.RsdtLaws.{LowImagesAreFound};

/// In an image each table's bytes stand at its address: the FACS if there is one, the DSDT, the FADT and the tables, the XSDT and
/// the RSDP. No two overlap, and gaps are zero.
pub fn images_stand()
    ensures { ImagesStand }
{}

/// The addresses are read out of the tables' bytes: of the FACS, or 0, and the DSDT at 132 and 140 of the FADT, where 36 and 40
/// are zero, of each table in the XSDT's entries, and of the XSDT at 24 of the RSDP. The XSDT is a true table.
pub fn images_point()
    ensures { ImagesPoint }
{}

/// The tables and the XSDT stand at multiples of 8, and the RSDP at one of 16.
pub fn images_are_aligned()
    ensures { ImagesAreAligned }
{}

/// The FADT, each of the tables and the XSDT begin less than 8 bytes after the one before ends, and the RSDP less than 16. With
/// `images_are_aligned` each is at the next multiple of 8 or 16, so no gap is longer than it has to be.
pub fn gaps_are_least()
    ensures { GapsAreLeast }
{}

/// What `lay` and `lay_reduced` make of correct tables is an image by the definition of `check_image`. Its tables are exactly
/// these, at the addresses that were written, which are read from the bytes. Only a FACS at the address 0 of a hardware-reduced
/// machine isn't found.
pub fn images_are_found()
    ensures { ImagesAreFound }
{}

/// By the definition of `check_image`, the same bytes are the image of at most one list of tables, for one base and one address
/// of the RSDP.
pub fn images_have_one_list()
    ensures { ImagesHaveOneList }
{}

/// An image lists the addresses of the FADT and of the tables, in order, also if the tables are not valid. For one base and one
/// address of the RSDP, the same bytes list at most one list of addresses. So `Image::addresses` returns where `lay` and
/// `lay_reduced` put the tables.
pub fn images_list_their_tables()
    ensures listed { ImagesListTheirTables }
    ensures once { ImagesListOnce }
{}

/// The FADT of `lay_reduced` has the flag HW_REDUCED_ACPI, so a reader looks for no FACS.
pub fn reduced_is_told()
    ensures { ReducedIsTold }
{}

/// In an image with an RSDT each table's bytes stand at its address: the FACS if there is one, the DSDT, the FADT and the
/// tables, and the RSDT. No two overlap, and gaps are zero.
pub fn rsdt_images_stand()
    ensures { LowImagesStand }
{}

/// The addresses are read out of the tables' bytes: of the FACS, or 0, and the DSDT at 36 and 40 of the FADT, where 132 and 140
/// are zero, of each table in the RSDT's entries, and of the RSDT at 16 of the RSDP. The RSDT is a true table. The RSDP has
/// revision 0 and 20 bytes, which sum to zero.
pub fn rsdt_images_point()
    ensures { LowImagesPoint }
{}

/// The tables and the RSDT stand at multiples of 8.
pub fn rsdt_images_are_aligned()
    ensures { LowImagesAreAligned }
{}

/// The FADT, each of the tables and the RSDT begin less than 8 bytes after the one before ends. With `rsdt_images_are_aligned`
/// each is at the next multiple of 8.
pub fn rsdt_gaps_are_least()
    ensures { LowGapsAreLeast }
{}

/// What `lay_rsdt` and `lay_reduced_rsdt` lay is found by the addresses that are read from the bytes: the RSDT by the RSDP, the
/// FADT and the tables, in order, by the RSDT, and the FACS, if there is one, and the DSDT by the FADT.
pub fn rsdt_images_are_found()
    ensures { LowImagesAreFound }
{}
