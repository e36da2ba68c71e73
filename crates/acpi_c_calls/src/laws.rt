//! What the results of calls mean. Each function is a law: it does nothing, and ensures it.

ghost use Rattle.acpi_c_calls.specs.Laws.{NumbersDiffer, ChecksAreFine, FineIsAllGiven, FaultsWriteNothing};
ghost use Rattle.acpi_c_calls.specs.Nested.{WritersNest};

/// A number is that of one fault, and 0 of none.
pub fn numbers_differ()
    ensures { NumbersDiffer }
{}

/// A check that returns 0 has found what it was asked for: a table, terms or an image.
pub fn checks_are_fine()
    ensures { ChecksAreFine }
{}

/// A call that returns 0 has given what it found. It is the front of the buffer, as much as `size` says.
pub fn fine_is_given()
    ensures { FineIsAllGiven }
{}

/// A call that returns the number of a fault has written nothing into the buffer.
pub fn faults_write_nothing()
    ensures { FaultsWriteNothing }
{}

/// A call of a writer that returns 0 was done. Such calls write what the constructors of objects make, one after another and
/// inside one another: an object that is opened, filled and closed is the row around its content, and a buffer that of its bytes.
pub fn writers_nest()
    ensures { WritersNest }
{}
