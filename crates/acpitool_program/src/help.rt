//! How the program is used, and which word is wrong.

ghost use Rattle.std.specs.Prelude.{◌≡◌, ◌++◌, ℕ, List, IfOk, OnOk};
ghost use Rattle.std.specs.Io.KnownBytes.{Appends};
ghost use Rattle.acpitool_program.specs.Program.{usage, version, wrong_line, wrong_text};

use crate::command::Wrong;
use std::io;
use std::io::Write;

const USAGE: &str = "\
usage: acpitool show [--no-offsets|--bytes] FILE .. [NAME=N ..] | show --json FILE .. | check [--json] FILE .. \
| diff FILE FILE | disassemble FILE .. [NAME=N ..] | names [--json] FILE .. [NAME=N ..] | image [--json] FILE [BASE] \
| make [--force] TEXT FILE | repair FILE OUT | template SIGNATURE | unpack FILE FOLDER [BASE] | cpio FOLDER FILE \
| lay [--rsdp ADDRESS] FOLDER FILE BASE | loader FOLDER OUT | tree [--dot] FILE | --help | --version
";

// What `--help`, `-h` and `help` print after the usage.
const HELP: &str = "
show prints each table field by field: the offset, the name and the value of each field, and what the value
means. The text has all bytes of the table. A FILE is a table, an RSDP, a FACS, a CDAT, an S3PT, a dump of tables as
text (of acpidump), or a folder of such files, in which folders are skipped; - is standard input. FILE@BASE stands for
all tables of the image in FILE, which begins at the physical address BASE in hexadecimal, as image finds them; a file
of this whole name comes first.
A definition block is shown as ASL after the fields of its header, which are comments. If not all of its terms can be
read, its bytes are shown, and comments say why and have the ASL of the others. The definition blocks of all FILEs may
call each other's methods, if at most one of them is a DSDT.
NAME=N states how many arguments calls of NAME have: each part of NAME has four characters, as FOO_. Calls of other
names have as many as the table states for the method of this name, or else none. These words come last. So a file
whose name has an equals sign, or begins with a dash, is ./FILE. With --no-offsets right after it, show leaves out the
offsets at the front of lines, so that a text diff of two tables has only what differs. With --bytes it shows the bytes
of definition blocks, as of all other tables, and their terms are comments. make reads each of these texts.

show --json prints the same tables as one array of JSON for scripts: an object for each, with its signature, its
length, its fields by offset, name and value, its structures with their fields, and all of its bytes. A number above
2^53 is a string in hexadecimal, and so are bytes.

check prints a line for each rule of the standard that a table breaks: reserved bits and bytes that aren't zero,
numbers that are reserved, and numbers outside their range. The line has the offset and the name of the field, its
bytes, and the section of the standard. FILE is as for show. A rule that a table of another standard breaks is a
warning, since newer revisions of that standard may allow it. Then the tables of all files are compared, as those
of one machine: numbers of one that another has to define, such as the APIC IDs of a SRAT, which are those of the MADT,
and tables that a machine has once, such as the MADT, or SSDTs with the same bytes.
Last comes a line on standard error for each definition block of which not all terms can be read.
check --json prints an array of JSON with an object for each such rule.

diff prints a line for each field in which two tables differ: its offset and its name, and its bytes in the first and
in the second table in hexadecimal, the highest first, or none. Fields are compared in their order and not by their
offsets, so a structure that only one table has doesn't shift those after it. A line says if bytes without a name
differ, such as the terms of a definition block, or if the tables have different signatures. A FILE is one table, as
for show; - is standard input.

disassemble prints a definition block as ASL, the language that compilers take. The first FILE is its table, or -
for standard input. The block may call the methods of those in further FILEs, as an SSDT calls those of the DSDT. Of
the further FILEs only the terms that can be read count. show says which terms can't be read.
The text has an External statement for each name for which the block has no object.
Terms that can't be read are a comment with their bytes, and a line says why.

names prints the objects that a definition block makes when it is loaded, as a tree: the name of each, what it is,
the number of a method's arguments, and a value that has space in the line, such as that of _HID. FILEs are as for
disassemble. names --json prints an array of JSON with an object for the table, which has a list of these objects, each
with its path from the root.

image finds the RSDP in a file with the bytes of a guest's memory, follows it to all tables, and checks them.
It prints the address, signature, length and revision of each. BASE is the address of the first byte in
hexadecimal; it is 0 if it is left out. If no RSDP points to an XSDT, one of revision 0 or 1 counts, which points to an RSDT.
image --json prints an array of JSON with an object for each table. As FILE, - is standard input.

make reads a text that show prints, changed or written by hand, and writes the bytes of its table to FILE. Question
marks are worked out: the length, the checksum, and how long, how many and of which type structures are. Other numbers
stay as they are. A line says which length of the table, count or checksum would be right, and the table isn't written;
with --force it is. A wrong length of a structure is a fault. As TEXT, - is standard input, and as FILE, standard
output. TEXT and FILE may not be the same file. A regular FILE is replaced as a whole by FILE.part, which may not be
there before. A device, a pipe or a link stays what it is, and takes the bytes. Of a text of ASL, as show and
disassemble print it, changed or written by hand in the same form, make writes the definition block. The ASL of the
block has to be this text, but for white space, comments and the like. If it isn't, a line says which word of the text
is wrong. What compilers refuse in it, such as a name that is twice in a scope, has a line, too, and the block is
written with --force only.

repair writes the table in FILE to OUT with the length and the checksums that it should have, as after a change with an
editor of bytes; all other bytes stay as they are. The length is the number of bytes in FILE. A line says what each of them
was, if it was wrong. FILE has to begin with a signature, or to be a CDAT. As FILE, - is standard input, and as OUT, standard
output. OUT is replaced as make does it, and may be FILE.

template prints such a text of a table: all fields, mostly with zeros, and one structure of each kind. It knows
the signatures that show knows by name, such as APIC, the MADT's. That of the RSDP is 'RSD '.

unpack writes each table of an image, or of a dump of tables as text, to a file FOLDER/SIGNATURE.aml; further tables
of a signature have a number, as SSDT1.aml. BASE is that of image, and isn't used for a dump. FOLDER is made if it
isn't there. A line says the path and the length of each file. A file that is there isn't replaced. As FILE, - is
standard input.

cpio writes the archive from which Linux takes tables in its initrd: the files of FOLDER in kernel/firmware/acpi, byte
for byte as cpio -H newc makes it, with root as owner and the time 0. Linux takes no RSDP and no FACS from there: a line
names each of these files, which is left out. Any other file has to be a table with the standard header. Linux ignores
those of signatures that its drivers/acpi/tables.c doesn't list, such as GTDT and TPM2. As FILE, - is standard output; a
regular FILE is replaced as make does it, unless it is one of the tables.

lay writes the image of the tables of FOLDER for the physical address BASE in hexadecimal, a multiple of 0x40. Each file
has to be a table, an RSDP or a FACS, or a text whose name ends in .txt, .asl or .dsl, which make would make into one.
One is the FADT, one the DSDT, and one the FACS, which may be missing if the FADT has the flag HW_REDUCED_ACPI. The image
has an RSDP and an XSDT of its own, so those of FOLDER aren't laid, nor is an RSDT. Of the tables only the FADT is
changed: it points to the FACS and the DSDT. Tables are laid in the order of their files' names. A line has the address
of the RSDP. As FILE, - is standard output, and the line goes to standard error; a regular FILE is replaced as make does
it, unless it is one of the tables. With --rsdp the RSDP is for ADDRESS in hexadecimal, a multiple of 0x10 such as e0000,
and not in FILE: FILE.rsdp has its bytes, which FILE would else have at its end. FILE is written first, and isn't -.

loader writes the files by which QEMU hands the tables of FOLDER to firmware: OUT/etc/acpi/tables, OUT/etc/acpi/rsdp and
OUT/etc/table-loader. The tables are laid as lay does it, without addresses. The last file has the commands by which
firmware puts the addresses and the checksums in. A line says the path and the length of each file. Folders are made if
they aren't there. A file that is there isn't replaced, and no further file is written then.

tree prints the structures of a table as a tree, each with its offset, its type and its size. Below a structure, further
in, are those whose offsets it has: the parent and the caches of a processor (PPTT), the output of an ID mapping (IORT,
RIMT), the node behind which an endpoint is (VIOT). A structure that was shown before has a line with the word above.
Below a structure are also the numbers in it that another table defines, such as the proximity domains of a HMAT. tree
FILE@BASE prints the tables of an image, each with its address: below the RSDP the XSDT, below this the tables that it
lists, and below the FADT the FACS and the DSDT. tree --dot prints them as a graph for graphviz. A line on standard
error says if not all structures can be found.

The status is 0 if everything is shown or written, 1 if something isn't a table, an image or a text of a table,
its structures, terms or numbers are wrong, a table breaks a rule, two tables differ, tables have no image, no table has
the signature, or output can't be written, and 2 if a file or a folder can't be read, a folder has no files, or the
words are wrong.
";

const VERSION: &str = "acpitool 0.1.0\n";

/// Prints how the program is used, and returns 0.
pub fn print_help<O: Write>(out: &mut O) -> io::Result<u8>
    ensures { IfOk result (λ status. (more : List ℕ) × (status ≡ 0)
        × Appends (O.contents out.old) (O.contents out.new) (usage ++ more)) }
{
    out.write_all(USAGE.as_bytes())?;
    out.write_all(HELP.as_bytes())?;
    Ok(0)
}

/// Prints the version, and returns 0.
pub fn print_version<O: Write>(out: &mut O) -> io::Result<u8>
    ensures { IfOk result (λ status. (status ≡ 0) × Appends (O.contents out.old) (O.contents out.new) version) }
{
    out.write_all(VERSION.as_bytes())?;
    Ok(0)
}

// Prints which word is wrong.
fn print_wrong<E: Write>(wrong: &Wrong<'_>, err: &mut E) -> io::Result<()>
    ensures { OnOk result (Appends (E.contents err.old) (E.contents err.new) (wrong_line wrong.now)) }
{
    match wrong {
        Wrong::NoCommand => err.write_all(b"acpitool: no command\n"),
        Wrong::Misplaced(word) => {
            writeln!(
                err,
                "acpitool: at most one option, right after the command: {word}"
            )
        }
        Wrong::NoFile => err.write_all(b"acpitool: no file to show\n"),
        Wrong::NoFileToCheck => err.write_all(b"acpitool: no file to check\n"),
        Wrong::NoImage => err.write_all(b"acpitool: no file with an image\n"),
        Wrong::NoText => err.write_all(b"acpitool: no text to make\n"),
        Wrong::NoSignature => err.write_all(b"acpitool: no signature\n"),
        Wrong::NoBlock => err.write_all(b"acpitool: no file with a definition block\n"),
        Wrong::NoPacked => err.write_all(b"acpitool: no file to unpack\n"),
        Wrong::NoFolder => err.write_all(b"acpitool: no folder for the files\n"),
        Wrong::NoTables => err.write_all(b"acpitool: no folder with tables\n"),
        Wrong::NoArchive => err.write_all(b"acpitool: no file for the archive\n"),
        Wrong::NoImageFile => err.write_all(b"acpitool: no file for the image\n"),
        Wrong::NoBase => err.write_all(b"acpitool: no address for the image\n"),
        Wrong::NoPointer => err.write_all(b"acpitool: no address for the RSDP\n"),
        Wrong::NoDamaged => err.write_all(b"acpitool: no file to repair\n"),
        Wrong::NoFirst => err.write_all(b"acpitool: no files to compare\n"),
        Wrong::NoSecond => err.write_all(b"acpitool: no second file to compare\n"),
        Wrong::NoDrawing => err.write_all(b"acpitool: no file to draw\n"),
        Wrong::Signature(word) => {
            writeln!(err, "acpitool: not a signature of four characters: {word}")
        }
        Wrong::NoTable => err.write_all(b"acpitool: no file for the table\n"),
        Wrong::Base(word) => writeln!(err, "acpitool: not an address in hexadecimal: {word}"),
        Wrong::Unknown(word) => writeln!(err, "acpitool: unknown word {word}"),
        Wrong::Number(word) => {
            writeln!(
                err,
                "acpitool: not NAME=N with names of four characters and N from 0 to 7: {word}"
            )
        }
        Wrong::Twice => err.write_all(b"acpitool: two numbers of arguments for one name\n"),
    }
}

/// Prints which word is wrong and how the program is used, and returns 2.
pub fn tell_wrong<E: Write>(wrong: &Wrong<'_>, err: &mut E) -> io::Result<u8>
    ensures { IfOk result (λ status. (status ≡ 2)
        × Appends (E.contents err.old) (E.contents err.new) (wrong_text wrong.now)) }
{
    print_wrong(wrong, err)?;
    err.write_all(USAGE.as_bytes())?;
    Ok(2)
}
