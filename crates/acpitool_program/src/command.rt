//! The words of the command line.

ghost use Rattle.std.specs.Prelude.{◌≡◌, ℕ, ◌≤◌, length, nat_eq, if◌then◌else◌, List, ◌∷◌, map, drop, string_bytes, codes};
ghost use Rattle.std.specs.List.{slice_get};
ghost use Rattle.std.specs.Prelude.{MatchResult, MatchOption, IfOk, None, Some, true};
ghost use Rattle.std.specs.List.{starts_with};
ghost use Rattle.acpi_input.specs.Stated.{stated};
ghost use Rattle.acpitool_program.specs.Command.{is_option, is_force, leads, begins_with, style_of, begins_with_option};
ghost use Rattle.acpitool_program.specs.Command.{after_option, takes, option_in, AreAfter, IsRest};
ghost use Rattle.acpitool_program.specs.Command.{first_option, forces, unforced, has, is_number};
ghost use Rattle.acpitool_program.specs.Command.{file_count, first_unstated, IsMisstated};
ghost use Rattle.acpitool_program.specs.Command.{word_of, without_prefix, IsAddress, Asks, IsWrong};
ghost use Rattle.acpitool_program.specs.declared.command.Verb.TheVariants as verbs;

use acpi_input::stated::{Unstated, arities, stated};
use acpi_term::name_string::Arities;
use std::alloc::{AllocError, Global};

/// What the program is asked for.
#[derive(Drop)]
pub enum Command<'a> {
    /// `--help`, `-h` or `help`: how the program is used.
    Help,
    /// `--version`: its version.
    Version,
    /// `show [--no-offsets|--bytes] FILE .. [NAME=N ..]`: the texts of tables in files, in folders, in images FILE@BASE, or on
    /// standard input where the word is `-`, and the words that state numbers of arguments.
    Show(Style, &'a [String], &'a [String]),
    /// `show --json FILE ..`: these tables as JSON.
    Json(&'a [String]),
    /// `check [--json] FILE ..`: the rules that tables in files, in folders, in images FILE@BASE, or on standard input where the
    /// word is `-`, break. `--json` is there or not.
    Check(bool, &'a [String]),
    /// `image [--json] FILE [BASE]`: the tables of an image in a file, or on standard input where the word is `-`. It begins at
    /// the physical address BASE in hexadecimal, or at 0. `--json` is there or not.
    Image(bool, &'a str, u64),
    /// `make [--force] TEXT FILE`: the table of a text, which goes to a file. `--force` is there or not.
    Make(bool, &'a str, &'a str),
    /// `template SIGNATURE`: a text of a table of the signature, for a start.
    Template(&'a str),
    /// `disassemble FILE .. [NAME=N ..]`: the ASL of a definition block in a file, or on standard input where the word is
    /// `-`, and the other words: files with further blocks, and words that state numbers of arguments.
    Disassemble(&'a str, &'a [String]),
    /// `names [--json] FILE .. [NAME=N ..]`: the objects that such a definition block makes, and the same words. `--json` is
    /// there or not.
    Names(bool, &'a str, &'a [String]),
    /// `unpack FILE FOLDER [BASE]`: each table of a dump, or of an image that begins at the physical address BASE in hexadecimal,
    /// or at 0, to a file of a folder. The file with the dump or the image is standard input where the word is `-`.
    Unpack(&'a str, &'a str, u64),
    /// `cpio FOLDER FILE`: the archive from which Linux takes the tables of a folder, to a file, or to standard output where the
    /// word is `-`.
    Cpio(&'a str, &'a str),
    /// `lay [--rsdp ADDRESS] FOLDER FILE BASE`: the image of the tables of a folder, which begins at the physical address BASE in
    /// hexadecimal, to a file, or to standard output where the word is `-`. ADDRESS is that of an RSDP apart from the image, if
    /// it is there.
    Lay(Option<u64>, &'a str, &'a str, u64),
    /// `loader FOLDER OUT`: the files that QEMU hands to firmware, of the tables of a folder, to new files of another folder.
    Loader(&'a str, &'a str),
    /// `repair FILE OUT`: the table in a file, or on standard input where the word is `-`, with the right length and checksums,
    /// to a file, or to standard output where the word is `-`.
    Repair(&'a str, &'a str),
    /// `diff FILE FILE`: the fields in which the tables in two files differ, or on standard input where a word is `-`.
    Diff(&'a str, &'a str),
    /// `tree [--dot] FILE`: the structures of the table in a file, or on standard input where the word is `-`, or the tables of
    /// an image FILE@BASE, as a tree. With `--dot` they are a graph.
    Tree(bool, &'a str),
}

/// How `show` shows tables, by its option.
#[derive(Clone, Copy)]
pub enum Style {
    /// There is no option. The lines of texts have offsets, and the terms of definition blocks are ASL.
    Usual,
    /// `--no-offsets`: the same without offsets.
    Bare,
    /// `--bytes`: a definition block is shown by its bytes, as any other table, and its terms are comments.
    Bytes,
}

/// A command that takes words.
#[derive(Clone, Copy)]
pub enum Verb {
    /// `show` prints tables as text.
    Show,
    /// `check` prints what is wrong with tables.
    Check,
    /// `image` finds the tables of an image.
    Image,
    /// `make` makes a table of a text.
    Make,
    /// `template` prints a text of a table.
    Template,
    /// `disassemble` prints a definition block as ASL.
    Disassemble,
    /// `names` prints the objects of a definition block.
    Names,
    /// `unpack` writes the tables of an image or a dump to files.
    Unpack,
    /// `cpio` writes an archive of tables for Linux.
    Cpio,
    /// `lay` writes an image of tables.
    Lay,
    /// `loader` writes the files by which QEMU hands tables to firmware.
    Loader,
    /// `repair` sets the length and the checksums of a table.
    Repair,
    /// `diff` prints in which fields two tables differ.
    Diff,
    /// `tree` prints which structures refer to which.
    Tree,
}

/// Why words ask for nothing.
#[derive(Drop)]
pub enum Wrong<'a> {
    /// There is no word.
    NoCommand,
    /// The word isn't a command or an option.
    Unknown(&'a str),
    /// The word is an option that doesn't stand right after its command, or not alone.
    Misplaced(&'a str),
    /// `show` has no file.
    NoFile,
    /// `check` has no file.
    NoFileToCheck,
    /// `image` has no file.
    NoImage,
    /// `make` has no text.
    NoText,
    /// `make` or `repair` has no file for the table.
    NoTable,
    /// `template` has no signature.
    NoSignature,
    /// `disassemble` or `names` has no file.
    NoBlock,
    /// `unpack` has no file.
    NoPacked,
    /// `unpack` or `loader` has no folder for its files.
    NoFolder,
    /// `cpio`, `lay` or `loader` has no folder.
    NoTables,
    /// `cpio` has no file for the archive.
    NoArchive,
    /// `lay` has no file for the image.
    NoImageFile,
    /// `lay` has no address.
    NoBase,
    /// `lay --rsdp` has no address.
    NoPointer,
    /// `repair` has no file.
    NoDamaged,
    /// `diff` has no file.
    NoFirst,
    /// `diff` has no second file.
    NoSecond,
    /// `tree` has no file.
    NoDrawing,
    /// The word isn't a signature of four bytes.
    Signature(&'a str),
    /// The word isn't an address in hexadecimal.
    Base(&'a str),
    /// The word isn't NAME=N with a digit from 0 to 7.
    Number(&'a str),
    /// Words state two numbers of arguments for one name.
    Twice,
}

/// Why words state no numbers of arguments.
#[derive(Drop)]
pub enum Misstated<'a> {
    /// The word isn't NAME=N with a digit from 0 to 7.
    Word(&'a str),
    /// A name is there twice.
    Twice,
    /// Memory ran out.
    Memory,
}

// Returns whether a word is an option: a dash and more.
fn is_option(word: &[u8]) -> bool
    ensures { result ≡ is_option word.now }
{
    word.len() > 1 && word[0] == b'-'
}

// Returns whether a word is `--force`.
fn is_force(word: &str) -> bool
    ensures { result ≡ is_force word.now }
{
    word == "--force"
}

// Returns whether a command takes an option anywhere among its words.
fn takes(verb: Verb, word: &str) -> bool
    ensures { result ≡ takes verb word.now }
{
    match verb {
        Verb::Make => is_force(word),
        Verb::Show | Verb::Check | Verb::Image | Verb::Template => false,
        Verb::Disassemble | Verb::Names | Verb::Unpack | Verb::Cpio => false,
        Verb::Lay | Verb::Loader | Verb::Repair => false,
        Verb::Diff | Verb::Tree => false,
    }
}

// Returns whether the first word is this option.
fn begins_with(option: &str, words: &[String]) -> bool
    ensures { result ≡ begins_with option.now (map (λ word. string_bytes word) words.now) }
{
    match words {
        [] => false,
        [word, ..] => word.as_str() == option,
    }
}

// Returns how tables are shown, by the first word.
fn style_of(words: &[String]) -> Style
    ensures { result ≡ style_of (map (λ word. string_bytes word) words.now) }
{
    if begins_with("--no-offsets", words) {
        Style::Bare
    } else if begins_with("--bytes", words) {
        Style::Bytes
    } else {
        Style::Usual
    }
}

// Returns whether a word is an option that a command takes right after its own word.
fn leads(verb: Verb, word: &str) -> bool
    ensures { result ≡ leads verb word.now }
{
    match verb {
        Verb::Show => word == "--json" || word == "--no-offsets" || word == "--bytes",
        Verb::Check | Verb::Image | Verb::Names => word == "--json",
        Verb::Tree => word == "--dot",
        Verb::Lay => word == "--rsdp",
        Verb::Make | Verb::Template | Verb::Disassemble => false,
        Verb::Unpack | Verb::Cpio => false,
        Verb::Loader | Verb::Repair | Verb::Diff => false,
    }
}

// Returns whether the first word is such an option.
fn begins_with_option(verb: Verb, words: &[String]) -> bool
    ensures { result ≡ begins_with_option verb (map (λ word. string_bytes word) words.now) }
{
    match words {
        [] => false,
        [word, ..] => leads(verb, word.as_str()),
    }
}

// Returns the words after such an option, or all words if the first isn't one.
fn after_option(verb: Verb, words: &[String]) -> &[String]
    ensures { map (λ word. string_bytes word) result.now ≡ after_option verb (map (λ word. string_bytes word) words.now) }
{
    if begins_with_option(verb, words) {
        &words[1..]
    } else {
        words
    }
}

// Returns the first option among words, but for those that a command takes.
fn option_in(verb: Verb, words: &[String]) -> Option<&str>
    ensures { MatchOption result (option_in verb (map (λ word. string_bytes word) words.now) ≡ None)
        (λ word. option_in verb (map (λ word. string_bytes word) words.now) ≡ Some word.now) }
{
    for word in words {
        if is_option(word.as_bytes()) && !takes(verb, word.as_str()) {
            return Some(word.as_str());
        }
    }
    None
}

// Returns the first option among words after a command, but for those that it takes.
fn first_option(verb: Verb, words: &[String]) -> Option<&str>
    ensures { MatchOption result (first_option verb (map (λ word. string_bytes word) words.now) ≡ None)
        (λ word. first_option verb (map (λ word. string_bytes word) words.now) ≡ Some word.now) }
{
    option_in(verb, after_option(verb, words))
}

// Returns whether one of the words is `--force`.
fn forces(words: &[String]) -> bool
    ensures { result ≡ forces (map (λ word. string_bytes word) words.now) }
{
    for word in words {
        if is_force(word.as_str()) {
            return true;
        }
    }
    false
}

// Returns the word at an index among those that aren't `--force`.
fn unforced(words: &[String], index: usize) -> Option<&str>
    ensures { MatchOption result (slice_get (unforced (map (λ word. string_bytes word) words.now)) index ≡ None)
        (λ word. slice_get (unforced (map (λ word. string_bytes word) words.now)) index ≡ Some word.now) }
{
    let mut left = index;
    for word in words {
        if !is_force(word.as_str()) {
            if left == 0 {
                return Some(word.as_str());
            }
            left -= 1;
        }
    }
    None
}

// Returns whether a word has a byte.
fn has(byte: u8, word: &[u8]) -> bool
    ensures { result ≡ has byte word.now }
{
    'bytes: for other in word {
        if *other == byte {
            return true;
        }
    }
    false
}

// Returns whether a word states a number of arguments.
fn is_number(word: &[u8]) -> bool
    ensures { result ≡ is_number word.now }
{
    has(b'=', word) && !has(b'/', word)
}

/// Returns how many words are files: those before the first that states a number of arguments.
pub fn file_count(words: &[String]) -> usize
    ensures is { result ≡ file_count (map (λ word. string_bytes word) words.now) }
    ensures within { result ≤ length words.now }
{
    let mut count = 0;
    'words: for word in words {
        if is_number(word.as_bytes()) {
            return count;
        }
        count += 1;
    }
    count
}

// Returns what `show` and these words, which aren't options, ask for.
fn show(words: &[String]) -> Result<Command<'_>, Wrong<'_>>
    requires { first_option verbs.Show (map (λ word. string_bytes word) words.now) ≡ None }
    ensures { (all : List (List ℕ)) → all ≡ codes "show" ∷ map (λ word. string_bytes word) words.now
        → MatchResult result (Asks all) (IsWrong all) }
{
    let rest = after_option(Verb::Show, words);
    if begins_with("--json", words) {
        if rest.is_empty() {
            return Err(Wrong::NoFile);
        }
        return Ok(Command::Json(rest));
    }
    let count = file_count(rest);
    if count == 0 {
        return Err(Wrong::NoFile);
    }
    let (files, numbers) = rest.split_at(count);
    Ok(Command::Show(style_of(words), files, numbers))
}

// Returns what `check` and these words, which aren't options, ask for.
fn check(words: &[String]) -> Result<Command<'_>, Wrong<'_>>
    requires { first_option verbs.Check (map (λ word. string_bytes word) words.now) ≡ None }
    ensures { (all : List (List ℕ)) → all ≡ codes "check" ∷ map (λ word. string_bytes word) words.now
        → MatchResult result (Asks all) (IsWrong all) }
{
    let files = after_option(Verb::Check, words);
    if files.is_empty() {
        return Err(Wrong::NoFileToCheck);
    }
    Ok(Command::Check(begins_with("--json", words), files))
}

// Returns the first word that isn't NAME=N.
fn first_unstated(alloc: Global, words: &[String]) -> Result<Option<&str>, AllocError>
    ensures { IfOk result (λ found. MatchOption found (first_unstated (map (λ word. string_bytes word) words.now) ≡ None)
        (λ word. first_unstated (map (λ word. string_bytes word) words.now) ≡ Some word.now)) }
{
    'words: for word in words {
        match stated(alloc, word.as_str()) {
            Ok(_) => {}
            Err(Unstated::Word) => return Ok(Some(word.as_str())),
            Err(Unstated::Memory) => return Err(AllocError),
        }
    }
    Ok(None)
}

// Returns why words state no numbers of arguments.
fn why_misstated(alloc: Global, words: &[String]) -> Misstated<'_>
    requires { stated (map (λ word. string_bytes word) words.now) ≡ None }
    ensures { IsMisstated (map (λ word. string_bytes word) words.now) result }
{
    match first_unstated(alloc, words) {
        Ok(Some(word)) => Misstated::Word(word),
        Ok(None) => Misstated::Twice,
        Err(_) => Misstated::Memory,
    }
}

/// Returns the numbers of arguments that words state, each as NAME=N, or why they don't.
pub fn numbers(alloc: Global, words: &[String]) -> Result<Arities, Misstated<'_>>
    ensures { MatchResult result (λ numbers. stated (map (λ word. string_bytes word) words.now) ≡ Some numbers)
        (IsMisstated (map (λ word. string_bytes word) words.now)) }
{
    match arities(alloc, words) {
        Ok(arities) => Ok(arities),
        Err(Unstated::Word) => Err(why_misstated(alloc, words)),
        Err(Unstated::Memory) => Err(Misstated::Memory),
    }
}

// Returns a word without the `0x` or `0X` at its front.
fn without_prefix(word: &str) -> &str
    ensures { result.now ≡ without_prefix word.now }
{
    if let Some(digits) = word.strip_prefix("0x") {
        return digits;
    }
    match word.strip_prefix("0X") {
        Some(digits) => digits,
        None => word,
    }
}

/// Returns the address that a word is in hexadecimal.
pub fn address_of(word: &str) -> Option<u64>
    ensures { MatchOption result ((base : ℕ) → ¬ IsAddress word.now base) (IsAddress word.now) }
{
    match u64::from_str_radix(without_prefix(word), 16) {
        Ok(address) => Some(address),
        Err(_) => None,
    }
}

// Returns what `image` and these words, which aren't options, ask for.
fn image(words: &[String]) -> Result<Command<'_>, Wrong<'_>>
    requires { first_option verbs.Image (map (λ word. string_bytes word) words.now) ≡ None }
    ensures { (all : List (List ℕ)) → all ≡ codes "image" ∷ map (λ word. string_bytes word) words.now
        → MatchResult result (Asks all) (IsWrong all) }
{
    let json = begins_with("--json", words);
    match after_option(Verb::Image, words) {
        [] => Err(Wrong::NoImage),
        [file] => Ok(Command::Image(json, file.as_str(), 0)),
        [file, base] => {
            let word = base.as_str();
            match address_of(word) {
                Some(address) => Ok(Command::Image(json, file.as_str(), address)),
                None => Err(Wrong::Base(word)),
            }
        }
        [_, _, extra, ..] => Err(Wrong::Unknown(extra.as_str())),
    }
}

// Returns what `make` and these words, which aren't options but `--force`, ask for.
fn make(words: &[String]) -> Result<Command<'_>, Wrong<'_>>
    requires { first_option verbs.Make (map (λ word. string_bytes word) words.now) ≡ None }
    ensures { (all : List (List ℕ)) → all ≡ codes "make" ∷ map (λ word. string_bytes word) words.now
        → MatchResult result (Asks all) (IsWrong all) }
{
    let Some(text) = unforced(words, 0) else {
        return Err(Wrong::NoText);
    };
    let Some(file) = unforced(words, 1) else {
        return Err(Wrong::NoTable);
    };
    match unforced(words, 2) {
        Some(extra) => Err(Wrong::Unknown(extra)),
        None => Ok(Command::Make(forces(words), text, file)),
    }
}

// Returns what `template` and these words, which aren't options, ask for.
fn template(words: &[String]) -> Result<Command<'_>, Wrong<'_>>
    requires { first_option verbs.Template (map (λ word. string_bytes word) words.now) ≡ None }
    ensures { (all : List (List ℕ)) → all ≡ codes "template" ∷ map (λ word. string_bytes word) words.now
        → MatchResult result (Asks all) (IsWrong all) }
{
    match words {
        [] => Err(Wrong::NoSignature),
        [signature] => {
            let word = signature.as_str();
            if word.len() == 4 {
                Ok(Command::Template(word))
            } else {
                Err(Wrong::Signature(word))
            }
        }
        [_, extra, ..] => Err(Wrong::Unknown(extra.as_str())),
    }
}

// Returns what `disassemble` and these words, which aren't options, ask for.
fn disassemble(words: &[String]) -> Result<Command<'_>, Wrong<'_>>
    requires { first_option verbs.Disassemble (map (λ word. string_bytes word) words.now) ≡ None }
    ensures { (all : List (List ℕ)) → all ≡ codes "disassemble" ∷ map (λ word. string_bytes word) words.now
        → MatchResult result (Asks all) (IsWrong all) }
{
    if file_count(words) == 0 {
        return Err(Wrong::NoBlock);
    }
    match words {
        [] => Err(Wrong::NoBlock),
        [file, others @ ..] => Ok(Command::Disassemble(file.as_str(), others)),
    }
}

// Returns what `names` and these words, which aren't options, ask for.
fn names(words: &[String]) -> Result<Command<'_>, Wrong<'_>>
    requires { first_option verbs.Names (map (λ word. string_bytes word) words.now) ≡ None }
    ensures { (all : List (List ℕ)) → all ≡ codes "names" ∷ map (λ word. string_bytes word) words.now
        → MatchResult result (Asks all) (IsWrong all) }
{
    let json = begins_with("--json", words);
    let rest = after_option(Verb::Names, words);
    if file_count(rest) == 0 {
        return Err(Wrong::NoBlock);
    }
    match rest {
        [] => Err(Wrong::NoBlock),
        [file, others @ ..] => Ok(Command::Names(json, file.as_str(), others)),
    }
}

// Returns what `unpack` and these words, which aren't options, ask for.
fn unpack(words: &[String]) -> Result<Command<'_>, Wrong<'_>>
    requires { first_option verbs.Unpack (map (λ word. string_bytes word) words.now) ≡ None }
    ensures { (all : List (List ℕ)) → all ≡ codes "unpack" ∷ map (λ word. string_bytes word) words.now
        → MatchResult result (Asks all) (IsWrong all) }
{
    match words {
        [] => Err(Wrong::NoPacked),
        [_] => Err(Wrong::NoFolder),
        [file, folder] => Ok(Command::Unpack(file.as_str(), folder.as_str(), 0)),
        [file, folder, base] => {
            let word = base.as_str();
            match address_of(word) {
                Some(address) => Ok(Command::Unpack(file.as_str(), folder.as_str(), address)),
                None => Err(Wrong::Base(word)),
            }
        }
        [_, _, _, extra, ..] => Err(Wrong::Unknown(extra.as_str())),
    }
}

// Returns what `cpio` and these words, which aren't options, ask for.
fn cpio(words: &[String]) -> Result<Command<'_>, Wrong<'_>>
    requires { first_option verbs.Cpio (map (λ word. string_bytes word) words.now) ≡ None }
    ensures { (all : List (List ℕ)) → all ≡ codes "cpio" ∷ map (λ word. string_bytes word) words.now
        → MatchResult result (Asks all) (IsWrong all) }
{
    match words {
        [] => Err(Wrong::NoTables),
        [_] => Err(Wrong::NoArchive),
        [folder, file] => Ok(Command::Cpio(folder.as_str(), file.as_str())),
        [_, _, extra, ..] => Err(Wrong::Unknown(extra.as_str())),
    }
}

// Returns what `lay` and these words after `--rsdp` and an address, or after its own word, ask for.
fn laid(rsdp: Option<u64>, words: &[String]) -> Result<Command<'_>, Wrong<'_>>
    ensures { (all more : List (List ℕ)) → AreAfter verbs.Lay all more
        → IsRest more rsdp (map (λ word. string_bytes word) words.now) → MatchResult result (Asks all) (IsWrong all) }
{
    match words {
        [] => Err(Wrong::NoTables),
        [_] => Err(Wrong::NoImageFile),
        [_, _] => Err(Wrong::NoBase),
        [folder, file, base] => {
            let word = base.as_str();
            match address_of(word) {
                Some(address) => Ok(Command::Lay(rsdp, folder.as_str(), file.as_str(), address)),
                None => Err(Wrong::Base(word)),
            }
        }
        [_, _, _, extra, ..] => Err(Wrong::Unknown(extra.as_str())),
    }
}

// Returns what `lay` and these words, which begin with `--rsdp`, ask for.
fn laid_apart(words: &[String]) -> Result<Command<'_>, Wrong<'_>>
    requires first { begins_with (codes "--rsdp") (map (λ word. string_bytes word) words.now) ≡ true }
    ensures { (all : List (List ℕ)) → AreAfter verbs.Lay all (map (λ word. string_bytes word) words.now)
        → MatchResult result (Asks all) (IsWrong all) }
{
    match words {
        [] | [_] => Err(Wrong::NoPointer),
        [_, address, rest @ ..] => {
            let word = address.as_str();
            match address_of(word) {
                Some(rsdp) => laid(Some(rsdp), rest),
                None => Err(Wrong::Base(word)),
            }
        }
    }
}

// Returns what `lay` and these words, which aren't options but `--rsdp`, ask for.
fn lay(words: &[String]) -> Result<Command<'_>, Wrong<'_>>
    requires { first_option verbs.Lay (map (λ word. string_bytes word) words.now) ≡ None }
    ensures { (all : List (List ℕ)) → all ≡ codes "lay" ∷ map (λ word. string_bytes word) words.now
        → MatchResult result (Asks all) (IsWrong all) }
{
    if begins_with("--rsdp", words) {
        laid_apart(words)
    } else {
        laid(None, words)
    }
}

// Returns what `loader` and these words, which aren't options, ask for.
fn loader(words: &[String]) -> Result<Command<'_>, Wrong<'_>>
    requires { first_option verbs.Loader (map (λ word. string_bytes word) words.now) ≡ None }
    ensures { (all : List (List ℕ)) → all ≡ codes "loader" ∷ map (λ word. string_bytes word) words.now
        → MatchResult result (Asks all) (IsWrong all) }
{
    match words {
        [] => Err(Wrong::NoTables),
        [_] => Err(Wrong::NoFolder),
        [folder, to] => Ok(Command::Loader(folder.as_str(), to.as_str())),
        [_, _, extra, ..] => Err(Wrong::Unknown(extra.as_str())),
    }
}

// Returns what `repair` and these words, which aren't options, ask for.
fn repair(words: &[String]) -> Result<Command<'_>, Wrong<'_>>
    requires { first_option verbs.Repair (map (λ word. string_bytes word) words.now) ≡ None }
    ensures { (all : List (List ℕ)) → all ≡ codes "repair" ∷ map (λ word. string_bytes word) words.now
        → MatchResult result (Asks all) (IsWrong all) }
{
    match words {
        [] => Err(Wrong::NoDamaged),
        [_] => Err(Wrong::NoTable),
        [name, file] => Ok(Command::Repair(name.as_str(), file.as_str())),
        [_, _, extra, ..] => Err(Wrong::Unknown(extra.as_str())),
    }
}

// Returns what `diff` and these words, which aren't options, ask for.
fn diff(words: &[String]) -> Result<Command<'_>, Wrong<'_>>
    requires { first_option verbs.Diff (map (λ word. string_bytes word) words.now) ≡ None }
    ensures { (all : List (List ℕ)) → all ≡ codes "diff" ∷ map (λ word. string_bytes word) words.now
        → MatchResult result (Asks all) (IsWrong all) }
{
    match words {
        [] => Err(Wrong::NoFirst),
        [_] => Err(Wrong::NoSecond),
        [first, second] => Ok(Command::Diff(first.as_str(), second.as_str())),
        [_, _, extra, ..] => Err(Wrong::Unknown(extra.as_str())),
    }
}

// Returns what `tree` and these words, which aren't options, ask for.
fn tree(words: &[String]) -> Result<Command<'_>, Wrong<'_>>
    requires { first_option verbs.Tree (map (λ word. string_bytes word) words.now) ≡ None }
    ensures { (all : List (List ℕ)) → all ≡ codes "tree" ∷ map (λ word. string_bytes word) words.now
        → MatchResult result (Asks all) (IsWrong all) }
{
    let dot = begins_with("--dot", words);
    match after_option(Verb::Tree, words) {
        [] => Err(Wrong::NoDrawing),
        [file] => Ok(Command::Tree(dot, file.as_str())),
        [_, extra, ..] => Err(Wrong::Unknown(extra.as_str())),
    }
}

// Returns what a command and the words after it ask for.
fn asked(verb: Verb, words: &[String]) -> Result<Command<'_>, Wrong<'_>>
    ensures { (all : List (List ℕ)) → all ≡ word_of verb ∷ map (λ word. string_bytes word) words.now
        → MatchResult result (Asks all) (IsWrong all) }
{
    match first_option(verb, words) {
        Some("--help") => Ok(Command::Help),
        Some("-h") => Ok(Command::Help),
        Some(word) if leads(verb, word) => Err(Wrong::Misplaced(word)),
        Some(word) => Err(Wrong::Unknown(word)),
        None => match verb {
            Verb::Show => show(words),
            Verb::Check => check(words),
            Verb::Image => image(words),
            Verb::Make => make(words),
            Verb::Template => template(words),
            Verb::Disassemble => disassemble(words),
            Verb::Names => names(words),
            Verb::Unpack => unpack(words),
            Verb::Cpio => cpio(words),
            Verb::Lay => lay(words),
            Verb::Loader => loader(words),
            Verb::Repair => repair(words),
            Verb::Diff => diff(words),
            Verb::Tree => tree(words),
        },
    }
}

/// Returns the command that words ask for, without the program's name, or which word is wrong.
pub fn parse(words: &[String]) -> Result<Command<'_>, Wrong<'_>>
    ensures { MatchResult result (Asks (map (λ word. string_bytes word) words.now))
        (IsWrong (map (λ word. string_bytes word) words.now)) }
{
    let [word, rest @ ..] = words else {
        return Err(Wrong::NoCommand);
    };
    match word.as_str() {
        "--help" => Ok(Command::Help),
        "-h" => Ok(Command::Help),
        "help" => Ok(Command::Help),
        "--version" => Ok(Command::Version),
        "show" => asked(Verb::Show, rest),
        "check" => asked(Verb::Check, rest),
        "image" => asked(Verb::Image, rest),
        "make" => asked(Verb::Make, rest),
        "template" => asked(Verb::Template, rest),
        "disassemble" => asked(Verb::Disassemble, rest),
        "names" => asked(Verb::Names, rest),
        "unpack" => asked(Verb::Unpack, rest),
        "cpio" => asked(Verb::Cpio, rest),
        "lay" => asked(Verb::Lay, rest),
        "loader" => asked(Verb::Loader, rest),
        "repair" => asked(Verb::Repair, rest),
        "diff" => asked(Verb::Diff, rest),
        "tree" => asked(Verb::Tree, rest),
        word => Err(Wrong::Unknown(word)),
    }
}
