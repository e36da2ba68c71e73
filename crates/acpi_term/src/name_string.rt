//! Names, and how many arguments they take.

ghost use Rattle.std.specs.Prelude.{◌≡◌, ◌≢◌, ◌++◌, ◌∷◌, [], ℕ, List, true, false, if◌then◌else◌, OnOk, IfOk, IfErr};
ghost use Rattle.std.specs.Cmp.Lexicographic.{pointwise};
ghost use Rattle.std.specs.Bool.{nat_eq};
ghost use Rattle.acpi_term.specs.Held.{held, Holds};
ghost use Rattle.acpi_term.specs.Name.{IsNameString, without_parents};
ghost use Rattle.acpi_term.specs.PathText.{parts, are_standard, path_spelling, is_name_text, are_segments};
ghost use Rattle.acpi_term.specs.PathText.{lead, name_of_segments};
ghost use Rattle.acpi_term.specs.Arity.{is_stated, are_arities, arity, arity_above, arity_in, with_new};
ghost use Rattle.acpi_term.specs.ArityIndex.{Indexes, IsIndexed};
ghost use Rattle.acpi_term.specs.Spelling.{arguments};
ghost use Rattle.std.specs.Cmp.{partial_equiv_from_equiv};
ghost use Rattle.std.specs.Cmp.Lexicographic.{nat_list_eq_equiv};

use crate::arity_index::ArityIndex;
use crate::language::Language;
use crate::mode::Mode;
use crate::path_text::{path_bytes, split_root};
use crate::read_error::ReadError;
use crate::segment::{begins_up, is_segment};
use acpi_base::error::Error;
use std::alloc::{AllocError, Global};
use std::marker::Model;

/// The bytes of a name. Short names are stored in the value itself, so most names take no memory.
#[derive(Debug, Drop)]
pub(crate) enum NameBytes {
    Few(u8, [u8; 14]),
    Many(Box<Vec<u8>>),
}

/// A name, as the bytes that spell it (ACPI 6.5, 20.2.2, NameString).
#[derive(Debug, Drop)]
pub struct NameString {
    spelling: NameBytes,
}

impl Model for NameString {
    ghost Value = { List ℕ };

    ghost view = { λ name. held name.spelling };

    ghost invariant = { λ name. Holds name.spelling × IsNameString (held name.spelling) };
}

impl NameString {
    /// The name of a text: an optional `\`, and then 1 to 255 standard segments with dots between them. The error is `NameText`
    /// for any other text.
    #[tactic(auto, using(crate::proofs::NameTexts::no_name, crate::proofs::NameTexts::nonstandard, crate::proofs::NameTexts::is_name, crate::proofs::NameTexts::is_text,))]
    pub fn new(alloc: Global, text: &str) -> Result<NameString, ReadError>
        ensures ok { IfOk result (λ name. name ≡ path_spelling text.now) }
        ensures standard { OnOk result (is_name_text text.now ≡ true) }
        ensures err { IfErr result (λ e. e ≢ ReadError.Memory → (e ≡ ReadError.NameText) × (is_name_text text.now ≡ false)) }
    {
        let (_, rest) = split_root(text.as_bytes());
        if !are_standard(rest) {
            return Err(ReadError::NameText);
        }
        match path_bytes(alloc, text) {
            Ok(bytes) => Ok(name_of(alloc, &bytes)?),
            Err(Error::Memory) => Err(ReadError::Memory),
            Err(_) => Err(ReadError::NameText),
        }
    }

    /// The name of these segments, from the root or without it. Bytes that aren't 1 to 255 standard segments have none.
    #[tactic(auto, using(crate::proofs::NameTexts::segments_name))]
    pub fn of_segments(
        alloc: Global,
        from_root: bool,
        segments: &[u8],
    ) -> Result<Option<NameString>, AllocError>
        ensures { IfOk result (λ name. name ≡ name_of_segments from_root segments.now) }
    {
        let count = segments.len() / 4;
        if count == 0 || count > 255 || !are_segments(segments) {
            return Ok(None);
        }
        let bytes = spelled(alloc, from_root, count as u8, segments)?;
        Ok(Some(name_of(alloc, &bytes)?))
    }

    /// The bytes that spell the name.
    pub fn as_bytes(&self) -> &[u8]
        ensures bytes { result.now ≡ self.now }
        ensures name { IsNameString self.now }
    {
        match &self.spelling {
            NameBytes::Few(count, bytes) => &bytes[..usize::from(*count)],
            NameBytes::Many(bytes) => bytes,
        }
    }
}

/// The name that these bytes spell.
pub fn name_of(alloc: Global, spelling: &[u8]) -> Result<NameString, AllocError>
    requires { IsNameString spelling.now }
    ensures { IfOk result (λ name. name ≡ spelling.now) }
{
    let spelling = hold(alloc, spelling)?;
    Ok(NameString { spelling })
}

fn hold(alloc: Global, bytes: &[u8]) -> Result<NameBytes, AllocError>
    ensures { IfOk result (λ name. Holds name × (held name ≡ bytes.now)) }
{
    if bytes.len() > 14 {
        let bytes = Vec::from_slice(alloc, bytes)?;
        return Ok(NameBytes::Many(Box::new(alloc, bytes)?));
    }
    let mut few = [0; 14];
    few[..bytes.len()].copy_from_slice(bytes);
    Ok(NameBytes::Few(bytes.len() as u8, few))
}

// Returns whether bytes are standard segments, one after the other.
fn are_segments(bytes: &[u8]) -> bool
    ensures { result ≡ are_segments bytes.now }
{
    let mut rest = bytes;
    'segments: while let [a, b, c, d, more @ ..] = rest {
        if !is_segment(*a, *b, *c, *d) {
            return false;
        }
        rest = more;
    }
    rest.is_empty()
}

// Returns the bytes of the name of so many segments.
fn spelled(
    alloc: Global,
    from_root: bool,
    count: u8,
    segments: &[u8],
) -> Result<Vec<u8>, AllocError>
    ensures { IfOk result (λ bytes. bytes.items ≡ (if from_root then 0x5c ∷ [] else []) ++ (lead count ++ segments.now)) }
{
    let mut bytes = Vec::new(alloc);
    if from_root {
        bytes.push(0x5c)?;
    }
    match count {
        1 => {}
        2 => bytes.push(0x2e)?,
        _ => bytes.extend_from_slice(&[0x2f, count])?,
    }
    bytes.extend_from_slice(segments)?;
    Ok(bytes)
}

/// Names are equal if their bytes are.
impl PartialEq for NameString {
    ghost eq = { pointwise nat_eq };

    ghost laws = { partial_equiv_from_equiv nat_list_eq_equiv };

    fn eq(&self, other: &NameString) -> bool {
        self.as_bytes() == other.as_bytes()
    }
}

/// Whether all parts between the dots are standard segments.
#[tactic(auto, using(crate::proofs::NameTexts::short, crate::proofs::NameTexts::other, crate::proofs::NameTexts::long))]
fn are_standard(text: &[u8]) -> bool
    ensures { result ≡ are_standard (parts text.now) }
{
    let mut rest = text;
    while let [a, b, c, d, tail @ ..] = rest {
        if !is_segment(*a, *b, *c, *d) {
            return false;
        }
        let Some((x, more)) = tail.split_first() else {
            return true;
        };
        if *x != 0x2e {
            return false;
        }
        rest = more;
    }
    false
}

/// How many arguments each name takes. The bytes of AML don't contain this.
///
/// The first `add` makes an index of the names, and so does `copy`. With it, adding a name and looking one up compare as many
/// names as the logarithm of their number. Without it, a look-up goes over all of them.
#[derive(Debug, Drop)]
pub struct Arities {
    counts: Vec<(NameString, u8)>,
    index: Option<ArityIndex>,
}

impl Model for Arities {
    ghost Value = { List (List ℕ × ℕ) };

    ghost view = { λ arities. arities.counts.items };

    ghost invariant = { λ arities. IsIndexed arities.index arities.counts.items };
}

impl Arities {
    /// The argument counts of names. The error is `Arity` if a name is there twice, or a number is more than 7. It takes no
    /// memory, and compares each name with those after it.
    pub fn new(counts: Vec<(NameString, u8)>) -> Result<Arities, ReadError>
        ensures ok { IfOk result (λ arities. arities ≡ counts.items) }
        ensures fit { OnOk result (are_arities counts.items ≡ true) }
        ensures err { IfErr result (λ e. (e ≡ ReadError.Arity) × (are_arities counts.items ≡ false)) }
    {
        if are_arities(&counts) {
            let index = None;
            Ok(Arities { counts, index })
        } else {
            Err(ReadError::Arity)
        }
    }

    /// How many arguments a name takes. A name that isn't listed takes none.
    pub fn count_of(&self, name: &[u8]) -> u8
        ensures { result ≡ arity self.now name.now }
    {
        count_by(&self.index, &self.counts, name)
    }

    /// How many arguments a name takes that may begin with `^`: what is stated for it, or what is for the name without them.
    #[tactic(auto, using(crate::proofs::ArityIndexes::as_it_is))]
    pub fn count_above(&self, name: &[u8]) -> u8
        ensures { result ≡ arity_above self.now name.now }
    {
        if begins_up(name) && !self.states(name) {
            return self.count_of(without_parents(name));
        }
        self.count_of(name)
    }

    /// How many arguments a name of a language takes.
    pub fn count_in(&self, language: Language, name: &[u8]) -> u8
        ensures { result ≡ arity_in language self.now name.now }
    {
        match language {
            Language::Written => self.count_of(name),
            Language::Standard => self.count_above(name),
        }
    }

    /// Whether the list states a number for a name.
    pub fn states(&self, name: &[u8]) -> bool
        ensures { result ≡ is_stated self.now name.now }
    {
        states(&self.index, &self.counts, name)
    }

    /// A copy of the list.
    pub fn copy(&self, alloc: Global) -> Result<Arities, AllocError>
        ensures { IfOk result (λ arities. arities ≡ self.now) }
    {
        let counts = copied(alloc, &self.counts)?;
        let index = Some(ArityIndex::of(alloc, &counts)?);
        let copy = Arities { counts, index };
        Ok(copy)
    }

    /// Adds how many arguments a name takes, unless the list states it already.
    pub fn add(&mut self, name: NameString, count: u8) -> Result<(), AllocError>
        ensures { OnOk result (self.new ≡ with_new self.old (name, count)) }
    {
        add(&mut self.counts, &mut self.index, name, count)
    }

    /// The allocator of the list.
    pub fn allocator(&self) -> Global {
        *self.counts.allocator()
    }
}

/// The bytes of a name without the ParentPrefixChars before it (ACPI 6.5, 20.2.2).
pub fn without_parents(name: &[u8]) -> &[u8]
    ensures { result.now ≡ without_parents name.now }
{
    let mut rest = name;
    'parents: while let [0x5e, more @ ..] = rest {
        rest = more;
    }
    rest
}

/// How many arguments follow a name of a language in this place.
pub fn arguments(language: Language, arities: &Arities, mode: Mode, name: &[u8]) -> u8
    ensures { result ≡ arguments (arity_in language arities.now) mode name.now }
{
    match mode {
        Mode::Term | Mode::Count | Mode::Searched | Mode::Acquired | Mode::Released => {
            arities.count_in(language, name)
        }
        Mode::Element | Mode::FirstTest | Mode::SecondTest | Mode::Timeout => 0,
    }
}

// The index that there is, or a new one.
fn indexed(
    alloc: Global,
    counts: &[(NameString, u8)],
    index: Option<ArityIndex>,
) -> Result<ArityIndex, AllocError>
    requires { IsIndexed index counts.now }
    ensures { IfOk result (λ index. Indexes index counts.now) }
{
    match index {
        Some(index) => Ok(index),
        None => ArityIndex::of(alloc, counts),
    }
}

// Adds the number of a name to a list and its index, unless the list states it already.
fn push_new(
    counts: &mut Vec<(NameString, u8)>,
    index: &mut ArityIndex,
    name: NameString,
    count: u8,
) -> Result<(), AllocError>
    requires { Indexes index.now counts.now.items }
    ensures added { OnOk result (counts.new.items ≡ with_new counts.old.items (name, count)) }
    ensures indexed { OnOk result (Indexes index.new counts.new.items) }
{
    if index.add(*counts.allocator(), name.as_bytes(), count)? {
        counts.push((name, count))?;
    }
    Ok(())
}

// The same, where the index may have to be made. If memory runs out, the list is left without one.
fn add(
    counts: &mut Vec<(NameString, u8)>,
    index: &mut Option<ArityIndex>,
    name: NameString,
    count: u8,
) -> Result<(), AllocError>
    requires { IsIndexed index.now counts.now.items }
    ensures added { OnOk result (counts.new.items ≡ with_new counts.old.items (name, count)) }
    ensures indexed { IsIndexed index.new counts.new.items }
{
    let mut all = indexed(*counts.allocator(), counts, index.take())?;
    push_new(counts, &mut all, name, count)?;
    *index = Some(all);
    Ok(())
}

fn copied(alloc: Global, counts: &[(NameString, u8)]) -> Result<Vec<(NameString, u8)>, AllocError>
    ensures { IfOk result (λ copies. copies.items ≡ counts.now) }
{
    let mut copies = Vec::with_capacity(alloc, counts.len())?;
    'counts: for (name, count) in counts {
        copies.push((name_of(alloc, name.as_bytes())?, *count))?;
    }
    Ok(copies)
}

// Whether a number is stated for a name, by the index if there is one.
fn states(index: &Option<ArityIndex>, counts: &[(NameString, u8)], name: &[u8]) -> bool
    requires { IsIndexed index.now counts.now }
    ensures { result ≡ is_stated counts.now name.now }
{
    match index {
        Some(index) => index.find(name).is_some(),
        None => is_stated(counts, name),
    }
}

// How many arguments a name takes, by the index if there is one.
fn count_by(index: &Option<ArityIndex>, counts: &[(NameString, u8)], name: &[u8]) -> u8
    requires { IsIndexed index.now counts.now }
    ensures { result ≡ arity counts.now name.now }
{
    match index {
        Some(index) => index.find(name).unwrap_or(0),
        None => count_of(counts, name),
    }
}

fn count_of(counts: &[(NameString, u8)], name: &[u8]) -> u8
    ensures { result ≡ arity counts.now name.now }
{
    for (stated, count) in counts {
        if stated.as_bytes() == name {
            return *count;
        }
    }
    0
}

fn is_stated(counts: &[(NameString, u8)], name: &[u8]) -> bool
    ensures { result ≡ is_stated counts.now name.now }
{
    for (stated, _) in counts {
        if stated.as_bytes() == name {
            return true;
        }
    }
    false
}

fn are_arities(counts: &[(NameString, u8)]) -> bool
    ensures { result ≡ are_arities counts.now }
{
    let mut rest = counts;
    while let Some(((name, count), others)) = rest.split_first() {
        if *count > 7 || is_stated(others, name.as_bytes()) {
            return false;
        }
        rest = others;
    }
    true
}
