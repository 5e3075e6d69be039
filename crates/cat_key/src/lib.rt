//! The names of a catalogue, in the words in which persistent memory keeps them.
//!
//! A name has 1 to 24 bytes, each printable and no space. Contracts see a `Name` as the list of its bytes; it is kept
//! as three words, the bytes big-endian and padded with zeros, so that comparing words compares names.
#![tactic(auto)]

ghost use Rattle.std.specs.Prelude.{◌≡◌, ℕ, ◌*◌, ◌<◌, ◌≤◌, ◌↔◌, List, [], length, IsOk, IfOk, IsErrOf, IsSome, IsNone};
ghost use Rattle.std.specs.Prelude.{IfSome, Some, All, slice_index, ◌++◌, OnOk};
ghost use Rattle.cat_key.specs.Faults.{name_fault_text, bad_byte_text};
ghost use Rattle.cat_key.specs.Names.{IsName, IsNameByte, IsFirstBad, AreNameWords, name_cmp, words_of, all_bytes};
ghost use Rattle.cat_key.specs.Names.{before_zero, fingerprint_of, WordsKeepOrder, WordsTellNames};
ghost use Rattle.std.proofs.Common.{ap, refl, sym};
ghost use Rattle.std.proofs.lemmas.Cmp.{nat_list_eq_equiv, nat_list_cmp_total};
ghost use Rattle.std.specs.Cmp.{partial_equiv_from_equiv};
ghost use Rattle.std.specs.Cmp.Lexicographic.{same_text, texts_po, texts_ties};
ghost use Rattle.std.specs.Fmt.{WritesOnOk, styled_text};
ghost use Rattle.std.specs.Ordering.{as_partial_cmp};
ghost use Rattle.std.specs.Str.{bytes_eq, IsUtf8};

use std::alloc::AllocError;
use std::cmp::Ordering;
use std::error::Error;
use std::fmt;
use std::marker::Model;

/// How many words a name takes: its bytes, eight to a word.
pub const WORDS: usize = 3;

/// The longest name, in bytes.
const MAX_LEN: usize = 8 * WORDS;

/// Why a text is no name.
#[derive(Clone, Copy, Debug, PartialEq, Eq)]
pub enum NameFault {
    /// It has no byte.
    Empty,
    /// It has more bytes than a name may have: this many.
    Long { len: usize },
    /// The first byte that no name may have, and its place from 0.
    Byte { at: usize, byte: u8 },
}

impl Error for NameFault {}

impl fmt::Display for NameFault {
    ghost output = { λ fault. Some (name_fault_text fault) };

    fn fmt<W: fmt::Write>(&self, f: &mut fmt::Formatter<W>) -> fmt::Result {
        match self {
            NameFault::Empty => write!(f, "a name has at least one byte"),
            NameFault::Long { len } => write!(f, "a name has at most {MAX_LEN} bytes, not {len}"),
            NameFault::Byte { at, byte } => write_bad_byte(f, *at, *byte),
        }
    }
}

fn write_bad_byte<W: fmt::Write>(f: &mut fmt::Formatter<W>, at: usize, byte: u8) -> fmt::Result
    ensures { WritesOnOk W.write_str_gives f.old result (bad_byte_text at byte) f.new }
{
    write!(f, "byte {at} is 0x{byte:02x}, which no name has")
}

/// A name: 1 to 24 bytes, each from 0x21 to 0x7E.
///
/// Names are compared byte by byte, and a proper prefix is smaller.
#[derive(Clone, Copy)]
pub struct Name {
    words: [u64; WORDS],
}

impl Model for Name {
    ghost use Rattle.std.specs.Prelude.{ℕ, List};
    ghost use Rattle.std.proofs.Common.{ap};
    ghost use Rattle.cat_key.specs.Names.{words_of, bytes_of, IsPacked};

    ghost Value = { List ℕ };

    ghost view = { λ name. bytes_of name.words };

    ghost invariant = { λ name. IsPacked name.words };

    ghost inverse = { λ text. record { words = words_of text } };

    ghost inverse_ok = { λ name h. ap (λ (words : List ℕ). record { words = words }) h.whole };
}

impl Name {
    /// Reads a text as a name.
    ///
    /// A text with several faults is reported as `Empty` or `Long` before `Byte`.
    pub fn read(text: &[u8]) -> Result<Name, NameFault>
        ensures named { IsOk result ↔ IsName text.now }
        ensures same { IfOk result (λ name. name ≡ text.now) }

        // Each fault has its one cause.
        ensures empty { IsErrOf result NameFault.Empty ↔ (text.now ≡ []) }
        ensures long { (len : ℕ) → IsErrOf result (NameFault.Long len)
            ↔ ((8 * WORDS < length text.now) × (len ≡ length text.now)) }
        ensures byte { (at byte : ℕ) → IsErrOf result (NameFault.Byte at byte)
            ↔ ((length text.now ≤ 8 * WORDS) × IsFirstBad text.now at byte) }
    {
        if text.is_empty() {
            return Err(NameFault::Empty);
        }
        if text.len() > MAX_LEN {
            return Err(NameFault::Long { len: text.len() });
        }
        if let Some(at) = first_bad(text) {
            return Err(NameFault::Byte { at, byte: text[at] });
        }
        Ok(Name {
            words: packed(text),
        })
    }

    /// The words in which the name is kept.
    pub fn words(&self) -> [u64; WORDS]
        ensures words { result ≡ words_of self.now }
        ensures name { IsName self.now }
    {
        self.words
    }

    /// The name that is kept in these words, or `None` where none is.
    pub fn of_words(words: [u64; WORDS]) -> Option<Name>
        ensures some { IsSome result ↔ AreNameWords words }
        ensures name { IfSome result IsName }
        ensures words { IfSome result (λ name. words_of name ≡ words) }
    {
        let name = Name::read(text_in(&unpacked(&words))).ok()?;
        (name.words == words).then_some(name)
    }

    /// The name whose words these are.
    pub fn kept_in(words: [u64; WORDS]) -> Name
        requires { AreNameWords words }
        ensures { words_of result ≡ words }
    {
        Name { words }
    }

    /// How many bytes the name has: at least 1.
    pub fn len(&self) -> usize
        ensures len { result ≡ length self.now }
        ensures name { IsName self.now }
    {
        text_in(&unpacked(&self.words)).len()
    }

    /// The byte at a place, counted from 0.
    pub fn byte(&self, at: usize) -> u8
        requires { at < length self.now }
        ensures { result ≡ slice_index self.now at }
    {
        byte_in(&self.words, at)
    }

    /// Appends the name's bytes to a text.
    pub fn append_to(&self, text: &mut Vec<u8>) -> Result<(), AllocError>
        ensures { OnOk result (text.new.items ≡ text.old.items ++ self.now) }
    {
        text.extend_from_slice(text_in(&unpacked(&self.words)))
    }

    /// A hint of one byte by which most other names can be told apart from this one.
    pub fn fingerprint(&self) -> u8
        ensures { result ≡ fingerprint_of self.now }
    {
        // The zeros past the name's end add nothing.
        let bytes = unpacked(&self.words);
        let mut sum = 0;
        for (at, byte) in bytes.iter().enumerate() {
            sum += (2 * at + 1) * usize::from(*byte);
        }
        (sum % 256) as u8
    }
}

impl fmt::Display for Name {
    ghost output = { λ name. Some name };

    ghost styled_output = { λ name spec. Some (styled_text spec name) };

    fn fmt<W: fmt::Write>(&self, f: &mut fmt::Formatter<W>) -> fmt::Result {
        f.pad(as_str(text_in(&unpacked(&self.words))))
    }
}

impl fmt::Debug for Name {
    fn fmt<W: fmt::Write>(&self, f: &mut fmt::Formatter<W>) -> fmt::Result {
        write!(f, "Name({self})")
    }
}

impl PartialEq for Name {
    ghost eq = { bytes_eq };

    ghost laws = { partial_equiv_from_equiv nat_list_eq_equiv };

    fn eq(&self, other: &Name) -> bool {
        self.words == other.words
    }
}

impl Eq for Name {
    ghost laws = { nat_list_eq_equiv };
}

impl PartialOrd for Name {
    ghost partial_cmp = { as_partial_cmp name_cmp };

    ghost laws = { texts_po };

    fn partial_cmp(&self, other: &Name) -> Option<Ordering> {
        Some(self.cmp(other))
    }
}

impl Ord for Name {
    ghost cmp = { name_cmp };

    ghost total = { nat_list_cmp_total };

    ghost matches_partial_cmp = { λ x y. refl };

    ghost matches_eq = { texts_ties };

    // Comparing the words compares the bytes, eight at a time.
    fn cmp(&self, other: &Name) -> Ordering {
        self.words.cmp(&other.words)
    }
}

/// A name with its number: what maps and scans are lists of.
#[derive(Clone, Copy, Debug, PartialEq, Eq)]
pub struct Pair {
    pub name: Name,
    pub value: u64,
}

/// Names compare as their words do, and no two names have the same words.
pub fn law_of_words()
    ensures order { WordsKeepOrder }
    ensures distinct { WordsTellNames }
{}

/// The place of the first byte that no name may have.
fn first_bad(text: &[u8]) -> Option<usize>
    ensures none { IsNone result → All IsNameByte text.now }
    ensures within { IfSome result (λ at. at < length text.now) }
    ensures first { IfSome result (λ at. IsFirstBad text.now at (slice_index text.now at)) }
{
    text.iter().position(|byte| !byte.is_ascii_graphic())
}

/// The words of a text: its bytes big-endian, padded with zeros.
fn packed(text: &[u8]) -> [u64; WORDS]
    requires { length text.now ≤ 8 * WORDS }
    ensures { result ≡ words_of text.now }
{
    let mut words = [0; WORDS];
    for (at, byte) in text.iter().enumerate() {
        words[at / 8] += u64::from(*byte) << (8 * (7 - at % 8));
    }
    words
}

/// The byte of a row of words at a place, big-endian.
fn byte_in(words: &[u64; WORDS], at: usize) -> u8
    requires { at < 8 * WORDS }
    ensures { result ≡ slice_index (all_bytes words.now) at }
{
    words[at / 8].to_be_bytes()[at % 8]
}

/// The bytes of a row of words, big-endian.
fn unpacked(words: &[u64; WORDS]) -> [u8; MAX_LEN]
    ensures { result ≡ all_bytes words.now }
{
    let mut bytes = [0; MAX_LEN];
    for (at, byte) in bytes.iter_mut().enumerate() {
        *byte = byte_in(words, at);
    }
    bytes
}

/// The bytes before the first zero.
fn text_in(bytes: &[u8]) -> &[u8]
    ensures { result.now ≡ before_zero bytes.now }
{
    &bytes[..text_len(bytes)]
}

/// How many bytes stand before the first zero.
fn text_len(bytes: &[u8]) -> usize
    ensures { result ≡ length (before_zero bytes.now) }
{
    bytes.iter().take_while(|byte| **byte != 0).count()
}

/// The same bytes as a `str`.
fn as_str(text: &[u8]) -> &str
    requires { IsUtf8 text.now }
    ensures { result.now ≡ text.now }
{
    str::from_utf8(text).unwrap()
}
