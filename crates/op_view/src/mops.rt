//! Micro-operations, and the iterator over those of an operation.

ghost use Rattle.std.specs.Prelude.{◌≡◌, ◌≤◌, true, length, take, Some, IfSome};
ghost use Rattle.std.specs.Bool.{OnTrue};
ghost use Rattle.std.specs.Iterator.{YieldsFirst, item_count, at_most, UpTo};
ghost use Rattle.std.specs.Iterator.SizeHint.{IsWithinCount};
ghost use Rattle.std.specs.Cmp.Lexicographic.{pointwise};
ghost use Rattle.std.specs.Simd.Lanes.{mask_l, zip2};
ghost use Rattle.hist_types.specs.Atoms.{atom_eq};
ghost use Rattle.hist_types.specs.Journal.{same_mop};
ghost use Rattle.hist_types.specs.Operations.{read, write};
ghost use Rattle.edn_ops.specs.Shapes.{is_write};
ghost use Rattle.edn_ops.specs.SourceTexts.{IsMopText, IsValueText};
ghost use Rattle.op_block.specs.MopTexts.{key_bytes, value_bytes, behind, atom_in, is_nil, mop_at as mop_of_text, mops_at, IsAtom, IsMopAt, AreMopsAt};
ghost use Rattle.op_view.specs.Mops.{is_other, key_of, value_of, written_len};

use crate::atom::Atom;
use edn_ops::write::MopText;
use op_block::shapes::ShortMop;
use std::iter::ExactSizeIterator;
use std::marker::Model;
use std::simd::prelude::*;

/// The text of the value of a read of nil.
const NIL: &[u8] = b"nil";

/// A micro-operation: a read of a key with what it returned, nil or an atom, or a write of an atom
/// to a key. It has the texts of both.
///
/// A text is parsed each time it is asked for as an atom.
#[derive(Drop)]
pub struct Mop<'a> {
    text: MopText<'a>,
}

impl<'a> Model for Mop<'a> {
    ghost use Rattle.hist_types.specs.Operations.{Mop as AMop};
    ghost use Rattle.hist_types.specs.Stored.{coded_mop};

    ghost Value = { AMop };

    ghost coded = { coded_mop };

    ghost use Rattle.edn_ops.specs.SourceTexts.{IsMopText};
    ghost use Rattle.op_block.specs.MopTexts.{mop_by};

    ghost view = { λ m. mop_by m.text };

    ghost invariant = { λ m. IsMopText m.text (mop_by m.text) };
}

/// The text of what a read returned. None is nil.
fn value_text<'a>(value: Option<Atom<'a>>) -> &'a [u8]
    ensures { IsValueText result.now value.entry }
{
    match value {
        None => NIL,
        Some(atom) => atom.text(),
    }
}

impl<'a> Mop<'a> {
    /// A read of a key that returned this value. None is nil.
    pub fn r(key: Atom<'a>, value: Option<Atom<'a>>) -> Self
        ensures { result ≡ read key.entry value.entry }
    {
        let text = MopText {
            is_write: false,
            key: key.text(),
            value: value_text(value),
        };
        Mop { text }
    }

    /// A write of a value to a key.
    pub fn w(key: Atom<'a>, value: Atom<'a>) -> Self
        ensures { result ≡ write key.entry value.entry }
    {
        let text = MopText {
            is_write: true,
            key: key.text(),
            value: value.text(),
        };
        Mop { text }
    }

    pub fn is_write(&self) -> bool
        ensures { result ≡ is_write self.now }
    {
        self.text.is_write
    }

    #[inline(always)]
    pub fn key(&self) -> Atom<'a>
        ensures { result ≡ key_of self.now }
    {
        atom_of(self.text.key)
    }

    /// The value that was read or is written. None is nil, which only a read has.
    #[inline(always)]
    pub fn value(&self) -> Option<Atom<'a>>
        ensures { result ≡ value_of self.now }
    {
        if is_nil(self.text.value) {
            None
        } else {
            Some(atom_of(self.text.value))
        }
    }

    /// The texts of the key and of the value, as the source spells them, for canonical text.
    pub fn text(&self) -> MopText<'a>
        ensures { IsMopText result self.now }
    {
        self.text
    }
}

/// The bytes of the key at the front of the text.
#[inline(always)]
fn key_bytes(text: &[u8], lens: ShortMop) -> &[u8]
    requires { IsMopAt text.now lens }
    ensures { result.now ≡ key_bytes text.now lens }
{
    &text[..usize::from(lens.key_len)]
}

/// The bytes of the value after the key at the front of the text.
#[inline(always)]
fn value_bytes(text: &[u8], lens: ShortMop) -> &[u8]
    requires { IsMopAt text.now lens }
    ensures { result.now ≡ value_bytes text.now lens }
{
    let start = usize::from(lens.key_len);
    &text[start..start + usize::from(lens.value_len)]
}

/// What is left of the text after the key and the value at its front.
#[inline(always)]
fn behind(text: &[u8], lens: ShortMop) -> &[u8]
    requires { IsMopAt text.now lens }
    ensures { result.now ≡ behind text.now lens }
{
    &text[usize::from(lens.key_len) + usize::from(lens.value_len)..]
}

/// The atom that the bytes are known to be.
#[inline(always)]
fn atom_of(bytes: &[u8]) -> Atom<'_>
    requires { IsAtom bytes.now }
    ensures { result ≡ atom_in bytes.now }
{
    Atom::of(bytes)
}

/// The micro-operation whose key and value are at the front of the text.
fn mop_at(text: &[u8], lens: ShortMop) -> Mop<'_>
    requires { IsMopAt text.now lens }
    ensures { result ≡ mop_of_text text.now lens }
{
    let text = MopText {
        is_write: lens.is_write,
        key: key_bytes(text, lens),
        value: value_bytes(text, lens),
    };
    Mop { text }
}

/// Whether the text of a value is that of nil.
#[inline(always)]
fn is_nil(text: &[u8]) -> bool
    ensures { result ≡ is_nil text.now }
{
    matches!(text, [b'n', b'i', b'l'])
}

/// How many bytes of two texts are compared at once.
const WORD: usize = 16;

/// A bit for each of the first 16 bytes in which the two texts differ, the lowest for the first.
#[inline(always)]
fn other_of_16(a: &[u8], b: &[u8]) -> u64
    requires first { WORD ≤ length a.now }
    requires second { WORD ≤ length b.now }
    ensures { result ≡ mask_l (zip2 is_other (take WORD a.now) (take WORD b.now)) }
{
    u8x16::from_slice(a)
        .simd_ne(u8x16::from_slice(b))
        .to_bitmask()
}

/// How many of the first 16 bytes come before the first in which the two texts differ.
#[inline(always)]
fn same_of_16(a: &[u8], b: &[u8]) -> usize
    requires first { WORD ≤ length a.now }
    requires second { WORD ≤ length b.now }
    ensures { take result a.now ≡ take result b.now }
{
    let bits = other_of_16(a, b);
    if bits == 0 {
        WORD
    } else {
        bits.trailing_zeros() as usize
    }
}

/// Whether the first `len` bytes of both texts are the same. Only the last operations of a block
/// have texts of few bytes.
#[inline(always)]
fn begin_alike(a: &[u8], b: &[u8], len: usize) -> bool
    requires first { len ≤ length a.now }
    requires second { len ≤ length b.now }
    ensures { OnTrue result (take len a.now ≡ take len b.now) }
{
    if a.len() < WORD || b.len() < WORD {
        a[..len] == b[..len]
    } else {
        len <= same_of_16(a, b)
    }
}

/// How many bytes the value of a write has, and 0 for a read: what it returned counts for nothing.
#[inline(always)]
fn written_len(mop: ShortMop) -> usize
    ensures { result ≡ written_len mop }
{
    if mop.is_write {
        usize::from(mop.value_len)
    } else {
        0
    }
}

/// Whether two texts are the same atom. Equal texts are, and only others are parsed.
fn is_same_atom(a: &[u8], b: &[u8]) -> bool
    requires first { IsAtom a.now }
    requires second { IsAtom b.now }
    ensures { result ≡ atom_eq (atom_in a.now) (atom_in b.now) }
{
    a == b || atom_of(a) == atom_of(b)
}

/// Whether the micro-operations at the fronts of their texts are the same, whatever a read
/// returned.
fn is_same_mop(text: &[u8], mop: ShortMop, other_text: &[u8], other: ShortMop) -> bool
    requires first { IsMopAt text.now mop }
    requires second { IsMopAt other_text.now other }
    ensures { result ≡ same_mop (mop_of_text text.now mop) (mop_of_text other_text.now other) }
{
    if !is_same_atom(key_bytes(text, mop), key_bytes(other_text, other)) {
        return false;
    }
    match (mop.is_write, other.is_write) {
        (false, false) => true,
        (true, true) => is_same_atom(value_bytes(text, mop), value_bytes(other_text, other)),
        _ => false,
    }
}

/// Whether the keys at the fronts of their texts, and of two writes the values, have the same
/// bytes. Then the micro-operations are the same.
#[inline(always)]
fn has_same_texts(text: &[u8], mop: ShortMop, other_text: &[u8], other: ShortMop) -> bool
    requires first { IsMopAt text.now mop }
    requires second { IsMopAt other_text.now other }
    ensures { OnTrue result
        (same_mop (mop_of_text text.now mop) (mop_of_text other_text.now other) ≡ true) }
{
    let value_len = written_len(mop);
    if mop.is_write != other.is_write
        || mop.key_len != other.key_len
        || value_len != written_len(other)
    {
        return false;
    }
    begin_alike(text, other_text, usize::from(mop.key_len) + value_len)
}

/// Whether the micro-operations of both texts are the same, one for one, whatever reads returned.
#[inline(never)]
fn are_same_mops(text: &[u8], mops: &[ShortMop], other_text: &[u8], other_mops: &[ShortMop]) -> bool
    requires first { AreMopsAt text.now mops.now }
    requires second { AreMopsAt other_text.now other_mops.now }
    ensures { result
        ≡ pointwise same_mop (mops_at text.now mops.now) (mops_at other_text.now other_mops.now) }
{
    if mops.len() != other_mops.len() {
        return false;
    }
    let (mut left, mut right) = (text, other_text);
    for (mop, other_mop) in mops.iter().zip(other_mops) {
        if !is_same_mop(left, *mop, right, *other_mop) {
            return false;
        }
        left = behind(left, *mop);
        right = behind(right, *other_mop);
    }
    true
}

/// Gives the micro-operations of an operation one after the other, as slices of its text. It takes
/// no memory.
#[derive(Drop)]
pub struct Mops<'a> {
    text: &'a [u8],
    left: &'a [ShortMop],
}

impl<'a> Model for Mops<'a> {
    ghost use Rattle.std.specs.Prelude.{List};
    ghost use Rattle.std.specs.Coded.{coded_list};
    ghost use Rattle.hist_types.specs.Operations.{Mop as AMop};
    ghost use Rattle.hist_types.specs.Stored.{coded_mop};

    ghost Value = { List AMop };

    ghost coded = { coded_list coded_mop };

    ghost use Rattle.op_block.specs.MopTexts.{mops_at, AreMopsAt};

    ghost view = { λ m. mops_at m.text.now m.left.now };

    ghost invariant = { λ m. AreMopsAt m.text.now m.left.now };
}

impl<'a> Mops<'a> {
    /// The micro-operations of a text, whose keys and values have these lengths.
    pub(crate) fn new(text: &'a [u8], left: &'a [ShortMop]) -> Self
        requires { AreMopsAt text.now left.now }
        ensures { result ≡ mops_at text.now left.now }
    {
        Mops { text, left }
    }

    /// Whether these micro-operations and the others are the same, one for one, whatever reads
    /// returned. Mostly their texts show it.
    pub fn matches(&self, other: &Mops) -> bool
        ensures { result ≡ pointwise same_mop self.now other.now }
    {
        if self.left.len() != other.left.len() {
            return false;
        }
        let (mut left, mut right) = (self.text, other.text);
        for (mop, other_mop) in self.left.iter().zip(other.left) {
            if !has_same_texts(left, *mop, right, *other_mop) {
                return are_same_mops(self.text, self.left, other.text, other.left);
            }
            left = behind(left, *mop);
            right = behind(right, *other_mop);
        }
        true
    }
}

impl<'a> Iterator for Mops<'a> {
    type Item = Mop<'a>;

    ghost next_gives = { YieldsFirst (λ left. left) };

    ghost remaining = { item_count (λ left. left) };

    fn next(&mut self) -> Option<Mop<'a>> {
        let (first, others) = self.left.split_first()?;
        let mop = mop_at(self.text, *first);
        self.text = behind(self.text, *first);
        self.left = others;
        Some(mop)
    }

    fn size_hint(&self) -> (usize, Option<usize>)
        ensures lower { IsWithinCount result.0 (at_most (length self.now)) }
        ensures upper { IfSome result.1 (UpTo (at_most (length self.now))) }
        ensures exact { result ≡ (length self.now, Some (length self.now)) }
    {
        let len = self.left.len();
        (len, Some(len))
    }
}

impl ExactSizeIterator for Mops<'_> {
    fn len(&self) -> usize {
        self.left.len()
    }
}
