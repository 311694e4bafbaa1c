//! Canonical text of atoms and of operations, from texts that spell them.

ghost use Rattle.std.specs.Prelude.{◌≡◌, ◌++◌, ◌∷◌, [], true, ℤ, List, flat_map, MatchOption, OnOk, OnErr};
ghost use Rattle.std.specs.Fmt.{signed_decimal};
ghost use Rattle.hist_types.specs.Atoms.{Atom, Value};
ghost use Rattle.hist_types.specs.AtomTokens.{int_value, is_64_bit};
ghost use Rattle.hist_types.specs.Operations.{Mop};
ghost use Rattle.hist_types.specs.CanonicalText.{atom_text, value_text, mop_text, mops_text, kind_text as text_of_kind, value_field_text};
ghost use Rattle.hist_types.specs.Tokens.{is_int};
ghost use Rattle.edn_ops.specs.SourceTexts.{IsAtomText, IsValueText, IsMopText, AreMopTexts, op_text, Writes, front_of_mop, source_byte_text, decimal_spelling, IsLonger};

use crate::atoms::token_kind;
use edn_lex::runs::without_n;
use edn_lex::types::TokenKind;
use hist_types::types::{OpKind, Process};
use itoa::Buffer;
use std::alloc::AllocError;

/// The texts of a micro-operation's key and value, as a source spells them. The value of a read of
/// nil is `nil`.
#[derive(Clone, Copy, Debug)]
pub struct MopText<'a> {
    pub is_write: bool,
    pub key: &'a [u8],
    pub value: &'a [u8],
}

/// The escape of a control byte, which a source may have in a string as it is.
fn escape_of(byte: u8) -> Option<&'static [u8]>
    ensures { MatchOption result (source_byte_text byte ≡ byte ∷ [])
        (λ escape. escape.now ≡ source_byte_text byte) }
{
    match byte {
        8 => Some(b"\\b"),
        b'\t' => Some(b"\\t"),
        b'\n' => Some(b"\\n"),
        12 => Some(b"\\f"),
        b'\r' => Some(b"\\r"),
        _ => None,
    }
}

/// Appends a string with its quotes. Its escapes are canonical already.
fn append_string(out: &mut Vec<u8>, text: &[u8]) -> Result<(), AllocError>
    ensures ok { OnOk result (out.new.items ≡ out.old.items ++ flat_map source_byte_text text.now) }
    ensures err { OnErr result (IsLonger out.new.items out.old.items) }
{
    for byte in text {
        match escape_of(*byte) {
            Some(escape) => out.extend_from_slice(escape)?,
            None => out.push(*byte)?,
        }
    }
    Ok(())
}

/// The decimal text of an integer, by its spelling without the `N`.
fn without_plus(number: &[u8]) -> &[u8]
    ensures { result.now ≡ decimal_spelling number.now }
{
    match number {
        [b'+', digits @ ..] => digits,
        b"-0" => b"0",
        _ => number,
    }
}

/// The decimal text of an integer, by its spelling.
#[tactic(auto, using(crate::proofs::Decimals::decimal_spelled))]
fn decimal_of(text: &[u8]) -> &[u8]
    requires int { is_int text.now ≡ true }
    requires fits { is_64_bit (int_value text.now) ≡ true }
    ensures { result.now ≡ signed_decimal (int_value text.now) }
{
    without_plus(without_n(text))
}

/// Appends the canonical text of an atom or of nil.
fn append_value(out: &mut Vec<u8>, text: &[u8]) -> Result<(), AllocError>
    requires { (value : Value) × IsValueText text.now value }
    ensures ok { Writes (IsValueText text.now) value_text result out.old out.new }
    ensures err { OnErr result (IsLonger out.new.items out.old.items) }
{
    match token_kind(text) {
        TokenKind::Str => append_string(out, text),
        TokenKind::Int => out.extend_from_slice(decimal_of(text)),
        _ => out.extend_from_slice(text),
    }
}

/// The text of a micro-operation before its key.
fn mop_front(is_write: bool) -> &'static [u8]
    ensures { result.now ≡ front_of_mop is_write }
{
    if is_write { b"[:w " } else { b"[:r " }
}

fn append_mop(out: &mut Vec<u8>, mop: MopText) -> Result<(), AllocError>
    requires { (m : Mop) × IsMopText mop m }
    ensures ok { Writes (IsMopText mop.entry) mop_text result out.old out.new }
    ensures err { OnErr result (IsLonger out.new.items out.old.items) }
{
    out.extend_from_slice(mop_front(mop.is_write))?;
    append_value(out, mop.key)?;
    out.extend_from_slice(b" ")?;
    append_value(out, mop.value)?;
    out.extend_from_slice(b"]")
}

fn append_mops(out: &mut Vec<u8>, mops: &[MopText]) -> Result<(), AllocError>
    requires { (ms : List Mop) × AreMopTexts mops.now ms }
    ensures ok { Writes (AreMopTexts mops.now) mops_text result out.old out.new }
    ensures err { OnErr result (IsLonger out.new.items out.old.items) }
{
    out.extend_from_slice(b"[")?;
    let mut gap: &[u8] = b"";
    for mop in mops {
        out.extend_from_slice(gap)?;
        append_mop(out, *mop)?;
        gap = b" ";
    }
    out.extend_from_slice(b"]")
}

fn kind_text(kind: OpKind) -> &'static [u8]
    ensures { result.now ≡ text_of_kind kind }
{
    match kind {
        OpKind::Invoke => b":invoke",
        OpKind::Ok => b":ok",
        OpKind::Fail => b":fail",
        OpKind::Info => b":info",
    }
}

/// Appends the field `:value`, which an invoke and an ok have, and a fail and an info don't.
fn append_value_field(out: &mut Vec<u8>, kind: OpKind, mops: &[MopText]) -> Result<(), AllocError>
    requires { (ms : List Mop) × AreMopTexts mops.now ms }
    ensures ok { Writes (AreMopTexts mops.now) (value_field_text kind) result out.old out.new }
    ensures err { OnErr result (IsLonger out.new.items out.old.items) }
{
    match kind {
        OpKind::Invoke | OpKind::Ok => {
            out.extend_from_slice(b", :value ")?;
            append_mops(out, mops)
        }
        OpKind::Fail | OpKind::Info => Ok(()),
    }
}

fn append_op(
    out: &mut Vec<u8>,
    kind: OpKind,
    process: Process,
    mops: &[MopText],
) -> Result<(), AllocError>
    requires { (ms : List Mop) × AreMopTexts mops.now ms }
    ensures ok { Writes (AreMopTexts mops.now) (op_text kind process) result out.old out.new }
    ensures err { OnErr result (IsLonger out.new.items out.old.items) }
{
    out.extend_from_slice(b"{:type ")?;
    out.extend_from_slice(kind_text(kind))?;
    out.extend_from_slice(b", :process ")?;
    out.extend_from_slice(Buffer::new().format(process.number()).as_bytes())?;
    append_value_field(out, kind, mops)?;
    out.extend_from_slice(b"}")
}

/// Appends the canonical text of the atom that a text spells. Out of memory leaves the `Vec` as it
/// was.
///
/// An integer loses its `+` and its `N`, and the control bytes of a string that have an escape are
/// escaped.
pub fn write_atom(out: &mut Vec<u8>, text: &[u8]) -> Result<(), AllocError>
    requires { (atom : Atom) × IsAtomText text.now atom }
    ensures ok { Writes (IsAtomText text.now) atom_text result out.old out.new }
    ensures err { OnErr result (out.new.items ≡ out.old.items) }
{
    let len = out.len();
    let written = append_value(out, text);
    if written.is_err() {
        out.truncate(len);
    }
    written
}

/// Appends the canonical text of an operation. Out of memory leaves the `Vec` as it was.
///
/// A fail and an info are written without micro-operations.
pub fn write_op(
    out: &mut Vec<u8>,
    kind: OpKind,
    process: Process,
    mops: &[MopText],
) -> Result<(), AllocError>
    requires { (ms : List Mop) × AreMopTexts mops.now ms }
    ensures ok { Writes (AreMopTexts mops.now) (op_text kind process) result out.old out.new }
    ensures err { OnErr result (out.new.items ≡ out.old.items) }
{
    let len = out.len();
    let written = append_op(out, kind, process, mops);
    if written.is_err() {
        out.truncate(len);
    }
    written
}
