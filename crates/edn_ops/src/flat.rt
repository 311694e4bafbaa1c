//! Maps as printers write them, read in one pass over their bytes: keys are forms by themselves,
//! and there are no tags, no `#_` and no comments.

ghost use Rattle.std.specs.Prelude.{◌≡◌, ◌≤◌, ◌<◌, ◌+◌, [], List, length, codes, get_or, true, false, Some, Ok, IfSome, IfOk, ℕ};
ghost use Rattle.hist_types.specs.Entries.{is_named};
ghost use Rattle.hist_types.specs.Forms.{Form, plain};
ghost use Rattle.hist_types.specs.Tokens.{Keyword};
ghost use Rattle.edn_lex.specs.declared.ahead.TheConstants.{NUMBER_LOOK};
ghost use Rattle.edn_lex.specs.Ahead.{IsWord, IsLoneAt};
ghost use Rattle.edn_lex.specs.Kinds.{item_of};
ghost use Rattle.edn_ops.specs.declared.flat.TheConstants.{VALUE_LEVELS};
ghost use Rattle.edn_ops.specs.Outlines.{outline_of, IsTokenIn, IsOutlineIn};
ghost use Rattle.edn_ops.specs.Flat.{PassesAhead, NamesKind, NamesOwner, may_have_mops, AreFlat, IsOther, PassesFields, PassesFieldAt, ReadsFlatValue, IsPrintedKind, IsPrintedOwner, IsPrintedValue, IsFrontAt, IsBehindOthers, IsFrontOf, ReadsFields, fields_of, IsShortOperation, GivesFlatMap, ReadsFirstFields, ReadsPlainField, ReadsFlatField, HasReached, place_reached, IsComplete, OpensOperation, GivesFlatEntry};

use crate::atoms::{self, FEW_DIGITS};
use crate::flat_mops::{Mops, flat_members};
use crate::outline::{Outline, bytes_of};
use crate::passing::form_end;
use crate::types::{MopShape, Span};
use edn_lex::ahead::{
    LEVELS_AHEAD, NUMBER_LOOK, behind_comma, behind_space, behind_word, digits_before, form_at,
    has_here, lone_token, map_closer, map_opener, number_at, number_before, tag_token, token_at,
    vector_opener, word_at, word_before,
};
use edn_lex::types::{Token, TokenKind};
use hist_types::limits::MAX_OPERATION_BYTES;
use hist_types::types::{Fault, OpKind, Process};

/// How many collections may be opened one within another in the value of a field.
const VALUE_LEVELS: usize = LEVELS_AHEAD - 1;

/// How many bytes `front_here` may look at, from `start` on: `:type :invoke, :process `, digits and
/// `, :f :txn, :value [`.
const FRONT_LOOK: usize = 43 + FEW_DIGITS;

/// How many bytes `behind_numbers` may look at, from `offset` on: `:index `, a number, `:time ` and
/// a number.
const NUMBERS_LOOK: usize = 16 + 2 * NUMBER_LOOK;

/// Whose operation a map is.
#[derive(Clone, Copy)]
pub(crate) enum Owner {
    Client(Process),
    /// No client's: its process is no integer.
    NoClient,
}

/// Up to where the fields of a map were read.
#[derive(Clone, Copy)]
pub(crate) enum Reached {
    /// The end of a field, or the front of the map.
    End(usize),
    /// The opener of the transaction that is the value of `:value`.
    Opener(Token),
}

/// What the fields of a map say so far.
#[derive(Clone, Copy)]
pub(crate) struct FlatFields {
    kind: Option<OpKind>,
    owner: Option<Owner>,
    has_value: bool,
}

/// What a map says before its transaction.
#[derive(Clone, Copy)]
struct Front {
    kind: OpKind,
    process: Process,
    /// Where the members of the transaction begin.
    members: usize,
}

impl Front {
    /// What the fields before the transaction say.
    fn fields(self) -> FlatFields
        ensures { result ≡ fields_of self }
    {
        FlatFields {
            kind: Some(self.kind),
            owner: Some(Owner::Client(self.process)),
            has_value: true,
        }
    }
}

/// A client's operation, without its micro-operations.
#[derive(Clone, Copy)]
pub(crate) struct FlatOperation {
    pub(crate) span: Span,
    pub(crate) kind: OpKind,
    pub(crate) process: Process,
}

/// What a map gives.
#[derive(Clone, Copy)]
pub(crate) enum FlatEntry {
    Operation(FlatOperation),
    /// An operation that is skipped, by the map's end.
    Skipped(usize),
}

/// Whose operation a map is, by the value of its `:process`; none where the integer is no process.
fn owner_of(text: &[u8], value: Outline) -> Option<Owner>
    requires { IsOutlineIn text.now value }
    ensures { IfSome result (NamesOwner (outline_of text.now value)) }
{
    match value.integer() {
        Some(number) => {
            let process = atoms::process_of(bytes_of(text, number))?;
            Some(Owner::Client(process))
        }
        None => Some(Owner::NoClient),
    }
}

/// The token that begins here, if it is the kind of an operation.
#[inline(always)]
fn kind_at(text: &[u8], start: usize) -> Option<(OpKind, Token)>
    requires { start ≤ length text.now }
    ensures lone { IfSome result (λ found. IsLoneAt text.now start found.1) }
    ensures kind { IfSome result (NamesKind text.now) }
    ensures fits { IfSome result (λ found. found.1.end ≤ length text.now) }
{
    match *text.get(start + 1)? {
        b'o' => {
            let token = word_at(text, start, b":ok", TokenKind::Keyword)?;
            Some((OpKind::Ok, token))
        }
        b'f' => {
            let token = word_at(text, start, b":fail", TokenKind::Keyword)?;
            Some((OpKind::Fail, token))
        }
        _ => {
            if let Some(token) = word_at(text, start, b":invoke", TokenKind::Keyword) {
                return Some((OpKind::Invoke, token));
            }
            let token = word_at(text, start, b":info", TokenKind::Keyword)?;
            Some((OpKind::Info, token))
        }
    }
}

/// The kind, and where its name ends, if `:type` and `:invoke` or `:ok` are printed here with a
/// comma after them.
#[inline(always)]
fn printed_kind(text: &[u8], start: usize) -> Option<(OpKind, usize)>
    requires { start + 14 ≤ length text.now }
    ensures kind { IfSome result (IsPrintedKind text.now start) }
    ensures near { IfSome result (λ found. found.1 ≤ start + 13) }
{
    if has_here(text, start, b":type :invoke,") {
        return Some((OpKind::Invoke, start + 13));
    }
    if has_here(text, start, b":type :ok,") {
        return Some((OpKind::Ok, start + 9));
    }
    None
}

/// The process, and where its number ends, if `:process` and an integer of few digits are printed
/// after the comma here, with a comma after them.
#[inline(always)]
fn printed_owner(text: &[u8], comma: usize) -> Option<(Process, usize)>
    requires { comma + 11 + FEW_DIGITS < length text.now }
    ensures owner { IfSome result (IsPrintedOwner text.now comma) }
    ensures near { IfSome result (λ found. found.1 ≤ comma + 11 + FEW_DIGITS) }
{
    if !has_here(text, comma, b", :process ") {
        return None;
    }
    let start = comma + 11;
    let (len, process) = atoms::process_ahead(&text[start..])?;
    let number = digits_before(text, start, len, b',')?;
    Some((process, number.end))
}

/// Where `:f :txn` ends, if it is printed after the comma here with a comma after it, or else this
/// offset.
#[inline(always)]
fn behind_txn(text: &[u8], comma: usize) -> usize
    requires { comma + 10 ≤ length text.now }
    ensures passes { PassesFields text.now comma result }
    ensures near { result ≤ comma + 9 }
{
    if has_here(text, comma, b", :f :txn,") {
        comma + 9
    } else {
        comma
    }
}

/// Where the members of a transaction begin, if `:value` and the transaction's opener are printed
/// after the comma here.
#[inline(always)]
fn printed_opener(text: &[u8], comma: usize) -> Option<usize>
    requires { comma + 10 ≤ length text.now }
    ensures value { IfSome result (IsPrintedValue text.now comma) }
    ensures near { IfSome result (λ members. members ≤ comma + 10) }
{
    if has_here(text, comma, b", :value [") {
        Some(comma + 10)
    } else {
        None
    }
}

/// What a map says that begins with `:type`, `:process` and `:value`, and where the members of its
/// transaction begin, if these fields are printed here, with `:invoke` or `:ok` and an integer of
/// few digits, perhaps with `:f :txn` before `:value`, and bytes enough come after it.
#[inline(always)]
fn front_here(text: &[u8], start: usize) -> Option<Front>
    requires { start ≤ length text.now }
    ensures { IfSome result (IsFrontAt text.now start) }
{
    if text.len() - start < FRONT_LOOK {
        return None;
    }
    let (kind, kind_end) = printed_kind(text, start)?;
    let (process, owner_end) = printed_owner(text, kind_end)?;
    let members = printed_opener(text, behind_txn(text, owner_end))?;
    Some(Front {
        kind,
        process,
        members,
    })
}

/// Where a map's fields after `:index` and `:time` begin, as far as these are printed here, or else
/// the offset.
#[inline(always)]
fn behind_index(text: &[u8], offset: usize) -> usize
    requires { offset ≤ length text.now }
    ensures { IsBehindOthers text.now offset result }
{
    match text.get(offset + 1) {
        Some(b'i') => behind_comma(text, behind_numbers(text, offset)),
        _ => offset,
    }
}

/// What a map says whose fields begin at the offset, if it begins as `front_here` has it, perhaps
/// with `:index` and `:time` first.
#[inline(always)]
fn map_front(text: &[u8], offset: usize) -> Option<Front>
    requires { offset ≤ length text.now }
    ensures { IfSome result (IsFrontOf text.now offset) }
{
    let front = front_here(text, behind_index(text, offset))?;
    Some(front)
}

/// Passes over a value, and returns where it ends, if it can be read in this way. Often it is
/// `:txn` or a number.
#[inline(always)]
fn passed_value(text: &[u8], offset: usize) -> Option<usize>
    requires { offset ≤ length text.now }
    ensures { PassesAhead text.now VALUE_LEVELS offset result }
{
    let start = behind_word(text, offset);
    if let Some(token) = word_at(text, start, b":txn", TokenKind::Keyword) {
        return Some(token.end);
    }
    if let Some(number) = number_at(text, start) {
        return Some(number.end);
    }
    form_end(text, token_at(text, start)?, VALUE_LEVELS)
}

impl FlatFields {
    const fn new() -> FlatFields
        ensures { AreFlat result [] [] }
    {
        FlatFields {
            kind: None,
            owner: None,
            has_value: false,
        }
    }

    /// Reads the first value of `:type`, and returns where it ends, if it can be read in this way.
    #[inline(always)]
    fn read_kind(&mut self, text: &[u8], offset: usize) -> Option<usize>
        requires { offset ≤ length text.now }
        ensures { ReadsFlatValue text.now offset (codes ":type") self.old result self.new }
    {
        if self.kind.is_some() {
            return None;
        }
        let (kind, token) = kind_at(text, behind_word(text, offset))?;
        self.kind = Some(kind);
        Some(token.end)
    }

    /// Reads the first value of `:process`, and returns where it ends, if it can be read in this
    /// way.
    #[inline(always)]
    fn read_owner(&mut self, text: &[u8], offset: usize) -> Option<usize>
        requires { offset ≤ length text.now }
        ensures { ReadsFlatValue text.now offset (codes ":process") self.old result self.new }
    {
        if self.owner.is_some() {
            return None;
        }
        let token = lone_token(text, offset)?;
        let owner = owner_of(text, Outline::Plain(token))?;
        self.owner = Some(owner);
        Some(token.end)
    }

    /// Whose operation it is, as far as it is known.
    #[inline(always)]
    fn owner(&self) -> Option<Owner>
        ensures { result ≡ self.now.owner }
    {
        self.owner
    }

    /// Whether the operation may have a transaction, by what its kind is so far.
    #[inline(always)]
    fn may_have_mops(self) -> bool
        ensures { result ≡ may_have_mops self.kind }
    {
        !matches!(self.kind, Some(OpKind::Fail | OpKind::Info))
    }

    /// The kind, if a transaction was read exactly if it has one.
    #[inline(always)]
    fn complete_kind(&self) -> Option<OpKind>
        ensures { IfSome result (IsComplete self.now) }
    {
        let kind = self.kind?;
        if self.has_value == self.may_have_mops() {
            Some(kind)
        } else {
            None
        }
    }
}

/// The key that begins here, if it is this one.
#[inline(always)]
fn key_at(text: &[u8], start: usize, name: &[u8]) -> Option<Token>
    requires start { start ≤ length text.now }
    requires name { IsWord name.now Keyword }
    ensures lone { IfSome result (IsLoneAt text.now start) }
    ensures named { IfSome result (λ key. is_named name.now (plain (item_of text.now key)) ≡ true) }
    ensures fits { IfSome result (λ key. key.end ≤ length text.now) }
{
    word_at(text, start, name, TokenKind::Keyword)
}

/// The key that begins here, if it is this one with a space after it, in a text with more bytes.
#[inline(always)]
fn printed_key(text: &[u8], start: usize, name: &[u8]) -> Option<Token>
    requires room { start + length name.now < length text.now }
    requires name { IsWord name.now Keyword }
    ensures lone { IfSome result (IsLoneAt text.now start) }
    ensures named { IfSome result (λ key. is_named name.now (plain (item_of text.now key)) ≡ true) }
    ensures end { IfSome result (λ key. key.end ≡ start + length name.now) }
    ensures space { IfSome result (λ key. get_or text.now key.end 0 ≡ 32) }
{
    word_before(text, start, name, TokenKind::Keyword, b' ')
}

/// Where the field with this key and an integer of few digits ends, if it is printed here with a
/// comma after it.
#[inline(always)]
fn number_field(text: &[u8], start: usize, name: &[u8]) -> Option<usize>
    requires room { start + length name.now + NUMBER_LOOK < length text.now }
    requires name { IsWord name.now Keyword }
    requires other { (key : Form) → is_named name.now key ≡ true → IsOther key }
    ensures passes { IfSome result (PassesFieldAt text.now start) }
    ensures comma { IfSome result (λ end. get_or text.now end 0 ≡ 44) }
    ensures few { IfSome result (λ end. end < start + length name.now + 1 + NUMBER_LOOK) }
{
    let key = printed_key(text, start, name)?;
    let number = number_before(text, key.end + 1, b',')?;
    Some(number.end)
}

/// Where `:index` and `:time` end, as far as they are printed here, or else the offset.
#[inline(always)]
fn behind_numbers(text: &[u8], offset: usize) -> usize
    requires { offset ≤ length text.now }
    ensures passes { PassesFields text.now offset result }
    ensures within { result ≤ length text.now }
{
    if text.len() - offset < NUMBERS_LOOK {
        return offset;
    }
    let Some(index) = number_field(text, offset, b":index") else {
        return offset;
    };
    number_field(text, behind_space(text, index + 1), b":time").unwrap_or(index)
}

/// Whether a key names a field that says nothing.
fn is_other(text: &[u8], key: Token) -> bool
    requires { IsTokenIn text.now key }
    ensures { result ≡ true → IsOther (plain (item_of text.now key)) }
{
    let name = Outline::Plain(key);
    !name.is_named(text, b":type")
        && !name.is_named(text, b":process")
        && !name.is_named(text, b":value")
}

/// The key that begins here, if it is a form by itself, and names a field that says nothing. Jepsen
/// prints three such fields.
#[inline(always)]
fn other_key(text: &[u8], start: usize) -> Option<Token>
    requires { start ≤ length text.now }
    ensures lone { IfSome result (IsLoneAt text.now start) }
    ensures name { IfSome result (λ key. IsOther (plain (item_of text.now key))) }
    ensures fits { IfSome result (λ key. key.end ≤ length text.now) }
{
    if let Some(key) = key_at(text, start, b":index") {
        return Some(key);
    }
    if let Some(key) = key_at(text, start, b":time") {
        return Some(key);
    }
    if let Some(key) = key_at(text, start, b":f") {
        return Some(key);
    }
    any_other_key(text, start)
}

/// The key that begins here, if it is a form by itself, and names a field that says nothing,
/// whichever it is.
#[inline(never)]
fn any_other_key(text: &[u8], start: usize) -> Option<Token>
    requires { start ≤ length text.now }
    ensures lone { IfSome result (IsLoneAt text.now start) }
    ensures name { IfSome result (λ key. IsOther (plain (item_of text.now key))) }
    ensures fits { IfSome result (λ key. key.end ≤ length text.now) }
{
    let key = form_at(text, start)?;
    if is_other(text, key) { Some(key) } else { None }
}

/// Passes over a field that says nothing, and returns where it ends, if it can be read in this way.
#[inline(always)]
fn other_field(text: &[u8], start: usize) -> Option<usize>
    requires { start ≤ length text.now }
    ensures { (fields : FlatFields) → ReadsPlainField text.now start fields result fields }
{
    let key = other_key(text, start)?;
    passed_value(text, key.end)
}

/// Reads the field that begins here, if it can be read in this way, a transaction only up to its
/// opener. The letter after its key's colon tells which name the key may be.
#[inline(always)]
fn flat_field(text: &[u8], start: usize, fields: &mut FlatFields) -> Option<Reached>
    requires { start ≤ length text.now }
    ensures { ReadsFlatField text.now start fields.old result fields.new }
{
    match text.get(start + 1) {
        Some(b't') => {
            if let Some(key) = key_at(text, start, b":type") {
                return Some(Reached::End(fields.read_kind(text, key.end)?));
            }
        }
        Some(b'p') => {
            if let Some(key) = key_at(text, start, b":process") {
                return Some(Reached::End(fields.read_owner(text, key.end)?));
            }
        }
        Some(b'v') => {
            if let Some(key) = key_at(text, start, b":value") {
                if !fields.may_have_mops() {
                    return Some(Reached::End(passed_value(text, key.end)?));
                }
                if fields.has_value {
                    return None;
                }
                let opener = vector_opener(text, key.end)?;
                fields.has_value = true;
                return Some(Reached::Opener(opener));
            }
        }
        _ => {}
    }
    Some(Reached::End(other_field(text, start)?))
}

/// Where the fields that were reached end. If they reach a transaction's opener, the transaction is
/// first read into the empty list; none if it can't be read in this way.
#[inline(always)]
fn end_of(text: &[u8], reached: Reached, mops: &mut Mops) -> Result<Option<usize>, Fault>
    requires { place_reached reached ≤ length text.now }
    ensures reads { (offset : ℕ) (fields : FlatFields)
        → HasReached text.now offset fields mops.old.items reached
        → ReadsFirstFields text.now offset result fields mops.new.items }
    ensures further { IfOk result (λ found. IfSome found (λ end. place_reached reached ≤ end)) }
    ensures within { IfOk result (λ found. IfSome found (λ end. end ≤ length text.now)) }
{
    match reached {
        Reached::Opener(opener) => flat_members(text, opener.end, mops),
        Reached::End(end) => Ok(Some(end)),
    }
}

/// Reads the rest of a map's fields from here on, and returns where they end, if all can be read in
/// this way.
fn flat_map(
    text: &[u8],
    start: usize,
    fields: &mut FlatFields,
    mops: &mut Mops,
) -> Result<Option<usize>, Fault>
    requires { start ≤ length text.now }
    ensures { (offset : ℕ) (pairs : List (Form × Form))
        → ReadsFields text.now offset pairs fields.old mops.old.items start
        → GivesFlatMap text.now offset result fields.new mops.new.items }
{
    let mut reached = Reached::End(start);
    loop {
        let Some(at) = end_of(text, reached, mops)? else {
            return Ok(None);
        };
        let next = behind_comma(text, at);
        if let Some(closer) = map_closer(text, next) {
            return Ok(Some(closer.end));
        }
        match flat_field(text, next, fields) {
            Some(further) => reached = further,
            None => return Ok(None),
        }
    }
}

/// The opener of a map, if it is the next token, or the one after a tag.
#[inline(always)]
pub(crate) fn operation_opener(text: &[u8], offset: usize) -> Option<Token>
    requires { offset ≤ length text.now }
    ensures opens { IfSome result (OpensOperation text.now offset) }
    ensures fits { IfSome result (λ token. token.end ≤ length text.now) }
{
    match map_opener(text, offset) {
        Some(opener) => Some(opener),
        None => map_opener(text, tag_token(text, offset)?.end),
    }
}

/// A client's operation, if it isn't too long.
#[inline(always)]
fn operation_of(start: usize, end: usize, kind: OpKind, process: Process) -> Option<FlatEntry>
    ensures { IfSome result (IsShortOperation start end kind process) }
{
    if end.saturating_sub(start) > MAX_OPERATION_BYTES {
        return None;
    }
    Some(FlatEntry::Operation(FlatOperation {
        span: Span { start, end },
        kind,
        process,
    }))
}

/// What a map gives that begins at `start`, and whose fields were read up to `at`, if the rest can
/// be read in this way.
#[inline(never)]
fn other_entry(
    text: &[u8],
    start: usize,
    at: usize,
    front: FlatFields,
    mops: &mut Mops,
) -> Result<Option<FlatEntry>, Fault>
    requires { at ≤ length text.now }
    ensures { (opener : Token) (pairs : List (Form × Form)) → opener.start ≡ start
        → ReadsFields text.now opener.end pairs front mops.old.items at
        → GivesFlatEntry text.now opener result mops.new }
{
    let mut fields = front;
    let Some(end) = flat_map(text, at, &mut fields, mops)? else {
        return Ok(None);
    };
    let Some(owner) = fields.owner() else {
        return Ok(None);
    };
    match owner {
        Owner::Client(process) => {
            let Some(kind) = fields.complete_kind() else {
                return Ok(None);
            };
            Ok(operation_of(start, end, kind, process))
        }
        Owner::NoClient => Ok(Some(FlatEntry::Skipped(end))),
    }
}

/// What a map gives after this opener, if it can be read in this way. Its micro-operations are read
/// into the empty list.
#[inline(always)]
pub(crate) fn flat_entry(
    text: &[u8],
    opener: Token,
    mops: &mut Mops,
) -> Result<Option<FlatEntry>, Fault>
    requires opener { opener.end ≤ length text.now }
    requires empty { mops.old.items ≡ [] }
    ensures { GivesFlatEntry text.now opener result mops.new }
{
    let Some(front) = map_front(text, opener.end) else {
        // Unwrapped and wrapped again, so that the frequent result needn't go through memory.
        let entry = other_entry(text, opener.start, opener.end, FlatFields::new(), mops)?;
        return Ok(entry);
    };
    let Some(end) = flat_members(text, front.members, mops)? else {
        return Ok(None);
    };
    let Some(closer) = map_closer(text, end) else {
        let entry = other_entry(text, opener.start, end, front.fields(), mops)?;
        return Ok(entry);
    };
    Ok(operation_of(opener.start, closer.end, front.kind, front.process))
}
