//! The fields of an operation's map, gathered as its members come.

ghost use Rattle.std.specs.Prelude.{◌≡◌, ℕ, List, [], ◌∷◌, ◌++◌, ◌-◌, ◌<◌, true, false, Option, IfOk};
ghost use Rattle.hist_types.specs.Entries.{the_one, transaction_of, mops_of, entry_of, end_of, kind_of as kind_of_form, client_operation as client_entry};
ghost use Rattle.hist_types.specs.Forms.{Form, place_of};
ghost use Rattle.hist_types.specs.Tokens.{Item};
ghost use Rattle.edn_ops.specs.Outlines.{outline, outline_of, IsOutlineIn, IsIntIn, number_of};
ghost use Rattle.edn_ops.specs.Fields.{IsField, IsFieldIn, AddsField, KeepsFieldIn, IsTheOne, shapes_result, Gathers, AreFieldsIn, awaits, AddsTransaction, KeepsFieldsIn, AddsMember, GivesEntry, GivesOperation, GivesMops};

use crate::atoms;
use crate::faults::fault_at;
use crate::outline::{Outline, bytes_of};
use crate::types::{MopShape, OpShape, Span};
use edn_lex::types::Token;
use hist_types::limits::MAX_OPERATION_BYTES;
use hist_types::types::{Fault, OpKind, Refusal};
use std::alloc::Global;

/// The fields of one name in a map: the value of the first, and where the key of the second begins.
#[derive(Clone, Copy)]
pub(crate) struct Field {
    value: Option<Outline>,
    second: Option<usize>,
}

impl Field {
    #[inline(always)]
    const fn new() -> Field
        ensures field { (text : List ℕ) → IsField text result [] }
        ensures within { (text : List ℕ) → IsFieldIn text result }
    {
        Field {
            value: None,
            second: None,
        }
    }

    /// Adds one more field of the name, by the offset of its key and by its value.
    #[inline(always)]
    fn add(&mut self, place: usize, value: Outline)
        ensures field { AddsField self.old place value self.new }
        ensures within { KeepsFieldIn self.old value self.new }
    {
        if self.value.is_none() {
            self.value = Some(value);
        } else if self.second.is_none() {
            self.second = Some(place);
        }
    }

    /// The value of the one field of the name, in a map that begins at `start`.
    #[inline(always)]
    fn the_one(self, start: usize) -> Result<Outline, Fault>
        ensures one { IsTheOne self start result }
        ensures within { (text : List ℕ) → IsFieldIn text self → IfOk result (IsOutlineIn text) }
    {
        match (self.value, self.second) {
            (None, _) => Err(fault_at(Refusal::MissingField, start)),
            (Some(_), Some(place)) => { Err(fault_at(Refusal::DuplicateField, place)) }
            (Some(value), None) => Ok(value),
        }
    }
}

/// The kind of operation that the value of `:type` names.
pub(crate) fn kind_of(text: &[u8], value: Outline) -> Option<OpKind>
    requires { IsOutlineIn text.now value }
    ensures { result ≡ kind_of_form (outline_of text.now value) }
{
    if value.is_named(text, b":invoke") {
        Some(OpKind::Invoke)
    } else if value.is_named(text, b":ok") {
        Some(OpKind::Ok)
    } else if value.is_named(text, b":fail") {
        Some(OpKind::Fail)
    } else if value.is_named(text, b":info") {
        Some(OpKind::Info)
    } else {
        None
    }
}

/// The fields of a map, as far as its members have been gathered.
#[derive(Drop)]
pub(crate) struct Fields {
    /// The key that has no value yet.
    key: Option<Outline>,
    kind: Field,
    process: Field,
    value: Field,
    /// The micro-operations of the first value of `:value`, or the fault that makes it no
    /// transaction.
    transaction: Result<Vec<MopShape>, Fault>,
}

impl Fields {
    #[inline(always)]
    pub(crate) fn new(alloc: Global) -> Fields
        ensures fields { (text : List ℕ) → Gathers text result [] }
        ensures within { (text : List ℕ) → AreFieldsIn text result }
    {
        Fields {
            key: None,
            kind: Field::new(),
            process: Field::new(),
            value: Field::new(),
            transaction: Ok(Vec::new(alloc)),
        }
    }

    /// Whether the next member is the value of the first `:value`, whose transaction is to be read.
    #[inline(always)]
    pub(crate) fn awaits_transaction(&self, text: &[u8]) -> bool
        requires { AreFieldsIn text.now self.now }
        ensures { result ≡ awaits text.now self.now }
    {
        match self.key {
            Some(key) => { key.is_named(text, b":value") && self.value.value.is_none() }
            None => false,
        }
    }

    /// Gathers the value of the first `:value`, with its micro-operations or their fault.
    #[inline(always)]
    pub(crate) fn add_transaction(
        &mut self,
        value: Outline,
        transaction: Result<Vec<MopShape>, Fault>,
    )
        ensures fields { AddsTransaction self.old value (shapes_result transaction) self.new }
        ensures within { KeepsFieldsIn self.old value self.new }
    {
        self.key = None;
        self.value.value = Some(value);
        self.transaction = transaction;
    }

    /// Gathers any other member.
    #[inline(always)]
    pub(crate) fn add(&mut self, text: &[u8], member: Outline)
        requires fields { AreFieldsIn text.now self.old }
        requires member { IsOutlineIn text.now member }
        ensures fields { AddsMember text.now self.old member self.new }
        ensures within { AreFieldsIn text.now self.new }
    {
        let Some(key) = self.key else {
            self.key = Some(member);
            return;
        };
        self.key = None;
        if key.is_named(text, b":type") {
            self.kind.add(key.place(), member);
        } else if key.is_named(text, b":process") {
            self.process.add(key.place(), member);
        } else if key.is_named(text, b":value") {
            self.value.add(key.place(), member);
        }
    }

    /// What the map gives once it is closed: an operation, or none where it is skipped.
    #[inline(always)]
    pub(crate) fn entry(
        self,
        alloc: Global,
        text: &[u8],
        span: Span,
    ) -> Result<Option<OpShape>, Fault>
        requires { AreFieldsIn text.now self }
        ensures { GivesEntry text.now self span result }
    {
        if self.key.is_some() {
            return Err(fault_at(Refusal::OddMap, span.start));
        }
        let process = self.process.the_one(span.start)?;
        let Some(number) = process.integer() else {
            return Ok(None);
        };
        let shape = self.client_operation(alloc, text, span, number)?;
        Ok(Some(shape))
    }

    /// The operation, by the integer that is the value of its `:process`.
    #[inline(always)]
    fn client_operation(
        self,
        alloc: Global,
        text: &[u8],
        span: Span,
        number: Token,
    ) -> Result<OpShape, Fault>
        requires fields { AreFieldsIn text.now self }
        requires number { IsIntIn text.now number }
        ensures { GivesOperation text.now self span number result }
    {
        let Some(process) = atoms::process_of(bytes_of(text, number)) else {
            return Err(fault_at(Refusal::BadProcess, number.start));
        };
        if span.end.saturating_sub(span.start) > MAX_OPERATION_BYTES {
            return Err(fault_at(Refusal::TooLong, span.start));
        }
        let value = self.kind.the_one(span.start)?;
        let Some(kind) = kind_of(text, value) else {
            return Err(fault_at(Refusal::BadType, value.place()));
        };
        let mops = self.mops(alloc, kind, span.start)?;
        Ok(OpShape {
            span,
            kind,
            process,
            mops,
        })
    }

    /// The micro-operations of an operation of this kind, whose map begins at `start`.
    #[inline(always)]
    fn mops(self, alloc: Global, kind: OpKind, start: usize) -> Result<Vec<MopShape>, Fault>
        ensures { GivesMops self kind start (shapes_result result) }
    {
        match kind {
            OpKind::Invoke | OpKind::Ok => {
                self.value.the_one(start)?;
                self.transaction
            }
            OpKind::Fail | OpKind::Info => Ok(Vec::new(alloc)),
        }
    }
}
