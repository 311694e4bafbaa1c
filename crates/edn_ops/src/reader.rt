//! The operations of a text, one after the other.

ghost use Rattle.std.specs.Prelude.{◌≡◌, ◌≢◌, ◌+◌, ◌≤◌, ◌<◌, [], length, true, false, Option, IfOk, IfSome};
ghost use Rattle.hist_types.specs.Reading.{Reads, ReadsFrom};
ghost use Rattle.hist_types.specs.Forms.{is_map};
ghost use Rattle.edn_lex.specs.declared.types.TokenKind.TheVariants.{Open};
ghost use Rattle.edn_lex.specs.Kinds.{item_of};
ghost use Rattle.edn_ops.specs.Reader.{reader_at_start, reader_at, LeavesAll, LeavesOnly, FailsAgain, NextOf, FlatNext, found_in};
ghost use Rattle.edn_ops.specs.Flat.{result_with};
ghost use Rattle.edn_ops.specs.Outlines.{begins_sequence};
ghost use Rattle.edn_ops.specs.Places.{NextOp, FlatOp};
ghost use Rattle.edn_ops.specs.Shapes.{IsShapeIn};

use crate::faults::fault_at;
use crate::flat::{FlatEntry, FlatOperation, flat_entry, operation_opener};
use crate::flat_mops::Mops;
use crate::forms::next_member;
use crate::maps::read_map;
use crate::marks::{closes, opens};
use crate::types::OpShape;
use edn_lex::lexer::Lexer;
use edn_lex::types::Token;
use hist_types::types::{Fault, Refusal};
use std::alloc::Global;
use std::marker::Model;

/// Where a reader is in its text, between two operations.
#[derive(Drop)]
pub(crate) struct Place<'a> {
    pub(crate) lexer: Lexer<'a>,
    /// The opener of the vector or list that is open at the top level.
    pub(crate) list: Option<Token>,
    /// How many operations were skipped.
    pub(crate) skipped: u64,
}

/// Whether the token is the opener of a map.
fn opens_map(text: &[u8], token: Token) -> bool
    requires low { token.start < token.end }
    requires fits { token.end ≤ length text.now }
    ensures yes { result ≡ true → token.kind ≡ Open }
    ensures map { result ≡ true → is_map (item_of text.now token) ≡ true }
    ensures no { result ≡ false → token.kind ≡ Open → is_map (item_of text.now token) ≡ false }
{
    opens(token) && &text[token.start..token.end] == b"{".as_slice()
}

/// Whether the token is the opener of a vector or list.
fn opens_list(text: &[u8], token: Token) -> bool
    requires low { token.start < token.end }
    requires fits { token.end ≤ length text.now }
    ensures yes { result ≡ true → token.kind ≡ Open }
    ensures list { result ≡ true → begins_sequence text.now token ≡ true }
    ensures no { result ≡ false → token.kind ≡ Open → begins_sequence text.now token ≡ false }
{
    if !opens(token) {
        return false;
    }
    let bytes = &text[token.start..token.end];
    bytes == b"[".as_slice() || bytes == b"(".as_slice()
}

/// Counts one more skipped operation. There are fewer of them than bytes up to the end of its
/// opener.
fn with_one_more(skipped: u64, opener: Token) -> u64
    requires { skipped < opener.end }
    ensures { result ≡ skipped + 1 }
{
    skipped + 1
}

impl<'a> Place<'a> {
    /// A copy of the place.
    fn copy(&self) -> Place<'a>
        ensures { result ≡ self.now }
    {
        Place {
            lexer: self.lexer.copy(),
            list: self.list,
            skipped: self.skipped,
        }
    }

    /// The next operation, if it and the operations that are skipped before it are maps that can be
    /// read in one pass, perhaps after tags. Its micro-operations are read into the empty list.
    /// Otherwise, and out of memory, the place stays the same.
    #[inline(always)]
    fn flat_op(&mut self, mops: &mut Mops) -> Result<Option<FlatOperation>, Fault>
        requires skipped { self.old.skipped ≤ self.old.lexer.offset }
        requires empty { mops.old.items ≡ [] }
        ensures { FlatOp self.old (result_with mops.new result) self.new }
    {
        let Some(start) = self.lexer.ahead() else {
            return Ok(None);
        };
        let text = self.lexer.text();
        let mut offset = start;
        let mut skipped = self.skipped;
        while let Some(opener) = operation_opener(text, offset) {
            match flat_entry(text, opener, mops)? {
                Some(FlatEntry::Operation(operation)) => {
                    self.lexer.jump(operation.span.end);
                    self.skipped = skipped;
                    return Ok(Some(operation));
                }
                Some(FlatEntry::Skipped(end)) => {
                    mops.clear();
                    offset = end;
                    skipped = with_one_more(skipped, opener);
                }
                None => return Ok(None),
            }
        }
        Ok(None)
    }

    /// The next operation, or none at the text's end. After a fault the place is of no use.
    fn next_op(&mut self, alloc: Global) -> Result<Option<OpShape>, Fault>
        requires { self.old.skipped ≤ self.old.lexer.offset }
        ensures next { NextOp self.old result self.new }
        ensures few { IfOk result (λ _. self.new.skipped ≤ self.new.lexer.offset) }
    {
        while let Some(member) = next_member(&mut self.lexer)? {
            let text = self.lexer.text();
            let token = member.token;
            if closes(token) {
                self.list = None;
                continue;
            }
            if self.list.is_none() && opens_list(text, token) {
                self.list = Some(token);
                continue;
            }
            if !opens_map(text, token) {
                return Err(fault_at(Refusal::NotAMap, token.start));
            }
            if let Some(shape) = read_map(alloc, &mut self.lexer, text, token)? {
                return Ok(Some(shape));
            }
            self.skipped = with_one_more(self.skipped, token);
        }
        match self.list {
            Some(opener) => Err(fault_at(Refusal::Unclosed, opener.start)),
            None => Ok(None),
        }
    }
}

/// Reads the operations of a text in EDN as Jepsen prints it: maps at the top level, or directly in
/// a vector or list there.
///
/// It keeps nothing of the text but the micro-operations of the operation that it is at. Operations
/// whose process is no integer are skipped.
#[derive(Drop)]
pub struct OpReader<'a> {
    alloc: Global,
    place: Place<'a>,
    failed: Option<Fault>,
    /// Whether the text's end has been reached.
    ended: bool,
}

impl<'a> Model for OpReader<'a> {
    ghost use Rattle.std.specs.Prelude.{◌≤◌};
    ghost use Rattle.edn_ops.specs.Places.{IsReadUpTo};
    ghost use Rattle.edn_ops.specs.Reader.{Reader};

    ghost Value = { Reader };

    ghost view = { λ r. record {
      state = r.place.lexer;
      list = r.place.list;
      failed = r.failed;
      skipped = r.place.skipped;
    } };

    ghost invariant = { λ r. (r.place.skipped ≤ r.place.lexer.offset)
        × IsReadUpTo r.place r.ended };
}

impl<'a> OpReader<'a> {
    /// A reader at the start of the text.
    pub fn new(alloc: Global, text: &'a [u8]) -> OpReader<'a>
        ensures start { result ≡ reader_at_start text.now }
        ensures left { LeavesAll (Reads text.now) result }
        ensures reads { LeavesOnly (Reads text.now) result }
    {
        OpReader::at(alloc, text, 0)
    }

    /// A reader that begins at this offset, as if nothing came before it. Offsets count from the
    /// front of the text all the same.
    pub fn at(alloc: Global, text: &'a [u8], offset: usize) -> OpReader<'a>
        requires { offset ≤ length text.now }
        ensures start { result ≡ reader_at text.now offset }
        ensures left { LeavesAll (ReadsFrom offset text.now) result }
        ensures reads { LeavesOnly (ReadsFrom offset text.now) result }
    {
        OpReader {
            alloc,
            place: Place {
                lexer: Lexer::at(text, offset),
                list: None,
                skipped: 0,
            },
            failed: None,
            ended: false,
        }
    }

    /// The next operation, or none at the text's end. A fault ends the reading, and each later call
    /// gives it again; but out of memory (`Memory`) the reader is unchanged, and the call can be
    /// made again.
    pub fn next_op(&mut self) -> Result<Option<OpShape>, Fault>
        ensures again { FailsAgain self.old result self.new }
        ensures next { self.old.failed ≡ None → NextOf self.old result self.new }
        ensures shape { IfOk result (λ found. IfSome found (IsShapeIn self.old.state.text)) }
        ensures text { self.new.state.text ≡ self.old.state.text }
    {
        let mut shape = OpShape::new(self.alloc);
        if self.next_into(&mut shape)? {
            Ok(Some(shape))
        } else {
            Ok(None)
        }
    }

    /// Reads the next operation into a shape that may have been used before, or returns false at
    /// the text's end. After false or a fault the shape is of no use. Faults are those of
    /// `next_op`.
    #[inline(always)]
    pub fn next_into(&mut self, shape: &mut OpShape) -> Result<bool, Fault>
        ensures again { FailsAgain self.old (found_in shape.new result) self.new }
        ensures next { self.old.failed ≡ None → NextOf self.old (found_in shape.new result) self.new }
        ensures shape { IfOk (found_in shape.new result) (λ found.
            IfSome found (IsShapeIn self.old.state.text)) }
        ensures text { self.new.state.text ≡ self.old.state.text }
    {
        shape.mops.clear();
        let Some(operation) = self.flat_op(&mut shape.mops)? else {
            return self.any_into(shape);
        };
        shape.span = operation.span;
        shape.kind = operation.kind;
        shape.process = operation.process;
        Ok(true)
    }

    /// The next operation, whose micro-operations are read into the empty list, if it can be read
    /// in one pass. Else the reader is unchanged.
    #[inline(always)]
    fn flat_op(&mut self, mops: &mut Mops) -> Result<Option<FlatOperation>, Fault>
        requires { mops.old.items ≡ [] }
        ensures { FlatNext self.old (result_with mops.new result) self.new }
    {
        if self.ended || self.failed.is_some() {
            return Ok(None);
        }
        self.place.flat_op(mops)
    }

    /// Reads the next operation into the shape, whatever form it has, or returns false at the
    /// text's end.
    #[inline(never)]
    fn any_into(&mut self, shape: &mut OpShape) -> Result<bool, Fault>
        ensures again { FailsAgain self.old (found_in shape.new result) self.new }
        ensures next { self.old.failed ≡ None → NextOf self.old (found_in shape.new result) self.new }
        ensures shape { IfOk (found_in shape.new result) (λ found.
            IfSome found (IsShapeIn self.old.state.text)) }
        ensures text { self.new.state.text ≡ self.old.state.text }
    {
        match self.any_op()? {
            Some(found) => {
                *shape = found;
                Ok(true)
            }
            None => Ok(false),
        }
    }

    /// The next operation, whatever form it has.
    fn any_op(&mut self) -> Result<Option<OpShape>, Fault>
        ensures again { FailsAgain self.old result self.new }
        ensures next { self.old.failed ≡ None → NextOf self.old result self.new }
        ensures shape { IfOk result (λ found. IfSome found (IsShapeIn self.old.state.text)) }
        ensures text { self.new.state.text ≡ self.old.state.text }
    {
        if let Some(fault) = self.failed {
            return Err(fault);
        }
        if self.ended {
            return Ok(None);
        }
        let mut place = self.place.copy();
        match place.next_op(self.alloc) {
            Ok(found) => {
                self.ended = found.is_none();
                self.place = place;
                Ok(found)
            }
            Err(fault) => {
                if fault != Fault::memory() {
                    self.failed = Some(fault);
                }
                Err(fault)
            }
        }
    }

    /// How many operations were skipped so far.
    pub fn skipped(&self) -> u64
        ensures { result ≡ self.now.skipped }
    {
        self.place.skipped
    }
}
