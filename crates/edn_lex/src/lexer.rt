//! The lexer: an iterator over the tokens of a text.

ghost use Rattle.std.specs.Prelude.{◌≡◌, ◌<◌, length, get_or, false, IsNone, IfSome, ◌≤◌};
ghost use Rattle.hist_types.specs.Bytes.{is_blank as is_blank_byte};
ghost use Rattle.hist_types.specs.Tokens.{closer_of, byte_fault, HasTokens, HasTokensFrom};
ghost use Rattle.edn_lex.specs.Collections.{closer_byte, refusal_within, Nests};
ghost use Rattle.edn_lex.specs.State.{state_at_start, state_at, GivesOnly, GivesAll, Passes};
ghost use Rattle.edn_lex.specs.Ahead.{LooksAhead};

use crate::ahead::LEVELS_AHEAD;
use crate::pieces::{PieceKind, first_piece};
use crate::scan::{is_blank, utf8_end};
use crate::types::{Token, TokenKind};
use arrayvec::ArrayVec;
use hist_types::limits::MAX_OPEN_COLLECTIONS;
use hist_types::types::{At, Fault, Refusal};
use std::marker::Model;

/// A kind of collection, by its closer.
#[derive(Clone, Copy, Default)]
pub(crate) enum Collection {
    #[default]
    Round,
    Square,
    Brace,
}

/// Gives the tokens of a text one after the other (EDN), or the first fault once and then nothing.
/// It takes no memory.
///
/// Spans and offsets are in bytes. A fault is `BadUtf8` at the first byte of an item that begins no
/// well-formed sequence, `UnclosedString` at the opening quote, `StrayCloser` at the closer, or
/// `TooDeep` at the opener.
#[derive(Drop)]
pub struct Lexer<'a> {
    text: &'a [u8],
    offset: usize,
    collections: OpenCollections,
    ended: bool,
}

impl<'a> Model for Lexer<'a> {
    ghost use Rattle.std.specs.Prelude.{◌≤◌, length};
    ghost use Rattle.edn_lex.specs.State.{State, state_code};

    ghost Value = { State };

    ghost coded = { state_code };

    ghost use Rattle.edn_lex.specs.Collections.{closers_of};

    ghost view = { λ lexer. record {
      text = lexer.text.now;
      offset = lexer.offset;
      closers = closers_of lexer.collections.items;
      ended = lexer.ended;
    } };

    ghost invariant = { λ lexer. lexer.offset ≤ length lexer.text.now };
}

impl Collection {
    /// The kind of collection that an opener opens.
    fn opened_by(opener: &[u8]) -> Collection
        ensures { closer_byte result ≡ closer_of opener.now }
    {
        match opener {
            [b'('] => Collection::Round,
            [b'['] => Collection::Square,
            _ => Collection::Brace,
        }
    }

    /// The byte that closes the collection.
    fn closer(self) -> u8
        ensures { result ≡ closer_byte self }
    {
        match self {
            Collection::Round => b')',
            Collection::Square => b']',
            Collection::Brace => b'}',
        }
    }
}

type OpenCollections = ArrayVec<Collection, MAX_OPEN_COLLECTIONS>;

/// Opens or closes a collection where the item is an opener or a closer, or returns why it may not
/// come here.
fn nest(within: &mut OpenCollections, kind: PieceKind, bytes: &[u8]) -> Option<Refusal>
    requires { 0 < length bytes.now }
    ensures refusal { result ≡ refusal_within kind bytes.now within.old.items }
    ensures after { IsNone result → Nests kind bytes.now within.old.items within.new.items }
{
    match kind {
        PieceKind::Token(TokenKind::Open) => {
            if within.is_full() {
                return Some(Refusal::TooDeep);
            }
            within.push(Collection::opened_by(bytes));
        }
        PieceKind::Token(TokenKind::Close) => {
            let fits = match within.pop() {
                Some(innermost) => bytes == [innermost.closer()].as_slice(),
                None => false,
            };
            if !fits {
                return Some(Refusal::StrayCloser);
            }
        }
        _ => {}
    }
    None
}

/// A fault at an offset of the text.
fn fault_at(refusal: Refusal, offset: usize) -> Fault
    ensures { result ≡ byte_fault refusal offset }
{
    Fault {
        refusal,
        at: At::Byte(offset),
    }
}

impl<'a> Lexer<'a> {
    /// A lexer at the front of the text.
    pub fn new(text: &'a [u8]) -> Self
        ensures start { result ≡ state_at_start text.now }
        ensures rest { GivesOnly (HasTokens text.now) result }
        ensures all { GivesAll (HasTokens text.now) result }
    {
        Lexer::at(text, 0)
    }

    /// A lexer that begins at this offset, as if nothing came before it. Offsets count from the
    /// front of the text all the same.
    pub fn at(text: &'a [u8], offset: usize) -> Self
        requires { offset ≤ length text.now }
        ensures start { result ≡ state_at text.now offset }
        ensures rest { GivesOnly (HasTokensFrom offset text.now) result }
        ensures all { GivesAll (HasTokensFrom offset text.now) result }
    {
        Lexer {
            text,
            offset,
            collections: ArrayVec::new(),
            ended: false,
        }
    }

    /// The whole text.
    pub fn text(&self) -> &'a [u8]
        ensures { result.now ≡ self.now.text }
    {
        self.text
    }

    /// A lexer at the same offset of the same text.
    pub fn copy(&self) -> Lexer<'a>
        ensures { result ≡ self.now }
    {
        let mut collections = ArrayVec::new();
        for collection in self.collections.iter() {
            collections.push(*collection);
        }
        Lexer {
            text: self.text,
            offset: self.offset,
            collections,
            ended: self.ended,
        }
    }

    /// The offset from which tokens can be looked for ahead: none after a fault, or where fewer
    /// than `LEVELS_AHEAD` more collections may be opened.
    #[inline(always)]
    pub fn ahead(&self) -> Option<usize>
        ensures { IfSome result (LooksAhead self.now) }
    {
        if self.ended || self.collections.len() + LEVELS_AHEAD > MAX_OPEN_COLLECTIONS {
            None
        } else {
            Some(self.offset)
        }
    }

    /// Goes on from this offset, where the same collections are open.
    #[inline(always)]
    pub fn jump(&mut self, offset: usize)
        requires { offset ≤ length self.old.text }
        ensures { self.new ≡ record self.old { offset = offset } }
    {
        self.offset = offset;
    }

    /// Passes over the next item, which is no blank, and returns it if it is a token.
    fn pass(&mut self) -> Result<Option<Token>, Fault>
        requires left { self.old.offset < length self.old.text }
        requires unblank { is_blank_byte (get_or self.old.text self.old.offset 0) ≡ false }
        ensures { Passes self.old result self.new }
    {
        let start = self.offset;
        let left = &self.text[start..];
        let Some(piece) = first_piece(left) else {
            return Err(fault_at(Refusal::UnclosedString, start));
        };
        let bytes = &left[..piece.len];
        if let Some(valid) = utf8_end(bytes, piece.ascii) {
            return Err(fault_at(Refusal::BadUtf8, start + valid));
        }
        if let Some(refusal) = nest(&mut self.collections, piece.kind, bytes) {
            return Err(fault_at(refusal, start));
        }
        self.offset = start + piece.len;
        Ok(piece.kind.token(start, self.offset))
    }
}

impl Iterator for Lexer<'_> {
    type Item = Result<Token, Fault>;

    ghost use Rattle.edn_lex.specs.State.{Gives, calls_left};

    ghost next_gives = { Gives };

    ghost remaining = { calls_left };

    fn next(&mut self) -> Option<Result<Token, Fault>> {
        while !self.ended && self.offset < self.text.len() {
            if is_blank(self.text[self.offset]) {
                self.offset += 1;
                continue;
            }
            match self.pass() {
                Ok(Some(token)) => return Some(Ok(token)),
                Ok(None) => {}
                Err(fault) => {
                    self.ended = true;
                    return Some(Err(fault));
                }
            }
        }
        None
    }
}
