//! Atoms: the keys and values of operations, as slices of a text.

ghost use Rattle.std.specs.Prelude.{◌≡◌, MatchOption, Some, refl};
ghost use Rattle.hist_types.specs.Atoms.{Atom as AnAtom, atom_eq, atom_cmp};
ghost use Rattle.edn_ops.specs.SourceTexts.{IsAtomText};
ghost use Rattle.op_view.specs.AtomTexts.{number_of, HasTokenAlone, HasNoTokenAlone, IsNoAtomText};
ghost use Rattle.std.specs.Cmp.{partial_equiv_from_equiv, po};
ghost use Rattle.hist_types.proofs.AtomOrder.{atom_cmp_total};
ghost use Rattle.op_view.specs.Hashing.{atom_writes};
ghost use Rattle.op_view.specs.AtomLaws.{atom_eq_equiv, atom_ties, same_writes};

use crate::content::{compare, feed};
use crate::spelling::{Spelling, known_spelling, spelling_of};
use edn_lex::lexer::Lexer;
use edn_lex::types::TokenKind;
use edn_ops::atoms::between_quotes;
use std::cmp::Ordering;
use std::hash::{Hash, Hasher};
use std::marker::Model;

/// A key or a value: an integer of 64 bits, a keyword, a string or a symbol, as a slice of its
/// text.
///
/// Atoms are compared by what they mean: integers by number, strings by their decoded content,
/// keywords and symbols byte for byte. In order come the integers, the keywords, the strings and
/// the symbols. No call takes memory.
#[derive(Debug, Drop)]
pub struct Atom<'a> {
    text: &'a [u8],
    spelling: Spelling,
}

impl<'a> Model for Atom<'a> {
    ghost use Rattle.hist_types.specs.Atoms.{Atom as AnAtom};
    ghost use Rattle.hist_types.specs.Stored.{coded_atom};

    ghost Value = { AnAtom };

    ghost coded = { coded_atom };

    ghost use Rattle.op_view.specs.Spellings.{atom_spelled, IsTokenSpelled};

    ghost view = { λ a. atom_spelled a.spelling a.text.now };

    ghost invariant = { λ a. IsTokenSpelled a.spelling a.text.now };
}

/// The kind of the token that takes up the whole text, if one does.
fn only_token(text: &[u8]) -> Option<TokenKind>
    ensures { MatchOption result (HasNoTokenAlone text.now) (HasTokenAlone text.now) }
{
    let first = Lexer::new(text).next()?;
    let token = first.ok()?;
    if token.start == 0 && token.end == text.len() {
        Some(token.kind)
    } else {
        None
    }
}

impl<'a> Atom<'a> {
    /// The atom that the text spells, if the text is one token and that token is an atom.
    pub fn read(text: &'a [u8]) -> Option<Atom<'a>>
        ensures { MatchOption result (IsNoAtomText text.now) (IsAtomText text.now) }
    {
        let kind = only_token(text)?;
        let spelling = spelling_of(kind, text)?;
        Some(Atom { text, spelling })
    }

    /// The atom of a text that is known to be one. The text is not cut into tokens again.
    #[inline(always)]
    pub fn of(text: &'a [u8]) -> Atom<'a>
        requires { (atom : AnAtom) × IsAtomText text.now atom }
        ensures { (atom : AnAtom) → IsAtomText text.now atom → result ≡ atom }
    {
        Atom {
            text,
            spelling: known_spelling(text),
        }
    }

    /// A copy of the atom.
    pub fn copy(&self) -> Atom<'a>
        ensures { result ≡ self.now }
    {
        Atom {
            text: self.text,
            spelling: self.spelling,
        }
    }

    /// The atom's text, as it is in the source.
    pub fn text(&self) -> &'a [u8]
        ensures { IsAtomText result.now self.now }
    {
        self.text
    }

    /// The atom's number, if it is an integer.
    pub fn as_integer(&self) -> Option<i64>
        ensures { result ≡ number_of self.now }
    {
        match self.spelling {
            Spelling::Integer(number) => Some(number),
            _ => None,
        }
    }
}

impl PartialEq for Atom<'_> {
    ghost eq = { atom_eq };

    ghost laws = { partial_equiv_from_equiv atom_eq_equiv };

    #[inline(always)]
    fn eq(&self, other: &Self) -> bool {
        match (self.spelling, other.spelling) {
            (Spelling::Integer(a), Spelling::Integer(b)) => a == b,
            (Spelling::Keyword, Spelling::Keyword) | (Spelling::Symbol, Spelling::Symbol) => {
                self.text == other.text
            }
            (Spelling::PlainString, Spelling::PlainString) => {
                between_quotes(self.text) == between_quotes(other.text)
            }
            _ => self.cmp(other).is_eq(),
        }
    }
}

impl Eq for Atom<'_> {
    ghost laws = { atom_eq_equiv };
}

impl PartialOrd for Atom<'_> {
    ghost partial_cmp = { λ a b. Some (atom_cmp a b) };

    ghost laws = { po atom_cmp_total atom_ties };

    fn partial_cmp(&self, other: &Self) -> Option<Ordering> {
        Some(self.cmp(other))
    }
}

impl Ord for Atom<'_> {
    ghost cmp = { atom_cmp };

    ghost total = { atom_cmp_total };

    ghost matches_partial_cmp = { λ a b. refl };

    ghost matches_eq = { atom_ties };

    fn cmp(&self, other: &Self) -> Ordering {
        match (self.spelling, other.spelling) {
            (Spelling::Integer(a), Spelling::Integer(b)) => a.cmp(&b),
            (Spelling::Keyword, Spelling::Keyword) | (Spelling::Symbol, Spelling::Symbol) => {
                self.text.cmp(other.text)
            }
            (Spelling::PlainString, Spelling::PlainString) => {
                between_quotes(self.text).cmp(between_quotes(other.text))
            }
            (
                Spelling::PlainString | Spelling::EscapedString,
                Spelling::PlainString | Spelling::EscapedString,
            ) => compare(between_quotes(self.text), between_quotes(other.text)),
            _ => self.spelling.rank().cmp(&other.spelling.rank()),
        }
    }
}

impl Hash for Atom<'_> {
    ghost hash_input = { atom_writes };

    ghost respects_eq = { same_writes };

    fn hash<H: Hasher>(&self, state: &mut H) {
        match self.spelling {
            Spelling::Integer(number) => state.write_i64(number),
            Spelling::Keyword | Spelling::Symbol => state.write(self.text),
            Spelling::PlainString | Spelling::EscapedString => {
                feed(between_quotes(self.text), state)
            }
        }
    }
}
