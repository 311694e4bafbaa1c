//! The members of a collection, one after the other: tags and forms that `#_` leaves out are passed
//! over.

ghost use Rattle.std.specs.Prelude.{◌≡◌, ◌<◌, true};
ghost use Rattle.edn_lex.specs.Kinds.{kind_of, item_of};
ghost use Rattle.edn_lex.specs.State.{State, GivesToken};
ghost use Rattle.edn_ops.specs.Leads.{is_mark_kind, NextMember, SkipsCollection};

use crate::marks::{Waiting, closes, dangling, is_mark, opens};
use edn_lex::lexer::Lexer;
use edn_lex::types::{Token, TokenKind};
use hist_types::types::{At, Fault, Refusal};

/// The token that a member begins with, or the closer of its collection.
#[derive(Clone, Copy)]
pub(crate) struct Member {
    pub(crate) token: Token,
    /// The offset of the first tag before the token.
    pub(crate) tag: Option<usize>,
}

/// The next member of the innermost open collection, or of the top level; or the closer, or none at
/// the text's end. No tag and no `#_` waits before the call. If one waits at the closer or at the
/// end, the fault is `DanglingTag`, at the last one that waits.
#[cycle(forms)]
pub(crate) fn next_member(lexer: &mut Lexer) -> Result<Option<Member>, Fault>
    ensures { NextMember lexer.old result lexer.new }
{
    match lexer.next() {
        None => Ok(None),
        Some(Err(fault)) => Err(fault),
        Some(Ok(token)) => {
            if is_mark(token) {
                member_behind(lexer, token)
            } else {
                Ok(Some(Member { token, tag: None }))
            }
        }
    }
}

/// The next member after a first tag or `#_`.
#[cycle(forms)]
fn member_behind(lexer: &mut Lexer, mark: Token) -> Result<Option<Member>, Fault>
    requires mark { is_mark_kind (kind_of mark.kind) ≡ true }
    requires behind { mark.start < lexer.old.offset }
    ensures { (s : State) → GivesToken s mark lexer.old → NextMember s result lexer.new }
{
    let start = lexer.copy();
    let mut waiting = Waiting::by(mark);
    while let Some(given) = lexer.next() {
        let token = given?;
        if is_mark(token) {
            waiting = waiting.and(token);
            continue;
        }
        if closes(token) {
            if waiting.is_some() {
                return Err(dangling(start, mark, waiting.drops));
            }
            return Ok(Some(Member { token, tag: None }));
        }
        if waiting.drops == 0 {
            return Ok(Some(Member {
                token,
                tag: waiting.tag,
            }));
        }
        if opens(token) {
            skip_collection(lexer, token)?;
        }
        waiting.drops -= 1;
    }
    if waiting.is_some() {
        return Err(dangling(start, mark, waiting.drops));
    }
    Ok(None)
}

/// Passes over a collection up to after its closer. Its opener was the last token. Only its tokens,
/// its nesting and its tags are looked at. Calls are at most as deep as collections may be.
#[cycle(forms)]
pub(crate) fn skip_collection(lexer: &mut Lexer, opener: Token) -> Result<(), Fault>
    ensures { SkipsCollection lexer.old (item_of lexer.old.text opener) result lexer.new }
{
    while let Some(member) = next_member(lexer)? {
        match member.token.kind {
            TokenKind::Close => return Ok(()),
            TokenKind::Open => skip_collection(lexer, member.token)?,
            _ => {}
        }
    }
    Err(Fault {
        refusal: Refusal::Unclosed,
        at: At::Byte(opener.start),
    })
}
