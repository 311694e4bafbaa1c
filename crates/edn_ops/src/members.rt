//! Members of collections in which no operation is looked for.

ghost use Rattle.std.specs.Prelude.{◌≡◌, ◌≢◌, IfOk};
ghost use Rattle.hist_types.specs.Tokens.{Closer};
ghost use Rattle.edn_lex.specs.Kinds.{kind_of, item_of};
ghost use Rattle.edn_lex.specs.State.{State};
ghost use Rattle.edn_ops.specs.Leads.{GivesMember};
ghost use Rattle.edn_ops.specs.Outlines.{outline_for};
ghost use Rattle.edn_ops.specs.Collections.{PassesMember, ReadsFirstForms};

use crate::faults::fault_at;
use crate::forms::{Member, next_member, skip_collection};
use crate::outline::Outline;
use arrayvec::ArrayVec;
use edn_lex::lexer::Lexer;
use edn_lex::types::{Token, TokenKind};
use hist_types::types::{Fault, Refusal};

/// Passes over a member, whose first token has just been given, and gives its outline.
pub(crate) fn pass_member(lexer: &mut Lexer, member: Member) -> Result<Outline, Fault>
    requires { kind_of member.token.kind ≢ Closer }
    ensures member { (s : State) → GivesMember s member lexer.old
        → PassesMember s result lexer.new }
    ensures outline { IfOk result (λ o. o ≡ outline_for member) }
{
    match member.token.kind {
        TokenKind::Open => skip_collection(lexer, member.token)?,
        _ => {}
    }
    Ok(Outline::of(member))
}

/// Passes over a collection, whose opener has just been given, and gives the outlines of its first
/// four forms.
pub(crate) fn first_forms(lexer: &mut Lexer, opener: Token) -> Result<ArrayVec<Outline, 4>, Fault>
    ensures { ReadsFirstForms lexer.old (item_of lexer.old.text opener) result lexer.new }
{
    let mut forms = ArrayVec::new();
    while let Some(member) = next_member(lexer)? {
        match member.token.kind {
            TokenKind::Close => return Ok(forms),
            _ => {}
        }
        let form = pass_member(lexer, member)?;
        if !forms.is_full() {
            forms.push(form);
        }
    }
    Err(fault_at(Refusal::Unclosed, opener.start))
}
