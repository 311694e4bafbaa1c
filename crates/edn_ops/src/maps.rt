//! The map of an operation, read member by member.

ghost use Rattle.std.specs.Prelude.{◌≡◌, ◌≢◌, true};
ghost use Rattle.hist_types.specs.Forms.{is_map};
ghost use Rattle.hist_types.specs.Tokens.{Closer};
ghost use Rattle.edn_lex.specs.Kinds.{kind_of, item_of};
ghost use Rattle.edn_lex.specs.State.{State};
ghost use Rattle.edn_ops.specs.Collections.{GathersMember, ReadsMap};
ghost use Rattle.edn_ops.specs.Fields.{AreFieldsIn};
ghost use Rattle.edn_ops.specs.Leads.{GivesMember};
ghost use Rattle.edn_ops.specs.Outlines.{IsTokenIn};

use crate::faults::fault_at;
use crate::fields::Fields;
use crate::forms::{Member, next_member};
use crate::members::pass_member;
use crate::micro_ops::transaction;
use crate::outline::Outline;
use crate::types::{OpShape, Span};
use edn_lex::lexer::Lexer;
use edn_lex::types::{Token, TokenKind};
use hist_types::types::{Fault, Refusal};
use std::alloc::Global;

/// Gathers a member of a map, whose first token has just been given. Only the first `:value` is
/// read as a transaction.
fn add_member(
    alloc: Global,
    lexer: &mut Lexer,
    text: &[u8],
    fields: &mut Fields,
    member: Member,
) -> Result<(), Fault>
    requires text { text.now ≡ lexer.old.text }
    requires fields { AreFieldsIn text.now fields.old }
    requires token { IsTokenIn text.now member.token }
    requires closer { kind_of member.token.kind ≢ Closer }
    ensures { (s : State) → GivesMember s member lexer.old
        → GathersMember s fields.old result fields.new lexer.new }
{
    let outline = Outline::of(member);
    if !fields.awaits_transaction(text) {
        pass_member(lexer, member)?;
        fields.add(text, outline);
        return Ok(());
    }
    match outline.sequence(text) {
        Some(opener) => {
            let found = transaction(alloc, lexer, text, opener)?;
            fields.add_transaction(outline, found);
            Ok(())
        }
        None => {
            pass_member(lexer, member)?;
            let fault = fault_at(Refusal::NotTxn, outline.place());
            fields.add_transaction(outline, Err(fault));
            Ok(())
        }
    }
}

/// Reads the map of an operation, whose opener has just been given, up to after its closer: the
/// operation, or none where it is skipped.
pub(crate) fn read_map(
    alloc: Global,
    lexer: &mut Lexer,
    text: &[u8],
    opener: Token,
) -> Result<Option<OpShape>, Fault>
    requires text { text.now ≡ lexer.old.text }
    requires map { is_map (item_of text.now opener) ≡ true }
    ensures { ReadsMap lexer.old (item_of text.now opener) result lexer.new }
{
    let mut fields = Fields::new(alloc);
    while let Some(member) = next_member(lexer)? {
        match member.token.kind {
            TokenKind::Close => {
                let span = Span {
                    start: opener.start,
                    end: member.token.end,
                };
                return fields.entry(alloc, text, span);
            }
            _ => {}
        }
        add_member(alloc, lexer, text, &mut fields, member)?;
    }
    Err(fault_at(Refusal::Unclosed, opener.start))
}
