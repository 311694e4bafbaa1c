//! The transaction of an operation: its micro-operations, one after the other.

ghost use Rattle.std.specs.Prelude.{◌≡◌, ◌≢◌, List, [], ◌∷◌, ◌++◌, OnOk, IfErr};
ghost use Rattle.std.specs.List.{AllByRecursion};
ghost use Rattle.hist_types.specs.Entries.{is_write_of, elements_of, micro_ops_of};
ghost use Rattle.hist_types.specs.Forms.{Form, place_of};
ghost use Rattle.hist_types.specs.Refusals.{memory_fault};
ghost use Rattle.hist_types.specs.Tokens.{Closer};
ghost use Rattle.edn_lex.specs.Kinds.{kind_of, item_of};
ghost use Rattle.edn_lex.specs.State.{State};
ghost use Rattle.edn_ops.specs.Collections.{outlined_mop, AddsMop, ReadsMop, ReadsTransaction};
ghost use Rattle.edn_ops.specs.Fields.{mops_result, shapes_result};
ghost use Rattle.edn_ops.specs.Leads.{GivesMember};
ghost use Rattle.edn_ops.specs.Outlines.{outline_of, IsTokenIn, IsOutlineIn};

use crate::faults::fault_at;
use crate::forms::{Member, next_member};
use crate::members::{first_forms, pass_member};
use crate::outline::{Outline, bytes_of};
use crate::types::MopShape;
use edn_lex::lexer::Lexer;
use edn_lex::types::{Token, TokenKind};
use hist_types::limits::MAX_MICRO_OPS;
use hist_types::types::{Fault, Refusal};
use std::alloc::Global;

/// Whether a micro-operation is a write, by its first form.
fn is_write(text: &[u8], name: Outline) -> Option<bool>
    requires { IsOutlineIn text.now name }
    ensures { result ≡ is_write_of (outline_of text.now name) }
{
    match name {
        Outline::Plain(token) if token.kind == TokenKind::Keyword => {
            match bytes_of(text, token) {
                [b':', b'w'] => Some(true),
                [b':', b'r'] => Some(false),
                _ => None,
            }
        }
        _ => None,
    }
}

/// The micro-operation with these forms; it begins at `start`.
#[inline(always)]
pub(crate) fn micro_op(
    text: &[u8],
    start: usize,
    name: Outline,
    key: Outline,
    value: Outline,
) -> Result<MopShape, Fault>
    requires name { IsOutlineIn text.now name }
    requires key { IsOutlineIn text.now key }
    requires value { IsOutlineIn text.now value }
    ensures { result ≡ outlined_mop text.now start (name ∷ key ∷ value ∷ []) }
{
    let Some(is_write) = is_write(text, name) else {
        return Err(fault_at(Refusal::NotTxn, start));
    };
    let Some(key_span) = key.atom(text) else {
        return Err(fault_at(Refusal::BadAtom, key.place()));
    };
    if is_write && value.is_nil() {
        return Err(fault_at(Refusal::NilWritten, value.place()));
    }
    let value_span = if is_write {
        value.atom(text)
    } else {
        value.value(text)
    };
    match value_span {
        Some(value_span) => Ok(MopShape {
            is_write,
            key: key_span,
            value: value_span,
        }),
        None => Err(fault_at(Refusal::BadAtom, value.place())),
    }
}

/// The micro-operation with the forms of which these are the first four; it begins at `start`.
fn micro_op_by(text: &[u8], start: usize, forms: &[Outline]) -> Result<MopShape, Fault>
    requires { AllByRecursion (IsOutlineIn text.now) forms.now }
    ensures { result ≡ outlined_mop text.now start forms.now }
{
    match forms {
        [name, key, value] => micro_op(text, start, *name, *key, *value),
        _ => Err(fault_at(Refusal::NotTxn, start)),
    }
}

/// Reads a member of a transaction, whose first token has just been given: where it begins, and the
/// micro-operation that it is, or the fault that makes it none.
fn read_micro_op(
    lexer: &mut Lexer,
    text: &[u8],
    member: Member,
) -> Result<(usize, Result<MopShape, Fault>), Fault>
    requires text { text.now ≡ lexer.old.text }
    requires token { IsTokenIn text.now member.token }
    requires closer { kind_of member.token.kind ≢ Closer }
    ensures { (s : State) → GivesMember s member lexer.old → ReadsMop s result lexer.new }
{
    match Outline::of(member).sequence(text) {
        Some(opener) => {
            let forms = first_forms(lexer, opener)?;
            let micro_op = micro_op_by(text, opener.start, forms.as_slice());
            Ok((opener.start, micro_op))
        }
        None => {
            let start = pass_member(lexer, member)?.place();
            Ok((start, Err(fault_at(Refusal::NotTxn, start))))
        }
    }
}

/// Adds a member, which begins at `start`, to a transaction.
#[inline(always)]
fn add_micro_op(
    transaction: &mut Result<Vec<MopShape>, Fault>,
    start: usize,
    micro_op: Result<MopShape, Fault>,
) -> Result<(), Fault>
    ensures ok { OnOk result
        (AddsMop (shapes_result transaction.old) start micro_op (shapes_result transaction.new)) }
    ensures err { IfErr result (λ fault. fault ≡ memory_fault) }
{
    let mops = match transaction {
        Ok(mops) => mops,
        Err(_) => return Ok(()),
    };
    if mops.len() >= MAX_MICRO_OPS {
        *transaction = Err(fault_at(Refusal::TooManyMicroOps, start));
        return Ok(());
    }
    match micro_op {
        Ok(shape) => {
            mops.push(shape)?;
            Ok(())
        }
        Err(fault) => {
            *transaction = Err(fault);
            Ok(())
        }
    }
}

/// Reads a transaction, whose opener has just been given: its micro-operations, or the first fault
/// among its members.
#[inline(always)]
pub(crate) fn transaction(
    alloc: Global,
    lexer: &mut Lexer,
    text: &[u8],
    opener: Token,
) -> Result<Result<Vec<MopShape>, Fault>, Fault>
    requires { text.now ≡ lexer.old.text }
    ensures { ReadsTransaction lexer.old (item_of text.now opener) result lexer.new }
{
    let mut transaction = Ok(Vec::new(alloc));
    while let Some(member) = next_member(lexer)? {
        match member.token.kind {
            TokenKind::Close => return Ok(transaction),
            _ => {}
        }
        let (start, micro_op) = read_micro_op(lexer, text, member)?;
        add_micro_op(&mut transaction, start, micro_op)?;
    }
    Err(fault_at(Refusal::Unclosed, opener.start))
}
