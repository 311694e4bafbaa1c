//! One round of reading: lines of a text, by several threads, while what was read before is handed
//! on.

ghost use Rattle.std.specs.Prelude.{◌≡◌, ◌≢◌, ℕ, List, ◌++◌, All, IfOk, false};
ghost use Rattle.hist_types.specs.declared.types.Refusal.TheVariants.{Memory};
ghost use Rattle.hist_types.specs.Operations.{Operation};
ghost use Rattle.reading_laws.specs.Parts.{EndsLine, can_come_at_end};
ghost use Rattle.block_reader.specs.Blocks.{operations_in};
ghost use Rattle.block_reader.specs.Parts.{AreStarts, IsPartOf, IsRoundOf};

use crate::alone::blocks_of;
use crate::parts::{Part, joined, take_parts};
use crate::starts::starts_of;
use hist_types::types::{Fault, Refusal};
use op_block::block::Block;
use reading_laws::parts_read_alone;
use std::alloc::{AllocError, Global};
use std::sync::atomic::AtomicUsize;
use std::thread::{Threads, join, map_indices};

/// What takes the blocks of a text, those of one round after those of the other.
pub trait Consumer<'a>: Drop {
    /// That it has taken blocks with these operations.
    ghost has_taken: { Self → List Operation → Type 0 };

    fn take(self, blocks: &'a [Block]) -> Self
        ensures { (before : List Operation) → has_taken self before
            → has_taken result (before ++ operations_in blocks.now) };
}

/// What the lines of a round give by themselves.
#[derive(Drop)]
pub enum Round {
    /// Their operations, in blocks.
    Read(Vec<Block>),
    /// A fault, which nothing behind them can change.
    Refused(Fault),
    /// It isn't known: something is open at their end, or memory ran out.
    Unknown,
}

/// What so many threads take.
fn take_parts_by<R: Threads + Sync>(
    rt: &R,
    alloc: Global,
    threads: usize,
    text: &[u8],
    starts: &[usize],
    next: &AtomicUsize,
) -> Result<Vec<Part>, AllocError>
    requires { AreStarts text.now starts.now }
    ensures { IfOk result (λ parts. All (IsPartOf text.now starts.now) parts.items) }
{
    let lists = map_indices(
        rt,
        alloc,
        threads,
        &|_thread| -> Vec<Part>
            requires { AreStarts text.now starts.now }
            ensures { All (IsPartOf text.entry.now starts.entry.now) result.items }
        { take_parts(alloc, text, starts, next) },
    )?;
    let mut parts = Vec::new(alloc);
    for mut list in lists {
        parts.append(&mut list)?;
    }
    Ok(parts)
}

/// All of them, by their indices.
fn in_order(mut parts: Vec<Part>, mut others: Vec<Part>) -> Result<Vec<Part>, AllocError>
    ensures { (text starts : List ℕ)
        → All (IsPartOf text starts) parts.items → All (IsPartOf text starts) others.items
        → IfOk result (λ all. All (IsPartOf text starts) all.items) }
{
    parts.append(&mut others)?;
    parts.sort_unstable_by_key(|part| part.index);
    Ok(parts)
}

/// Reads the parts, by this thread and so many helpers. Before this one reads along, the consumer
/// takes the blocks of the round before.
fn read_parts<'a, R: Threads + Sync, C: Consumer<'a>>(
    rt: &R,
    alloc: Global,
    helpers: usize,
    text: &[u8],
    starts: &[usize],
    consumer: C,
    blocks: &'a [Block],
) -> (Result<Vec<Part>, AllocError>, C)
    requires { AreStarts text.now starts.now }
    ensures parts { IfOk result.0 (λ parts. All (IsPartOf text.now starts.now) parts.items) }
    ensures consumer { (before : List Operation) → C.has_taken consumer before
        → C.has_taken result.1 (before ++ operations_in blocks.now) }
{
    let next = AtomicUsize::new(0);
    if helpers == 0 {
        let consumer = consumer.take(blocks);
        return (Ok(take_parts(alloc, text, starts, &next)), consumer);
    }
    let (others, (consumer, own)) = join(
        rt,
        || -> Result<Vec<Part>, AllocError>
            requires { AreStarts text.now starts.now }
            ensures { IfOk result (λ parts. All (IsPartOf text.entry.now starts.entry.now) parts.items) }
        { take_parts_by(rt, alloc, helpers, text, starts, &next) },
        || -> (C, Vec<Part>)
            requires { AreStarts text.now starts.now }
            ensures parts { All (IsPartOf text.entry.now starts.entry.now) result.1.items }
            ensures consumer { (before : List Operation) → C.has_taken consumer before
                → C.has_taken result.0 (before ++ operations_in blocks.entry.now) }
        {
            let consumer = consumer.take(blocks);
            (consumer, take_parts(alloc, text, starts, &next))
        },
    );
    match others {
        Ok(others) => (in_order(own, others), consumer),
        Err(refused) => (Err(refused), consumer),
    }
}

/// Whether a text may be refused so at its end, and no longer if it goes on, or memory ran out.
fn may_pass(refusal: Refusal) -> bool
    ensures end { result ≡ false → can_come_at_end refusal ≡ false }
    ensures memory { result ≡ false → refusal ≢ Memory }
{
    matches!(
        refusal,
        Refusal::UnclosedString | Refusal::Unclosed | Refusal::DanglingTag | Refusal::Memory
    )
}

/// What these lines give, read at once.
fn read_at_once(alloc: Global, lines: &[u8]) -> Round
    requires { EndsLine lines.now }
    ensures { IsRoundOf lines.now result }
{
    // A law, called for its clauses: lines that read by themselves give the same anywhere.
    parts_read_alone();
    match blocks_of(alloc, lines) {
        Ok(blocks) => Round::Read(blocks),
        Err(fault) => {
            if may_pass(fault.refusal) {
                Round::Unknown
            } else {
                Round::Refused(fault)
            }
        }
    }
}

/// What these lines give: each part of them is read by itself, or else they are read at once.
/// Before that, the consumer takes the blocks of the round before.
pub(crate) fn read_round<'a, R: Threads + Sync, C: Consumer<'a>>(
    rt: &R,
    alloc: Global,
    helpers: usize,
    lines: &[u8],
    consumer: C,
    blocks: &'a [Block],
) -> (Round, C)
    requires { EndsLine lines.now }
    ensures round { IsRoundOf lines.now result.0 }
    ensures consumer { (before : List Operation) → C.has_taken consumer before
        → C.has_taken result.1 (before ++ operations_in blocks.now) }
{
    let Ok(starts) = starts_of(alloc, helpers, lines) else {
        return (Round::Unknown, consumer.take(blocks));
    };
    let (parts, consumer) = read_parts(rt, alloc, helpers, lines, &starts, consumer, blocks);
    let Ok(parts) = parts else {
        return (Round::Unknown, consumer);
    };
    match joined(alloc, lines, &starts, parts) {
        Some(blocks) => (Round::Read(blocks), consumer),
        None => (read_at_once(alloc, lines), consumer),
    }
}
