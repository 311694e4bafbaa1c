//! Verdicts by several workers, each of which looks at a piece of the keys.

ghost use Rattle.std.specs.Prelude.{◌≡◌, ◌<◌, ℕ, List, vec_len, IfSome, IfOk, IfErr};
ghost use Rattle.dep_edges.specs.Pieces.{Piece, ArePiecesOf};
ghost use Rattle.hist_types.specs.Operations.{Operation};
ghost use Rattle.hist_types.specs.Reports.{IsVerdictOf};
ghost use Rattle.report_laws.specs.Explained.{RefutesExplanations};
ghost use Rattle.verdict.specs.KeyPieces.{IsNumberOfWorkers, IsWorker, IsMemoryOrThread, AreOfOneHistory, IsFoundBy, EachFinds, first_key};
ghost use Rattle.verdict.specs.Tables.{AreTables, AreTablesOf, history_of, keys_in};

use crate::looks::findings_of;
use crate::tables::Tables;
use crate::types::Verdict;
use crate::{bad_reads, reported, verdict_from};
use dep_edges::deps::Deps;
use dep_edges::pieces::PieceDeps;
use dep_edges::{edges_piece, join};
use hist_types::types::{At, Fault, KeyOrder, Refusal};
use journal_core::prefix::Prefix;
use key_versions::table::KeyNumbers;
use key_versions::versions;
use std::alloc::{AllocError, Global};
use std::hash::BuildHasher;
use std::sync::Wait;
use std::thread;
use std::thread::{Promise, Threads};
use txn_pairs::pair;

/// What each worker enters, once, before it looks at its piece of the keys.
pub trait Gate {
    /// Pieces are numbered from 0.
    fn enter(&self, piece: usize);
}

/// A gate that lets everybody through.
#[derive(Clone, Copy, Debug)]
pub struct NoGate;

impl Gate for NoGate {
    fn enter(&self, _piece: usize) {}
}

/// What workers look at, each at a piece of its own.
trait Pieces: Sync {
    /// That there is a piece for this worker.
    ghost has: { Self → ℕ → Type 0 };

    /// What the worker finds.
    ghost finds: { Self → ℕ → Piece → Type 0 };

    /// Looks at a worker's piece.
    fn look(&self, alloc: Global, worker: usize) -> Result<PieceDeps, AllocError>
        requires { has self.now worker }
        ensures { IfOk result (finds self.now worker) };
}

/// Of n keys, the worker i has those from `i * n / workers` up to but not including `(i + 1) * n /
/// workers`.
#[derive(Drop)]
struct KeyPieces<'p, 't, 'a> {
    tables: &'p Tables<'t, 'a>,
    keys: KeyNumbers,
    workers: usize,
}

/// The key with which a worker's piece begins. None where no memory holds so many keys.
fn first_key(count: usize, workers: usize, worker: usize) -> Option<usize>
    requires { 0 < workers }
    ensures { IfSome result (λ key. key ≡ first_key count workers worker) }
{
    Some(worker.checked_mul(count)? / workers)
}

impl Pieces for KeyPieces<'_, '_, '_> {
    ghost has = { λ p worker. IsWorker p.workers worker × AreOfOneHistory p.tables.now p.keys };

    ghost finds = { λ p worker. IsFoundBy p.tables.now p.keys p.workers worker };

    fn look(&self, alloc: Global, worker: usize) -> Result<PieceDeps, AllocError> {
        let count = self.keys.count;
        edges_piece(
            alloc,
            self.tables.txns,
            self.tables.versions,
            &self.keys,
            first_key(count, self.workers, worker).ok_or(AllocError)?,
            first_key(count, self.workers, worker + 1).ok_or(AllocError)?,
        )
    }
}

/// The piece of one worker.
#[derive(Clone, Copy)]
struct PieceOf<'p, P> {
    pieces: &'p P,
    worker: usize,
}

impl<'p, P: Pieces> Promise<Result<PieceDeps, AllocError>> for PieceOf<'p, P> {
    ghost kept_by = { λ p found. IfOk found (P.finds p.pieces.now p.worker) };
}

/// What each worker finds at its piece, in a thread of its own. Where one can't be started, those
/// that were started end first.
fn look_at_all<R: Threads + Wait + Sync, P: Pieces, G: Gate + Sync>(
    rt: &R,
    alloc: Global,
    pieces: &P,
    workers: usize,
    gate: &G,
) -> Result<Vec<Result<PieceDeps, AllocError>>, Fault>
    requires { (worker : ℕ) → worker < workers → P.has pieces.now worker }
    ensures count { IfOk result (λ found. vec_len found ≡ workers) }
    ensures each { IfOk result (λ found. EachFinds (P.finds pieces.now) workers found.items) }
    ensures err { IfErr result IsMemoryOrThread }
{
    thread::scope(
        thread::scope_env(),
        rt,
        |scope| -> Result<Vec<Result<PieceDeps, AllocError>>, Fault>
            requires { (worker : ℕ) → worker < workers → P.has pieces.now worker }
            ensures count { IfOk result (λ found. vec_len found ≡ workers) }
            ensures each { IfOk result
                (λ found. EachFinds (P.finds pieces.entry.now) workers found.items) }
            ensures err { IfErr result IsMemoryOrThread }
        {
            let mut started = Vec::with_capacity(alloc, workers)?;
            for worker in 0..workers {
                let look = move || -> Result<PieceDeps, AllocError>
                    requires { P.has pieces.now worker }
                    ensures { IfOk result (P.finds pieces.entry.now worker) }
                {
                    gate.enter(worker);
                    pieces.look(alloc, worker)
                };
                let Ok(handle) = scope.spawn_with(PieceOf { pieces, worker }, look) else {
                    return Err(Fault {
                        refusal: Refusal::NoThread,
                        at: At::Nowhere,
                    });
                };
                started.push(handle)?;
            }
            match thread::join_promised(rt, started) {
                Ok(found) => Ok(found),
                Err(_) => Err(Fault::memory()),
            }
        },
    )
}

/// What all workers find, if memory ran out for none of them.
fn all_pieces<R: Threads + Wait + Sync, G: Gate + Sync>(
    rt: &R,
    alloc: Global,
    pieces: &KeyPieces<'_, '_, '_>,
    gate: &G,
) -> Result<Vec<PieceDeps>, Fault>
    requires workers { IsNumberOfWorkers pieces.now.workers }
    requires history { AreOfOneHistory pieces.now.tables.now pieces.now.keys }
    ensures ok { IfOk result
        (λ found. ArePiecesOf (history_of pieces.now.tables.now) found.items) }
    ensures err { IfErr result IsMemoryOrThread }
{
    let found = look_at_all(rt, alloc, pieces, pieces.workers, gate)?;
    let mut all = Vec::with_capacity(alloc, found.len())?;
    for piece in found {
        all.push(piece?)?;
    }
    Ok(all)
}

/// What the transactions depend on each other for.
fn deps_by<'t, 'a, R: Threads + Wait + Sync, G: Gate + Sync>(
    rt: &R,
    alloc: Global,
    tables: &Tables<'t, 'a>,
    workers: usize,
    gate: &G,
) -> Result<Deps<'t, 'a>, Fault>
    requires workers { IsNumberOfWorkers workers }
    requires tables { AreTables tables.now }
    ensures ok { IfOk result (λ deps. deps ≡ history_of tables.now) }
    ensures err { IfErr result IsMemoryOrThread }
{
    let pieces = KeyPieces {
        tables,
        keys: tables.versions.key_numbers(alloc)?,
        workers,
    };
    let found = all_pieces(rt, alloc, &pieces, gate)?;
    join(alloc, tables.txns, tables.versions, found.as_slice())
}

/// The verdict of the events that the tables are of, by this many workers, as `verdict_wide` says.
pub fn verdict_from_wide<'a, R: Threads + Wait + Sync, G: Gate + Sync>(
    rt: &R,
    alloc: Global,
    tables: &Tables<'_, 'a>,
    workers: usize,
    gate: &G,
) -> Result<Verdict<'a>, Fault>
    requires workers { IsNumberOfWorkers workers }
    requires tables { AreTables tables.now }
    ensures ok { (events : List Operation) → AreTablesOf events tables.now
        → IfOk result (IsVerdictOf (keys_in tables.now) events) }
    ensures err { IfErr result IsMemoryOrThread }
{
    if workers == 1 {
        gate.enter(0);
        return Ok(verdict_from(alloc, tables)?);
    }
    let deps = deps_by(rt, alloc, tables, workers, gate)?;
    let findings = findings_of(alloc, tables, &deps)?;
    let reads = bad_reads(&deps);
    Ok(reported(alloc, tables.events, tables.txns, findings, reads)?)
}

/// What `verdict` gives, by this many workers. The transactions are paired and their versions
/// numbered first, in the caller's thread. Then, of n keys in the order of their numbers, the
/// worker i looks at those from `i * n / workers` up to but not including `(i + 1) * n / workers`,
/// in a thread of its own, and enters the gate before it does, also where its piece is empty. A
/// single worker is the caller's thread. No more threads are at work than there are workers.
///
/// Memory can run out, or a thread can't be started (`NoThread`), which is reported once the
/// threads that were started have ended. Where both happen it is `NoThread`.
pub fn verdict_wide<'a, R: Threads + Wait + Sync, S: BuildHasher + Copy, G: Gate + Sync>(
    rt: &R,
    alloc: Global,
    prefix: &Prefix<'a>,
    hasher: S,
    workers: usize,
    gate: &G,
    keys: KeyOrder,
) -> Result<Verdict<'a>, Fault>
    requires { IsNumberOfWorkers workers }
    ensures ok { IfOk result (IsVerdictOf keys prefix.now) }
    // Where the verdict says refuted, no order explains the events; where it says open, that says
    // nothing.
    ensures strict { IfOk result (RefutesExplanations prefix.now) }
    ensures err { IfErr result IsMemoryOrThread }
{
    let events = prefix.as_events();
    // Called for its clause that the events keep the rules, which the proof cites.
    let _rules = prefix.events();
    let txns = pair(alloc, events)?;
    let versions = versions(alloc, &txns, hasher, keys)?;
    verdict_from_wide(
        rt,
        alloc,
        &Tables::new(events, &txns, &versions),
        workers,
        gate,
    )
}
