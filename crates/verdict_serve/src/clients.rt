//! Sessions side by side, at one journal.

ghost use Rattle.std.specs.Prelude.{◌≡◌, ◌⊎◌, [], IfOk, IfErr};
ghost use Rattle.std.specs.List.{AllZip};
ghost use Rattle.hist_types.specs.Refusals.{without_place, memory_fault};
ghost use Rattle.hist_types.specs.declared.types.Refusal.TheVariants.{NoThread};
ghost use Rattle.verdict_serve.specs.Places.{seated_from, HasEnd, IsEndAt};
ghost use Rattle.verdict_serve.specs.Served.{WereServed};

use crate::session::{Ended, SessionFault, session};
use hist_types::device::{Sink, Source};
use hist_types::types::{At, Fault, Refusal};
use live_journal::journal::Journal;
use live_journal::seat::Seat;
use std::alloc::Global;
use std::hash::{BuildHasherDefault, FoldHasher};
use std::snapshot::Snapshot;
use std::sync::Wait;
use std::thread;
use std::thread::{Promise, PromisedHandle, Threads};

/// Where the lines of a session come from, and where its replies go to.
#[derive(Drop)]
pub struct Client<S, T> {
    pub source: S,
    pub sink: T,
}

/// A client with its seat.
#[derive(Drop)]
struct Place<'j, S, T> {
    seat: Seat<'j, BuildHasherDefault<FoldHasher>>,
    client: Client<S, T>,
}

/// The promise that the client of a place is served by its seat to the end that a thread returns.
#[derive(Drop)]
struct EndOf<'j, S, T> {
    place: Snapshot<Place<'j, S, T>>,
}

impl<'j, S: Source, T: Sink> Promise<Result<Ended, SessionFault>> for EndOf<'j, S, T> {
    ghost kept_by = { λ p end. HasEnd S.Source T.Sink p.place.value end };
}

/// A thread that serves a client.
type Serving<'j, S, T> = PromisedHandle<Result<Ended, SessionFault>, EndOf<'j, S, T>>;

/// Serves the client to the end of its session.
fn serve_client<R: Wait, S: Source, T: Sink>(
    rt: &R,
    alloc: Global,
    place: &mut Place<'_, S, T>,
) -> Result<Ended, SessionFault>
    ensures { HasEnd S.Source T.Sink place.old result }
{
    session(
        rt,
        alloc,
        &mut place.seat,
        &mut place.client.source,
        &mut place.client.sink,
    )
}

/// Gives each client a seat, numbered from 0 in the order of the clients.
fn seated<'j, S: Drop, T: Drop>(
    alloc: Global,
    journal: &'j Journal<BuildHasherDefault<FoldHasher>>,
    clients: Vec<Client<S, T>>,
) -> Result<Vec<Place<'j, S, T>>, Fault>
    ensures ok { IfOk result
        (λ places. places.items ≡ seated_from journal.entry.now 0 clients.items) }
    ensures err { IfErr result (λ fault. fault ≡ memory_fault) }
{
    let mut places = Vec::with_capacity(alloc, clients.len())?;
    for client in clients {
        let Ok(number) = u32::try_from(places.len()) else {
            // No memory holds as many clients as there are numbers.
            return Err(Fault::memory());
        };
        let seat = journal.seat(number)?;
        places.push(Place { seat, client })?;
    }
    Ok(places)
}

/// How the sessions of the threads ended, in room that was taken before the first of them was
/// started.
fn joined<'j, R: Threads, S: Source, T: Sink>(
    rt: &R,
    started: Vec<Serving<'j, S, T>>,
    ends: Vec<Result<Ended, SessionFault>>,
) -> Result<Vec<Result<Ended, SessionFault>>, Fault>
    requires { ends.items ≡ [] }
    ensures ok { IfOk result
        (λ ends. AllZip (IsEndAt S.Source T.Sink) started.entry.items ends.items) }
    ensures err { IfErr result (λ fault. fault ≡ memory_fault) }
{
    let mut ends = ends;
    for thread in started {
        ends.push(thread.join(rt))?;
    }
    Ok(ends)
}

/// A session for each client in a thread of its own, all at one journal. The ends are in the order
/// of the clients.
///
/// All seats are made before a thread is started. Where a thread can't be started (`NoThread`), the
/// threads that were started end first. No seat of the journal may have borne one of these numbers
/// before: they are those from 0 on, in the clients' order.
pub fn sessions<
    'j,
    R: Threads + Wait + Sync,
    S: Source + Send + Drop + 'j,
    T: Sink + Send + Drop + 'j,
>(
    rt: &R,
    alloc: Global,
    journal: &'j Journal<BuildHasherDefault<FoldHasher>>,
    clients: Vec<Client<S, T>>,
) -> Result<Vec<Result<Ended, SessionFault>>, Fault>
    // Each client has a session of its own, by a seat whose number no other has.
    ensures served { IfOk result
        (λ ends. WereServed S.Source T.Sink journal.entry.now 0 clients.items ends.items) }
    ensures err { IfErr result
        (λ fault. (fault ≡ memory_fault) ⊎ (fault ≡ without_place NoThread)) }
{
    thread::scope(
        thread::scope_env(),
        rt,
        |scope| -> Result<Vec<Result<Ended, SessionFault>>, Fault>
            ensures served { IfOk result
                (λ ends. WereServed S.Source T.Sink journal.entry.now 0 clients.items ends.items) }
            ensures err { IfErr result
                (λ fault. (fault ≡ memory_fault) ⊎ (fault ≡ without_place NoThread)) }
        {
            let places = seated(alloc, journal, clients)?;
            let mut started = Vec::with_capacity(alloc, places.len())?;
            let ends = Vec::with_capacity(alloc, places.len())?;
            for place in places {
                let end = EndOf {
                    place: Snapshot::of(&place),
                };
                let serve = move || -> Result<Ended, SessionFault>
                    ensures { HasEnd S.Source T.Sink place.entry result }
                {
                    let mut place = place;
                    serve_client(rt, alloc, &mut place)
                };
                let Ok(thread) = scope.spawn_with(end, serve) else {
                    return Err(Fault {
                        refusal: Refusal::NoThread,
                        at: At::Nowhere,
                    });
                };
                started.push(thread)?;
            }
            joined(rt, started, ends)
        },
    )
}
