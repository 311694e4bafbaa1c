//! A journal whose seats make the calls that lines ask for. A line is one of
//!
//!     SEAT write OPERATION    begins or completes a transaction
//!     SEAT import OPERATIONS
//!     SEAT read FROM TO
//!     SEAT snapshot
//!     SEAT verdict
//!     SEAT learn OTHER        learns what another seat then sees
//!     SEAT meet OTHER
//!     SEAT account            of this seat alone; that of all comes at the end
//!     wait                    the calls below wait
//!     go                      all that wait are made, by each seat in a thread of its own
//!     time                    the same, but how long that takes is printed
//!     hashers                 how many hashers were built so far

ghost use Rattle.std.specs.Prelude.{◌≡◌, All, IfOk};
ghost use Rattle.live_journal.specs.Seats.{Seat as ASeat};

use crate::calls::{Call, CountedSeat, Naming, Said, SeatOf};
use crate::hashers::Counting;
use crate::stopped::Stopped;
use hist_types::types::{Fault, KeyOrder};
use live_journal::journal::{Journal, Unaccounted};
use std::alloc::{AllocError, Global};
use std::marker::Brand;
use std::sync::atomic::{AtomicU64, Ordering};
use std::thread::Threads;
use std::time::{Clock, Instant};
use std::{io, slice, thread};

pub type CountedJournal<'c> = Journal<Counting<'c>>;

/// How many threads make calls side by side, at the most.
const MOST_THREADS: usize = 64;

/// A seat, the calls that wait, and what calls have returned.
struct Worker<'j, 'c, N: Naming> {
    seat: SeatOf<'j, 'c, N>,
    calls: Vec<Call>,
    said: Said,
    /// Whether memory ran out for what calls have returned.
    is_cut: bool,
}

// By hand: a derived drop is inlined at every exit, which slows the prover (CONTRIBUTING.md).
impl<N: Naming> Drop for Worker<'_, '_, N> {
    fn drop(self) {
        let Worker {
            seat: _,
            calls: _,
            said: _,
            is_cut: _,
        } = self;
    }
}

impl<'j, 'c, N: Naming> Worker<'j, 'c, N> {
    fn new(alloc: Global, seat: CountedSeat<'j, 'c>) -> Worker<'j, 'c, N>
        requires { seat.row ≡ N.cells }
    {
        Worker {
            seat: SeatOf::new(alloc, seat),
            calls: Vec::new(alloc),
            said: Said::new(alloc),
            is_cut: false,
        }
    }

    /// Makes the calls that wait.
    fn make_all(&mut self) {
        for call in &self.calls {
            if self.seat.make(call, &mut self.said).is_err() {
                self.is_cut = true;
            }
        }
    }

    fn into_seat(self) -> CountedSeat<'j, 'c>
        ensures { result.row ≡ N.cells }
    {
        let Worker {
            seat,
            calls: _,
            said: _,
            is_cut: _,
        } = self;
        seat.into_seat()
    }

    /// Prints what calls have returned.
    fn print<R: Print>(&mut self, rt: &R) -> Result<(), Stopped> {
        print!(rt; "{}", self.said.text.as_str())?;
        self.said.text.clear();
        self.calls.clear();
        if self.is_cut {
            return Err(Stopped::Refused(Fault::memory()));
        }
        Ok(())
    }
}

/// A new journal. It is made once more if memory runs out.
fn new_journal<'c, R: Print>(
    rt: &R,
    alloc: Global,
    built: &'c AtomicU64,
    keys: KeyOrder,
    cells: usize,
) -> Result<CountedJournal<'c>, Stopped> {
    match Journal::with_hasher(alloc, cells, Counting::new(built), keys) {
        Ok(journal) => Ok(journal),
        Err(fault) => {
            println!(rt; "{fault}")?;
            Ok(Journal::with_hasher(alloc, cells, Counting::new(built), keys)?)
        }
    }
}

/// A new seat of the journal. It is made once more if memory runs out.
fn new_seat<'j, 'c, R: Print>(
    rt: &R,
    journal: &'j CountedJournal<'c>,
    number: u32,
) -> Result<CountedSeat<'j, 'c>, Stopped>
    ensures { IfOk result (λ seat. seat.row ≡ journal.now.row) }
{
    match journal.seat(number) {
        Ok(seat) => Ok(seat),
        Err(fault) => {
            println!(rt; "{fault}")?;
            Ok(journal.seat(number)?)
        }
    }
}

/// A journal and its seats.
struct Table<'j, 'c, N: Naming> {
    alloc: Global,
    journal: &'j CountedJournal<'c>,
    workers: Vec<Worker<'j, 'c, N>>,
    /// Whether calls wait, to be made side by side.
    is_waiting: bool,
    ghost named: { journal.now.row ≡ N.cells },
}

// By hand: a derived drop is inlined at every exit, which slows the prover (CONTRIBUTING.md).
impl<N: Naming> Drop for Table<'_, '_, N> {
    fn drop(self) {
        let Table {
            alloc: _,
            journal: _,
            workers: _,
            is_waiting: _,
        } = self;
    }
}

/// What a line says of a seat: its number, a word, and the rest.
struct SeatLine<'l> {
    number: usize,
    word: &'l str,
    rest: &'l str,
}

impl SeatLine<'_> {
    /// What a line says of a seat. None if it doesn't begin with a number below this one.
    fn of(line: &str, seats: usize) -> Option<SeatLine<'_>> {
        let (number, rest) = line.split_once(' ')?;
        let number = number.parse::<usize>().ok().filter(|it| *it < seats)?;
        let (word, rest) = rest.split_once(' ').unwrap_or((rest, ""));
        Some(SeatLine { number, word, rest })
    }
}

impl<'j, 'c, N: Naming + Send> Table<'j, 'c, N> {
    /// A new journal, with seats that are numbered from 0 to below this number.
    fn new<R: Print>(
        rt: &R,
        alloc: Global,
        journal: &'j CountedJournal<'c>,
        seats: u32,
    ) -> Result<Table<'j, 'c, N>, Stopped>
        requires { journal.now.row ≡ N.cells }
    {
        let mut workers = Vec::new(alloc);
        for number in 0..seats {
            let seat = new_seat(rt, journal, number)?;
            workers.push(Worker::new(alloc, seat))?;
        }
        Ok(Table {
            alloc,
            journal,
            workers,
            is_waiting: false,
        })
    }

    /// The seat with this number makes a call, or it waits.
    fn call<R: Print>(&mut self, rt: &R, number: usize, call: Call) -> Result<(), Stopped> {
        let Some(worker) = self.workers.get_mut(number) else {
            return Err(Stopped::BadLine);
        };
        worker.calls.push(call)?;
        if self.is_waiting {
            return Ok(());
        }
        worker.make_all();
        worker.print(rt)
    }

    /// The seats make the calls that wait, each seat in a thread of its own.
    fn call_side_by_side<R: Threads + Sync>(&mut self, rt: &R) {
        self.is_waiting = false;
        let threads = self.workers.len().clamp(1, MOST_THREADS);
        thread::for_each_mut(
            rt,
            &mut self.workers,
            threads,
            &|_, worker| worker.make_all(),
        );
    }

    /// Prints what calls have returned, one seat after the other.
    fn print<R: Print>(&mut self, rt: &R) -> Result<(), Stopped> {
        for worker in &mut self.workers {
            worker.print(rt)?;
        }
        Ok(())
    }

    /// A seat sees what another one then sees.
    fn learn(&mut self, number: usize, other: usize) -> Result<(), Fault> {
        let Some(from) = self.workers.get_mut(other) else {
            return Ok(());
        };
        let snapshot = from.seat.snapshot()?;
        match self.workers.get_mut(number) {
            Some(to) => to.seat.learn(&snapshot),
            None => Ok(()),
        }
    }

    /// A seat learns from another one, and once more if memory runs out in it.
    fn print_learn<R: Print>(
        &mut self,
        rt: &R,
        number: usize,
        other: usize,
    ) -> Result<(), Stopped> {
        if let Err(fault) = self.learn(number, other) {
            println!(rt; "{fault}")?;
            self.learn(number, other)?;
        }
        Ok(println!(rt; "learnt")?)
    }

    /// Prints how what two seats have seen compares.
    fn print_meet<R: Print>(&self, rt: &R, number: usize, other: usize) -> io::Result<()> {
        match (self.workers.get(number), self.workers.get(other)) {
            (Some(mine), Some(theirs)) => {
                let order = self.journal.meet(&mine.seat.seat, &theirs.seat.seat);
                println!(rt; "{order:?}")
            }
            _ => Ok(()),
        }
    }

    /// Prints whether a seat alone accounts for what it has seen.
    fn print_own_account<R: Print>(&self, rt: &R, number: usize) -> io::Result<()> {
        match self.workers.get(number) {
            Some(worker) => {
                let seats = slice::from_ref(&worker.seat.seat);
                print_account(rt, self.journal.account(seats))
            }
            None => Ok(()),
        }
    }

    /// Carries out what a line says of a seat.
    fn seat_line<R: Print>(&mut self, rt: &R, line: &str) -> Result<(), Stopped> {
        let seats = self.workers.len();
        let SeatLine { number, word, rest } = SeatLine::of(line, seats).ok_or(Stopped::BadLine)?;
        let other = rest.parse::<usize>().ok().filter(|it| *it < seats);
        match (word, other) {
            ("learn", Some(other)) => self.print_learn(rt, number, other),
            ("meet", Some(other)) => Ok(self.print_meet(rt, number, other)?),
            ("account", _) => Ok(self.print_own_account(rt, number)?),
            _ => self.call(rt, number, Call::of(self.alloc, word, rest)?),
        }
    }

    /// Has the seats make the calls that wait, and prints how long that takes.
    fn time<R: Print + Clock + Threads + Sync>(&mut self, rt: &R) -> Result<(), Stopped> {
        let start = Instant::now(rt)?;
        self.call_side_by_side(rt);
        println!(rt; "{} us", start.elapsed(rt)?.as_micros())?;
        Ok(())
    }

    /// Carries out a line.
    fn line<R: Print + Clock + Threads + Sync>(
        &mut self,
        rt: &R,
        built: &AtomicU64,
        line: &str,
    ) -> Result<(), Stopped> {
        match line {
            "wait" => {
                self.is_waiting = true;
                Ok(())
            }
            "go" => {
                self.call_side_by_side(rt);
                self.print(rt)
            }
            "time" => self.time(rt),
            "hashers" => Ok(println!(rt; "hashers {}", built.load(Ordering::SeqCst))?),
            _ => self.seat_line(rt, line),
        }
    }

    /// Prints whether all seats together account for what they have seen.
    fn print_account<R: Print>(self, rt: &R) -> Result<(), Stopped> {
        let Table {
            alloc,
            journal,
            workers,
            is_waiting: _,
        } = self;
        let seats = seats_of(alloc, workers)?;
        Ok(print_account(rt, journal.account(&seats))?)
    }
}

fn print_account<R: Print>(rt: &R, account: Result<(), Unaccounted>) -> io::Result<()> {
    match account {
        Ok(()) => println!(rt; "accounted for"),
        Err(unaccounted) => println!(rt; "unaccounted {}", unaccounted.position),
    }
}

/// The seats of workers that are done.
fn seats_of<'j, 'c, N: Naming>(
    alloc: Global,
    workers: Vec<Worker<'j, 'c, N>>,
) -> Result<Vec<CountedSeat<'j, 'c>>, AllocError>
    ensures { IfOk result (λ seats. All (λ (seat : ASeat). seat.row ≡ N.cells) seats.items) }
{
    let mut seats = Vec::new(alloc);
    for worker in workers {
        seats.push(worker.into_seat())?;
    }
    Ok(seats)
}

/// The seats of a journal of this many cells make the calls that the lines of standard input ask
/// for.
pub fn run<R: Input + Print + Clock + Threads + Sync>(
    rt: &R,
    alloc: Global,
    built: &AtomicU64,
    keys: KeyOrder,
    cells: usize,
    seats: u32,
) -> Result<(), Stopped> {
    let journal = new_journal(rt, alloc, built, keys, cells)?;
    run_at::<Brand, R>(rt, alloc, built, &journal, seats)
}

fn run_at<N: Naming + Send, R: Input + Print + Clock + Threads + Sync>(
    rt: &R,
    alloc: Global,
    built: &AtomicU64,
    journal: &CountedJournal<'_>,
    seats: u32,
) -> Result<(), Stopped>
    requires { journal.now.row ≡ N.cells }
{
    let mut table = Table::<N>::new(rt, alloc, journal, seats)?;
    for line in rt.lines(alloc) {
        table.line(rt, built, &line?)?;
    }
    table.print_account(rt)
}
