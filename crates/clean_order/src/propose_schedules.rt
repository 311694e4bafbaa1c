//! Proposes schedules: ranks for transactions, one after the other. Nothing is claimed of them:
//! whether they keep edges is looked at afterwards.
//!
//! Either a transaction is put once, or its start and its commit are put apart: what it depends on
//! by a ww or wr edge commits before it starts, and those that read what it writes over start
//! before it commits.

use crate::earlier::{Earlier, leads_on};
use crate::ends::BEYOND;
use crate::keeping::number_at;
use dep_edges::history::History;
use key_versions::types::Follower;
use schedules::types::EdgeKinds;
use std::alloc::{AllocError, Global};
use txn_pairs::types::Status;

/// In place of a rank: it was begun with, and not put.
const BEGUN: u32 = u32::MAX;

/// What others wait for.
#[derive(Clone, Copy)]
struct Frame {
    number: u32,
    /// How many of the versions that the transaction reads and installs need no further look.
    looked: usize,
    /// At the next one of these the link with which the look at the versions before it goes on,
    /// where it has begun.
    link: Option<u32>,
    /// How many of the first readers of the version that is looked at need no further look.
    readers: u32,
}

impl Frame {
    fn new(number: u32) -> Self {
        Frame {
            number,
            looked: 0,
            link: None,
            readers: 0,
        }
    }
}

/// Whether the transaction at the place is one of these, which come in the order of their places.
fn is_among(followers: &[Follower], place: u32) -> bool {
    let index = followers.partition_point(|follower| follower.txn < place);
    match followers.get(index) {
        Some(follower) => follower.txn == place,
        None => false,
    }
}

/// What was put so far. A transaction that is put once, and the commit of one whose start is put
/// apart, have its place as their number. The numbers of starts come after them, and after two
/// numbers that mean nothing. Versions go by number, too.
#[derive(Drop)]
struct Putting<'h, 'v, 'a, const APART: bool> {
    history: &'h History<'v, 'a>,
    txns: u32,
    kinds: EdgeKinds,
    /// Which one it was that was put, from 1 on. 0 is one that wasn't begun with.
    ranks: Vec<u32>,
    put: u32,
    /// How many transactions were invoked so far.
    invoked: u32,
    /// The last rank before one was begun with that wasn't invoked yet. What has a later rank may
    /// come before what completed before its invocation.
    timely: u32,
    /// Those that were begun with and not put, each waiting for the one after it.
    waiting: Vec<Frame>,
    earlier: Earlier,
    /// How many of the version's first readers were put.
    looked: Vec<u32>,
}

impl<'h, 'v, 'a, const APART: bool> Putting<'h, 'v, 'a, APART> {
    /// Nothing was put yet.
    fn new(
        alloc: Global,
        history: &'h History<'v, 'a>,
        kinds: EdgeKinds,
    ) -> Result<Self, AllocError> {
        let txns = u32::try_from(history.txns().len()).map_err(|_| AllocError)?;
        let width = txns.checked_add(BEYOND).ok_or(AllocError)?;
        let numbers = if APART {
            width.checked_mul(2).ok_or(AllocError)?
        } else {
            width
        };
        Ok(Putting {
            history,
            txns,
            kinds,
            ranks: vec![in alloc; 0; numbers as usize]?,
            put: 0,
            invoked: 0,
            timely: BEGUN - 1,
            waiting: Vec::new(alloc),
            earlier: Earlier::of(alloc, history, APART)?,
            looked: vec![in alloc; 0; history.versions()]?,
        })
    }

    /// Puts the transactions that have a rank up to this one, their starts and their commits alike.
    fn put_before(&mut self, ranks: &[u32], timely: u32) {
        for (place, rank) in ranks.iter().enumerate() {
            if *rank <= timely && place < self.txns as usize {
                self.put = self.put.max(*rank);
                self.set_rank(place as u32, *rank);
                self.set_rank(self.start(place as u32), *rank);
            }
        }
    }

    /// The ranks by number, from 1 on.
    fn into_ranks(self) -> Vec<u32> {
        let Putting {
            history: _,
            txns: _,
            kinds: _,
            ranks,
            put: _,
            invoked: _,
            timely: _,
            waiting: _,
            earlier: _,
            looked: _,
        } = self;
        ranks
    }

    fn is_put(&self, number: u32) -> bool {
        let rank = number_at(&self.ranks, number as usize);
        rank != 0 && rank != BEGUN
    }

    /// Whether it is a start that has the number.
    fn is_start(&self, number: u32) -> bool {
        APART && number >= self.txns.wrapping_add(BEYOND)
    }

    /// Whether it is a commit that has the number.
    fn is_commit(&self, number: u32) -> bool {
        APART && number < self.txns
    }

    /// The place of the transaction whose number it is.
    fn place(&self, number: u32) -> u32 {
        if self.is_start(number) {
            number.wrapping_sub(self.txns).wrapping_sub(BEYOND)
        } else {
            number
        }
    }

    /// The number of the start of the transaction at the place.
    fn start(&self, place: u32) -> u32 {
        if APART {
            place.wrapping_add(self.txns).wrapping_add(BEYOND)
        } else {
            place
        }
    }

    /// Puts each of the transactions, and whatever has to come before, by who completed when. It is
    /// false if one can't be put.
    fn put_each(&mut self, ends: &[u32]) -> Result<bool, AllocError> {
        let invocation = self.txns.wrapping_add(1);
        for place in ends {
            self.invoked = self.invoked.wrapping_add(u32::from(*place == invocation));
            if *place < self.txns && !self.put(*place)? {
                return Ok(false);
            }
        }
        Ok(true)
    }

    /// Puts what has the number, and before it whatever has to come before it. It is false if one
    /// of these waits for another already.
    fn put(&mut self, number: u32) -> Result<bool, AllocError> {
        if self.is_put(number) {
            return Ok(true);
        }
        if !self.begin(number) {
            return Ok(false);
        }
        let mut frame = Frame::new(number);
        // Each turn puts one or begins with one.
        for _ in 0..u64::MAX {
            match self.first_before(&mut frame) {
                Some(before) => {
                    self.waiting.push(frame)?;
                    if !self.begin(before) {
                        return Ok(false);
                    }
                    frame = Frame::new(before);
                }
                None => {
                    self.rank(frame.number)?;
                    match self.waiting.pop() {
                        Some(waiting) => frame = waiting,
                        None => return Ok(true),
                    }
                }
            }
        }
        Ok(false)
    }

    /// Begins with what has the number. It is false if that was done before.
    fn begin(&mut self, number: u32) -> bool {
        if self.place(number) >= self.invoked {
            self.timely = self.timely.min(self.put);
        }
        match self.ranks.get_mut(number as usize) {
            Some(rank) if *rank == 0 => {
                *rank = BEGUN;
                true
            }
            _ => false,
        }
    }

    /// Gives the number the next rank.
    fn rank(&mut self, number: u32) -> Result<(), AllocError> {
        self.put = self.put.checked_add(1).ok_or(AllocError)?;
        self.set_rank(number, self.put);
        Ok(())
    }

    fn set_rank(&mut self, number: u32, rank: u32) {
        if let Some(old) = self.ranks.get_mut(number as usize) {
            *old = rank;
        }
    }

    /// The number of what has to be put before this one and wasn't.
    fn first_before(&mut self, frame: &mut Frame) -> Option<u32> {
        let place = self.place(frame.number);
        if self.is_commit(frame.number) && !self.is_put(self.start(place)) {
            return Some(self.start(place));
        }
        let place = place as usize;
        if place >= self.history.txns().len() {
            return None;
        }
        let reads = self.history.reads(place);
        let installs = self.history.installs(place);
        for step in frame.looked..reads.len().saturating_add(installs.len()) {
            let before = match reads.get(step) {
                Some(number) => self.before_read(frame, *number as usize),
                None => match installs.get(step.saturating_sub(reads.len())) {
                    Some(number) => self.before_install(frame, *number as usize),
                    None => None,
                },
            };
            if before.is_some() {
                frame.looked = step;
                return before;
            }
            frame.link = None;
            frame.readers = 0;
        }
        None
    }

    /// What has to be put before this one for what the transaction reads: the one that wrote the
    /// version, if wr edges count or it installs the next one, and if it does, the others that read
    /// it.
    fn before_read(&mut self, frame: &mut Frame, version: usize) -> Option<u32> {
        if version >= self.history.versions() {
            return None;
        }
        let place = self.place(frame.number);
        let followers = self.history.followers(version);
        if let Some(writer) = self.next_writer(frame.number, version) {
            if self.waits(place, followers, writer) {
                return Some(writer);
            }
        }
        if self.waits_for_readers(place, followers, version) {
            self.next_reader(frame, version)
        } else {
            None
        }
    }

    /// Whether the transaction at the place, which reads a version with these followers, waits for
    /// the one that wrote it: where wr edges count, or it is one of the followers, or the other one
    /// isn't ok, and so is put where others wait for it alone.
    fn waits(&self, place: u32, followers: &[Follower], writer: u32) -> bool {
        self.kinds.wr || is_among(followers, place) || !self.is_ok(writer)
    }

    /// Whether the transaction at the place, which reads a version with these followers, waits for
    /// the others that read it: where it alone installs the next one, or where several that read it
    /// do, none of which can be put once before the others. Else this is looked at where the next
    /// version is installed.
    fn waits_for_readers(&self, place: u32, followers: &[Follower], version: usize) -> bool {
        match followers {
            [] => false,
            [follower] => follower.txn == place,
            _ => !APART && !leads_on(self.history, false, version) && is_among(followers, place),
        }
    }

    fn is_ok(&self, place: u32) -> bool {
        let place = place as usize;
        place < self.history.txns().len() && self.history.txn(place).status() == Status::Ok
    }

    /// What has to be put before this one for what the transaction installs: those that wrote or
    /// read the versions before it.
    fn before_install(&mut self, frame: &mut Frame, version: usize) -> Option<u32> {
        let mut next = frame.link.unwrap_or(self.earlier.first(version));
        for _ in 0..u64::MAX {
            let link = self.earlier.link(next)?;
            let before = match self.next_writer(frame.number, link.version as usize) {
                Some(writer) => Some(writer),
                None => self.next_reader(frame, link.version as usize),
            };
            if before.is_some() {
                frame.link = Some(next);
                return before;
            }
            next = link.next;
            frame.readers = 0;
        }
        None
    }

    /// The transaction that wrote the version, if it is another one that didn't fail and wasn't
    /// put. A commit that waits for its start needs no look at it.
    fn next_writer(&self, number: u32, version: usize) -> Option<u32> {
        if self.is_commit(number) || version >= self.history.versions() {
            return None;
        }
        let writer = self.history.writer(version)?.txn;
        if writer == self.place(number)
            || self.is_put(writer)
            || self.history.txn(writer as usize).status() == Status::Fail
        {
            return None;
        }
        Some(writer)
    }

    /// The start of a reader of the version, other than the transaction, that wasn't put, if rw
    /// edges count. A start waits for none.
    fn next_reader(&mut self, frame: &mut Frame, version: usize) -> Option<u32> {
        if !self.kinds.rw || self.is_start(frame.number) || version >= self.history.versions() {
            return None;
        }
        let place = self.place(frame.number);
        let readers = self.history.readers(version);
        let mut looked = self.looked.get(version).copied().unwrap_or(0);
        for reader in readers.get(looked as usize..)? {
            if !self.is_put(self.start(*reader)) {
                break;
            }
            looked = looked.saturating_add(1);
        }
        if let Some(old) = self.looked.get_mut(version) {
            *old = looked;
        }
        frame.readers = frame.readers.max(looked);
        for reader in readers.get(frame.readers as usize..)? {
            let start = self.start(*reader);
            if *reader != place && !self.is_put(start) {
                return Some(start);
            }
            frame.readers = frame.readers.saturating_add(1);
        }
        None
    }
}

/// Ranks for transactions, as far as they could be put, and after them two numbers that mean
/// nothing.
#[derive(Drop)]
pub struct Put {
    pub ranks: Vec<u32>,
    /// Up to which rank each comes after what completed before its invocation.
    pub timely: u32,
    /// Whether each could be put after what has to come before it.
    pub is_all: bool,
}

/// Ranks for the transactions of a history, by who completed when, each after what has to come
/// before it: those whose writes it wrote over and, as far as their edges count, those whose writes
/// it read and those that read what it wrote over.
pub fn ranks(
    alloc: Global,
    history: &History<'_, '_>,
    kinds: EdgeKinds,
    ends: &[u32],
) -> Result<Put, AllocError> {
    let mut putting = Putting::<'_, '_, '_, false>::new(alloc, history, kinds)?;
    let is_all = putting.put_each(ends)?;
    let timely = putting.timely;
    Ok(Put {
        ranks: putting.into_ranks(),
        timely,
        is_all,
    })
}

/// Ranks for the starts and for the commits of a history's transactions.
#[derive(Drop)]
pub struct Snapshots {
    txns: usize,
    /// Those of the commits, and after them those of the starts.
    ranks: Vec<u32>,
}

impl Snapshots {
    /// They are put by who completed when, if each can be put after what has to come before it:
    /// before a start the commits of those whose writes the transaction read or wrote over, and
    /// before a commit its start and those of the others that read what it wrote over. Those that
    /// have one of these ranks, up to the timely one, keep it.
    pub fn of(
        alloc: Global,
        history: &History<'_, '_>,
        ranks: &[u32],
        timely: u32,
        ends: &[u32],
    ) -> Result<Option<Self>, AllocError> {
        let mut putting = Putting::<'_, '_, '_, true>::new(alloc, history, EdgeKinds::ALL)?;
        putting.put_before(ranks, timely);
        if !putting.put_each(ends)? {
            return Ok(None);
        }
        Ok(Some(Snapshots {
            txns: history.txns().len(),
            ranks: putting.into_ranks(),
        }))
    }

    pub fn starts(&self) -> &[u32] {
        self.ranks
            .get(self.txns.wrapping_add(BEYOND as usize)..)
            .unwrap_or(&[])
    }

    pub fn commits(&self) -> &[u32] {
        self.ranks
            .get(..self.txns.wrapping_add(BEYOND as usize))
            .unwrap_or(&[])
    }
}
