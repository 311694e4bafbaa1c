//! The bytes of a source that were read and not yet used.

ghost use Rattle.std.specs.Prelude.{◌≡◌, ◌<◌, ◌≤◌, ◌-◌, ◌++◌, [], ℕ, List, length, drop, true, false, slice_range, OnOk, OnErr, IfOk, IfErr, vec_len};
ghost use Rattle.std.specs.Io.KnownBytes.{IsAtEnd, Consumes};
ghost use Rattle.hist_types.specs.Devices.{CountsFailure};
ghost use Rattle.block_reader.specs.Rounds.{HasReadMore, IsCounted};

use crate::rounds::InputFault;
use hist_types::device::{Failed, Source};
use hist_types::types::Fault;
use std::alloc::{AllocError, Global};
use std::marker::Model;

/// How many bytes of room are added at once.
const PIECE: usize = 65_536;

/// The bytes of a source that were read and are still wanted, in memory that is used again.
#[derive(Drop)]
pub struct Window {
    bytes: Vec<u8>,
    /// Where the wanted bytes begin, and where they end.
    start: usize,
    end: usize,
}

impl Model for Window {
    ghost use Rattle.std.specs.Prelude.{◌≤◌, slice_range, vec_len};
    ghost use Rattle.block_reader.specs.Windows.{Held};

    ghost Value = { Held };

    ghost view = { λ w. record { bytes = slice_range w.bytes.items w.start w.end; room = vec_len w.bytes } };

    ghost invariant = { λ w. (w.start ≤ w.end) × (w.end ≤ vec_len w.bytes) };
}

/// Makes room behind the bytes between these places, and returns their places then. They are moved
/// to the front where the buffer ends behind them, so a line that is read on is moved once.
fn with_room_behind(bytes: &mut Vec<u8>, start: usize, end: usize) -> (usize, usize)
    requires ordered { start ≤ end }
    requires within { end ≤ vec_len bytes.old }
    requires room { end - start < vec_len bytes.old }
    ensures kept { slice_range bytes.new.items result.0 result.1 ≡ slice_range bytes.old.items start end }
    ensures len { vec_len bytes.new ≡ vec_len bytes.old }
    ensures ordered { result.0 ≤ result.1 }
    ensures room { result.1 < vec_len bytes.new }
{
    if start < end && end < bytes.len() {
        return (start, end);
    }
    bytes.copy_within(start..end, 0);
    (0, end - start)
}

impl Window {
    /// A window without room.
    pub fn new(alloc: Global) -> Self
        ensures { result.bytes ≡ [] }
    {
        Window {
            bytes: Vec::new(alloc),
            start: 0,
            end: 0,
        }
    }

    /// A window with room for so many bytes.
    pub fn with_room(alloc: Global, room: usize) -> Result<Self, AllocError>
        ensures bytes { IfOk result (λ window. window.bytes ≡ []) }
        ensures room { IfOk result (λ window. window.room ≡ room) }
    {
        Ok(Window {
            bytes: vec![in alloc; 0; room]?,
            start: 0,
            end: 0,
        })
    }

    /// The bytes that were read.
    pub fn as_slice(&self) -> &[u8]
        ensures bytes { result.now ≡ self.now.bytes }
        ensures within { length self.now.bytes ≤ self.now.room }
    {
        &self.bytes[self.start..self.end]
    }

    /// Whether there is no room for more bytes.
    pub fn is_full(&self) -> bool
        ensures full { result ≡ true → length self.now.bytes ≡ self.now.room }
        ensures room { result ≡ false → length self.now.bytes < self.now.room }
    {
        self.end - self.start == self.bytes.len()
    }

    /// Leaves out so many of the first bytes.
    pub fn forget(&mut self, count: usize)
        requires { count ≤ length self.old.bytes }
        ensures bytes { self.new.bytes ≡ drop count self.old.bytes }
        ensures room { self.new.room ≡ self.old.room }
    {
        self.start += count;
    }

    /// Leaves out all bytes.
    pub fn clear(&mut self)
        ensures bytes { self.new.bytes ≡ [] }
        ensures room { self.new.room ≡ self.old.room }
    {
        self.start = self.end;
    }

    /// Makes room if there is none.
    fn grow(&mut self) -> Result<(), AllocError>
        ensures kept { self.new.bytes ≡ self.old.bytes }
        ensures room { OnOk result (length self.new.bytes < self.new.room) }
    {
        if !self.is_full() {
            return Ok(());
        }
        let len = self.bytes.len().checked_add(PIECE).ok_or(AllocError)?;
        self.bytes.resize(len, 0)
    }

    /// Reads more bytes into the room that there is, and returns how many. 0 is the source's end.
    pub fn read_more<S: Source>(&mut self, source: &mut S) -> Result<usize, Failed>
        requires { length self.old.bytes < self.old.room }
        ensures given { IfOk result (λ count. (more : List ℕ) × (length more ≡ count)
            × (self.new.bytes ≡ self.old.bytes ++ more)
            × Consumes (S.remaining source.old) (S.remaining source.new) more) }
        ensures end { IfOk result (λ count. count ≡ 0 → IsAtEnd (S.remaining source.new)) }
        ensures no_failure { OnOk result (S.failures source.new ≡ S.failures source.old) }
        ensures failed { OnErr result (CountsFailure (S.failures source.old) (S.failures source.new)) }
        ensures none { OnErr result (Consumes (S.remaining source.old) (S.remaining source.new) []) }
        ensures kept { OnErr result (self.new.bytes ≡ self.old.bytes) }
        ensures room { self.new.room ≡ self.old.room }
    {
        let (start, end) = with_room_behind(&mut self.bytes, self.start, self.end);
        self.start = start;
        self.end = end;
        let count = source.read(&mut self.bytes[end..])?;
        self.end = end + count;
        Ok(count)
    }

    /// Reads until there are so many bytes or the source ends, and returns whether it has ended.
    pub fn fill<S: Source>(&mut self, source: &mut S, wanted: usize) -> Result<bool, InputFault>
        ensures given { OnOk result
            (HasReadMore S.Source source.old source.new self.old.bytes self.new.bytes) }
        ensures end { IfOk result (λ ended. ended ≡ true → IsAtEnd (S.remaining source.new)) }
        ensures enough { IfOk result (λ ended. ended ≡ false → wanted ≤ length self.new.bytes) }
        ensures no_failure { OnOk result (S.failures source.new ≡ S.failures source.old) }
        ensures fault { IfErr result
            (λ fault. IsCounted fault (S.failures source.old) (S.failures source.new)) }
    {
        for _ in 0..u64::MAX {
            if self.as_slice().len() >= wanted {
                return Ok(false);
            }
            self.grow()?;
            if self.read_more(source)? == 0 {
                return Ok(true);
            }
        }
        Err(InputFault::Text(Fault::memory()))
    }

    /// Reads the source to its end, and keeps none of its bytes.
    pub fn read_out<S: Source>(&mut self, source: &mut S) -> Result<(), InputFault>
        ensures given { OnOk result ((more : List ℕ)
            × Consumes (S.remaining source.old) (S.remaining source.new) more) }
        ensures end { OnOk result (IsAtEnd (S.remaining source.new)) }
        ensures no_failure { OnOk result (S.failures source.new ≡ S.failures source.old) }
        ensures fault { IfErr result
            (λ fault. IsCounted fault (S.failures source.old) (S.failures source.new)) }
    {
        for _ in 0..u64::MAX {
            self.clear();
            self.grow()?;
            if self.read_more(source)? == 0 {
                return Ok(());
            }
        }
        Err(InputFault::Text(Fault::memory()))
    }
}
