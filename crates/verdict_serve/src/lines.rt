//! The lines that a source gives, in memory that is taken once.

ghost use Rattle.std.specs.Prelude.{◌≡◌, ◌+◌, ◌<◌, ◌≤◌, [], ◌++◌, List, ℕ, length, take, IfOk, OnErr, MatchOption};
ghost use Rattle.std.specs.Io.KnownBytes.{IsAtEnd};
ghost use Rattle.hist_types.specs.declared.limits.TheConstants.{MAX_LINE_BYTES};
ghost use Rattle.verdict_serve.specs.Cuts.{IsUnbroken, IsLineEnd};
ghost use Rattle.verdict_serve.specs.Sources.{HasGiven, GivesNext, HasFailed};
ghost use Rattle.verdict_serve.specs.Searches.{IsFound, cut_after};

use block_reader::window::Window;
use hist_types::device::{Failed, Source};
use hist_types::limits::MAX_LINE_BYTES;
use memchr::memchr;
use std::alloc::{AllocError, Global};
use std::marker::Model;
use std::sync::Wait;

/// What a source gives next.
#[derive(Clone, Copy, Debug, PartialEq, Eq)]
pub enum Next {
    /// A line, which `Lines::line` returns.
    Line,
    /// A line that is longer than a line may be. It was dropped.
    Overlong,
    /// The source has ended. Bytes after the last line's byte 10 were dropped.
    End,
}

/// Room for a line of the greatest length with its byte 10.
const ROOM: usize = MAX_LINE_BYTES + 1;

/// The lines of a source, one after the other. It has room for the longest line that there may be,
/// and takes no more memory.
#[derive(Drop)]
pub struct Lines {
    window: Window,
    /// How many bytes at the window's front are of the line that was given last, with its byte 10.
    given: usize,
}

impl Model for Lines {
    ghost use Rattle.std.specs.Prelude.{◌≡◌, ◌+◌, ◌≤◌, length};
    ghost use Rattle.hist_types.specs.declared.limits.TheConstants.{MAX_LINE_BYTES};
    ghost use Rattle.verdict_serve.specs.Cuts.{Cut};
    ghost use Rattle.verdict_serve.specs.Searches.{cut_after};

    ghost Value = { Cut };

    ghost view = { λ l. cut_after l.given l.window.bytes };

    ghost invariant = { λ l. (l.given ≤ length l.window.bytes) × (l.window.room ≡ MAX_LINE_BYTES + 1) };
}

/// What a search for a line's end came to.
#[derive(Clone, Copy)]
enum Found {
    /// The first byte 10 is at this offset.
    At(usize),
    /// As many bytes are held as there is room for, and none is a byte 10.
    Full,
    /// The source has ended, and no byte 10 is held.
    End,
}

/// Where the first byte 10 is.
fn line_end(bytes: &[u8]) -> Option<usize>
    ensures { MatchOption result (IsUnbroken bytes.now) (IsLineEnd bytes.now) }
{
    memchr(b'\n', bytes)
}

/// Where the first byte 10 is, if none of the first `searched` bytes is one.
fn line_end_after(bytes: &[u8], searched: usize) -> Option<usize>
    requires within { searched ≤ length bytes.now }
    requires unbroken { IsUnbroken (take searched bytes.now) }
    ensures { MatchOption result (IsUnbroken bytes.now) (IsLineEnd bytes.now) }
{
    Some(searched + line_end(&bytes[searched..])?)
}

/// Reads until a byte 10 is held, unless there is no more room before or the source has ended.
fn find_line_end<S: Source>(window: &mut Window, source: &mut S) -> Result<Found, Failed>
    requires { window.old.room ≡ MAX_LINE_BYTES + 1 }
    ensures ok { IfOk result (λ found. (given : List ℕ) × (window.new.bytes ≡ window.old.bytes ++ given)
        × HasGiven S.Source source.old source.new given × IsFound found window.new.bytes) }
    ensures end { result ≡ Ok Found.End → IsAtEnd (S.remaining source.new) }
    ensures err { OnErr result (HasFailed S.Source window.old.bytes source.old source.new) }
    ensures within { length window.new.bytes ≤ MAX_LINE_BYTES + 1 }
    ensures room { window.new.room ≡ window.old.room }
{
    let mut searched = 0;
    loop {
        if let Some(place) = line_end_after(window.as_slice(), searched) {
            return Ok(Found::At(place));
        }
        if window.is_full() {
            return Ok(Found::Full);
        }
        searched = window.as_slice().len();
        if window.read_more(source)? == 0 {
            return Ok(Found::End);
        }
    }
}

/// Drops an overlong line, of which the first bytes are held, up to its byte 10 and with it.
fn skip<R: Wait, S: Source>(window: &mut Window, rt: &R, source: &mut S) -> Result<Next, Failed>
    requires room { window.old.room ≡ MAX_LINE_BYTES + 1 }
    requires unbroken { IsUnbroken window.old.bytes }
    requires long { MAX_LINE_BYTES < length window.old.bytes }
    ensures ok { IfOk result (λ next. GivesNext S.Source next window.old.bytes source.old source.new
        (cut_after 0 window.new.bytes)) }
    ensures end { result ≡ Ok Next.End → IsAtEnd (S.remaining source.new) }
    ensures err { OnErr result (HasFailed S.Source window.old.bytes source.old source.new) }
    ensures room { window.new.room ≡ window.old.room }
{
    window.clear();
    for _ in rt.forever() {
        if window.read_more(source)? == 0 {
            return Ok(Next::End);
        }
        if let Some(place) = line_end(window.as_slice()) {
            window.forget(place + 1);
            return Ok(Next::Overlong);
        }
        window.clear();
    }
    unreachable!()
}

impl Lines {
    /// The lines of a source before the first one. The only error is out of memory.
    pub fn new(alloc: Global) -> Result<Lines, AllocError>
        ensures { IfOk result (λ lines. lines.unread ≡ []) }
    {
        Ok(Lines {
            window: Window::with_room(alloc, ROOM)?,
            given: 0,
        })
    }

    /// The line that was given last, without its byte 10. It is empty where none was given.
    pub fn line(&self) -> &[u8]
        ensures { result.now ≡ self.now.line }
    {
        match self.given.checked_sub(1) {
            Some(len) => &self.window.as_slice()[..len],
            None => &[],
        }
    }

    /// Gives the next line. It reads only where no whole line is left of what was read before.
    ///
    /// It waits for as long as an overlong line doesn't end.
    pub fn next<R: Wait, S: Source>(&mut self, rt: &R, source: &mut S) -> Result<Next, Failed>
        ensures ok { IfOk result
            (λ next. GivesNext S.Source next self.old.unread source.old source.new self.new) }
        ensures end { result ≡ Ok Next.End → IsAtEnd (S.remaining source.new) }
        ensures err { OnErr result (HasFailed S.Source self.old.unread source.old source.new) }
    {
        self.window.forget(self.given);
        self.given = 0;
        match find_line_end(&mut self.window, source)? {
            Found::At(place) => {
                self.given = place + 1;
                Ok(Next::Line)
            }
            Found::Full => skip(&mut self.window, rt, source),
            Found::End => Ok(Next::End),
        }
    }
}
