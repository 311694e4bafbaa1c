//! Sessions: each line is carried out, and its reply written whole, before the next line is read.

ghost use Rattle.std.specs.Prelude.{◌≡◌, ◌≤◌, ℕ, Err, IfOk, OnErr, MatchOption, length};
ghost use Rattle.hist_types.specs.LegalAnswers.{refused};
ghost use Rattle.hist_types.specs.Sessions.{overlong, quit, verdict, read, import, reply_of};
ghost use Rattle.live_journal.specs.Seats.{IsSameSeat};
ghost use Rattle.verdict_serve.specs.Sayings.{said};
ghost use Rattle.verdict_serve.specs.Served.{HasServed, HasLostDevice};
ghost use Rattle.verdict_serve.specs.Steps.{HasAnswered, IsPrinted, IsSaidBy, HasStepped, HasStopped, step_for};
ghost use Rattle.hist_types.specs.declared.limits.TheConstants.{MAX_LINE_BYTES};

use crate::lines::{Lines, Next};
use crate::replies::events_reply;
use crate::sayings::{Saying, saying_of};
use hist_types::device::{Failed, Sink, Source};
use hist_types::types::{At, Fault, Refusal};
use hist_types::whole::write_all;
use live_journal::seat::Seat;
use report_text::short::{number_line, refusal_line};
use std::alloc::{AllocError, Global};
use std::hash::BuildHasher;
use std::sync::Wait;

/// What an overlong line is refused for.
const OVERLONG: Fault = Fault {
    refusal: Refusal::BlockFull,
    at: At::Nowhere,
};

/// How a session ended.
#[derive(Clone, Copy, Debug, PartialEq, Eq)]
pub enum Ended {
    /// A line said `quit`.
    Quit,
    /// The source ended.
    Eof,
}

/// Why a session ended before its lines did.
#[derive(Clone, Copy, Debug, PartialEq, Eq)]
pub enum SessionFault {
    /// The source or the sink failed, after `answered` lines had been answered. They are counted up
    /// to the greatest `u64`.
    Device { answered: u64 },
    /// Out of memory, before anything was read.
    Memory,
}

/// What became of a line.
#[derive(Clone, Copy)]
enum Step {
    Answered,
    /// The line said `quit`, and was answered.
    Quit,
    /// There was no line.
    End,
}

/// Writes the reply to a line that is refused. One without operations is no fault of a client.
fn write_refusal<T: Sink>(sink: &mut T, fault: Fault) -> Result<(), Failed>
    ensures { IsPrinted T.Sink result sink.old sink.new (reply_of (refused fault)) }
{
    match fault.refusal {
        Refusal::EmptyImport => write_all(sink, b"skipped\n"),
        _ => write_all(sink, &refusal_line(fault)),
    }
}

fn answer_verdict<H: BuildHasher + Copy, T: Sink>(
    seat: &mut Seat<'_, H>,
    sink: &mut T,
) -> Result<(), Failed>
    ensures reply { HasAnswered T.Sink verdict result seat.old seat.new sink.old sink.new }
    ensures seat { IsSameSeat seat.old seat.new }
{
    match seat.verdict() {
        Ok(verdict) => write_all(sink, verdict.text()),
        Err(fault) => write_refusal(sink, fault),
    }
}

fn answer_read<H: BuildHasher + Copy, T: Sink>(
    alloc: Global,
    seat: &mut Seat<'_, H>,
    sink: &mut T,
    from: u64,
    to: u64,
) -> Result<(), Failed>
    ensures reply { HasAnswered T.Sink (read from to) result seat.old seat.new sink.old sink.new }
    ensures seat { IsSameSeat seat.old seat.new }
{
    match seat.read(from, to) {
        Ok(events) => match events_reply(alloc, &events) {
            Ok(reply) => write_all(sink, &reply),
            Err(AllocError) => write_refusal(sink, Fault::memory()),
        },
        Err(fault) => write_refusal(sink, fault),
    }
}

fn answer_import<H: BuildHasher + Copy, T: Sink>(
    seat: &mut Seat<'_, H>,
    sink: &mut T,
    text: &[u8],
) -> Result<(), Failed>
    ensures reply { HasAnswered T.Sink (import text.now) result seat.old seat.new sink.old sink.new }
    ensures seat { IsSameSeat seat.old seat.new }
{
    match seat.import(text) {
        Ok(index) => write_all(sink, &number_line(b"event", index)),
        Err(fault) => write_refusal(sink, fault),
    }
}

/// Carries out a line, and writes its reply.
fn answer<H: BuildHasher + Copy, T: Sink>(
    alloc: Global,
    seat: &mut Seat<'_, H>,
    sink: &mut T,
    saying: Saying<'_>,
) -> Result<(), Failed>
    ensures reply { HasAnswered T.Sink (said saying.entry) result seat.old seat.new sink.old sink.new }
    ensures seat { IsSameSeat seat.old seat.new }
{
    match saying {
        Saying::Overlong => write_all(sink, &refusal_line(OVERLONG)),
        Saying::Quit => write_all(sink, b"bye\n"),
        Saying::Verdict => answer_verdict(seat, sink),
        Saying::Read { from, to } => answer_read(alloc, seat, sink, from, to),
        Saying::Import(text) => answer_import(seat, sink, text),
    }
}

/// What the line says that the source gave next, if it gave one.
fn saying_after(lines: &Lines, next: Next) -> Option<Saying<'_>>
    requires { next ≡ Next.Line → length lines.now.line ≤ MAX_LINE_BYTES }
    ensures { MatchOption result (next ≡ Next.End)
        (λ saying. IsSaidBy next lines.now.line (said saying)) }
{
    match next {
        Next::Line => Some(saying_of(lines.line())),
        Next::Overlong => Some(Saying::Overlong),
        Next::End => None,
    }
}

/// What becomes of a line that says this, once it is answered.
fn step_for(saying: Saying<'_>) -> Step
    ensures { result ≡ step_for (said saying.entry) }
{
    match saying {
        Saying::Quit => Step::Quit,
        _ => Step::Answered,
    }
}

/// Reads the next line, carries it out and writes its reply.
fn serve_line<R: Wait, H: BuildHasher + Copy, S: Source, T: Sink>(
    rt: &R,
    alloc: Global,
    lines: &mut Lines,
    seat: &mut Seat<'_, H>,
    source: &mut S,
    sink: &mut T,
) -> Result<Step, Failed>
    ensures ok { IfOk result (λ step. HasStepped S.Source T.Sink step lines.old.unread lines.new.unread
        seat.old seat.new source.old source.new sink.old sink.new) }
    ensures err { OnErr result (HasStopped S.Source T.Sink lines.old.unread
        seat.old seat.new source.old source.new sink.old sink.new) }
    ensures seat { IsSameSeat seat.old seat.new }
{
    let next = lines.next(rt, source)?;
    let Some(saying) = saying_after(lines, next) else {
        return Ok(Step::End);
    };
    answer(alloc, seat, sink, saying)?;
    Ok(step_for(saying))
}

/// Answers each line of the source, up to and with the first that says `quit`.
///
/// Memory for one line is taken at first. Where later memory runs out, that is the reply to the
/// line that asked for it.
pub fn session<R: Wait, H: BuildHasher + Copy, S: Source, T: Sink>(
    rt: &R,
    alloc: Global,
    seat: &mut Seat<'_, H>,
    source: &mut S,
    sink: &mut T,
) -> Result<Ended, SessionFault>
    // Each line of the source has one reply, by a legal answer to the seat, and the sink took them
    // whole.
    ensures ended { IfOk result (λ ended. HasServed S.Source T.Sink ended
        seat.old seat.new source.old source.new sink.old sink.new) }
    // A device failed. If the source did, each line that it gave has its reply; if the sink did,
    // the lines answered so far have theirs, and of the next one a beginning was taken.
    ensures device { (answered : ℕ) → result ≡ Err (SessionFault.Device answered)
        → HasLostDevice S.Source T.Sink answered
        seat.old seat.new source.old source.new sink.old sink.new }
    ensures memory_source { result ≡ Err SessionFault.Memory → source.new ≡ source.old }
    ensures memory_sink { result ≡ Err SessionFault.Memory → sink.new ≡ sink.old }
    ensures memory_seat { result ≡ Err SessionFault.Memory → seat.new ≡ seat.old }
    ensures seat { IsSameSeat seat.old seat.new }
{
    let Ok(mut lines) = Lines::new(alloc) else {
        return Err(SessionFault::Memory);
    };
    let mut answered: u64 = 0;
    for _ in rt.forever() {
        match serve_line(rt, alloc, &mut lines, seat, source, sink) {
            Ok(Step::Answered) => answered = answered.saturating_add(1),
            Ok(Step::Quit) => return Ok(Ended::Quit),
            Ok(Step::End) => return Ok(Ended::Eof),
            Err(Failed) => return Err(SessionFault::Device { answered }),
        }
    }
    unreachable!()
}
