//! Calls of one seat, and what they return as text.

ghost use Rattle.std.specs.Prelude.{◌≡◌, IfOk};
ghost use Rattle.edn_ops.specs.SourceTexts.{AreMopTexts};

use crate::hashers::Counting;
use crate::stopped::Stopped;
use block_reader::one_block::block_of_text;
use edn_ops::write::{MopText, write_op};
use hist_types::types::{Fault, OpKind, Outcome, Refusal};
use live_journal::seat::{Ops, Seat};
use live_journal::snapshot::Snapshot;
use op_block::block::Block;
use op_block::stamp::Stamp;
use op_view::mops::Mop;
use op_view::op::OpView;
use std::alloc::{AllocError, Global};
use std::marker::{Brand, PhantomData};
use std::str;
use verdict::types::Verdict;

pub type CountedSeat<'j, 'c> = Seat<'j, Counting<'c>>;

/// Which row it is. A seat in a list is known by its type alone, so the type says of which row.
pub trait Naming {
    ghost use Rattle.std.specs.Prelude.{ℕ, List};

    ghost cells: { List ℕ };
}

impl Naming for Brand {
    ghost use Rattle.std.specs.Prelude.{[]};

    ghost cells = { [] };
}

/// A call of a seat.
#[derive(Drop)]
pub enum Call {
    /// Begins or completes a transaction, as the block's operation says.
    Write(Block),
    Import(String),
    Read(u64, u64),
    Snapshot,
    Verdict,
}

/// The two numbers that a text has.
fn range_of(text: &str) -> Option<(u64, u64)> {
    let (from, to) = text.split_once(' ')?;
    Some((from.parse::<u64>().ok()?, to.parse::<u64>().ok()?))
}

impl Call {
    /// The call that a word asks for, and what comes after the word.
    pub fn of(alloc: Global, word: &str, rest: &str) -> Result<Call, Stopped> {
        match word {
            "write" => {
                let stamp = Stamp { seat: 0, call: 0 };
                Ok(Call::Write(block_of_text(alloc, rest.as_bytes(), stamp)?))
            }
            "import" => Ok(Call::Import(String::from_str(alloc, rest)?)),
            "read" => {
                let (from, to) = range_of(rest).ok_or(Stopped::BadLine)?;
                Ok(Call::Read(from, to))
            }
            "snapshot" => Ok(Call::Snapshot),
            "verdict" => Ok(Call::Verdict),
            _ => Err(Stopped::BadLine),
        }
    }
}

/// What calls have returned, as lines.
#[derive(Drop)]
pub struct Said {
    alloc: Global,
    pub text: String,
}

impl Said {
    pub fn new(alloc: Global) -> Said {
        Said {
            alloc,
            text: String::new(alloc),
        }
    }

    fn number(&mut self, word: &str, number: u64) -> Result<(), AllocError> {
        let line = format!(in self.alloc; "{word} {number}\n")?;
        self.text.push_str(&line)
    }

    /// Says a fault, and returns whether memory ran out.
    pub fn fault(&mut self, fault: Fault) -> Result<bool, AllocError> {
        let line = format!(in self.alloc; "{fault}\n")?;
        self.text.push_str(&line)?;
        Ok(fault.refusal == Refusal::Memory)
    }

    fn write(&mut self, answer: Result<u64, Fault>) -> Result<bool, AllocError> {
        match answer {
            Ok(index) => {
                self.number("event", index)?;
                Ok(false)
            }
            Err(fault) => self.fault(fault),
        }
    }

    fn bytes(&mut self, bytes: &[u8]) -> Result<(), AllocError> {
        self.text
            .push_str(str::from_utf8(bytes).unwrap_or("not UTF-8\n"))
    }

    fn op(&mut self, op: &OpView<'_>) -> Result<(), AllocError> {
        let mut line = Vec::new(self.alloc);
        let texts = texts_of(self.alloc, op)?;
        write_op(&mut line, op.kind(), op.process(), &texts)?;
        line.push(b'\n')?;
        self.bytes(&line)
    }

    fn events(&mut self, events: &Ops<'_>) -> Result<(), AllocError> {
        self.number("events", events.len())?;
        for op in events.iter() {
            self.op(&op)?;
        }
        Ok(())
    }

    fn read(&mut self, answer: Result<Ops<'_>, Fault>) -> Result<bool, AllocError> {
        match answer {
            Ok(events) => {
                self.events(&events)?;
                Ok(false)
            }
            Err(fault) => self.fault(fault),
        }
    }

    fn snapshot(&mut self, answer: Result<Snapshot<'_>, Fault>) -> Result<bool, AllocError> {
        match answer {
            Ok(snapshot) => {
                self.number("snapshot", snapshot.prefix().events())?;
                Ok(false)
            }
            Err(fault) => self.fault(fault),
        }
    }

    fn verdict(&mut self, answer: Result<Verdict<'_>, Fault>) -> Result<bool, AllocError> {
        match answer {
            Ok(verdict) => {
                self.bytes(verdict.text())?;
                Ok(false)
            }
            Err(fault) => self.fault(fault),
        }
    }
}

/// The texts of an operation's keys and values.
fn texts_of<'a>(alloc: Global, op: &OpView<'a>) -> Result<Vec<MopText<'a>>, AllocError>
    ensures { IfOk result (λ texts. AreMopTexts texts.items op.now.mops) }
{
    let mut texts = Vec::new(alloc);
    for mop in op.mops() {
        texts.push(mop.text())?;
    }
    Ok(texts)
}

/// How a completion of this kind ends its transaction. None for an invocation.
fn outcome_of(kind: OpKind) -> Option<Outcome> {
    match kind {
        OpKind::Invoke => None,
        OpKind::Ok => Some(Outcome::Ok),
        OpKind::Fail => Some(Outcome::Fail),
        OpKind::Info => Some(Outcome::Info),
    }
}

/// A seat of the row that its type names.
pub struct SeatOf<'j, 'c, N: Naming> {
    alloc: Global,
    pub seat: CountedSeat<'j, 'c>,
    of: PhantomData<N>,
    ghost row: { seat.row ≡ N.cells },
}

// By hand: a derived drop is inlined at every exit, which slows the prover (CONTRIBUTING.md).
impl<N: Naming> Drop for SeatOf<'_, '_, N> {
    fn drop(self) {
        let SeatOf {
            alloc: _,
            seat: _,
            of: _,
        } = self;
    }
}

impl<'j, 'c, N: Naming> SeatOf<'j, 'c, N> {
    pub fn new(alloc: Global, seat: CountedSeat<'j, 'c>) -> Self
        requires { seat.row ≡ N.cells }
    {
        SeatOf {
            alloc,
            seat,
            of: PhantomData,
        }
    }

    pub fn into_seat(self) -> CountedSeat<'j, 'c>
        ensures { result.row ≡ N.cells }
    {
        let SeatOf {
            alloc: _,
            seat,
            of: _,
        } = self;
        seat
    }

    /// Begins or completes the transaction, as an operation says.
    fn write_op(&mut self, op: &OpView<'_>) -> Result<u64, Fault> {
        let mops = op.mops().collect::<Vec<Mop>>(self.alloc)?;
        match outcome_of(op.kind()) {
            None => self.seat.begin(op.process(), &mops),
            Some(outcome) => self.seat.complete(op.process(), outcome, &mops),
        }
    }

    fn write(&mut self, block: &Block) -> Result<u64, Fault> {
        if block.len() == 0 {
            return Ok(0);
        }
        self.write_op(&OpView::of(block, 0))
    }

    /// Makes a call, says what it returns, and returns whether memory ran out in it.
    fn attempt(&mut self, call: &Call, said: &mut Said) -> Result<bool, AllocError> {
        match call {
            Call::Write(block) => said.write(self.write(block)),
            Call::Import(text) => said.write(self.seat.import(text.as_bytes())),
            Call::Read(from, to) => said.read(self.seat.read(*from, *to)),
            Call::Snapshot => said.snapshot(self.seat.snapshot()),
            Call::Verdict => said.verdict(self.seat.verdict()),
        }
    }

    /// Makes a call, and once more if memory runs out in it.
    pub fn make(&mut self, call: &Call, said: &mut Said) -> Result<(), AllocError> {
        if self.attempt(call, said)? {
            self.attempt(call, said)?;
        }
        Ok(())
    }

    /// What the seat sees.
    pub fn snapshot(&mut self) -> Result<Snapshot<'j>, Fault>
        ensures { IfOk result (λ snapshot. snapshot.row ≡ N.cells) }
    {
        self.seat.snapshot()
    }

    pub fn learn(&mut self, snapshot: &Snapshot<'j>) -> Result<(), Fault>
        requires { snapshot.now.row ≡ N.cells }
    {
        self.seat.learn(snapshot)
    }
}
