//! Sessions over files and named pipes.

use command_run::answer::{Lack, Status};
use command_run::run::print_lack;
use hist_types::device::{Sink, StreamSink, StreamSource};
use hist_types::types::{Fault, KeyOrder, Refusal};
use hist_types::whole::write_all;
use live_journal::journal::Journal;
use std::alloc::Global;
use std::fs::File;
use std::io;
use std::io::ErrorKind;
use std::sync::Wait;
use std::thread::Threads;
use verdict_serve::clients::{Client, sessions};
use verdict_serve::session::{Ended, SessionFault};

/// A pair of paths, opened: lines are read from the first, and replies are written to the second.
type FileClient = Client<StreamSource<File>, StreamSink<File>>;

/// Opens each pair in order, the first path of a pair before the second. A file that is written to
/// is created or emptied.
pub fn open_pairs(
    rt: &HostRuntime,
    alloc: Global,
    paths: &[String],
) -> io::Result<Vec<FileClient>> {
    let mut clients = Vec::with_capacity(alloc, paths.len() / 2)?;
    for pair in paths.chunks_exact(2) {
        let source = StreamSource::new(File::open(rt, pair[0].as_str())?);
        let sink = StreamSink::new(File::create(rt, pair[1].as_str())?);
        clients.push(Client { source, sink })?;
    }
    Ok(clients)
}

/// How sessions ended: as the first one did that neither said `quit` nor came to the end of its
/// lines.
fn status_of(ends: &[Result<Ended, SessionFault>]) -> Status {
    for end in ends {
        match end {
            Ok(Ended::Quit | Ended::Eof) => {}
            Err(SessionFault::Device { answered: _ }) => return Status::DeviceFault,
            Err(SessionFault::Memory) => return Status::Lacking,
        }
    }
    Status::NoPhenomenon
}

/// A session for each client, all at a journal of this many cells and with keys of this order.
fn serve_clients<R: Threads + Wait + Sync>(
    rt: &R,
    alloc: Global,
    cells: usize,
    keys: KeyOrder,
    clients: Vec<FileClient>,
) -> Result<Status, Fault> {
    let journal = Journal::new(alloc, cells, keys)?;
    let ends = sessions(rt, alloc, &journal, clients)?;
    Ok(status_of(&ends))
}

/// Serves the pairs of paths that were opened, and prints what keeps it from that.
fn serve_opened<R: Threads + Wait + Sync, T: Sink>(
    rt: &R,
    alloc: Global,
    cells: usize,
    keys: KeyOrder,
    opened: io::Result<Vec<FileClient>>,
    sink: &mut T,
) -> Status {
    let clients = match opened {
        Ok(clients) => clients,
        Err(error) if error.kind() == ErrorKind::OutOfMemory => return print_lack(
            sink,
            Lack::Memory,
        ),
        Err(_) => return Status::DeviceFault,
    };
    match serve_clients(rt, alloc, cells, keys, clients) {
        Ok(Status::Lacking) => print_lack(sink, Lack::Memory),
        Ok(status) => status,
        Err(fault) if fault.refusal == Refusal::NoThread => print_lack(sink, Lack::Thread),
        Err(_) => print_lack(sink, Lack::Memory),
    }
}

/// Serves the pairs of paths that were opened. To the sink it prints what kept it from that, to the
/// one for errors that a device failed.
pub fn serve<R: Threads + Wait + Sync, T: Sink, E: Sink>(
    rt: &R,
    alloc: Global,
    cells: usize,
    keys: KeyOrder,
    opened: io::Result<Vec<FileClient>>,
    sink: &mut T,
    errors: &mut E,
) -> Status {
    let status = serve_opened(rt, alloc, cells, keys, opened, sink);
    if status == Status::DeviceFault {
        let _ = write_all(errors, b"device fault\n");
    }
    status
}
