//! A strict serializability checker of journals of register transactions.
#![tactic(auto)]

mod serve;

use crate::serve::{open_pairs, serve};
use command_line::types::{Asked, LineFault};
use command_line::words::{asked_for, unread_line};
use command_run::dispatch::dispatch;
use hist_types::device::{StreamSink, StreamSource};
use std::env;
use std::process::ExitCode;

/// What the process's command line asks for.
fn asked(rt: &HostRuntime) -> Result<Asked, LineFault> {
    let words = match env::args(rt) {
        Ok(words) => words.collect::<Vec<String>>(rt.alloc())?,
        Err(error) => return Err(unread_line(rt.alloc(), &error)),
    };
    asked_for(rt.alloc(), words.as_slice())
}

fn main(rt: HostRuntime) -> ExitCode {
    let mut source = StreamSource::new(rt.stdin());
    let mut sink = StreamSink::new(rt.stdout());
    let mut errors = StreamSink::new(rt.stderr());
    let alloc = rt.alloc();
    let status = match asked(&rt) {
        Ok(Asked::Serve { cells, keys, paths }) => {
            let opened = open_pairs(&rt, alloc, &paths);
            serve(&rt, alloc, cells, keys, opened, &mut sink, &mut errors)
        }
        Ok(Asked::Run(command)) => dispatch(
            &rt,
            alloc,
            Ok(command),
            &mut source,
            &mut sink,
            &mut errors,
        ),
        Err(fault) => dispatch(&rt, alloc, Err(fault), &mut source, &mut sink, &mut errors),
    };
    ExitCode::from(status.code())
}
