//! What the words of a command line ask for.

ghost use Rattle.std.specs.Prelude.{◌≡◌, ◌≢◌, ◌⊎◌, ℕ, List, map, codes, false, option_and_then, IfErr, IfOk, string_bytes};
ghost use Rattle.std.specs.Char.{is_ascii_digit};
ghost use Rattle.std.specs.IoError.{error_kind};
ghost use Rattle.std.specs.List.{list_all};
ghost use Rattle.std.specs.declared.io.ErrorKind.TheVariants.{OutOfMemory};
ghost use Rattle.clap.specs.Words.{app_of, first_of, found_of, kind_of, rows_of, rule_of, subcommand_rows_of};
ghost use Rattle.command_line.specs.Lines.{cells_rule, keys_rule, paths_rule, workers_rule, app_with_keys, check_app, serve_app, program_app, IsSubcommand, number_to, cells_in, workers_in, keys_in, HasKeys, AreForCheck, AsksForCheck, come_in_pairs, AreForSessions, AsksForSessions, IsAskedBy, first_line, AskFor, AskForHelp, MayAskForHelp, IsComplaint, Helps, SaysWhatIsWrong, closing_line};
ghost use Rattle.command_line.specs.declared.types.Asked.{Asked};
ghost use Rattle.hist_types.specs.declared.types.KeyOrder.{KeyOrder};

use crate::types::{Asked, Command, LineFault};
use clap::error::ErrorKind;
use hist_types::limits::{MAX_CELLS, MAX_WORKERS};
use hist_types::types::KeyOrder;
use std::alloc::{AllocError, Global};
use std::io;

/// What the program is, its version first.
const HELP: &str = "\
jepcheck 0.2.0: reports where a run of a Jepsen test broke strict serializability.

Usage: jepcheck check [--workers N] [--keys ORDER] < HISTORY
       jepcheck reads < HISTORY
       jepcheck edges [--keys ORDER] < HISTORY
       jepcheck serve [--cells N] [--keys ORDER] IN OUT [IN OUT ...]

Commands:
  check    print which of the phenomena G0, G1a, G1b, G1c, G-single and G2-item the history has, each with the
           edges or the read that shows it; a cycle is looked for along dependency edges alone (plain), then
           with the order of each process (process), then with the order in real time (realtime)
  reads    print the first read of a value that a failed transaction wrote (G1a), the first read of a value
           that another transaction wrote and wrote over in itself (G1b), and how many reads return a value
           that nobody wrote
  edges    print the dependency edges between transactions: which of them wrote after another one wrote (ww),
           read what it wrote (wr), or wrote after it read (rw)
  serve    check a run while it goes on: of each pair of files or named pipes read IN line by line, and write a
           reply to each line to OUT. A line is operations, `read FROM TO`, `verdict` or `quit`. All pairs share one
           journal of N cells, 65536 if not given and 1048576 at most, and each line of operations takes one

Options:
  --workers N   how many threads check may use, 1 (the default) to 64; the answer is the same
  --keys ORDER  how check, edges and serve order the versions of a key: by what each transaction shows by itself
                (basic, the default), or also by what each process sees in turn (sequential). Give sequential
                only if each register is sequentially consistent for each client

The history is read from standard input, to its end. It is the file history.edn that Jepsen leaves in the
folder of a test whose operations are transactions over registers: `:f :txn`, with reads [:r key value] and
writes [:w key value].

Exit status:
  0    nothing was found (`edges`, which looks for nothing: the edges were printed; `serve`: each IN was read to
       its end or to `quit`)
  1    something was found
  2    the history was refused, or the command line was, or help was asked for
  3    a device failed
  4    out of memory, or a thread could not be started

Example:
  jepcheck check < store/NAME/TIME/history.edn

Verdicts and refusals are explained in docs/GUIDE.md.
";

/// How a history is given, and where help is: the last line of a faulty command line's text, unless
/// the line names `serve`.
const SEE_HELP: &str = "The history is read from standard input: jepcheck check < FILE. \
                        For more, try 'jepcheck --help'.\n";

/// How sessions are given, and where help is: the last line of the text of a faulty command line
/// that names `serve`.
const SEE_SERVE: &str = "Each session has two paths: \
                         jepcheck serve [--cells N] [--keys ORDER] IN OUT [IN OUT ...]. \
                         For more, try 'jepcheck --help'.\n";

/// There are fewer pairs of paths than this: each has a number of 32 bits.
const MAX_PAIRS: usize = 4_294_967_296;

/// The option `--cells`: how many cells the journal of `serve` has, from 1 to the most that a row
/// may have.
fn cells_option<'a>(alloc: Global) -> clap::Arg<'a>
    ensures rule { rule_of result ≡ cells_rule }
    ensures local { result.global ≡ false }
{
    clap::Arg::new(alloc, "cells")
        .long("cells")
        .value_name("N")
        .value_parser(clap::value_parser!(usize).range(1..=MAX_CELLS as i64))
        .default_value("65536")
}

/// The option `--workers`: how many threads `check` may use.
fn workers_option<'a>(alloc: Global) -> clap::Arg<'a>
    ensures rule { rule_of result ≡ workers_rule }
    ensures local { result.global ≡ false }
{
    clap::Arg::new(alloc, "workers")
        .long("workers")
        .value_name("N")
        .value_parser(clap::value_parser!(usize).range(1..=i64::from(MAX_WORKERS)))
        .default_value("1")
}

/// The option `--keys`: how the versions of a key are ordered, by a name, which `keys_in` checks.
fn keys_option<'a>(alloc: Global) -> clap::Arg<'a>
    ensures rule { rule_of result ≡ keys_rule }
    ensures local { result.global ≡ false }
{
    clap::Arg::new(alloc, "keys")
        .long("keys")
        .value_name("ORDER")
        .default_value("basic")
}

/// The paths of `serve`, two at least.
fn paths_argument<'a>(alloc: Global) -> clap::Arg<'a>
    ensures rule { rule_of result ≡ paths_rule }
    ensures local { result.global ≡ false }
{
    clap::Arg::new(alloc, "paths")
        .value_name("PATH")
        .num_args(2..)
        .required(true)
}

/// The subcommand `edges`.
fn edges_command<'a>(alloc: Global) -> Result<clap::Command<'a>, AllocError>
    ensures { IfOk result (IsSubcommand (app_with_keys (codes "edges"))) }
{
    clap::Command::new(alloc, "edges").arg(keys_option(alloc))
}

/// The subcommand `check`.
fn check_command<'a>(alloc: Global) -> Result<clap::Command<'a>, AllocError>
    ensures { IfOk result (IsSubcommand check_app) }
{
    clap::Command::new(alloc, "check")
        .arg(workers_option(alloc))?
        .arg(keys_option(alloc))
}

/// The subcommand `serve`.
fn serve_command<'a>(alloc: Global) -> Result<clap::Command<'a>, AllocError>
    ensures { IfOk result (IsSubcommand serve_app) }
{
    clap::Command::new(alloc, "serve")
        .arg(cells_option(alloc))?
        .arg(keys_option(alloc))?
        .arg(paths_argument(alloc))
}

/// The command lines that there are.
fn program<'a>(alloc: Global) -> Result<clap::Command<'a>, AllocError>
    ensures { IfOk result (λ program. app_of program ≡ program_app) }
{
    clap::Command::new(alloc, "jepcheck")
        .subcommand_required(true)
        .subcommand(clap::Command::new(alloc, "reads"))?
        .subcommand(edges_command(alloc)?)?
        .subcommand(check_command(alloc)?)?
        .subcommand(serve_command(alloc)?)
}

/// The text up to its first line feed.
fn first_line(text: &str) -> &str
    ensures { result.now ≡ first_line text.now }
{
    match text.split_once('\n') {
        Some((line, _)) => line,
        None => text,
    }
}

/// The last line of the text that faulty words get.
fn closing_line(words: &[String]) -> &'static str
    ensures { result.now ≡ closing_line (map string_bytes words.now) }
{
    match words {
        [_, command, ..] if command.as_str() == "serve" => SEE_SERVE,
        _ => SEE_HELP,
    }
}

/// The first line of a message, and a closing line.
fn complaint(alloc: Global, message: &str, closing: &str) -> Result<String, AllocError>
    ensures { IfOk result (λ text. IsComplaint closing.now (string_bytes text)) }
{
    let mut text = String::from_str(alloc, first_line(message))?;
    text.push_str("\n")?;
    text.push_str(closing)?;
    Ok(text)
}

/// The fault of a command line that asks for help.
fn help(alloc: Global) -> LineFault
    ensures { Helps result }
{
    match String::from_str(alloc, HELP) {
        Ok(text) => LineFault::Usage(text),
        Err(error) => LineFault::from(error),
    }
}

/// The fault of a command line with this message, of which the first line is printed, and this
/// closing line.
fn wrong(alloc: Global, message: &str, closing: &str) -> LineFault
    ensures { SaysWhatIsWrong closing.now result }
{
    match complaint(alloc, message, closing) {
        Ok(text) => LineFault::Usage(text),
        Err(error) => LineFault::from(error),
    }
}

/// The fault of a command line that the parse refuses, a request for help among them.
fn line_fault(alloc: Global, error: &clap::Error, closing: &str) -> LineFault
    ensures memory { kind_of error.now ≡ ErrorKind.OutOfMemory → result ≡ LineFault.Memory }
    ensures help { kind_of error.now ≡ ErrorKind.DisplayHelp → Helps result }
    ensures wrong { kind_of error.now ≢ ErrorKind.DisplayHelp
        → SaysWhatIsWrong closing.now result }
    ensures either { Helps result ⊎ SaysWhatIsWrong closing.now result }
{
    match error.kind() {
        ErrorKind::OutOfMemory => LineFault::Memory,
        ErrorKind::DisplayHelp => help(alloc),
        ErrorKind::MissingRequiredArgument => wrong(
            alloc,
            "error: serve needs paths, for each session one to read and one to write",
            closing,
        ),
        _ => match format!(in alloc; "{error}") {
            Ok(message) => wrong(alloc, &message, closing),
            Err(error) => LineFault::from(error),
        },
    }
}

/// The fault of a command line whose words can't be had: out of memory, or one of them isn't UTF-8.
pub fn unread_line(alloc: Global, error: &io::Error) -> LineFault
    ensures memory { error_kind error.now ≡ OutOfMemory → result ≡ LineFault.Memory }
    ensures wrong { SaysWhatIsWrong SEE_HELP.now result }
{
    match error.kind() {
        io::ErrorKind::OutOfMemory => LineFault::Memory,
        _ => wrong(
            alloc,
            "error: a word of the command line is not UTF-8",
            SEE_HELP,
        ),
    }
}

fn all_digits(text: &[u8]) -> bool
    ensures { result ≡ list_all is_ascii_digit text.now }
{
    text.iter().all(|b| b.is_ascii_digit())
}

/// The number that digits spell, if it is from 1 to `most`.
fn number_to(most: usize, text: &str) -> Option<usize>
    ensures { result ≡ number_to most text.now }
{
    if !all_digits(text.as_bytes()) {
        return None;
    }
    match text.parse::<usize>() {
        Ok(number) if 0 < number && number <= most => Some(number),
        _ => None,
    }
}

/// The order of keys that has this name.
fn keys_in(text: &str) -> Option<KeyOrder>
    ensures { result ≡ keys_in text.now }
{
    match text {
        "basic" => Some(KeyOrder::Basic),
        "sequential" => Some(KeyOrder::Sequential),
        _ => None,
    }
}

/// Whether paths come in pairs, of which there is one at least, and no more than seats can be
/// numbered.
fn come_in_pairs(paths: &[&str]) -> bool
    ensures { result ≡ come_in_pairs (map (λ path. path.now) paths.now) }
{
    paths.len().is_multiple_of(2) && !paths.is_empty() && paths.len() / 2 < MAX_PAIRS
}

/// A copy of each path.
fn copies(alloc: Global, paths: &[&str]) -> Result<Vec<String>, AllocError>
    ensures { IfOk result
        (λ copies. map string_bytes copies.items ≡ map (λ path. path.now) paths.now) }
{
    let mut copies = Vec::new(alloc);
    for path in paths {
        copies.push(String::from_str(alloc, path)?)?;
    }
    Ok(copies)
}

/// How many cells are asked for, where `serve` was met with these arguments.
fn cells_found(serve: &clap::ArgMatches<'_>) -> Option<usize>
    ensures { result ≡ option_and_then cells_in
        (first_of (codes "cells") (rows_of (found_of serve.now))) }
{
    number_to(MAX_CELLS, serve.get_str("cells")?)
}

/// How many threads are asked for, where `check` was met with these arguments.
fn workers_found(check: &clap::ArgMatches<'_>) -> Option<usize>
    ensures { result ≡ option_and_then workers_in
        (first_of (codes "workers") (rows_of (found_of check.now))) }
{
    number_to(MAX_WORKERS as usize, check.get_str("workers")?)
}

/// Which order of keys is named, where a command was met with these arguments.
fn keys_found(command: &clap::ArgMatches<'_>) -> Option<KeyOrder>
    ensures { result ≡ option_and_then keys_in
        (first_of (codes "keys") (rows_of (found_of command.now))) }
{
    keys_in(command.get_str("keys")?)
}

/// The fault of a command line that names an order of keys that there isn't.
fn no_order(alloc: Global, name: &str, closing: &str) -> LineFault
    ensures { SaysWhatIsWrong closing.now result }
{
    match format!(in alloc;
        "error: invalid value '{name}' for '--keys <ORDER>': neither basic nor sequential"
    ) {
        Ok(message) => wrong(alloc, &message, closing),
        Err(error) => LineFault::from(error),
    }
}

/// Which order of keys is asked for, where a command was met with these arguments.
fn keys_asked(
    alloc: Global,
    command: &clap::ArgMatches<'_>,
    closing: &str,
) -> Result<KeyOrder, LineFault>
    ensures only { IfOk result (λ keys. HasKeys keys (rows_of (found_of command.now))) }
    ensures asked { IfErr result (λ _.
        (keys : KeyOrder) → ¬ HasKeys keys (rows_of (found_of command.now))) }
    ensures wrong { IfErr result (SaysWhatIsWrong closing.now) }
{
    match keys_found(command) {
        Some(keys) => Ok(keys),
        None => Err(no_order(alloc, command.get_str("keys").unwrap_or(""), closing)),
    }
}

/// What is asked for where `check` was met with these arguments.
fn check_asked(
    alloc: Global,
    check: &clap::ArgMatches<'_>,
    closing: &str,
) -> Result<Command, LineFault>
    ensures only { IfOk result (λ command. AsksForCheck command (rows_of (found_of check.now))) }
    ensures asked { IfErr result (λ _. (workers : ℕ) (keys : KeyOrder)
        → ¬ AreForCheck workers keys (rows_of (found_of check.now))) }
    ensures wrong { IfErr result (SaysWhatIsWrong closing.now) }
{
    let Some(workers) = workers_found(check) else {
        return Err(wrong(
            alloc,
            "error: the value of '--workers <N>' is not written in digits",
            closing,
        ));
    };
    let keys = keys_asked(alloc, check, closing)?;
    Ok(Command::Check { workers, keys })
}

/// What is asked for where `serve` was met with these arguments.
fn sessions_asked(
    alloc: Global,
    serve: &clap::ArgMatches<'_>,
    closing: &str,
) -> Result<Asked, LineFault>
    ensures only { IfOk result (λ asked. AsksForSessions asked (rows_of (found_of serve.now))) }
    ensures asked { (cells : ℕ) (keys : KeyOrder) (paths : List (List ℕ))
        → AreForSessions cells keys paths (rows_of (found_of serve.now))
        → IfErr result (λ fault. fault ≡ LineFault.Memory) }
    ensures wrong { IfErr result (SaysWhatIsWrong closing.now) }
{
    let Some(cells) = cells_found(serve) else {
        return Err(wrong(
            alloc,
            "error: the value of '--cells <N>' is not written in digits",
            closing,
        ));
    };
    let keys = keys_asked(alloc, serve, closing)?;
    match serve.get_raw("paths") {
        Some(paths) if come_in_pairs(paths) => Ok(Asked::Serve {
            cells,
            keys,
            paths: copies(alloc, paths)?,
        }),
        _ => Err(wrong(
            alloc,
            "error: the paths do not come in pairs, each of one to read and one to write",
            closing,
        )),
    }
}

/// What is asked for by the subcommand that was met.
fn asked_by(
    alloc: Global,
    matches: &clap::ArgMatches<'_>,
    closing: &str,
) -> Result<Asked, LineFault>
    ensures only { IfOk result (λ asked. IsAskedBy asked (subcommand_rows_of matches.now)) }
    ensures asked { (asked : Asked) → IsAskedBy asked (subcommand_rows_of matches.now)
        → IfErr result (λ fault. fault ≡ LineFault.Memory) }
    ensures wrong { IfErr result (SaysWhatIsWrong closing.now) }
{
    match matches.subcommand() {
        Some(("reads", _)) => Ok(Asked::Run(Command::Reads)),
        Some(("edges", edges)) => Ok(Asked::Run(Command::Edges(keys_asked(
            alloc, edges, closing,
        )?))),
        Some(("check", check)) => Ok(Asked::Run(check_asked(alloc, check, closing)?)),
        Some(("serve", serve)) => sessions_asked(alloc, serve, closing),
        _ => Err(wrong(alloc, "error: no command is named", closing)),
    }
}

/// What the words ask for, of which the first is the program's name.
pub fn asked_for(alloc: Global, words: &[String]) -> Result<Asked, LineFault>
    // The answer is what the words ask for. If they ask for something, the only error is out of
    // memory.
    ensures only { IfOk result (λ asked. AskFor asked (map string_bytes words.entry.now)) }
    ensures asked { (asked : Asked) → AskFor asked (map string_bytes words.entry.now)
        → IfErr result (λ fault. fault ≡ LineFault.Memory) }
    // A request for help is answered with it, and every other line with what is wrong.
    ensures help { AskForHelp (map string_bytes words.entry.now) → IfErr result Helps }
    ensures wrong { let words = map string_bytes words.entry.now in
        ¬ MayAskForHelp words → IfErr result (SaysWhatIsWrong (closing_line words)) }
    // Whatever is wrong with a line, its text is the help, or one line on what is wrong and the
    // line that closes it.
    ensures either { let closing = closing_line (map string_bytes words.entry.now) in
        IfErr result (λ fault. Helps fault ⊎ SaysWhatIsWrong closing fault) }
{
    let closing = closing_line(words);
    match program(alloc)?.try_get_matches_from(words) {
        Ok(matches) => asked_by(alloc, &matches, closing),
        Err(error) => Err(line_fault(alloc, &error, closing)),
    }
}
