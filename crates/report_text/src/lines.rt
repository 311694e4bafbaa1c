//! The lines that reports are made of.

ghost use Rattle.std.specs.Option.{option_copied};
ghost use Rattle.std.specs.Prelude.{◌≡◌, ◌++◌, decimal, codes, OnOk};
ghost use Rattle.hist_types.specs.CanonicalText.{atom_text, value_text};
ghost use Rattle.hist_types.specs.Texts.{
  label_text,
  edge_text,
  bad_read_text,
  line,
  indented,
  number_line,
  head_lines,
  bad_read_lines,
  edge_lines,
  witness_lines,
  level_text,
  finding_lines,
  strict_text,
};
ghost use Rattle.dep_edges.specs.Added.{Gains};
ghost use Rattle.dep_edges.specs.Labels.{label_of};
ghost use Rattle.report_text.specs.Lines.{version_after};

use crate::report::Finding;
use dep_edges::edge::{Edge, Label};
use dep_edges::types::BadRead;
use edn_ops::write::write_atom;
use hist_types::types::{Level, Strict};
use itoa::Buffer;
use op_view::atom::Atom;
use std::alloc::AllocError;

fn append_number(out: &mut Vec<u8>, number: u64) -> Result<(), AllocError>
    ensures { OnOk result (Gains out.old out.new (decimal number)) }
{
    out.extend_from_slice(Buffer::new().format(number).as_bytes())
}

fn append_atom(out: &mut Vec<u8>, atom: &Atom<'_>) -> Result<(), AllocError>
    ensures { OnOk result (Gains out.old out.new (atom_text atom.now)) }
{
    write_atom(out, atom.text())
}

/// Appends a number after a word.
fn append_numbered(out: &mut Vec<u8>, word: &[u8], number: u64) -> Result<(), AllocError>
    ensures { OnOk result (Gains out.old out.new (word.now ++ decimal number)) }
{
    out.extend_from_slice(word)?;
    append_number(out, number)
}

fn append_value(out: &mut Vec<u8>, value: Option<&Atom<'_>>) -> Result<(), AllocError>
    ensures { OnOk result (Gains out.old out.new (value_text (option_copied value.entry))) }
{
    match value {
        Some(atom) => append_atom(out, atom),
        None => out.extend_from_slice(b"nil"),
    }
}

/// Appends a word, a key and its value.
fn append_version(
    out: &mut Vec<u8>,
    word: &[u8],
    key: &Atom<'_>,
    value: Option<&Atom<'_>>,
) -> Result<(), AllocError>
    ensures { OnOk result (Gains out.old out.new (version_after word.now key.now value.entry)) }
{
    out.extend_from_slice(word)?;
    append_atom(out, key)?;
    out.extend_from_slice(b" ")?;
    append_value(out, value)
}

/// Appends a blank and a later value.
fn append_later(out: &mut Vec<u8>, later: &Atom<'_>) -> Result<(), AllocError>
    ensures { OnOk result (Gains out.old out.new (codes " " ++ atom_text later.now)) }
{
    out.extend_from_slice(b" ")?;
    append_atom(out, later)
}

fn append_label(out: &mut Vec<u8>, label: &Label<'_>) -> Result<(), AllocError>
    ensures { OnOk result (Gains out.old out.new (label_text (label_of label.now))) }
{
    match label {
        Label::Ww {
            key,
            earlier,
            later,
        } => {
            append_version(out, b"ww ", key, Some(earlier))?;
            append_later(out, later)
        }
        Label::Wr { key, value } => append_version(out, b"wr ", key, Some(value)),
        Label::Rw {
            key,
            earlier,
            later,
        } => {
            append_version(out, b"rw ", key, earlier.as_ref())?;
            append_later(out, later)
        }
        Label::Process { process } => append_numbered(out, b"process ", *process),
        Label::Realtime {
            completion,
            invocation,
        } => {
            append_numbered(out, b"realtime ", *completion)?;
            append_numbered(out, b" ", *invocation)
        }
    }
}

/// Appends an edge, after an indentation if there is one, and a line end.
fn append_edge(out: &mut Vec<u8>, indent: &[u8], edge: &Edge<'_>) -> Result<(), AllocError>
    ensures { OnOk result (Gains out.old out.new (line (indent.now ++ edge_text edge.now))) }
{
    out.extend_from_slice(indent)?;
    append_numbered(out, b"T", edge.from())?;
    out.extend_from_slice(b" -")?;
    append_label(out, edge.label())?;
    append_numbered(out, b"-> T", edge.to())?;
    out.extend_from_slice(b"\n")
}

/// Appends a line for each edge.
pub fn append_edges(out: &mut Vec<u8>, edges: &[Edge<'_>]) -> Result<(), AllocError>
    ensures { OnOk result (Gains out.old out.new (edge_lines edges.now)) }
{
    for edge in edges {
        append_edge(out, b"", edge)?;
    }
    Ok(())
}

/// Appends an indented line for each edge.
fn append_witness(out: &mut Vec<u8>, edges: &[Edge<'_>]) -> Result<(), AllocError>
    ensures { OnOk result (Gains out.old out.new (witness_lines edges.now)) }
{
    for edge in edges {
        append_edge(out, b"  ", edge)?;
    }
    Ok(())
}

/// Appends a line of a word and a number.
pub fn append_number_line(out: &mut Vec<u8>, word: &str, number: u64) -> Result<(), AllocError>
    ensures { OnOk result (Gains out.old out.new (number_line word.now number)) }
{
    out.extend_from_slice(word.as_bytes())?;
    append_numbered(out, b" ", number)?;
    out.extend_from_slice(b"\n")
}

pub fn append_head(out: &mut Vec<u8>, events: u64, txns: u64) -> Result<(), AllocError>
    ensures { OnOk result (Gains out.old out.new (head_lines events txns)) }
{
    append_number_line(out, "prefix", events)?;
    append_number_line(out, "txns", txns)
}

/// Appends the indented line of a bad read.
fn append_bad_read(out: &mut Vec<u8>, read: &BadRead<'_>) -> Result<(), AllocError>
    ensures { OnOk result (Gains out.old out.new (indented (bad_read_text read.now))) }
{
    let version = read.version();
    append_numbered(out, b"  T", read.reader())?;
    append_version(out, b" read ", &version.key(), version.value().as_ref())?;
    append_numbered(out, b" of T", read.writer())?;
    out.extend_from_slice(b"\n")
}

/// Appends the lines of a phenomenon that a bad read shows.
pub fn append_bad_read_lines(
    out: &mut Vec<u8>,
    name: &str,
    found: &Option<BadRead<'_>>,
) -> Result<(), AllocError>
    ensures { OnOk result (Gains out.old out.new (bad_read_lines name.now found.now)) }
{
    out.extend_from_slice(name.as_bytes())?;
    match found {
        None => out.extend_from_slice(b" none\n"),
        Some(read) => {
            out.extend_from_slice(b" yes\n")?;
            append_bad_read(out, read)
        }
    }
}

fn name_of(level: Level) -> &'static [u8]
    ensures { result.now ≡ level_text level }
{
    match level {
        Level::Plain => b"plain",
        Level::Process => b"process",
        Level::Realtime => b"realtime",
    }
}

/// Appends the lines of a phenomenon that cycles show.
pub fn append_finding(
    out: &mut Vec<u8>,
    name: &str,
    found: &Option<Finding<'_>>,
) -> Result<(), AllocError>
    ensures { OnOk result (Gains out.old out.new (finding_lines name.now found.now)) }
{
    out.extend_from_slice(name.as_bytes())?;
    let Some(found) = found else {
        return out.extend_from_slice(b" none\n");
    };
    out.extend_from_slice(b" ")?;
    out.extend_from_slice(name_of(found.level))?;
    out.extend_from_slice(b"\n")?;
    append_witness(out, found.witness.edges())
}

fn strict_text(strict: Strict) -> &'static [u8]
    ensures { result.now ≡ strict_text strict }
{
    match strict {
        Strict::Refuted => b"strict refuted",
        Strict::Open => b"strict open",
    }
}

/// Appends the line of what a verdict says of strict serializability.
pub fn append_strict(out: &mut Vec<u8>, strict: Strict) -> Result<(), AllocError>
    ensures { OnOk result (Gains out.old out.new (line (strict_text strict))) }
{
    out.extend_from_slice(strict_text(strict))?;
    out.extend_from_slice(b"\n")
}
