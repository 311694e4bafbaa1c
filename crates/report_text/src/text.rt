//! The texts of reports.

ghost use Rattle.std.specs.Prelude.{◌≡◌, IfOk};
ghost use Rattle.hist_types.specs.Texts.{verdict_text, reads_text, edges_text};

use crate::leaving::append_all_edges;
use crate::lines::{
    append_bad_read_lines, append_finding, append_head, append_number_line, append_strict,
};
use crate::report::{EdgesReport, ReadsReport, VerdictReport};
use std::alloc::{AllocError, Global};

impl VerdictReport<'_> {
    /// The lines that `check` prints.
    pub fn text(&self, alloc: Global) -> Result<Vec<u8>, AllocError>
        ensures { IfOk result (λ text. text.items ≡ verdict_text self.now) }
    {
        let mut text = Vec::new(alloc);
        append_head(&mut text, self.prefix, self.txns)?;
        append_finding(&mut text, "G0", &self.findings.g0)?;
        append_bad_read_lines(&mut text, "G1a", &self.g1a)?;
        append_bad_read_lines(&mut text, "G1b", &self.g1b)?;
        append_finding(&mut text, "G1c", &self.findings.g1c)?;
        append_finding(&mut text, "G-single", &self.findings.single)?;
        append_finding(&mut text, "G2-item", &self.findings.item)?;
        append_number_line(&mut text, "stray", self.stray)?;
        append_strict(&mut text, self.strict())?;
        Ok(text)
    }
}

impl ReadsReport<'_> {
    /// The lines that `reads` prints.
    pub fn text(&self, alloc: Global) -> Result<Vec<u8>, AllocError>
        ensures { IfOk result (λ text. text.items ≡ reads_text self.now) }
    {
        let mut text = Vec::new(alloc);
        append_head(&mut text, self.prefix, self.txns)?;
        append_bad_read_lines(&mut text, "G1a", &self.g1a)?;
        append_bad_read_lines(&mut text, "G1b", &self.g1b)?;
        append_number_line(&mut text, "stray", self.stray)?;
        Ok(text)
    }
}

impl EdgesReport<'_, '_, '_> {
    /// The lines that `edges` prints.
    pub fn text(&self, alloc: Global) -> Result<Vec<u8>, AllocError>
        ensures { IfOk result (λ text. text.items ≡ edges_text self.now) }
    {
        let mut text = Vec::new(alloc);
        append_head(&mut text, self.prefix, self.txns as u64)?;
        let count = append_all_edges(alloc, self.deps, self.txns, &mut text)?;
        append_number_line(&mut text, "edges", count)?;
        Ok(text)
    }
}
