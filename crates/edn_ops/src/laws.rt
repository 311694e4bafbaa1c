//! Laws of canonical text: the contracts of functions that do nothing.

ghost use Rattle.std.specs.Prelude.{ℕ, List, [], ◌∷◌, Option, All};
ghost use Rattle.hist_types.specs.Atoms.{Atom};
ghost use Rattle.hist_types.specs.Entries.{Entry, operations_of};
ghost use Rattle.hist_types.specs.Operations.{Mop, Operation};
ghost use Rattle.hist_types.specs.Reading.{Reads};
ghost use Rattle.hist_types.specs.CanonicalText.{atom_text, operation_text};
ghost use Rattle.hist_types.specs.declared.types.Fault.{Fault};
ghost use Rattle.edn_ops.specs.Canonical.{CanBeRead, MopCanBeRead, OperationCanBeRead, CanBeReadIfShort, IsMapOf, ReadsAsOperations, ReadsOnlyAs, AreLines};
ghost use Rattle.edn_ops.specs.SourceTexts.{IsAtomText, AreMopTexts};
ghost use Rattle.edn_ops.specs.declared.write.MopText.{MopText};

/// The canonical text of an atom is one token, which is that atom.
pub fn atoms_read_back()
    ensures { (atom : Atom) → CanBeRead atom → IsAtomText (atom_text atom) atom }
{}

/// What source texts spell can be read, and so can what is written of it.
pub fn what_is_spelled_can_be_read()
    ensures atoms { (text : List ℕ) (atom : Atom) → IsAtomText text atom → CanBeRead atom }
    ensures mops { (texts : List MopText) (mops : List Mop)
        → AreMopTexts texts mops → All MopCanBeRead mops }
{}

/// The canonical text of an operation is the map of that operation, and reads as nothing else.
pub fn canonical_text_reads_back()
    ensures gives { (o : Operation) → OperationCanBeRead o → IsMapOf (operation_text o) o }
    ensures nothing_else { (o : Operation)
        → OperationCanBeRead o → ReadsOnlyAs (operation_text o) (o ∷ []) }
{}

/// Canonical texts, one to a line, read as their operations in order, and as nothing else.
pub fn lines_read_back()
    ensures gives { (text : List ℕ) (os : List Operation)
        → All OperationCanBeRead os → AreLines text os → ReadsAsOperations text os }
    ensures nothing_else { (text : List ℕ) (os : List Operation)
        → All OperationCanBeRead os → AreLines text os → ReadsOnlyAs text os }
{}

/// Each operation that a text gives can be read back, where its canonical text has at most 65,536
/// bytes.
pub fn what_is_read_can_be_read_back()
    ensures { (text : List ℕ) (entries : List Entry) (fault : Option Fault)
        → Reads text entries fault → All CanBeReadIfShort (operations_of entries) }
{}
