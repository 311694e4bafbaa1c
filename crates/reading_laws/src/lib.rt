//! Laws of reading: what follows from the definitions of tokens, forms and operations. Each is the
//! contract of a function that does nothing. The layers that read texts, and the layers that keep
//! what was read, cite them.
#![tactic(auto)]

ghost use Rattle.std.specs.Prelude.{◌↔◌, ◌≡◌, ◌+◌, ℕ, List, [], ◌++◌, Option, None, option_map, false, length, drop, IsTrue, All};
ghost use Rattle.hist_types.specs.Operations.{Operation};
ghost use Rattle.hist_types.specs.declared.types.Fault.{Fault};
ghost use Rattle.reading_laws.specs.Parts.{HasPartAt, EndsLine, fault_behind, can_come_at_end};
ghost use Rattle.hist_types.specs.Bytes.{is_run_byte};
ghost use Rattle.reading_laws.specs.Readings.{HasOneReading, IsReadIn, IsReadInPart, HasPartsOf, IsOfTokens, HasAtom, IsFaultlessToken, RunEndsAt};
ghost use Rattle.hist_types.specs.Entries.{PlacedOperation, Entry};
ghost use Rattle.hist_types.specs.Forms.{Form};
ghost use Rattle.reading_laws.specs.Nesting.{AreForms, AreNoOtherForms, ActAs, FillAnyCollection, FillAlone, HoldWhatIsBetween, IsOfForms, IsMapOfForms};
ghost use Rattle.reading_laws.specs.Placed.{KeepsLimits, IsTextOf, IsIn, IsTokenAlone};
ghost use Rattle.hist_types.specs.Reading.{GivesOperations, GivesFrom, GivesFault, FailsFrom, Reads};
ghost use Rattle.hist_types.specs.Tokens.{IsCut, HasTokens, run_of, run_len, Item, ItemKind};

/// A run is the longest sequence of bytes of a run at the front of a text.
pub fn runs_longest()
    ensures bytes { (text : List ℕ) → All (λ b. IsTrue (is_run_byte b)) (run_of text) }
    ensures front { (text : List ℕ) → text ≡ run_of text ++ drop (length (run_of text)) text }
    ensures end { (text : List ℕ) → RunEndsAt text (length (run_of text)) }
    ensures len { (text : List ℕ) → run_len text ≡ length (run_of text) }
{}

/// Each text has one reading, one list of tokens, and one cut into items from any offset and inside
/// any collections.
pub fn texts_have_one_reading()
    ensures cut { (text closers : List ℕ) (offset : ℕ) → HasOneReading (IsCut text offset closers) }
    ensures tokens { (text : List ℕ) → HasOneReading (HasTokens text) }
    ensures reading { (text : List ℕ) → HasOneReading (Reads text) }
{}

/// The bytes of an operation's map, read alone, give the same operation, with its offsets counted
/// from the map's start, wherever in the text the reading began that gave it.
pub fn operations_read_alone()
    ensures { (text : List ℕ) (o : PlacedOperation) → IsReadInPart text o → IsIn text o }
{}

/// An operation's keys and values are spelled by tokens of its text, by itself or anywhere else,
/// and the operation keeps the limits.
pub fn operations_spell_their_parts()
    ensures mops { (text : List ℕ) (o : PlacedOperation) → IsTextOf text o → HasPartsOf text o }
    ensures anywhere { (text : List ℕ) (o : PlacedOperation) → IsReadIn text o → HasPartsOf text o }
    ensures limits { (text : List ℕ) (o : PlacedOperation) → IsTextOf text o → KeepsLimits text o }
{}

/// A token that spells an atom or nil is one token by itself, and so are the keys and values of an
/// operation. Bytes that are a token without a fault at the front of themselves are that one token.
pub fn atoms_are_single_tokens()
    ensures tokens { (text : List ℕ) (t : Item) → HasAtom text t → IsTokenAlone t.kind t.bytes }
    ensures mops { (text : List ℕ) (o : PlacedOperation) → IsReadIn text o → IsOfTokens o }
    ensures bytes { (kind : ItemKind) (bytes : List ℕ)
        → IsFaultlessToken kind bytes → IsTokenAlone kind bytes }
{}

/// A form is a part of the list of tokens, and a collection's members are the forms between its
/// opener and its closer. Read one by one, tokens that are forms do what the forms do, whatever is
/// open around them. When a closer may come, the innermost collection holds what the tokens after
/// its opener are, and around it is open what was open before its opener.
pub fn collections_hold_what_is_between()
    ensures one { (ts : List Item) (fs : List Form) → AreForms ts fs → AreNoOtherForms ts fs }
    ensures forms { (ts : List Item) (fs : List Form) → AreForms ts fs → ActAs ts fs }
    ensures members { (ts : List Item) (fs : List Form) → AreForms ts fs → FillAnyCollection ts fs }
    ensures alone { (ts : List Item) (fs : List Form) → AreForms ts fs → FillAlone ts fs }
    ensures between { (ts : List Item) → HoldWhatIsBetween ts }
{}

/// A text reads as entries without a fault exactly where its tokens are forms that give these
/// entries. Each operation that is read from a text, with a fault or without, is a map among its
/// tokens.
pub fn texts_read_by_forms()
    ensures faultless { (text : List ℕ) (entries : List Entry)
        → Reads text entries None ↔ IsOfForms text entries }
    ensures operations { (text : List ℕ) (o : PlacedOperation)
        → IsReadIn text o → IsMapOfForms text o }
{}

/// A part of a text that reads by itself without a fault is read so in the text, where nothing is
/// open before it, if it ends a line: first come its operations, and then what is read after it.
/// What is left of a text gives what it gives by itself, with a fault as far after its start. A
/// fault of lines that more of the text can't change stays, whatever comes after them.
pub fn parts_read_alone()
    ensures part { (text part behind : List ℕ) (offset : ℕ) (operations later : List Operation)
        (fault : Option Fault) → HasPartAt text offset part behind → EndsLine part
        → GivesOperations part operations → GivesFrom text (offset + length part) later fault
        → GivesFrom text offset (operations ++ later) fault }
    ensures rest { (text part : List ℕ) (offset : ℕ) (operations : List Operation)
        (fault : Option Fault) → HasPartAt text offset part []
        → GivesFrom part 0 operations fault
        → GivesFrom text offset operations (option_map (fault_behind offset) fault) }
    ensures fault { (text part behind : List ℕ) (offset : ℕ) (fault : Fault)
        → HasPartAt text offset part behind → EndsLine part
        → can_come_at_end fault.refusal ≡ false → GivesFault part fault
        → FailsFrom text offset (fault_behind offset fault) }
{}
