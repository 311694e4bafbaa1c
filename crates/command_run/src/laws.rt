//! Laws of the commands.

ghost use Rattle.std.specs.Prelude.{◌≡◌, ◌≢◌, ℕ, List, codes};
ghost use Rattle.hist_types.specs.declared.types.KeyOrder.{KeyOrder};
ghost use Rattle.command_run.specs.Answers.{IsAnswer, IsReport, HasAnswer};
ghost use Rattle.command_run.specs.Refuted.{EndsWith, HasNoExplanation};
ghost use Rattle.command_run.specs.SameAnswers.{DifferInWitnessesAlone};
ghost use Rattle.command_run.specs.declared.answer.Status.{Status};
ghost use Rattle.command_run.specs.declared.answer.Status.TheVariants.{SomePhenomenon, Refused, Lacking};
ghost use Rattle.command_line.specs.declared.types.Command.{Command};
ghost use Rattle.command_line.specs.declared.types.Command.TheVariants.{Check};

use reading_laws::texts_have_one_reading;

/// A text has one answer of a command at most, other than what the program lacks: one status, and
/// one output with it. Only two reports of `check` over keys of one order may differ, in their
/// witnesses alone.
pub fn one_answer_to_a_text()
    ensures status { (command : Command) (text : List ℕ)
        (status other : Status) (printed others : List ℕ) → status ≢ Lacking → other ≢ Lacking
        → IsAnswer command text status printed → IsAnswer command text other others
        → status ≡ other }
    ensures printed { (command : Command) (text : List ℕ)
        (status other : Status) (printed others : List ℕ) → status ≢ Lacking → other ≢ Lacking
        → ((workers : ℕ) (keys : KeyOrder) → command ≢ Check workers keys)
        → IsAnswer command text status printed → IsAnswer command text other others
        → printed ≡ others }
    ensures refused { (command : Command) (text : List ℕ) (printed others : List ℕ)
        → IsAnswer command text Refused printed → IsAnswer command text Refused others
        → printed ≡ others }
    ensures check { (workers more : ℕ) (keys : KeyOrder) (text : List ℕ)
        (status other : Status) (printed others : List ℕ)
        → IsReport (Check workers keys) text status printed
        → IsReport (Check more keys) text other others
        → DifferInWitnessesAlone printed others }
{
    // A law, called for its clause: a text has one reading.
    texts_have_one_reading();
}

/// Each text has an answer of each command other than what the program lacks.
pub fn an_answer_to_each_text()
    ensures { (command : Command) (text : List ℕ) → HasAnswer command text }
{
    // A law, called for its clause: a text has one reading.
    texts_have_one_reading();
}

/// A history that `check` refutes isn't strictly serializable: where it ends with status 1, or
/// prints `strict refuted` at the end, no order explains the history that it read.
pub fn refuted_histories_have_no_explanation()
    ensures status { (workers : ℕ) (keys : KeyOrder) (text printed : List ℕ)
        → IsAnswer (Check workers keys) text SomePhenomenon printed → HasNoExplanation text }
    ensures line { (workers : ℕ) (keys : KeyOrder) (text : List ℕ) (status : Status) (printed : List ℕ)
        → IsReport (Check workers keys) text status printed → EndsWith printed (codes "strict refuted\n")
        → HasNoExplanation text }
{
    // A law, called for its clause: a text has one reading.
    texts_have_one_reading();
}
