//! Laws of sessions: the contracts of functions that do nothing.

ghost use Rattle.std.specs.Prelude.{ℕ, List};
ghost use Rattle.hist_types.specs.LegalAnswers.{View};
ghost use Rattle.hist_types.specs.Sessions.{IsSession, IsSessionAlone};
ghost use Rattle.hist_types.specs.declared.types.KeyOrder.{KeyOrder};
ghost use Rattle.live_journal.specs.Seats.{new_view};
ghost use Rattle.verdict_serve.specs.Alone.{HasSeenItsOwn};

/// Where a new seat has at last seen no blocks but its own, its session's replies are those that
/// the lines alone give, with nothing of others between them.
pub fn sessions_alone()
    ensures { (keys : KeyOrder) (cells seat : ℕ) (bytes : List ℕ) (replies : List (List ℕ)) (new : View)
        → HasSeenItsOwn new
        → IsSession keys cells seat bytes replies new_view new
        → IsSessionAlone keys cells seat bytes replies new_view new }
{}
