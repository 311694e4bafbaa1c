//! Laws of the command lines.

ghost use Rattle.std.specs.Prelude.{ℕ, List, [], ◌∷◌, ◌++◌, codes};
ghost use Rattle.command_line.specs.Lines.{AskFor, AskForNothing, AskToServe, GetHelp, name_of_order, word_of};
ghost use Rattle.command_line.specs.declared.types.Asked.TheVariants.{Run};
ghost use Rattle.command_line.specs.declared.types.Command.{Command};
ghost use Rattle.command_line.specs.declared.types.Command.TheVariants.{Reads, Edges, Check};
ghost use Rattle.hist_types.specs.declared.types.KeyOrder.{KeyOrder};
ghost use Rattle.hist_types.specs.declared.types.KeyOrder.TheVariants.{Basic, Sequential};

/// The program's name, whatever it is, and the word of a command ask for the command, with basic
/// keys if it takes `--keys`.
pub fn commands_are_asked_for()
    ensures reads { (name : List ℕ) → AskFor (Run Reads) (name ∷ codes "reads" ∷ []) }
    ensures edges { (name : List ℕ) → AskFor (Run (Edges Basic)) (name ∷ codes "edges" ∷ []) }
    ensures check { (name : List ℕ) → AskFor (Run (Check 1 Basic)) (name ∷ codes "check" ∷ []) }
{}

/// With `--keys`, `edges` and `check` ask for keys of the order that it names, in the next word or
/// after `=`.
pub fn keys_are_asked_for()
    ensures edges { (keys : KeyOrder) (name : List ℕ) → AskFor (Run (Edges keys))
        (name ∷ codes "edges" ∷ codes "--keys" ∷ name_of_order keys ∷ []) }
    ensures edges_joined { (keys : KeyOrder) (name : List ℕ) → AskFor (Run (Edges keys))
        (name ∷ codes "edges" ∷ (codes "--keys=" ++ name_of_order keys) ∷ []) }
    ensures check { (keys : KeyOrder) (name : List ℕ) → AskFor (Run (Check 1 keys))
        (name ∷ codes "check" ∷ codes "--keys" ∷ name_of_order keys ∷ []) }
    ensures check_joined { (keys : KeyOrder) (name : List ℕ) → AskFor (Run (Check 1 keys))
        (name ∷ codes "check" ∷ (codes "--keys=" ++ name_of_order keys) ∷ []) }
{}

/// `edges` and `check` ask for nothing if `--keys` names no order or is the last word, and `reads`
/// takes no such option.
pub fn no_keys_are_asked_for()
    ensures edges { (name : List ℕ)
        → AskForNothing (name ∷ codes "edges" ∷ codes "--keys" ∷ codes "other" ∷ []) }
    ensures edges_alone { (name : List ℕ)
        → AskForNothing (name ∷ codes "edges" ∷ codes "--keys" ∷ []) }
    ensures check { (name : List ℕ)
        → AskForNothing (name ∷ codes "check" ∷ codes "--keys" ∷ codes "other" ∷ []) }
    ensures check_alone { (name : List ℕ)
        → AskForNothing (name ∷ codes "check" ∷ codes "--keys" ∷ []) }
    ensures reads { (keys : KeyOrder) (name : List ℕ)
        → AskForNothing (name ∷ codes "reads" ∷ codes "--keys" ∷ name_of_order keys ∷ []) }
{}

/// With `--workers N` or `--workers=N`, before another option or after it, `check` asks for N
/// threads.
pub fn workers_are_asked_for()
    ensures apart { (name : List ℕ) → AskFor (Run (Check 2 Basic))
        (name ∷ codes "check" ∷ codes "--workers" ∷ codes "2" ∷ []) }
    ensures joined { (name : List ℕ)
        → AskFor (Run (Check 64 Basic)) (name ∷ codes "check" ∷ codes "--workers=64" ∷ []) }
    ensures keys { (name : List ℕ) → AskFor (Run (Check 2 Sequential))
        (name ∷ codes "check" ∷ codes "--keys" ∷ codes "sequential" ∷ codes "--workers" ∷ codes "2"
        ∷ []) }
{}

/// `check` asks for nothing if `--workers` names no number from 1 to 64 in digits alone or is the
/// last word, and `edges` takes no such option.
pub fn no_workers_are_asked_for()
    ensures zero { (name : List ℕ)
        → AskForNothing (name ∷ codes "check" ∷ codes "--workers=0" ∷ []) }
    ensures many { (name : List ℕ)
        → AskForNothing (name ∷ codes "check" ∷ codes "--workers=65" ∷ []) }
    ensures sign { (name : List ℕ)
        → AskForNothing (name ∷ codes "check" ∷ codes "--workers=+4" ∷ []) }
    ensures alone { (name : List ℕ)
        → AskForNothing (name ∷ codes "check" ∷ codes "--workers" ∷ []) }
    ensures edges { (name : List ℕ)
        → AskForNothing (name ∷ codes "edges" ∷ codes "--workers=2" ∷ []) }
{}

/// The program's name, whatever it is, `serve` and paths two by two ask for a session for each
/// pair, at a journal of 65,536 cells or of as many as `--cells` says, with basic keys or those of
/// the order that `--keys` names, before the paths or after them.
pub fn sessions_are_asked_for()
    ensures alone { (name : List ℕ) → AskToServe 65536 Basic (codes "in" ∷ codes "out" ∷ [])
        (name ∷ codes "serve" ∷ codes "in" ∷ codes "out" ∷ []) }
    ensures cells { (name : List ℕ) → AskToServe 4 Basic (codes "in" ∷ codes "out" ∷ [])
        (name ∷ codes "serve" ∷ codes "--cells" ∷ codes "4" ∷ codes "in" ∷ codes "out" ∷ []) }
    ensures keys { (keys : KeyOrder) (name : List ℕ)
        → AskToServe 65536 keys (codes "in" ∷ codes "out" ∷ [])
        (name ∷ codes "serve" ∷ codes "--keys" ∷ name_of_order keys ∷ codes "in" ∷ codes "out"
        ∷ []) }
    ensures keys_after { (keys : KeyOrder) (name : List ℕ)
        → AskToServe 65536 keys (codes "in" ∷ codes "out" ∷ [])
        (name ∷ codes "serve" ∷ codes "in" ∷ codes "out" ∷ codes "--keys" ∷ name_of_order keys
        ∷ []) }
    ensures keys_joined { (keys : KeyOrder) (name : List ℕ)
        → AskToServe 4 keys (codes "in" ∷ codes "out" ∷ [])
        (name ∷ codes "serve" ∷ codes "--cells=4" ∷ (codes "--keys=" ++ name_of_order keys)
        ∷ codes "in" ∷ codes "out" ∷ []) }
    ensures pairs { (name : List ℕ)
        → AskToServe 1048576 Basic (codes "a" ∷ codes "b" ∷ codes "c" ∷ codes "d" ∷ [])
        (name ∷ codes "serve" ∷ codes "a" ∷ codes "b" ∷ codes "c" ∷ codes "d"
        ∷ codes "--cells=1048576" ∷ []) }
{}

/// `serve` asks for no session with a path alone or an odd number of them, with a number of cells
/// that is 0, more than 1,048,576 or written with a sign, or with `--keys` that names no order or
/// is the last word.
pub fn no_sessions_are_asked_for()
    ensures one { (name : List ℕ) → AskForNothing (name ∷ codes "serve" ∷ codes "in" ∷ []) }
    ensures three { (name : List ℕ)
        → AskForNothing (name ∷ codes "serve" ∷ codes "a" ∷ codes "b" ∷ codes "c" ∷ []) }
    ensures zero { (name : List ℕ)
        → AskForNothing (name ∷ codes "serve" ∷ codes "--cells=0" ∷ codes "in" ∷ codes "out" ∷ []) }
    ensures many { (name : List ℕ) → AskForNothing
        (name ∷ codes "serve" ∷ codes "--cells=1048577" ∷ codes "in" ∷ codes "out" ∷ []) }
    ensures sign { (name : List ℕ)
        → AskForNothing (name ∷ codes "serve" ∷ codes "--cells=+4" ∷ codes "in" ∷ codes "out"
        ∷ []) }
    ensures keys { (name : List ℕ)
        → AskForNothing (name ∷ codes "serve" ∷ codes "--keys=other" ∷ codes "in" ∷ codes "out"
        ∷ []) }
    ensures keys_alone { (name : List ℕ)
        → AskForNothing (name ∷ codes "serve" ∷ codes "in" ∷ codes "out" ∷ codes "--keys" ∷ []) }
{}

/// The program's name and `--help` ask for help, and so they do with the word of a command between
/// them.
pub fn help_is_asked_for()
    ensures alone { GetHelp (codes "--help" ∷ []) }
    ensures command { (command : Command) → GetHelp (word_of command ∷ codes "--help" ∷ []) }
{}
