//! Laws, each proved for all tokens.

ghost use Rattle.std.specs.Prelude.{◌≡◌, ℕ, List, [], Ok};
ghost use Rattle.sndlib_grammar.specs.Tokens.{Lexeme};
ghost use Rattle.script.specs.declared.step.Step.{Step};
ghost use Rattle.script.specs.declared.word.Expected.TheVariants.{Command};
ghost use Rattle.script.specs.Reading.{Terms, scan};
ghost use Rattle.script.specs.Commands.{AreCommands};

/// Tokens that are commands are read as the steps that they do.
pub fn commands_are_read()
    ensures { (terms : Terms) (end : ℕ) (caps : List ℕ) (tokens : List Lexeme) (steps : List Step)
        → AreCommands terms caps tokens steps → scan terms end
        (record { expected = Command; caps = caps; steps = [] }) tokens ≡ Ok steps }
{}

/// And nothing else is: what is read as steps is commands that do these steps.
pub fn read_are_commands()
    ensures { (terms : Terms) (end : ℕ) (caps : List ℕ) (tokens : List Lexeme) (steps : List Step)
        → scan terms end (record { expected = Command; caps = caps; steps = [] }) tokens ≡ Ok steps
        → AreCommands terms caps tokens steps }
{}
