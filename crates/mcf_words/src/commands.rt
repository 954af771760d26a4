//! The commands: the word of each, the files that it reads, and its options.

ghost use Rattle.std.specs.Prelude.{◌≡◌, map};
ghost use Rattle.mcf_words.specs.Parse.{names_of};
ghost use Rattle.mcf_words.specs.Request.{command_of as command_of_lem, least_files, most_files, form_of as form_of_lem};

use crate::request::Command;

// The options by their names, which are also their ids.

pub const LINKS: &str = "links";

pub const MODULES: &str = "modules";

pub const GAP: &str = "gap";

pub const PHASES: &str = "phases";

pub const WORKERS: &str = "workers";

pub const STEP: &str = "step";

static SOLVER_OPTIONS: [&str; 6] = [LINKS, MODULES, GAP, PHASES, WORKERS, STEP];

// The options of a solve with one worker.
static ONE_WORKER_OPTIONS: [&str; 5] = [LINKS, MODULES, GAP, PHASES, STEP];

static NO_OPTIONS: [&str; 0] = [];

static COMMANDS: [Command; 15] = [
    Command::Solve,
    Command::Check,
    Command::WhatIf,
    Command::Upgrade,
    Command::Tighten,
    Command::Batch,
    Command::Sweep,
    Command::SweepSolve,
    Command::CheckHops,
    Command::CheckThroughput,
    Command::Hops,
    Command::Throughput,
    Command::Print,
    Command::Gen,
    Command::Trial,
];

/// What the words of a command may be.
#[derive(Clone, Copy)]
pub struct Form {
    /// The word of the command.
    pub word: &'static [u8],
    /// How many files the command reads at least; none where it takes numbers.
    pub least: usize,
    /// How many it reads at most.
    pub most: usize,
    /// The names of its options, without their dashes.
    pub options: &'static [&'static str],
}

// A command that reads `least` to `most` files.
fn takes_some(
    word: &'static [u8],
    least: usize,
    most: usize,
    options: &'static [&'static str],
) -> Form
    ensures word { result.word.now ≡ word.entry.now }
    ensures least { result.least ≡ least }
    ensures most { result.most ≡ most }
    ensures options { result.options.now ≡ options.entry.now }
{
    Form {
        word,
        least,
        most,
        options,
    }
}

// A command that reads just `files` files.
fn takes(word: &'static [u8], files: usize, options: &'static [&'static str]) -> Form
    ensures word { result.word.now ≡ word.entry.now }
    ensures least { result.least ≡ files }
    ensures most { result.most ≡ files }
    ensures options { result.options.now ≡ options.entry.now }
{
    takes_some(word, files, files, options)
}

/// The form of the command.
pub fn form_of(command: Command) -> Form
    ensures word { result.word.now ≡ (form_of_lem command).word }
    ensures least { result.least ≡ least_files command }
    ensures most { result.most ≡ most_files command }
    ensures options { map (λ n. n.now) result.options.now ≡ names_of command }
{
    match command {
        Command::Solve => takes(b"solve", 1, SOLVER_OPTIONS.as_slice()),
        Command::Check => takes(b"check", 2, NO_OPTIONS.as_slice()),
        Command::WhatIf => takes(b"whatif", 3, NO_OPTIONS.as_slice()),
        Command::Upgrade => takes(b"upgrade", 2, NO_OPTIONS.as_slice()),
        Command::Tighten => takes_some(b"tighten", 2, 3, NO_OPTIONS.as_slice()),
        Command::Batch => takes(b"batch", 2, ONE_WORKER_OPTIONS.as_slice()),
        Command::Sweep => takes(b"sweep", 2, NO_OPTIONS.as_slice()),
        Command::SweepSolve => takes(b"sweepsolve", 1, ONE_WORKER_OPTIONS.as_slice()),
        Command::CheckHops => takes(b"checkhops", 2, NO_OPTIONS.as_slice()),
        Command::CheckThroughput => takes(b"checkthroughput", 2, NO_OPTIONS.as_slice()),
        Command::Hops => takes(b"hops", 1, ONE_WORKER_OPTIONS.as_slice()),
        Command::Throughput => takes(b"throughput", 1, ONE_WORKER_OPTIONS.as_slice()),
        Command::Print => takes(b"print", 1, NO_OPTIONS.as_slice()),
        Command::Gen => takes(b"gen", 0, NO_OPTIONS.as_slice()),
        Command::Trial => takes(b"trial", 0, SOLVER_OPTIONS.as_slice()),
    }
}

/// The command of that word.
pub fn command_of(word: &[u8]) -> Option<Command>
    ensures { result ≡ command_of_lem word.now }
{
    for command in COMMANDS.as_slice() {
        if word == form_of(*command).word {
            return Some(*command);
        }
    }
    None
}
