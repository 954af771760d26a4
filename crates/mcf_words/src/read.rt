//! What the words ask for, read.

ghost use Rattle.std.specs.Prelude.{◌≡◌, ◌∷◌, [], ℕ, List, Some, None, Option, map, string_bytes, length, IfOk, IfSome, ◌≤◌};
ghost use Rattle.std.specs.Option.{option_map};
ghost use Rattle.clap.specs.Words.{found_of};
ghost use Rattle.mcf_words.specs.Answers.{Answers};
ghost use Rattle.mcf_words.specs.Parse.{choices_in, read_in, request_in, words_in};
ghost use Rattle.mcf_words.specs.Request.{IsFileCount, least_files as least_files_lem, IsBudget, AreWorkers, AreWithinLimits, IsWithinLimits, AreDrawn, four_numbers as four_numbers_lem, numbers_of as numbers_of_lem, files_of as files_of_lem, request_of};
ghost use Rattle.mcf_words.specs.Values.{gap_of as gap_of_lem, number_in as number_in_lem};
ghost use Rattle.unit_scale.specs.Modes.{link_mode_of as link_mode_of_lem, module_mode_of as module_mode_of_lem};
ghost use Rattle.mcf_words.specs.Views.{choices_view};
ghost use Rattle.unit_scale.specs.declared.modes.LinkMode.TheVariants.{Undirected};
ghost use Rattle.unit_scale.specs.declared.modes.ModuleMode.TheVariants.{Largest};

use crate::commands::{GAP, LINKS, MODULES, PHASES, STEP, WORKERS, command_of, form_of};
use crate::parse::{WORDS, parsed};
use crate::request::{Command, Names, Request, WordsEnd};
use crate::values::{gap_of, number_in};
use clap::ArgMatches;
use mcf_limits::{
    DEFAULT_GAP, DEFAULT_STEP, MAX_DEMANDS, MAX_GAP, MAX_LINKS, MAX_NODES, MAX_PHASES, MAX_STEP,
    MAX_WORKERS,
};
use std::alloc::{AllocError, Global};
use unit_scale::{LinkMode, ModuleMode, NetOptions, link_mode_of, module_mode_of};

/// What the options say, and the defaults of those that do not stand.
#[derive(Clone, Copy, Debug)]
pub struct Choices {
    /// How links and modules are read.
    pub net: NetOptions,
    /// The gap, in millionths.
    pub gap: u64,
    /// The phase budget; `None` where no option says it.
    pub phases: Option<u32>,
    /// The number of workers; `None` where no option says it.
    pub workers: Option<u16>,
    /// How sharply lengths rise with loads.
    pub step: u32,
}

fn links_choice(matches: &ArgMatches<'_>) -> Option<LinkMode>
    ensures { result ≡ read_in (found_of matches.now) LINKS.now link_mode_of_lem Undirected }
{
    match matches.get_str(LINKS) {
        Some(value) => link_mode_of(value.as_bytes()),
        None => Some(LinkMode::Undirected),
    }
}

fn modules_choice(matches: &ArgMatches<'_>) -> Option<ModuleMode>
    ensures { result ≡ read_in (found_of matches.now) MODULES.now module_mode_of_lem Largest }
{
    match matches.get_str(MODULES) {
        Some(value) => module_mode_of(value.as_bytes()),
        None => Some(ModuleMode::Largest),
    }
}

fn gap_choice(matches: &ArgMatches<'_>) -> Option<u64>
    ensures value { result ≡ read_in (found_of matches.now) GAP.now gap_of_lem DEFAULT_GAP }
    ensures limit { IfSome result (λ n. n ≤ MAX_GAP) }
{
    match matches.get_str(GAP) {
        Some(value) => gap_of(value.as_bytes()),
        None => Some(DEFAULT_GAP),
    }
}

// The value of an option that is a number from 1 on.
fn number_choice(matches: &ArgMatches<'_>, name: &str, most: u64, default: u64) -> Option<u64>
    requires { (1 ≤ default) × (default ≤ most) }
    ensures value { result ≡ read_in (found_of matches.now) name.now (number_in_lem 1 most) default }
    ensures limits { IfSome result (λ n. (1 ≤ n) × (n ≤ most)) }
{
    match matches.get_str(name) {
        Some(value) => number_in(1, most, value.as_bytes()),
        None => Some(default),
    }
}

// The phase budget, if one is asked.
fn phases_choice(matches: &ArgMatches<'_>) -> Option<Option<u32>>
    ensures value { result ≡ read_in (found_of matches.now) PHASES.now
        (λ w. option_map Some (number_in_lem 1 MAX_PHASES w)) None }
    ensures limits { IfSome result IsBudget }
{
    match matches.get_str(PHASES) {
        Some(value) => match number_in(1, MAX_PHASES as u64, value.as_bytes()) {
            Some(phases) => Some(Some(phases as u32)),
            None => None,
        },
        None => Some(None),
    }
}

// The number of workers, if one is asked.
fn workers_choice(matches: &ArgMatches<'_>) -> Option<Option<u16>>
    ensures value { result ≡ read_in (found_of matches.now) WORKERS.now
        (λ w. option_map Some (number_in_lem 1 MAX_WORKERS w)) None }
    ensures limits { IfSome result AreWorkers }
{
    match matches.get_str(WORKERS) {
        Some(value) => match number_in(1, MAX_WORKERS as u64, value.as_bytes()) {
            Some(workers) => Some(Some(workers as u16)),
            None => None,
        },
        None => Some(None),
    }
}

fn step_choice(matches: &ArgMatches<'_>) -> Option<u32>
    ensures value { result ≡ read_in (found_of matches.now) STEP.now (number_in_lem 1 MAX_STEP) DEFAULT_STEP }
    ensures limits { IfSome result (λ n. (1 ≤ n) × (n ≤ MAX_STEP)) }
{
    match number_choice(matches, STEP, MAX_STEP as u64, DEFAULT_STEP as u64) {
        Some(step) => Some(step as u32),
        None => None,
    }
}

// What the options say, or nothing where one of them is out of form.
#[tactic(auto, unfolding(crate::specs::Parse::choices_in))]
fn choices_of(matches: &ArgMatches<'_>) -> Option<Choices>
    ensures value { option_map choices_view result ≡ choices_in (found_of matches.now) }
    ensures limits { IfSome result (λ c. AreWithinLimits c.gap c.phases c.workers c.step) }
{
    let Some(links) = links_choice(matches) else {
        return None;
    };
    let Some(modules) = modules_choice(matches) else {
        return None;
    };
    let Some(gap) = gap_choice(matches) else {
        return None;
    };
    let Some(phases) = phases_choice(matches) else {
        return None;
    };
    let Some(workers) = workers_choice(matches) else {
        return None;
    };
    let Some(step) = step_choice(matches) else {
        return None;
    };
    Some(Choices {
        net: NetOptions { links, modules },
        gap,
        phases,
        workers,
        step,
    })
}

// Seed, nodes, links and demands.
fn four_numbers(positional: &[&str]) -> Option<[u64; 4]>
    ensures value { result ≡ four_numbers_lem (map (λ w. w.now) positional.now) }
    ensures drawn { IfSome result AreDrawn }
{
    let [seed, nodes, links, demands] = positional else {
        return None;
    };
    let Some(seed) = number_in(0, u64::MAX, seed.as_bytes()) else {
        return None;
    };
    let Some(nodes) = number_in(2, MAX_NODES as u64, nodes.as_bytes()) else {
        return None;
    };
    let Some(links) = number_in(nodes, MAX_LINKS as u64, links.as_bytes()) else {
        return None;
    };
    let Some(demands) = number_in(1, MAX_DEMANDS as u64, demands.as_bytes()) else {
        return None;
    };
    Some([seed, nodes, links, demands])
}

// The numbers of a command that takes them, and else four zeros.
fn numbers_of(command: Command, positional: &[&str]) -> Option<[u64; 4]>
    ensures value { result ≡ numbers_of_lem command (map (λ w. w.now) positional.now) }
    ensures drawn { IfSome result (λ n. least_files_lem command ≡ 0 → AreDrawn n) }
{
    if form_of(command).least == 0 {
        return four_numbers(positional);
    }
    Some([0; 4])
}

// Copies of the words.
fn names_of(alloc: Global, words: &[&str]) -> Result<Names, AllocError>
    ensures { IfOk result (λ names. names ≡ map (λ w. w.now) words.now) }
{
    let mut names = Names::new(alloc);
    for word in words {
        names.push(alloc, word)?;
    }
    Ok(names)
}

// The files of a command that reads some.
fn files_of(alloc: Global, command: Command, positional: &[&str]) -> Result<Names, WordsEnd>
    ensures count { IfOk result (λ names. IsFileCount command (length names)) }
    ensures value { Answers (λ n. n) result (files_of_lem command (map (λ w. w.now) positional.now)) }
{
    let form = form_of(command);
    if form.least == 0 {
        return Ok(Names::new(alloc));
    }
    if positional.len() < form.least || positional.len() > form.most {
        return Err(WordsEnd::Usage);
    }
    Ok(names_of(alloc, positional)?)
}

// The request of a command with these matches and these positional words, which are theirs.
#[tactic(auto, unfolding(crate::specs::Parse::request_in))]
fn request_with(
    alloc: Global,
    command: Command,
    matches: &ArgMatches<'_>,
    words: &[&str],
) -> Result<Request, WordsEnd>
    requires { map (λ w. w.now) words.now ≡ words_in (found_of matches.now) }
    ensures count { IfOk result (λ r. IsFileCount r.command (length r.names)) }
    ensures limits { IfOk result IsWithinLimits }
    ensures drawn { IfOk result (λ r. least_files_lem r.command ≡ 0 → AreDrawn r.numbers) }
    ensures value { Answers (λ r. r) result (request_in command (found_of matches.now)) }
{
    let Some(choices) = choices_of(matches) else {
        return Err(WordsEnd::Usage);
    };
    let Some(numbers) = numbers_of(command, words) else {
        return Err(WordsEnd::Usage);
    };
    let names = files_of(alloc, command, words)?;
    Ok(Request {
        command,
        names,
        numbers,
        net: choices.net,
        gap: choices.gap,
        phases: choices.phases,
        workers: choices.workers,
        step: choices.step,
    })
}

// The request of a command with these matches.
fn request_from(
    alloc: Global,
    command: Command,
    matches: &ArgMatches<'_>,
) -> Result<Request, WordsEnd>
    ensures count { IfOk result (λ r. IsFileCount r.command (length r.names)) }
    ensures limits { IfOk result IsWithinLimits }
    ensures drawn { IfOk result (λ r. least_files_lem r.command ≡ 0 → AreDrawn r.numbers) }
    ensures value { Answers (λ r. r) result (request_in command (found_of matches.now)) }
{
    match matches.get_strs(WORDS) {
        Some(words) => request_with(alloc, command, matches, words),
        None => request_with(alloc, command, matches, &[]),
    }
}

/// What the words ask for. `Usage` exactly where they are not in the grammar of the command line.
pub fn read_words(alloc: Global, words: &[String]) -> Result<Request, WordsEnd>
    ensures files { IfOk result (λ r. IsFileCount r.command (length r.names)) }
    ensures limits { IfOk result IsWithinLimits }
    ensures drawn { IfOk result (λ r. least_files_lem r.command ≡ 0 → AreDrawn r.numbers) }
    ensures value { Answers (λ r. r) result (request_of (map string_bytes words.now)) }
{
    let Some((first, others)) = words.split_first() else {
        return Err(WordsEnd::Usage);
    };
    let Some(command) = command_of(first.as_bytes()) else {
        return Err(WordsEnd::Usage);
    };
    let matches = parsed(alloc, command, others)?;
    request_from(alloc, command, &matches)
}
