//! The words of the program, and the command that they are.

ghost use Rattle.std.specs.Prelude.{◌≡◌, ◌≢◌, ℕ, ◌≤◌, map, string_bytes, decimal, option_map, IfSome, IfNone};
ghost use Rattle.tk_run.specs.Commands.{IsBudget, IsCommand, IsOptions, budget_at, budget_in, command_of, generate_of, options, options_of, replay_with, run_with, script_number, verify_with};

use tk_text::natural;
use tk_types::Mode;

/// What the words of the program ask for.
#[derive(Clone, Copy, Debug, PartialEq, Eq)]
pub enum Command {
    /// A run of the script that the input is, in a mode and of at most that many steps, from 1 to 1,000,000.
    Run { mode: Mode, budget: u32 },
    /// The same, fed with the endings of the journal that stands behind the script.
    Replay { mode: Mode, budget: u32 },
    /// Whether the trace that stands behind the script is that of a run of it in a mode and of at most that many steps, from 1 to 1,000,000.
    Verify { mode: Mode, budget: u32 },
    /// The printed form of the script that the input is.
    Check,
    /// A run of the script with a number, which is made and not read, summed up.
    Generate { number: u16 },
}

/// How a run is done: its mode, and at most how many steps, from 1 to 1,000,000.
#[derive(Clone, Copy, Debug, PartialEq, Eq)]
struct Options {
    mode: Mode,
    budget: u32,
}

/// The steps of a run whose words name none.
const DEFAULT_BUDGET: u32 = 100_000;

/// The fewest and the most steps that a run may be given.
const LEAST_BUDGET: u64 = 1;

const MOST_BUDGET: u64 = 1_000_000;

/// The greatest number of a script that is made.
const MOST_NUMBER: u64 = 65_535;

/// The budget that a word spells: a number from 1 to 1,000,000 in digits of which the first isn't 0.
#[tactic(auto, unfolding(crate::specs::Commands::budget_at))]
fn budget_at(word: &[u8]) -> Option<u32>
    ensures value { result ≡ budget_at word.now }
    ensures some { IfSome result (λ n. (word.now ≡ decimal n) × IsBudget n) }
    ensures none { IfNone result ((n : ℕ) → IsBudget n → word.now ≢ decimal n) }
{
    let Some(number) = natural(word) else {
        return None;
    };
    if number < LEAST_BUDGET || number > MOST_BUDGET {
        return None;
    }
    Some(number as u32)
}

/// The budget of the words behind `run`, `replay` or `verify`.
#[tactic(auto, unfolding(crate::specs::Commands::budget_in))]
fn budget_in(words: &[String]) -> Option<u32>
    ensures value { result ≡ budget_in (map string_bytes words.now) }
    ensures within { IfSome result IsBudget }
{
    let Some((option, behind)) = words.split_first() else {
        return Some(DEFAULT_BUDGET);
    };
    let Some((number, others)) = behind.split_first() else {
        return None;
    };
    if !others.is_empty() || option.as_str() != "--budget" {
        return None;
    }
    budget_at(number.as_bytes())
}

/// The options with that budget.
fn options_within(mode: Mode, budget: Option<u32>) -> Option<Options>
    requires { IfSome budget IsBudget }
    ensures value { result ≡ option_map (options mode) budget }
    ensures within { IfSome result IsOptions }
{
    match budget {
        None => None,
        Some(budget) => Some(Options { mode, budget }),
    }
}

/// The options that the words behind `run`, `replay` or `verify` are: `--sync` or not, and then nothing or `--budget N`.
#[tactic(auto, unfolding(crate::specs::Commands::options_of))]
fn options_of(words: &[String]) -> Option<Options>
    ensures value { result ≡ options_of (map string_bytes words.now) }
    ensures within { IfSome result IsOptions }
{
    let Some((option, behind)) = words.split_first() else {
        return Some(Options {
            mode: Mode::Free,
            budget: DEFAULT_BUDGET,
        });
    };
    if option.as_str() == "--sync" {
        return options_within(Mode::Sync, budget_in(behind));
    }
    options_within(Mode::Free, budget_in(words))
}

/// The run with these options.
fn run_with(options: Option<Options>) -> Option<Command>
    requires { IfSome options IsOptions }
    ensures value { result ≡ option_map run_with options }
    ensures within { IfSome result IsCommand }
{
    match options {
        None => None,
        Some(Options { mode, budget }) => Some(Command::Run { mode, budget }),
    }
}

/// The replay with these options.
fn replay_with(options: Option<Options>) -> Option<Command>
    requires { IfSome options IsOptions }
    ensures value { result ≡ option_map replay_with options }
    ensures within { IfSome result IsCommand }
{
    match options {
        None => None,
        Some(Options { mode, budget }) => Some(Command::Replay { mode, budget }),
    }
}

/// The verification with these options.
fn verify_with(options: Option<Options>) -> Option<Command>
    requires { IfSome options IsOptions }
    ensures value { result ≡ option_map verify_with options }
    ensures within { IfSome result IsCommand }
{
    match options {
        None => None,
        Some(Options { mode, budget }) => Some(Command::Verify { mode, budget }),
    }
}

/// The number of a script that a word spells: from 0 to 65,535, in digits of which the first of several isn't 0.
#[tactic(auto, unfolding(crate::specs::Commands::script_number))]
fn script_number(word: &[u8]) -> Option<u16>
    ensures value { result ≡ script_number word.now }
{
    let Some(number) = natural(word) else {
        return None;
    };
    if number > MOST_NUMBER {
        return None;
    }
    Some(number as u16)
}

/// The making of the script whose number the words behind `gen` are.
#[tactic(auto, unfolding(crate::specs::Commands::generate_of))]
fn generate_of(words: &[String]) -> Option<Command>
    ensures value { result ≡ generate_of (map string_bytes words.now) }
    ensures within { IfSome result IsCommand }
{
    let Some((word, others)) = words.split_first() else {
        return None;
    };
    if !others.is_empty() {
        return None;
    }
    let Some(number) = script_number(word.as_bytes()) else {
        return None;
    };
    Some(Command::Generate { number })
}

/// The command that the words are, or `None` where they are none: `run`, `replay` or `verify` with options, `check` alone, or `gen` with
/// the number of a script.
#[tactic(auto, unfolding(crate::specs::Commands::command_of))]
pub fn command_of(words: &[String]) -> Option<Command>
    ensures value { result ≡ command_of (map string_bytes words.now) }
    ensures within { IfSome result IsCommand }
{
    let Some((name, behind)) = words.split_first() else {
        return None;
    };
    if name.as_str() == "run" {
        return run_with(options_of(behind));
    }
    if name.as_str() == "replay" {
        return replay_with(options_of(behind));
    }
    if name.as_str() == "verify" {
        return verify_with(options_of(behind));
    }
    if name.as_str() == "gen" {
        return generate_of(behind);
    }
    if name.as_str() == "check" && behind.is_empty() {
        return Some(Command::Check);
    }
    None
}
