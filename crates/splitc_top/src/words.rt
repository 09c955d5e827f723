//! The words of the command line.

ghost use Rattle.std.specs.Prelude.{◌≡◌, ◌≤◌, map, string_bytes, Some, None, IfSome, IfOk, IfErr};
ghost use Rattle.splitc_top.specs.Words.{number_word, with_nodes, with_seed, with_budget, with_memory, with_option, options_of, no_options, explain_with, on_nodes, command_named, command_of, nodes_of};
ghost use Rattle.std.specs.Prelude.{ℕ};
ghost use Rattle.std.specs.Option.{option_map};
ghost use Rattle.splitc_top.specs.declared.words.WordsError.TheVariants.{Form};
ghost use Rattle.splitc_top.specs.declared.words.Command.{Command as CommandOf};

use sc_base::LIMITS;
use std::alloc::Global;

/// What the words ask for, with the default of each option that was not given: the report of a run, the history of a run,
/// the listing of the code, or the pairs of accesses that must not overlap. `seed` chooses the schedule, `budget` is how
/// many loop turns and calls a node may begin, and `memory` asks for the cells in the report.
#[derive(Clone, Copy, Debug, PartialEq, Eq)]
pub enum Command {
    Run {
        nodes: u32,
        seed: u64,
        budget: u64,
        memory: bool,
    },
    Explain {
        nodes: u32,
        seed: u64,
        budget: u64,
    },
    Compile {
        nodes: u32,
    },
    Delays {
        nodes: u32,
    },
}

impl Command {
    /// How many nodes the command asks for, of which there is at least one where it was read from words.
    pub fn nodes(&self) -> u32
        ensures { result ≡ nodes_of self.now }
    {
        match self {
            Command::Run { nodes, .. } => *nodes,
            Command::Explain { nodes, .. } => *nodes,
            Command::Compile { nodes } => *nodes,
            Command::Delays { nodes } => *nodes,
        }
    }
}

/// Why the words name no command.
#[derive(Clone, Copy, Debug, PartialEq, Eq)]
pub enum WordsError {
    Form,
    OutOfMemory,
}

/// The options that were given so far.
#[derive(Clone, Copy)]
struct Options {
    nodes: Option<u32>,
    seed: Option<u64>,
    budget: Option<u64>,
    memory: bool,
}

/// The number of a word of 1 to 20 decimal digits, where it is in the range.
fn number_word(word: &[u8], low: u64, high: u64) -> Option<u64>
    ensures value { result ≡ number_word low high word.now }
    ensures above { IfSome result (λ n. n ≤ high) }
{
    if word.is_empty() || word.len() > 20 {
        return None;
    }
    let mut number: u64 = 0;
    for x in word {
        if *x < b'0' || b'9' < *x {
            return None;
        }
        number = number.checked_mul(10)?.checked_add((*x - b'0') as u64)?;
    }
    if low <= number && number <= high {
        Some(number)
    } else {
        None
    }
}

fn with_nodes(options: Options, nodes: u32) -> Option<Options>
    ensures { result ≡ with_nodes options (Some nodes) }
{
    match options.nodes {
        Some(_) => None,
        None => Some(Options {
            nodes: Some(nodes),
            ..options
        }),
    }
}

fn with_seed(options: Options, seed: u64) -> Option<Options>
    ensures { result ≡ with_seed options (Some seed) }
{
    match options.seed {
        Some(_) => None,
        None => Some(Options {
            seed: Some(seed),
            ..options
        }),
    }
}

fn with_budget(options: Options, budget: u64) -> Option<Options>
    ensures { result ≡ with_budget options (Some budget) }
{
    match options.budget {
        Some(_) => None,
        None => Some(Options {
            budget: Some(budget),
            ..options
        }),
    }
}

fn with_memory(options: Options) -> Option<Options>
    ensures { result ≡ with_memory options }
{
    if options.memory {
        None
    } else {
        Some(Options {
            memory: true,
            ..options
        })
    }
}

/// The options with one more, which has a word of its own and was not given before.
fn with_option(name: &str, word: &str, options: Options) -> Option<Options>
    ensures { result ≡ with_option name.now word.now options }
{
    let word = word.as_bytes();
    match name {
        "-n" => with_nodes(options, number_word(word, 1, LIMITS.nodes)? as u32),
        "-s" => with_seed(options, number_word(word, 0, u64::MAX)?),
        "-b" => with_budget(options, number_word(word, 0, LIMITS.budget)?),
        _ => None,
    }
}

/// The options that the words give, where each is given once and in the written form.
fn options_of(words: &[String]) -> Option<Options>
    ensures { result ≡ options_of (map string_bytes words.now) (Some no_options) }
{
    let mut options = Options {
        nodes: None,
        seed: None,
        budget: None,
        memory: false,
    };
    let mut rest = words;
    while let Some((name, after)) = rest.split_first() {
        if name.as_str() == "-m" {
            options = with_memory(options)?;
            rest = after;
        } else {
            let (word, after) = after.split_first()?;
            options = with_option(name.as_str(), word.as_str(), options)?;
            rest = after;
        }
    }
    Some(options)
}

/// The number of nodes, where no other option was given.
fn nodes_alone(options: Options) -> Option<u32>
    ensures { (command : ℕ → CommandOf) → option_map command result ≡ on_nodes command (Some options) }
{
    if options.seed.is_some() || options.budget.is_some() || options.memory {
        return None;
    }
    Some(options.nodes.unwrap_or(4))
}

/// The command that tells the history of a run, which shows no cells.
fn explain_with(options: Options) -> Option<Command>
    ensures { result ≡ explain_with (Some options) }
{
    if options.memory {
        return None;
    }
    Some(Command::Explain {
        nodes: options.nodes.unwrap_or(4),
        seed: options.seed.unwrap_or(1),
        budget: options.budget.unwrap_or(100_000),
    })
}

/// The command of this name with the options.
fn command_named(name: &str, options: Options) -> Option<Command>
    ensures { result ≡ command_named name.now (Some options) }
{
    match name {
        "run" => Some(Command::Run {
            nodes: options.nodes.unwrap_or(4),
            seed: options.seed.unwrap_or(1),
            budget: options.budget.unwrap_or(100_000),
            memory: options.memory,
        }),
        "explain" => explain_with(options),
        "compile" => Some(Command::Compile {
            nodes: nodes_alone(options)?,
        }),
        "delays" => Some(Command::Delays {
            nodes: nodes_alone(options)?,
        }),
        _ => None,
    }
}

/// The command that the words name. `Form` says that they are not in the written form: a command and its options, each
/// at most once and in any order, `-n` with a number in its range, of `run` and `explain` also `-s` and `-b` with theirs,
/// and of `run` alone `-m`, which has no number.
pub fn read_words(_alloc: Global, words: &[String]) -> Result<Command, WordsError>
    ensures command { IfOk result (λ c. command_of (map string_bytes words.now) ≡ Some c) }
    ensures form { IfErr result (λ e. e ≡ Form → command_of (map string_bytes words.now) ≡ None) }
{
    let [command, rest @ ..] = words else {
        return Err(WordsError::Form);
    };
    let Some(options) = options_of(rest) else {
        return Err(WordsError::Form);
    };
    match command_named(command.as_str(), options) {
        Some(command) => Ok(command),
        None => Err(WordsError::Form),
    }
}
