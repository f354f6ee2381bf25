//! The program's arguments.

use clap::error::ErrorKind;
use clap::{Arg, ArgAction, ArgMatches, Command, Error, value_parser};
use pref_core::Setup;
use std::alloc::{AllocError, Global};

/// How a script is run.
#[derive(Clone, Copy)]
pub enum Mode {
    /// Line by line, once all are read.
    Play,
    /// Line by line, each as it comes.
    Live,
    /// Each client's lines on a thread of its own.
    Threads,
}

/// How the script is run, and its setup.
#[derive(Clone, Copy)]
pub struct Args {
    pub mode: Mode,
    pub setup: Setup,
}

/// Why there is nothing to run.
#[derive(Drop)]
pub enum ArgsFault {
    /// The arguments are none of the program's. The text says what is wrong, for standard error.
    Refused(String),
    /// They ask for this text: a help, or the version.
    Help(String),
    /// There was no memory.
    Memory,
}

/// The version, which `--version` prints after the name.
const VERSION: &str = "0.6.7";

/// The end of the program's help: the options, the commands, the questions, and an example.
const AFTER_HELP: &str = "\
With no arguments it runs play. These options stand after play, live or threads:

  --clients <N>  How many clients there are, 1 to 8 (4 by default)
  --cap <N>      How many versions of rows there is room for, 1 to 65536 (1024 by default)
  --block <N>    How many slots one scan reads, 1 to 65536 (1024 by default)
  --window <N>   Rows of a window of block-nested-loops, 1 to 65536 (64 by default): no question uses one

A script begins with a table of whole numbers: the line 'table', the names of the columns, the rows, the line 'end'.
The rows have the ids 1, 2, 3 and so on. Then each line is a command of a client K:

  as K insert V1,V2,..         Adds a row
  as K update ID V1,V2,..      Gives the row of this id other values
  as K delete ID               Deletes the row of this id
  as K commit CHANGE; CHANGE   Makes one to eight of the changes above at once, or none
  as K get ID                  Shows the row of this id
  as K room                    Says how many more versions of rows there is room for
  as K begin QUESTION          Begins a query of the table as it is now, and says how many blocks it has
  as K scan                    Reads the next block
  as K finish                  Ends the query with its answer, once all blocks are read
  as K abandon                 Ends the query without an answer

A question is 'best TERM', 'top_level N TERM' for the levels 1 to N, or 'at_least N TERM' for whole levels until there
are N rows; 'by x, y' at its end asks in each group for itself. A term says which of two rows is better:

  low(x), high(x)                   The smaller number, the larger one
  around(x, 5), between(x, 5, 9)    The number nearer to 5, nearer to the range 5 to 9
  pos(x, 1, 2)                      1 or 2 before every other number
  layered(x, {1, 2}, {3})           1 or 2 before 3, and 3 before every other number
  TERM * TERM                       Better by one, and better or the same by the other
  TERM & TERM                       The first decides, and the second where rows are the same by the first
  -TERM                             The other way round

Or it is a clause 'skyline of price min, stars max, city diff', which asks 'best low(price) * high(stars) by city'.

Example:

    table
    price
    end
    as 1 insert 30
    as 2 insert 20
    as 1 begin best low(price)
    as 1 scan
    as 1 finish

Its last lines are '1 answer 1' and 'level 1 id 2: 20'. With play and threads the replies come when the whole script
was read, with live after each line.";

/// The ways to run a script: the name of each, and its help.
const RUNS: [(&str, &str); 3] = [
    ("play", "Runs the script of standard input"),
    (
        "live",
        "Runs the script of standard input, and replies to each line as it comes",
    ),
    (
        "threads",
        "Runs the script of standard input, each client on a thread of its own",
    ),
];

/// The options of a setup: the name of each, the most that it takes, its default, and its help.
const OPTIONS: [(&str, i64, &str, &str); 4] = [
    ("clients", 8, "4", "How many clients there are, 1 to 8"),
    (
        "cap",
        65_536,
        "1024",
        "How many versions of rows there is room for, 1 to 65536",
    ),
    (
        "block",
        65_536,
        "1024",
        "How many slots one scan reads, 1 to 65536",
    ),
    (
        "window",
        65_536,
        "64",
        "Rows of a window of block-nested-loops, 1 to 65536",
    ),
];

/// An option that takes a whole number from 1 on.
fn number_option<'a>(
    alloc: Global,
    name: &'a str,
    most: i64,
    default: &'a str,
    help: &'a str,
) -> Arg<'a> {
    Arg::new(alloc, name)
        .long(name)
        .value_name("N")
        .action(ArgAction::Set)
        .value_parser(value_parser!(u32).range(1..=most))
        .default_value(default)
        .help(help)
}

/// A subcommand with the options of a setup.
fn run_command<'a>(
    alloc: Global,
    name: &'a str,
    about: &'a str,
) -> Result<Command<'a>, AllocError> {
    let mut command = Command::new(alloc, name).about(about);
    for (name, most, default, help) in OPTIONS {
        command = command.arg(number_option(alloc, name, most, default, help))?;
    }
    Ok(command)
}

/// The program without its subcommands.
fn bare_program<'a>(alloc: Global) -> Result<Command<'a>, AllocError> {
    Ok(
        Command::new(alloc, "prefq")
            .no_binary_name(true)
            .bin_name("prefq")?
            .version(VERSION)
            .override_usage("prefq [(play | live | threads) [OPTIONS]] < SCRIPT")
            .about(
                "Runs a script over a table of whole numbers: clients change rows and ask for the best ones",
            )
            .after_help(AFTER_HELP),
    )
}

fn program<'a>(alloc: Global) -> Result<Command<'a>, AllocError> {
    let mut program = bare_program(alloc)?;
    for (name, about) in RUNS {
        program = program.subcommand(run_command(alloc, name, about)?)?;
    }
    Ok(program)
}

fn setup_of(options: &ArgMatches) -> Option<Setup> {
    Setup::new(
        options.get_one::<u8>("clients")?,
        options.get_one::<u32>("cap")?,
        options.get_one::<u32>("block")?,
        options.get_one::<u32>("window")?,
    )
}

/// The fault of words that are refused for this reason.
pub fn refused(alloc: Global, why: &str) -> ArgsFault {
    match String::from_str(alloc, why) {
        Ok(text) => ArgsFault::Refused(text),
        Err(_) => ArgsFault::Memory,
    }
}

fn fault_of(alloc: Global, error: Error) -> ArgsFault {
    let kind = error.kind();
    match (kind, error.to_string(alloc)) {
        (ErrorKind::OutOfMemory, _) | (_, Err(_)) => ArgsFault::Memory,
        (ErrorKind::DisplayHelp | ErrorKind::DisplayVersion, Ok(text)) => ArgsFault::Help(text),
        (_, Ok(text)) => ArgsFault::Refused(text),
    }
}

/// Reads the words after the program's name: `play`, `live` or `threads` with options, or no word at all, which is `play`.
///
/// The options are `--clients` (1 to 8, else 4), `--cap` and `--block` (1 to 65,536, else 1024) and `--window`
/// (1 to 65,536, else 64). Refused `Help` where the words ask for help or for the version, `Memory` where there is none,
/// and `Refused` for all other words, with a text that names the word, and the range of a number.
pub fn read_args(alloc: Global, words: &[&str]) -> Result<Args, ArgsFault> {
    let Ok(program) = program(alloc) else {
        return Err(ArgsFault::Memory);
    };
    let matches = match program.try_get_matches_from(words) {
        Ok(matches) => matches,
        Err(error) => return Err(fault_of(alloc, error)),
    };
    let Some((name, options)) = matches.subcommand() else {
        return Ok(Args {
            mode: Mode::Play,
            setup: Setup::default(),
        });
    };
    let mode = match name {
        "live" => Mode::Live,
        "threads" => Mode::Threads,
        _ => Mode::Play,
    };
    match setup_of(options) {
        Some(setup) => Ok(Args { mode, setup }),
        None => Err(refused(alloc, "error: a number outside its range\n")),
    }
}
