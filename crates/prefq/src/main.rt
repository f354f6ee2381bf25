//! The program: its arguments, its standard input and output, and its exit status. What it does with a script is pref_script's.
#![tactic(auto)]

mod args;

use args::{Args, ArgsFault, Mode, read_args, refused};
use pref_script::{RunFault, Watched, run_live, run_script, run_script_on_threads};
use std::alloc::{AllocError, Global};
use std::env;
use std::io::{ErrorKind, Read, Write};
use std::process::ExitCode;
use std::rt::Env;
use std::sync::Wait;
use std::thread::Threads;

/// The status of refused arguments.
const REFUSED: u8 = 2;

/// The status of a run that is out of memory.
const OUT_OF_MEMORY: u8 = 1;

/// The words after the program's name.
fn arguments(rt: &(impl Env + AllocGlobal)) -> Result<Vec<String>, ArgsFault> {
    let all = match env::args(rt) {
        Ok(all) => all,
        Err(error) if error.kind() == ErrorKind::OutOfMemory => return Err(ArgsFault::Memory),
        Err(_) => return Err(refused(rt.alloc(), "error: a word that is not UTF-8\n")),
    };
    match all.skip(1).collect(rt.alloc()) {
        Ok(words) => Ok(words),
        Err(_) => Err(ArgsFault::Memory),
    }
}

fn borrowed(alloc: Global, words: &[String]) -> Result<Vec<&str>, AllocError> {
    let mut lent = Vec::new(alloc);
    for word in words {
        lent.push(word.as_str())?;
    }
    Ok(lent)
}

/// Prints a line where it can be printed.
fn say(rt: &impl Print, line: &str) {
    let _ = rt.println(line);
}

/// Says on standard output that the arguments are refused, and on standard error why; prints the help where it was asked for. The status is
/// that of the program.
fn refuse(rt: &(impl Print + Eprint), fault: ArgsFault) -> u8 {
    match fault {
        ArgsFault::Refused(why) => {
            say(rt, "arguments refused");
            let _ = rt.eprint(why.as_str());
            REFUSED
        }
        ArgsFault::Help(text) => {
            let _ = rt.print(text.as_str());
            0
        }
        ArgsFault::Memory => {
            say(rt, "fault: memory");
            OUT_OF_MEMORY
        }
    }
}

/// Prints the line of a fault that the run itself doesn't write.
fn report(rt: &impl Print, fault: &RunFault) {
    match fault {
        RunFault::Read => say(rt, "fault: read"),
        RunFault::TooLarge => say(rt, "fault: too large"),
        RunFault::Memory => say(rt, "fault: memory"),
        RunFault::Threads(_) => say(rt, "fault: threads"),
        RunFault::Write
        | RunFault::NoTable
        | RunFault::NoEnd
        | RunFault::Table(_)
        | RunFault::Opening(_) => {}
    }
}

/// Runs the script that is read as the arguments ask for, and reports how that ended by a line and by the status.
fn run_as_asked<T: Threads + Wait + Sync + AllocGlobal + Print, R: Read + Drop, W: Write + Drop>(
    rt: &T,
    reader: R,
    writer: W,
    args: Args,
) -> u8 {
    let Args { mode, setup } = args;
    let mut reader = Watched::new(reader);
    let mut writer = Watched::new(writer);
    let result = match mode {
        Mode::Play => run_script(rt.alloc(), &mut reader, &mut writer, setup),
        Mode::Live => run_live(rt.alloc(), &mut reader, &mut writer, setup),
        Mode::Threads => run_script_on_threads(rt, rt.alloc(), &mut reader, &mut writer, setup),
    };
    match result {
        Ok(()) => 0,
        Err(fault) => {
            report(rt, &fault);
            fault.status()
        }
    }
}

/// The arguments that the program's words give.
fn given_args(rt: &(impl Env + AllocGlobal)) -> Result<Args, ArgsFault> {
    let words = arguments(rt)?;
    let Ok(lent) = borrowed(rt.alloc(), words.as_slice()) else {
        return Err(ArgsFault::Memory);
    };
    read_args(rt.alloc(), lent.as_slice())
}

fn main(rt: HostRuntime) -> ExitCode {
    let status = match given_args(&rt) {
        Ok(args) => run_as_asked(&rt, rt.stdin(), rt.stdout(), args),
        Err(fault) => refuse(&rt, fault),
    };
    ExitCode::from(status)
}
