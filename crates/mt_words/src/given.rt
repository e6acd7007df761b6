// What the words hold.
ghost use Rattle.std.specs.Prelude.{◌≡◌, ◌≢◌, [], IfOk, IfSome, IfNone, codes, map, unwrap_or};
ghost use Rattle.std.specs.String.{string_bytes};
ghost use Rattle.clap.specs.Matches.{found_of};
ghost use Rattle.clap.specs.Simple.{app_of, with_rule};
ghost use Rattle.clap.specs.Values.{kind_of};
ghost use Rattle.clap.specs.declared.error.kind.ErrorKind.TheVariants.{OutOfMemory};
ghost use Rattle.clap.specs.Walk.{all_of, rows_of};
ghost use Rattle.mt_words.specs.Held.{given_is, options_are};
ghost use Rattle.mt_words.specs.Model.{texts};
ghost use Rattle.mt_words.specs.Reading.{IsRead, given_by, given_in, mtcc, option_argument, options_in, with_positionals};

use clap::error::ErrorKind;
use clap::{Arg, ArgMatches, Command, Error};
use std::alloc::{AllocError, Global};

/// The values of the options that were given.
#[derive(Clone, Copy)]
pub struct Options<'a> {
    pub out: Option<&'a str>,
    pub tags: Option<&'a str>,
    pub steps: Option<&'a str>,
    pub stack: Option<&'a str>,
    pub work: Option<&'a str>,
}

/// What the words hold.
#[derive(Drop)]
pub struct Given<'a> {
    pub command: Option<&'a str>,
    pub files: Vec<&'a str>,
    pub options: Options<'a>,
}

/// What the words hold; `None` where the parse has a fault.
pub fn read<'a>(alloc: Global, words: &'a [String]) -> Result<Option<Given<'a>>, AllocError>
    ensures read { IfOk result (λ found. IfSome found (λ given. IsRead (map string_bytes words.now))) }
    ensures given { IfOk result (λ found. IfSome found (λ given. given_is given ≡ given_by (map string_bytes words.now))) }
    ensures fault { IfOk result (λ found. IfNone found (¬ IsRead (map string_bytes words.now))) }
{
    let command = command_of(alloc)?;
    match command.try_get_matches_from(words) {
        Ok(matches) => Ok(Some(given_of(alloc, &matches)?)),
        Err(error) => {
            refused(&error)?;
            Ok(None)
        }
    }
}

// An error says that the words have a fault, or that memory ran out.
fn refused(error: &Error) -> Result<(), AllocError>
    ensures { IfOk result (λ _. kind_of error.now ≢ OutOfMemory) }
{
    match error.kind() {
        ErrorKind::OutOfMemory => Err(AllocError),
        _ => Ok(()),
    }
}

// The command as which the words are read.
fn command_of<'a>(alloc: Global) -> Result<Command<'a>, AllocError>
    ensures { IfOk result (λ command. app_of command ≡ mtcc) }
{
    let command = with_option(alloc, positionals(alloc)?, "tags")?;
    let command = with_option(alloc, command, "steps")?;
    let command = with_option(alloc, command, "stack")?;
    let command = with_option(alloc, command, "out")?;
    with_option(alloc, command, "work")
}

// The command without its options.
fn positionals<'a>(alloc: Global) -> Result<Command<'a>, AllocError>
    ensures { IfOk result (λ command. app_of command ≡ with_positionals) }
{
    let command = Command::new(alloc, "mtcc").no_binary_name(true);
    let command = command.arg(Arg::new(alloc, "COMMAND").required(true))?;
    command.arg(Arg::new(alloc, "FILE").num_args(1..))
}

// The command with one more option of this name.
fn with_option<'a>(
    alloc: Global,
    command: Command<'a>,
    name: &'a str,
) -> Result<Command<'a>, AllocError>
    ensures { IfOk result (λ more. app_of more ≡ with_rule (app_of command.entry) (option_argument name.entry.now)) }
{
    command.arg(Arg::new(alloc, name).long(name))
}

// What the matches hold.
fn given_of<'a>(alloc: Global, matches: &ArgMatches<'a>) -> Result<Given<'a>, AllocError>
    ensures { IfOk result (λ given. given_is given ≡ given_in (rows_of (found_of matches.now))) }
{
    let files = files_of(alloc, matches)?;
    let command = matches.get_str("COMMAND");
    let options = options_of(matches);
    Ok(Given {
        command,
        files,
        options,
    })
}

// The files that the matches hold.
fn files_of<'a>(alloc: Global, matches: &ArgMatches<'a>) -> Result<Vec<&'a str>, AllocError>
    ensures { IfOk result (λ files. texts files.items ≡ unwrap_or (all_of (codes "FILE") (rows_of (found_of matches.now))) []) }
{
    let mut files = Vec::new(alloc);
    match matches.get_raw("FILE") {
        Some(values) => {
            files.extend_from_slice(values)?;
            Ok(files)
        }
        None => Ok(files),
    }
}

// The options that the matches hold.
fn options_of<'a>(matches: &ArgMatches<'a>) -> Options<'a>
    ensures { options_are result ≡ options_in (rows_of (found_of matches.now)) }
{
    let out = matches.get_str("out");
    let tags = matches.get_str("tags");
    let steps = matches.get_str("steps");
    let stack = matches.get_str("stack");
    let work = matches.get_str("work");
    Options {
        out,
        tags,
        steps,
        stack,
        work,
    }
}
