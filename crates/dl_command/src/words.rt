//! The words behind the program's name: the command line that `clap` reads, and the table of commands.

ghost use Rattle.std.specs.Prelude.{◌≡◌, ◌≢◌, ◌≤◌, map, option_map, string_bytes, Some, None, IfOk, IsErrOf, length};
ghost use Rattle.std.specs.Prelude.{[], codes, unwrap_or};
ghost use Rattle.clap.specs.Words.{all_of, app_of, found_of, rows_of};
ghost use Rattle.dl_command.specs.Words as spec;
ghost use Rattle.dl_command.specs.Words.{request_of, request_of_words};

use crate::status::Status;
use clap::error::ErrorKind;
use clap::{Arg, ArgAction, ArgMatches};
use std::alloc::{AllocError, Global};
use std::marker::Model;

/// The words behind the program's name.
#[derive(Drop)]
pub struct Words {
    items: Vec<String>,
}

impl Model for Words {
    ghost use Rattle.std.specs.Prelude.{List, ℕ, map, string_bytes};

    ghost Value = { List (List ℕ) };

    ghost view = { λ words. map string_bytes words.items.items };
}

impl Words {
    /// These words.
    pub fn new(items: Vec<String>) -> Words
        ensures { result ≡ map string_bytes items.items }
    {
        Words { items }
    }

    /// The words in order.
    pub fn as_slice(&self) -> &[String]
        ensures { map string_bytes result.now ≡ self.now }
    {
        &self.items
    }
}

/// What the program is to do.
#[derive(Clone, Copy, Debug, PartialEq, Eq)]
pub enum Verb {
    /// Runs one operation file, operation after operation.
    Serial,
    /// Runs up to 64 operation files side by side.
    Run,
    /// Gives the callers of up to 64 operation files steps by a schedule, and traces them.
    Step,
    /// Prints a module in its canonical form, and its code.
    Show,
    /// Runs the operations that a seed gives, and prints a summary.
    Work,
}

/// What the program is to do, with the path of the module and those of the files behind it.
#[derive(Drop)]
pub struct Command<'a> {
    pub verb: Verb,
    pub first: &'a str,
    pub rest: Vec<&'a str>,
    /// How many hidden objects there may be at a time.
    pub places: u32,
    /// The path of the heap file from which a run starts, where one is given.
    pub heap: Option<&'a str>,
}

/// Why words give no command.
#[derive(Clone, Copy, Debug, PartialEq, Eq)]
pub enum WordsFault {
    /// They are not good.
    Usage,
    /// Memory ran out while they were read.
    Memory,
}

impl WordsFault {
    /// The status of a call that ends with this fault.
    pub fn status(self) -> Status
        ensures { result ≡ spec.status_of self }
    {
        match self {
            WordsFault::Usage => Status::Usage,
            WordsFault::Memory => Status::Memory,
        }
    }
}

// What the command line gives.
#[derive(Drop)]
struct Line<'a> {
    command: &'a str,
    first: &'a str,
    rest: Vec<&'a str>,
    places: u32,
    heap: Option<&'a str>,
}

// A row of the table of commands: what its word asks for, how many words REST has at least and at most, and whether it
// takes `--heap`.
#[derive(Clone, Copy)]
struct CommandRow {
    verb: Verb,
    fewest: usize,
    most: usize,
    takes_heap: bool,
}

// The command line: COMMAND, FIRST, any number of words REST, and `--places N` and `--heap FILE` anywhere among them.
fn command_line<'a>(alloc: Global) -> Result<clap::Command<'a>, AllocError>
    ensures { IfOk result (λ line. app_of line ≡ spec.command_line) }
{
    let command = Arg::new(alloc, "COMMAND").required(true);
    let first = Arg::new(alloc, "FIRST").required(true);
    let rest = Arg::new(alloc, "REST").action(ArgAction::Append);
    let places = Arg::new(alloc, "places")
        .long("places")
        .value_parser(clap::value_parser!(u32).range(1..=65_536))
        .default_value("4096");
    let heap = Arg::new(alloc, "heap").long("heap");
    let line = clap::Command::new(alloc, "domlock").no_binary_name(true);
    let line = line.arg(command)?;
    let line = line.arg(first)?;
    let line = line.arg(rest)?;
    let line = line.arg(places)?;
    Ok(line.arg(heap)?)
}

// The words REST of the command line.
fn rest_of<'a>(alloc: Global, matches: &ArgMatches<'a>) -> Result<Vec<&'a str>, AllocError>
    ensures { IfOk result (λ rest. map (λ word. word.now) rest.items ≡ unwrap_or (all_of (codes "REST") (rows_of (found_of matches.now))) []) }
{
    match matches.get_strs("REST") {
        Some(rest) => Vec::from_slice(alloc, rest),
        None => Ok(Vec::new(alloc)),
    }
}

// What the matches of the command line give.
fn line_of<'a>(alloc: Global, matches: &ArgMatches<'a>) -> Result<Line<'a>, WordsFault>
    ensures ok { IfOk result (λ line. spec.line_of_matches (rows_of (found_of matches.now)) ≡ Some (spec.line_held line)) }
    ensures usage { IsErrOf result WordsFault.Usage → spec.line_of_matches (rows_of (found_of matches.now)) ≡ None }
{
    let Some(command) = matches.get_str("COMMAND") else {
        return Err(WordsFault::Usage);
    };
    let Some(first) = matches.get_str("FIRST") else {
        return Err(WordsFault::Usage);
    };
    let Some(places) = matches.get_one::<u32>("places") else {
        return Err(WordsFault::Usage);
    };
    let heap = matches.get_str("heap");
    match rest_of(alloc, matches) {
        Ok(rest) => Ok(Line {
            command,
            first,
            rest,
            places,
            heap,
        }),
        Err(_) => Err(WordsFault::Memory),
    }
}

// The row of the table that a word has.
fn row_of(word: &str) -> Option<CommandRow>
    ensures { result ≡ spec.row_of word.now }
{
    match word {
        "serial" => Some(CommandRow {
            verb: Verb::Serial,
            fewest: 1,
            most: 1,
            takes_heap: true,
        }),
        "run" => Some(CommandRow {
            verb: Verb::Run,
            fewest: 1,
            most: 64,
            takes_heap: true,
        }),
        "step" => Some(CommandRow {
            verb: Verb::Step,
            fewest: 2,
            most: 65,
            takes_heap: true,
        }),
        "show" => Some(CommandRow {
            verb: Verb::Show,
            fewest: 0,
            most: 0,
            takes_heap: false,
        }),
        "work" => Some(CommandRow {
            verb: Verb::Work,
            fewest: 2,
            most: 2,
            takes_heap: false,
        }),
        _ => None,
    }
}

// The command that the table has for what the command line gives.
fn command_by(line: Line<'_>) -> Option<Command<'_>>
    ensures { option_map request_of result ≡ spec.request_of_line (spec.line_held line.entry) }
{
    let Line {
        command,
        first,
        rest,
        places,
        heap,
    } = line;
    let row = row_of(command)?;
    if rest.len() < row.fewest || row.most < rest.len() {
        return None;
    }
    if heap.is_some() && !row.takes_heap {
        return None;
    }
    Some(Command {
        verb: row.verb,
        first,
        rest,
        places,
        heap,
    })
}

// The command that the matches of the command line give.
fn command_given<'a>(alloc: Global, matches: &ArgMatches<'a>) -> Result<Command<'a>, WordsFault>
    ensures ok { IfOk result (λ command. spec.request_of_matches (rows_of (found_of matches.now)) ≡ Some (request_of command)) }
    ensures usage { IsErrOf result WordsFault.Usage → spec.request_of_matches (rows_of (found_of matches.now)) ≡ None }
{
    let line = match line_of(alloc, matches) {
        Ok(line) => line,
        Err(fault) => return Err(fault),
    };
    match command_by(line) {
        Some(command) => Ok(command),
        None => Err(WordsFault::Usage),
    }
}

// Why words were refused with an error of this kind. A wish for help is refused too.
fn fault_of(kind: ErrorKind) -> WordsFault
    ensures usage { result ≡ WordsFault.Usage → kind ≢ ErrorKind.OutOfMemory }
    ensures memory { result ≡ WordsFault.Memory → kind ≡ ErrorKind.OutOfMemory }
{
    match kind {
        ErrorKind::OutOfMemory => WordsFault::Memory,
        _ => WordsFault::Usage,
    }
}

/// Reads the words by the command line and the table of commands, which `docs/FORMATS.md` tells.
pub fn command_of(alloc: Global, words: &Words) -> Result<Command<'_>, WordsFault>
    ensures ok { IfOk result (λ command. request_of_words words.entry.now ≡ Some (request_of command)) }
    ensures usage { IsErrOf result WordsFault.Usage → request_of_words words.entry.now ≡ None }
    ensures rest { IfOk result (λ command. spec.MayHave command.verb (length command.rest.items)) }
    ensures places { IfOk result (λ command. (1 ≤ command.places) × (command.places ≤ 65536)) }
{
    let Ok(line) = command_line(alloc) else {
        return Err(WordsFault::Memory);
    };
    match line.try_get_matches_from(words.as_slice()) {
        Ok(matches) => command_given(alloc, &matches),
        Err(error) => Err(fault_of(error.kind())),
    }
}
