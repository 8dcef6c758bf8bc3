//! The files that a command wants behind the module, in the order in which they are read.

ghost use Rattle.std.specs.Prelude.{◌≡◌, ◌≤◌, ◌++◌, map, option_map, IfOk, OnOk, length};
ghost use Rattle.dl_command.specs.Wanted as spec;
ghost use Rattle.dl_command.specs.Wanted.{operations_from, wanted_held};
ghost use Rattle.dl_command.specs.Words.{request_of};

use crate::words::{Command, Verb};
use std::alloc::{AllocError, Global};

/// What a file behind the module is to be.
#[derive(Clone, Copy, Debug, PartialEq, Eq)]
pub enum Form {
    /// A heap of the module with at most so many hidden objects.
    Heap { places: u32 },
    /// A schedule of so many callers.
    Schedule { callers: u32 },
    /// Operations of the module.
    Operations,
}

/// A file that is wanted behind the module.
#[derive(Clone, Copy, Debug, Drop)]
pub struct WantedFile<'a> {
    pub number: u32,
    pub form: Form,
    pub path: &'a str,
}

// Adds operation files at these paths, numbered from this number on.
fn add_operations<'a>(
    wanted: &mut Vec<WantedFile<'a>>,
    first: u32,
    paths: &[&'a str],
) -> Result<(), AllocError>
    requires small { first ≤ 2 }
    requires few { length paths.now ≤ 65 }
    ensures { OnOk result (map wanted_held wanted.new.items ≡ map wanted_held wanted.old.items ++ operations_from first (map (λ path. path.now) paths.now)) }
{
    'paths: for (i, path) in paths.iter().enumerate() {
        wanted.push(WantedFile {
            number: first + i as u32,
            form: Form::Operations,
            path,
        })?;
    }
    Ok(())
}

// Adds the files of `step`: a schedule, and behind it the operation files of the callers that it may name.
fn add_step<'a>(wanted: &mut Vec<WantedFile<'a>>, paths: &[&'a str]) -> Result<(), AllocError>
    requires few { length paths.now ≤ 65 }
    ensures { OnOk result (map wanted_held wanted.new.items ≡ map wanted_held wanted.old.items ++ spec.wanted_by Verb.Step (map (λ path. path.now) paths.now)) }
{
    let Some((path, operations)) = paths.split_first() else {
        return Ok(());
    };
    wanted.push(WantedFile {
        number: 1,
        form: Form::Schedule {
            callers: operations.len() as u32,
        },
        path,
    })?;
    add_operations(wanted, 2, operations)
}

/// The number of the heap file.
pub const HEAP_FILE: u32 = 65_535;

// Adds the heap file, where one is given.
fn add_heap<'a>(
    wanted: &mut Vec<WantedFile<'a>>,
    places: u32,
    heap: Option<&'a str>,
) -> Result<(), AllocError>
    ensures { OnOk result (map wanted_held wanted.new.items ≡ map wanted_held wanted.old.items ++ spec.heap_file places (option_map (λ path. path.now) heap.entry)) }
{
    if let Some(path) = heap {
        wanted.push(WantedFile {
            number: HEAP_FILE,
            form: Form::Heap { places },
            path,
        })?;
    }
    Ok(())
}

/// The files that a command wants behind the module, in the order in which they are read. Files are numbered by their
/// words, and the heap file has a number of its own.
pub fn wanted_files<'a>(
    alloc: Global,
    command: &Command<'a>,
) -> Result<Vec<WantedFile<'a>>, AllocError>
    requires { length command.now.rest.items ≤ 65 }
    ensures { IfOk result (λ wanted. map wanted_held wanted.items ≡ spec.wanted (request_of command.now)) }
{
    let mut wanted = Vec::new(alloc);
    add_heap(&mut wanted, command.places, command.heap)?;
    match command.verb {
        Verb::Step => add_step(&mut wanted, command.rest.as_slice())?,
        Verb::Serial | Verb::Run | Verb::Show => {
            add_operations(&mut wanted, 1, command.rest.as_slice())?
        }
        Verb::Work => {}
    }
    Ok(wanted)
}
