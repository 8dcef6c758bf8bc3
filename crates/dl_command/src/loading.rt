//! Reading the files of a command: the module and what stands behind it, or why they are refused.

ghost use Rattle.std.specs.Prelude.{◌≡◌, ◌<◌, ◌≤◌, ℕ, map, All, IfOk, IfErr, OnOk, length};
ghost use Rattle.dl_ir.specs.CallForms.{AreCallsOf};
ghost use Rattle.dl_ir.specs.Checked.{IsChecked};
ghost use Rattle.dl_ir.specs.declared.modules.Module.{Module as ModuleOf};
ghost use Rattle.dl_command.specs.Causes.{NoFile, NoModule, Refuses};
ghost use Rattle.dl_command.specs.Reading.{AfterReading, IsWithin};
ghost use Rattle.dl_command.specs.Texts.{CanStart, IsModuleFile, IsFile, AreFiles, Says, SpellsInput, behind_of, calls_status, heap_of, heap_status, nothing_behind, schedule_status, with_content};
ghost use Rattle.dl_heapfile.specs.Names.{HasNames};
ghost use Rattle.dl_ir.specs.Heap.{HasStart};
ghost use Rattle.dl_command.specs.Wanted.{wanted_held};
ghost use Rattle.dl_command.specs.Words.{limit_of, request_of};
ghost use Rattle.dl_grammar.specs.Texts.{Spells};
ghost use Rattle.dl_types.specs.Rules.{Types};
ghost use Rattle.dl_command.specs.Loading.{syntax_status, type_status, IsFine, IsNumberOf, ParseCause, TextCause, StopsAt};

use crate::reading::read_file;
use crate::status::{HeapWhy, ModuleWhy, OpsWhy, Status};
use crate::wanted::{Form, WantedFile, wanted_files};
use crate::words::Command;
use dl_grammar::{SyntaxFault, Tree, read_module};
use dl_heapfile::{HeapFault, read_heap};
use dl_io::Files;
use dl_ir::{Calls, Heap, Module};
use dl_naming::spelled_has_names;
use dl_schedule::{Schedule, ScheduleFault, read_schedule};
use dl_syntax::{CallsFault, read_calls};
use dl_types::{TypeFault, check};
use sqlite_items::Items;
use std::alloc::{AllocError, Global};

fn module_fault(line: u32, why: ModuleWhy) -> Status
    ensures { result ≡ Status.ModuleFault line why }
{
    Status::ModuleFault { line, why }
}

// The status of a fault of a module text.
fn status_of_syntax(fault: SyntaxFault) -> Status
    ensures { result ≡ syntax_status fault }
{
    match fault {
        SyntaxFault::NotAscii { line, .. } => module_fault(line, ModuleWhy::NotAscii),
        SyntaxFault::BadByte { line, .. } => module_fault(line, ModuleWhy::BadByte),
        SyntaxFault::BigNumber { line, .. } => module_fault(line, ModuleWhy::BigNumber),
        SyntaxFault::Expected { line } => module_fault(line, ModuleWhy::Expected),
        SyntaxFault::TooDeep { line } => module_fault(line, ModuleWhy::TooDeep),
        SyntaxFault::Limit { line, which } => module_fault(line, ModuleWhy::Limit(which)),
        SyntaxFault::Memory => Status::Memory,
    }
}

// The status of a fault of names and types.
fn status_of_types(fault: TypeFault) -> Status
    ensures { result ≡ type_status fault }
{
    match fault {
        TypeFault::Twice { line } => module_fault(line, ModuleWhy::Twice),
        TypeFault::Unknown { line } => module_fault(line, ModuleWhy::Unknown),
        TypeFault::KindClash { line } => module_fault(line, ModuleWhy::KindClash),
        TypeFault::RootInField { line } => module_fault(line, ModuleWhy::RootInField),
        TypeFault::NewRoot { line } => module_fault(line, ModuleWhy::NewRoot),
        TypeFault::AssignRoot { line } => module_fault(line, ModuleWhy::AssignRoot),
        TypeFault::NoRoots { line } => module_fault(line, ModuleWhy::NoRoots),
        TypeFault::Memory => Status::Memory,
    }
}

// A module, with the tree that it was made of.
#[derive(Drop)]
struct Parsed {
    tree: Tree,
    source: Module,
}

// The tree that a text spells, and the module that the tree is.
fn parse_module(alloc: Global, text: &[u8]) -> Result<Parsed, Status>
    requires { length text.now ≤ 262144 }
    ensures spelled { IfOk result (λ parsed. Spells text.now parsed.tree) }
    ensures typed { IfOk result (λ parsed. Types parsed.tree parsed.source) }
    ensures checked { IfOk result (λ parsed. IsChecked parsed.source) }
    ensures names { IfOk result (λ parsed. HasNames parsed.source) }
    ensures cause { IfErr result (ParseCause text.now) }
{
    spelled_has_names();
    let tree = match read_module(alloc, text) {
        Ok(tree) => tree,
        Err(fault) => return Err(status_of_syntax(fault)),
    };
    match check(alloc, &tree) {
        Ok(source) => Ok(Parsed { tree, source }),
        Err(fault) => Err(status_of_types(fault)),
    }
}

fn ops_fault(file: u32, line: u32, why: OpsWhy) -> Status
    ensures { result ≡ Status.OpsFault file line why }
{
    Status::OpsFault { file, line, why }
}

// The status of a fault of an operation file.
fn status_of_calls(file: u32, fault: CallsFault) -> Status
    ensures { result ≡ calls_status file fault }
{
    match fault {
        CallsFault::NotAscii { line } => ops_fault(file, line, OpsWhy::NotAscii),
        CallsFault::BadByte { line } => ops_fault(file, line, OpsWhy::BadByte),
        CallsFault::TooMany { line } => ops_fault(file, line, OpsWhy::TooMany),
        CallsFault::NoOp { line } => ops_fault(file, line, OpsWhy::NoOp),
        CallsFault::ArgCount { line } => ops_fault(file, line, OpsWhy::ArgCount),
        CallsFault::NotNumber { line } => ops_fault(file, line, OpsWhy::NotNumber),
        CallsFault::NoRoot { line } => ops_fault(file, line, OpsWhy::NoRoot),
        CallsFault::Memory => Status::Memory,
    }
}

// The status of a fault of a schedule file.
fn status_of_schedule(file: u32, fault: ScheduleFault) -> Status
    ensures { result ≡ schedule_status file fault }
{
    match fault {
        ScheduleFault::NotAscii { line } => ops_fault(file, line, OpsWhy::NotAscii),
        ScheduleFault::BadByte { line } => ops_fault(file, line, OpsWhy::BadByte),
        ScheduleFault::BadStep { line } => ops_fault(file, line, OpsWhy::BadStep),
        ScheduleFault::NoCaller { line } => ops_fault(file, line, OpsWhy::NoCaller),
        ScheduleFault::TooMany { line } => ops_fault(file, line, OpsWhy::TooMany),
        ScheduleFault::Memory => Status::Memory,
    }
}

fn heap_fault(line: u32, why: HeapWhy) -> Status
    ensures { result ≡ Status.HeapFault line why }
{
    Status::HeapFault { line, why }
}

// The status of a fault of the heap file.
fn status_of_heap(fault: HeapFault) -> Status
    ensures { result ≡ heap_status fault }
{
    match fault {
        HeapFault::NoHeap { line } => heap_fault(line, HeapWhy::NoHeap),
        HeapFault::BadLine { line } => heap_fault(line, HeapWhy::BadLine),
        HeapFault::Count { line } => heap_fault(line, HeapWhy::Count),
        HeapFault::Dangling { line } => heap_fault(line, HeapWhy::Dangling),
        HeapFault::Shape { line } => heap_fault(line, HeapWhy::Shape),
        HeapFault::NoPlaces { line } => heap_fault(line, HeapWhy::NoPlaces),
        HeapFault::Memory => Status::Memory,
    }
}

/// What a file behind the module says.
#[derive(Drop)]
pub enum Content {
    Heap(Heap),
    Schedule(Schedule),
    Calls(Calls),
}

// The heap of the heap file.
fn parse_heap(alloc: Global, source: &Module, places: u32, text: &[u8]) -> Result<Content, Status>
    requires start { HasStart source.now }
    requires names { HasNames source.now }
    requires short { length text.now ≤ 67108864 }
    ensures ok { IfOk result (Says source.now (Form.Heap places) text.now) }
    ensures calls { IfOk result (IsFine source.now) }
    ensures cause { (file : ℕ) → IfErr result (TextCause source.now file (Form.Heap places) text.now) }
{
    match read_heap(alloc, text, source, places) {
        Ok(heap) => Ok(Content::Heap(heap)),
        Err(fault) => Err(status_of_heap(fault)),
    }
}

// The schedule of a file with this number.
fn parse_schedule(alloc: Global, callers: u32, file: u32, text: &[u8]) -> Result<Content, Status>
    requires short { length text.now ≤ 4194304 }
    ensures ok { (source : ModuleOf) → IfOk result (Says source (Form.Schedule callers) text.now) }
    ensures calls { (source : ModuleOf) → IfOk result (IsFine source) }
    ensures cause { (source : ModuleOf) → IfErr result (TextCause source file (Form.Schedule callers) text.now) }
{
    match read_schedule(alloc, text, callers) {
        Ok(schedule) => Ok(Content::Schedule(schedule)),
        Err(fault) => Err(status_of_schedule(file, fault)),
    }
}

// The calls of a file with this number.
fn parse_calls(alloc: Global, source: &Module, file: u32, text: &[u8]) -> Result<Content, Status>
    requires few_ops { length source.now.ops ≤ 64 }
    requires short { length text.now ≤ 4194304 }
    ensures ok { IfOk result (Says source.now Form.Operations text.now) }
    ensures calls { IfOk result (IsFine source.now) }
    ensures cause { IfErr result (TextCause source.now file Form.Operations text.now) }
{
    match read_calls(alloc, text, source) {
        Ok(calls) => Ok(Content::Calls(calls)),
        Err(fault) => Err(status_of_calls(file, fault)),
    }
}

// What a text of this form says.
fn parse(
    alloc: Global,
    source: &Module,
    file: u32,
    form: Form,
    text: &[u8],
) -> Result<Content, Status>
    requires few_ops { length source.now.ops ≤ 64 }
    requires start { HasStart source.now }
    requires names { HasNames source.now }
    requires short { length text.now ≤ limit_of file }
    requires fits { IsNumberOf form file }
    ensures ok { IfOk result (Says source.now form text.now) }
    ensures calls { IfOk result (IsFine source.now) }
    ensures cause { IfErr result (TextCause source.now file form text.now) }
{
    match form {
        Form::Heap { places } => parse_heap(alloc, source, places, text),
        Form::Schedule { callers } => parse_schedule(alloc, callers, file, text),
        Form::Operations => parse_calls(alloc, source, file, text),
    }
}

// Reads the module of a command.
fn read_source<F: Files>(alloc: Global, files: &mut F, path: &str) -> Result<Parsed, Status>
    ensures ok { IfOk result (λ parsed. IsModuleFile (F.source files.old) path.now parsed.tree parsed.source) }
    ensures checked { IfOk result (λ parsed. IsChecked parsed.source) }
    ensures names { IfOk result (λ parsed. HasNames parsed.source) }
    ensures within { OnOk result (IsWithin (F.source files.new)) }
    ensures cause { IfErr result (NoModule path.now (F.source files.old) (F.source files.new)) }
    ensures after { AfterReading (F.source files.old) (F.source files.new) }
{
    let text = match read_file(alloc, files, 0, path) {
        Ok(text) => text,
        Err(status) => return Err(status),
    };
    parse_module(alloc, &text)
}

// Reads a wanted file.
fn read_wanted<F: Files>(
    alloc: Global,
    files: &mut F,
    source: &Module,
    file: WantedFile<'_>,
) -> Result<Content, Status>
    requires few_ops { length source.now.ops ≤ 64 }
    requires start { HasStart source.now }
    requires names { HasNames source.now }
    requires number { IsNumberOf file.form file.number }
    ensures ok { IfOk result (IsFile source.now (F.source files.old) (wanted_held file.entry)) }
    ensures calls { IfOk result (IsFine source.now) }
    ensures within { OnOk result (IsWithin (F.source files.new)) }
    ensures cause { IfErr result (NoFile source.now (wanted_held file.entry) (F.source files.old) (F.source files.new)) }
    ensures after { AfterReading (F.source files.old) (F.source files.new) }
{
    let text = match read_file(alloc, files, file.number, file.path) {
        Ok(text) => text,
        Err(status) => return Err(status),
    };
    parse(alloc, source, file.number, file.form, &text)
}

/// What the files of a command say: the tree of the module's text, the module, the heap from which runs start, where one is
/// given, the schedule, which is empty where none is wanted, and the calls of each operation file.
#[derive(Drop)]
pub struct Input {
    pub tree: Tree,
    pub source: Module,
    pub heap: Option<Heap>,
    pub schedule: Schedule,
    pub all: Vec<Calls>,
}

impl Input {
    // Of a module, with nothing behind it.
    fn new(alloc: Global, tree: Tree, source: Module) -> Input
        ensures tree { result.tree ≡ tree }
        ensures source { result.source ≡ source }
        ensures behind { behind_of result ≡ nothing_behind }
    {
        Input {
            tree,
            source,
            heap: None,
            schedule: Items::new(alloc),
            all: Vec::new(alloc),
        }
    }

    // Takes in what one more file says.
    fn add(&mut self, content: Content) -> Result<(), AllocError>
        ensures tree { self.new.tree ≡ self.old.tree }
        ensures source { self.new.source ≡ self.old.source }
        ensures behind { OnOk result (behind_of self.new ≡ with_content (behind_of self.old) content) }
    {
        match content {
            Content::Heap(heap) => self.heap = Some(heap),
            Content::Schedule(schedule) => self.schedule = schedule,
            Content::Calls(calls) => self.all.push(calls)?,
        }
        Ok(())
    }
}

// Reads the files that are wanted behind the module.
fn read_behind<F: Files>(
    alloc: Global,
    files: &mut F,
    input: &mut Input,
    wanted: &[WantedFile<'_>],
) -> Result<(), Status>
    requires few_ops { length input.old.source.ops ≤ 64 }
    requires start { HasStart input.old.source }
    requires names { HasNames input.old.source }
    requires numbers { All (λ file. IsNumberOf file.form file.number) wanted.now }
    requires empty { behind_of input.old ≡ nothing_behind }
    requires within { IsWithin (F.source files.old) }
    ensures tree { input.new.tree ≡ input.old.tree }
    ensures source { input.new.source ≡ input.old.source }
    ensures ok { OnOk result (AreFiles input.new.source (F.source files.old) (map wanted_held wanted.now) nothing_behind (behind_of input.new)) }
    ensures calls { OnOk result (All (AreCallsOf input.new.source) input.new.all.items) }
    ensures within { OnOk result (IsWithin (F.source files.new)) }
    ensures cause { IfErr result (StopsAt input.new.source (map wanted_held wanted.now) (F.source files.old) (F.source files.new)) }
    ensures after { AfterReading (F.source files.old) (F.source files.new) }
{
    'wanted: for file in wanted {
        let content = match read_wanted(alloc, files, &input.source, *file) {
            Ok(content) => content,
            Err(status) => return Err(status),
        };
        match input.add(content) {
            Ok(()) => {}
            Err(_) => return Err(Status::Memory),
        }
    }
    Ok(())
}

/// Reads the files of a command, the module first.
pub fn read_input<F: Files>(
    alloc: Global,
    files: &mut F,
    command: &Command<'_>,
) -> Result<Input, Status>
    requires { length command.now.rest.items ≤ 65 }
    ensures spells { IfOk result (SpellsInput (F.source files.old) (request_of command.now)) }
    ensures checked { IfOk result (λ input. IsChecked input.source) }
    ensures calls { IfOk result (λ input. All (AreCallsOf input.source) input.all.items) }
    ensures start { IfOk result (λ input. CanStart input.source command.now.places (heap_of input)) }
    ensures within { OnOk result (IsWithin (F.source files.new)) }
    ensures cause { IfErr result (Refuses (request_of command.now) (F.source files.old) (F.source files.new)) }
    ensures after { AfterReading (F.source files.old) (F.source files.new) }
{
    let Parsed { tree, source } = match read_source(alloc, files, command.first) {
        Ok(parsed) => parsed,
        Err(status) => return Err(status),
    };
    let Ok(wanted) = wanted_files(alloc, command) else {
        return Err(Status::Memory);
    };
    let mut input = Input::new(alloc, tree, source);
    match read_behind(alloc, files, &mut input, wanted.as_slice()) {
        Ok(()) => Ok(input),
        Err(status) => Err(status),
    }
}
