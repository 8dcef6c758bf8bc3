//! How a call may end, the line that is printed of it, and the code that the program ends with.

ghost use Rattle.std.specs.Prelude.{◌≡◌, ◌++◌, [], decimal, false};
ghost use Rattle.dl_text.specs.Writing.{Puts};
ghost use Rattle.dl_command.specs.Status.{heap_why_text, limit_text, module_why_text, ops_why_text, placed_text, status_text, code_of};

use dl_grammar::Which;
use dl_text::{Failed, Out, Sink};

/// How a call ended. Files are numbered by their words: the module is file 0. The heap file has the number 65,535.
#[derive(Clone, Copy, Debug, PartialEq, Eq)]
pub enum Status {
    /// All was written.
    Done,
    /// The words are no command.
    Usage,
    /// A file could not be read to its end.
    ReadFault { file: u32 },
    /// A file has more bytes than it may.
    TooLong { file: u32 },
    /// File 0 is no module.
    ModuleFault { line: u32, why: ModuleWhy },
    /// A file behind the module is not what it should be: operations of the module, or a schedule.
    OpsFault { file: u32, line: u32, why: OpsWhy },
    /// Only a part was written.
    WriteFault,
    /// There was no memory.
    Memory,
    /// The heap file is no heap of the module from which a run may start with the places given.
    HeapFault { line: u32, why: HeapWhy },
}

/// Why a text is no module. `docs/LANGUAGE.md` tells when each comes.
#[derive(Clone, Copy, Debug, PartialEq, Eq)]
pub enum ModuleWhy {
    NotAscii,
    BadByte,
    BigNumber,
    Expected,
    TooDeep,
    Limit(Which),
    Twice,
    Unknown,
    KindClash,
    RootInField,
    NewRoot,
    AssignRoot,
    NoRoots,
}

/// Why a text is no operation file of a module, or no schedule. `docs/LANGUAGE.md` tells when each comes.
#[derive(Clone, Copy, Debug, PartialEq, Eq)]
pub enum OpsWhy {
    NotAscii,
    BadByte,
    TooMany,
    NoOp,
    ArgCount,
    NotNumber,
    NoRoot,
    BadStep,
    NoCaller,
}

/// Why a text is no heap file of a module. `docs/FORMATS.md` tells when each comes.
#[derive(Clone, Copy, Debug, PartialEq, Eq)]
pub enum HeapWhy {
    NoHeap,
    BadLine,
    Count,
    Dangling,
    Shape,
    NoPlaces,
}

fn limit_name(limit: Which) -> &'static str
    ensures { result.now ≡ limit_text limit }
{
    match limit {
        Which::Kinds => "Limit Kinds",
        Which::Fields => "Limit Fields",
        Which::Ops => "Limit Ops",
        Which::Locals => "Limit Locals",
        Which::Roots => "Limit Roots",
        Which::Allocs => "Limit Allocs",
        Which::Fuel => "Limit Fuel",
        Which::Literal => "Limit Literal",
        Which::Operators => "Limit Operators",
    }
}

fn module_why_name(why: ModuleWhy) -> &'static str
    ensures { result.now ≡ module_why_text why }
{
    match why {
        ModuleWhy::NotAscii => "NotAscii",
        ModuleWhy::BadByte => "BadByte",
        ModuleWhy::BigNumber => "BigNumber",
        ModuleWhy::Expected => "Expected",
        ModuleWhy::TooDeep => "TooDeep",
        ModuleWhy::Limit(limit) => limit_name(limit),
        ModuleWhy::Twice => "Twice",
        ModuleWhy::Unknown => "Unknown",
        ModuleWhy::KindClash => "KindClash",
        ModuleWhy::RootInField => "RootInField",
        ModuleWhy::NewRoot => "NewRoot",
        ModuleWhy::AssignRoot => "AssignRoot",
        ModuleWhy::NoRoots => "NoRoots",
    }
}

fn ops_why_name(why: OpsWhy) -> &'static str
    ensures { result.now ≡ ops_why_text why }
{
    match why {
        OpsWhy::NotAscii => "NotAscii",
        OpsWhy::BadByte => "BadByte",
        OpsWhy::TooMany => "TooMany",
        OpsWhy::NoOp => "NoOp",
        OpsWhy::ArgCount => "ArgCount",
        OpsWhy::NotNumber => "NotNumber",
        OpsWhy::NoRoot => "NoRoot",
        OpsWhy::BadStep => "BadStep",
        OpsWhy::NoCaller => "NoCaller",
    }
}

fn heap_why_name(why: HeapWhy) -> &'static str
    ensures { result.now ≡ heap_why_text why }
{
    match why {
        HeapWhy::NoHeap => "NoHeap",
        HeapWhy::BadLine => "BadLine",
        HeapWhy::Count => "Count",
        HeapWhy::Dangling => "Dangling",
        HeapWhy::Shape => "Shape",
        HeapWhy::NoPlaces => "NoPlaces",
    }
}

// Puts a number between two texts.
fn put_numbered<K: Sink>(
    out: &mut Out,
    sink: &mut K,
    before: &[u8],
    number: u32,
    behind: &[u8],
) -> Result<(), Failed>
    requires { out.old.failed ≡ false }
    ensures { Puts (K.taken sink.old) out.old (before.now ++ decimal number ++ behind.now) result (K.taken sink.new) out.new }
{
    out.put(sink, before)?;
    out.put_number(sink, number)?;
    out.put(sink, behind)
}

// Puts a place and the fault there.
fn put_placed<K: Sink>(out: &mut Out, sink: &mut K, line: u32, why: &str) -> Result<(), Failed>
    requires { out.old.failed ≡ false }
    ensures { Puts (K.taken sink.old) out.old (placed_text line why.now) result (K.taken sink.new) out.new }
{
    put_numbered(out, sink, b"", line, b": ")?;
    out.put(sink, why.as_bytes())?;
    out.put(sink, b"\n")
}

// Puts the line of a fault of a module.
fn put_module_fault<K: Sink>(
    out: &mut Out,
    sink: &mut K,
    line: u32,
    why: ModuleWhy,
) -> Result<(), Failed>
    requires { out.old.failed ≡ false }
    ensures { Puts (K.taken sink.old) out.old (status_text (Status.ModuleFault line why)) result (K.taken sink.new) out.new }
{
    out.put(sink, b"domlock: module line ")?;
    put_placed(out, sink, line, module_why_name(why))
}

// Puts the line of a fault of an operation file.
fn put_ops_fault<K: Sink>(
    out: &mut Out,
    sink: &mut K,
    file: u32,
    line: u32,
    why: OpsWhy,
) -> Result<(), Failed>
    requires { out.old.failed ≡ false }
    ensures { Puts (K.taken sink.old) out.old (status_text (Status.OpsFault file line why)) result (K.taken sink.new) out.new }
{
    put_numbered(out, sink, b"domlock: file ", file, b" line ")?;
    put_placed(out, sink, line, ops_why_name(why))
}

// Puts the line of a fault of a heap file.
fn put_heap_fault<K: Sink>(
    out: &mut Out,
    sink: &mut K,
    line: u32,
    why: HeapWhy,
) -> Result<(), Failed>
    requires { out.old.failed ≡ false }
    ensures { Puts (K.taken sink.old) out.old (status_text (Status.HeapFault line why)) result (K.taken sink.new) out.new }
{
    out.put(sink, b"domlock: heap line ")?;
    put_placed(out, sink, line, heap_why_name(why))
}

fn put_status<K: Sink>(status: &Status, out: &mut Out, sink: &mut K) -> Result<(), Failed>
    requires { out.old.failed ≡ false }
    ensures { Puts (K.taken sink.old) out.old (status_text status.now) result (K.taken sink.new) out.new }
{
    match *status {
        Status::Done => out.put(sink, b""),
        Status::Usage => out.put(
            sink,
            b"domlock: usage: domlock COMMAND FIRST [REST..] [--places N]\n",
        ),
        Status::ReadFault { file } => {
            put_numbered(out, sink, b"domlock: read fault in file ", file, b"\n")
        }
        Status::TooLong { file } => {
            put_numbered(out, sink, b"domlock: file ", file, b" is too long\n")
        }
        Status::ModuleFault { line, why } => put_module_fault(out, sink, line, why),
        Status::OpsFault { file, line, why } => put_ops_fault(out, sink, file, line, why),
        Status::WriteFault => out.put(sink, b"domlock: write fault\n"),
        Status::Memory => out.put(sink, b"domlock: out of memory\n"),
        Status::HeapFault { line, why } => put_heap_fault(out, sink, line, why),
    }
}

/// Puts and writes the line that says how a call ended. Where all was done there is none.
pub fn status_line<K: Sink>(status: &Status, out: &mut Out, sink: &mut K) -> Result<(), Failed>
    requires { out.old.failed ≡ false }
    ensures puts { Puts (K.taken sink.old) out.old (status_text status.now) result (K.taken sink.new) out.new }
    ensures empty { out.new.bytes ≡ [] }
{
    put_status(status, out, sink)?;
    out.flush(sink)
}

/// The code with which the program ends.
pub fn exit_code(status: &Status) -> u8
    ensures { result ≡ code_of status.now }
{
    match status {
        Status::Done => 0,
        Status::Usage => 1,
        Status::ReadFault { .. } => 2,
        Status::TooLong { .. } => 3,
        Status::ModuleFault { .. } => 4,
        Status::OpsFault { .. } => 5,
        Status::WriteFault => 6,
        Status::Memory => 7,
        Status::HeapFault { .. } => 8,
    }
}
