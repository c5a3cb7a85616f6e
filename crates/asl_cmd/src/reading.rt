//! The reading of the files that a command names.
ghost use Rattle.std.specs.Prelude.{◌≡◌, ◌<◌, All, IfOk, IfSome, IsErrOf, IsTrue, map, string_bytes, ◌≤◌, length};
ghost use Rattle.asl_syn.specs.Command.{names_of, sources_of};
ghost use Rattle.asl_rules.specs.report.Report.{read_by};
ghost use Rattle.asl_line.specs.private.Model.{meaning_of};
ghost use Rattle.asl_answer.specs.private.Model.{came_in, IsShort};
ghost use Rattle.asl_answer.specs.private.Writes.{HasCause};
ghost use Rattle.asl_cmd.specs.private.Reading.{came_of, list_behind};
ghost use Rattle.asl_cmd.specs.private.Reading as rules;
ghost use Rattle.asl_cmd.specs.private.Model.{reading_of, AreShortSources, IsOne, IsShortOne};

use asl_answer::{Reading, Stop};
use asl_io::{Files, ReadAnswer, read_file};
use asl_line::Line;
use asl_syn::place::{MAX_BYTES, Source};
use std::alloc::Global;

/// The greatest number of source files of a command.
const MAX_FILES: usize = 64;

/// What came of the source files.
#[derive(Drop)]
pub enum Sources {
    Whole(Vec<Source>),
    Long(String),
}

/// What came of one file.
#[derive(Drop)]
enum One {
    File(Source),
    TooLong(String),
}

/// Reads one file.
fn read_one<F: Files>(alloc: Global, name: &str, files: &mut F) -> Result<One, Stop>
    ensures one { IfOk result (λ one. IfSome (F.held files.old) (λ held. IsOne name.now (held name.now) one)) }
    ensures short { IfOk result IsShortOne }
    ensures cause { HasCause result (F.faults files.old) (F.faults files.new) }
    ensures same_held { F.held files.new ≡ F.held files.old }
    ensures same_sure { F.sure files.new ≡ F.sure files.old }
    ensures sure { IsTrue (F.sure files.old name.now) → IsErrOf result Stop.Fault → ⊥ }
{
    match read_file(alloc, files, name, MAX_BYTES) {
        Ok(bytes) => {
            let name = String::from_str(alloc, name)?;
            Ok(One::File(Source { name, bytes }))
        }
        Err(ReadAnswer::TooLong) => Ok(One::TooLong(String::from_str(alloc, name)?)),
        Err(ReadAnswer::Fault) => Err(Stop::Fault),
        Err(ReadAnswer::NoMemory) => Err(Stop::NoMemory),
    }
}

/// Reads the files in order, up to the first that is too long.
fn read_all<F: Files>(alloc: Global, names: &[String], files: &mut F) -> Result<Sources, Stop>
    requires { length names.now ≤ 64 }
    ensures reading { IfOk result (λ reading. IfSome (F.held files.old) (λ held. reading_of reading ≡ read_by held (map string_bytes names.now))) }
    ensures short { IfOk result AreShortSources }
    ensures cause { HasCause result (F.faults files.old) (F.faults files.new) }
    ensures same_held { F.held files.new ≡ F.held files.old }
    ensures same_sure { F.sure files.new ≡ F.sure files.old }
    ensures sure { All (λ name. IsTrue (F.sure files.old (string_bytes name))) names.now → IsErrOf result Stop.Fault → ⊥ }
{
    let mut sources = Vec::new(alloc);
    for name in names {
        match read_one(alloc, name.as_str(), files)? {
            One::File(source) => sources.push(source)?,
            One::TooLong(name) => return Ok(Sources::Long(name)),
        }
    }
    Ok(Sources::Whole(sources))
}

/// The names of the source files of a command, in order.
fn source_names(line: &Line) -> &[String]
    ensures { map string_bytes result.now ≡ sources_of (meaning_of line.now) }
{
    match line {
        Line::Usage | Line::Generate { .. } => &[],
        Line::Check { files }
        | Line::Run { files, .. }
        | Line::Exec { files, .. }
        | Line::Masks { files, .. } => files.as_slice(),
    }
}

/// Reads the word list behind the source files, where all of these were read.
fn read_list<F: Files>(
    alloc: Global,
    sources: Sources,
    list: &str,
    files: &mut F,
) -> Result<Reading, Stop>
    requires { AreShortSources sources }
    ensures reading { IfOk result (λ reading. IfSome (F.held files.old) (λ held. came_in reading ≡ list_behind list.now (held list.now) (reading_of sources))) }
    ensures short { IfOk result IsShort }
    ensures cause { HasCause result (F.faults files.old) (F.faults files.new) }
    ensures same_held { F.held files.new ≡ F.held files.old }
    ensures sure { IsTrue (F.sure files.old list.now) → IsErrOf result Stop.Fault → ⊥ }
{
    match sources {
        Sources::Whole(sources) => match read_one(alloc, list, files)? {
            One::File(list) => Ok(Reading::All(sources, list.bytes)),
            One::TooLong(list) => Ok(Reading::Long(list)),
        },
        Sources::Long(name) => Ok(Reading::Long(name)),
    }
}

/// The source files without a word list.
fn without_list(alloc: Global, sources: Sources) -> Reading
    requires { AreShortSources sources }
    ensures reading { came_in result ≡ rules.without_list (reading_of sources) }
    ensures short { IsShort result }
{
    match sources {
        Sources::Whole(sources) => Reading::All(sources, Vec::new(alloc)),
        Sources::Long(name) => Reading::Long(name),
    }
}

/// Reads what the command names: the source files in order, and then the word list.
pub fn read_line<F: Files>(alloc: Global, line: &Line, files: &mut F) -> Result<Reading, Stop>
    ensures reading { IfOk result (λ reading. IfSome (F.held files.old) (λ held. came_in reading ≡ came_of (meaning_of line.now) held)) }
    ensures short { IfOk result IsShort }
    ensures cause { HasCause result (F.faults files.old) (F.faults files.new) }
    ensures same_held { F.held files.new ≡ F.held files.old }
    ensures sure { All (λ name. IsTrue (F.sure files.old name)) (names_of (meaning_of line.now)) → IsErrOf result Stop.Fault → ⊥ }
{
    let names = source_names(line);
    if names.len() > MAX_FILES {
        return Ok(Reading::Many);
    }
    let sources = read_all(alloc, names, files)?;
    match line {
        Line::Exec { list, .. } => read_list(alloc, sources, list.as_str(), files),
        Line::Usage
        | Line::Check { .. }
        | Line::Run { .. }
        | Line::Generate { .. }
        | Line::Masks { .. } => Ok(without_list(alloc, sources)),
    }
}
