//! The kit files of a run.

ghost use Rattle.std.specs.Prelude.{◌≡◌, ◌<◌, IfErr, IfOk, IfSome, IsErrOf, length, map, string_bytes};
ghost use Rattle.press_kit.specs.KitFile.{file_limit};
ghost use Rattle.press_lint.specs.Files.{GivesSlips};
ghost use Rattle.press_lint.specs.Joints.{files_of, read_together};
ghost use Rattle.press_program.specs.KitFiles.{AreNamed, MeetsAlone, MeetsFault, kit_line, slip_front};
ghost use Rattle.press_program.specs.declared.kitting.KitSourceFault.TheVariants.{NoMemory};

use press_kit::FILE_LIMIT;
use press_lint::{FilesFault, NamedFile, lint_files};
use press_text::{ReadLimitedFault, read_limited};
use std::alloc::{AllocError, Global};
use std::io::Read;
use std::rt::Files;
use std::{fs, io};
use thiserror::Error;

/// The kit that a run plays with.
#[derive(Debug, Drop)]
pub enum KitSource<'f> {
    Demonstration,
    /// That of these kit files, in their order.
    OfFiles(Vec<NamedFile<'f>>),
}

/// Why a kit file can't be used.
#[derive(Debug, Drop, Error)]
pub enum KitSourceFault {
    #[error("no memory")]
    NoMemory,
    #[error("a read failed")]
    ReadFault,
    #[error("longer than 4194304 bytes")]
    TooLong,
    #[error("fault {number}: {text}")]
    Refused { number: u8, text: String },
}

impl From<AllocError> for KitSourceFault {
    ghost from_gives = { λ _ e. e ≡ NoMemory };

    fn from(_e: AllocError) -> KitSourceFault {
        KitSourceFault::NoMemory
    }
}

// The bytes that a reader has left, as many as a kit file may have.
fn bytes_left<R: Read>(alloc: Global, reader: &mut R) -> Result<Vec<u8>, KitSourceFault>
    ensures alone { IfErr result (λ f. MeetsAlone f) }
    ensures whole { IfOk result (λ bytes. IfSome (R.remaining reader.old)
        (λ input. bytes.items ≡ input)) }
    ensures over { IsErrOf result KitSourceFault.TooLong → IfSome (R.remaining reader.old)
        (λ input. file_limit < length input) }
{
    match read_limited(alloc, reader, FILE_LIMIT) {
        Ok(bytes) => Ok(bytes),
        Err(ReadLimitedFault::NoMemory) => Err(KitSourceFault::NoMemory),
        Err(ReadLimitedFault::ReadFault) => Err(KitSourceFault::ReadFault),
        Err(ReadLimitedFault::TooLong) => Err(KitSourceFault::TooLong),
    }
}

// The bytes of a file by its name. One that can't be opened counts as one that can't be read.
fn bytes_of<Rt: AllocGlobal + Files>(rt: &Rt, file: &str) -> Result<Vec<u8>, KitSourceFault>
    ensures { IfErr result (λ f. MeetsAlone f) }
{
    let mut reader = match fs::open(rt, file) {
        Ok(reader) => reader,
        Err(e) if e.kind() == io::ErrorKind::OutOfMemory => return Err(KitSourceFault::NoMemory),
        Err(_) => return Err(KitSourceFault::ReadFault),
    };
    bytes_left(rt.alloc(), &mut reader)
}

/// Why kit files can't be used, with the file that this is about.
#[derive(Debug, Drop)]
pub struct Unusable<'f> {
    pub file: &'f str,
    pub fault: KitSourceFault,
}

// The bytes of files by their names.
fn read_all<'f, Rt: AllocGlobal + Files>(
    rt: &Rt,
    names: &[&'f str],
) -> Result<Vec<NamedFile<'f>>, Unusable<'f>>
    ensures files { IfOk result (λ files. AreNamed (map (λ n. n.now) names.now)
        (files_of files.items)) }
    ensures fault { IfErr result (λ u. MeetsFault (map (λ n. n.now) names.now)
        u.file.now u.fault) }
{
    let mut files = Vec::new(rt.alloc());
    for i in 0..names.len() {
        let name = names[i];
        let bytes = match bytes_of(rt, name) {
            Ok(bytes) => bytes,
            Err(fault) => return Err(Unusable { file: name, fault }),
        };
        if files.push(NamedFile { name, bytes }).is_err() {
            return Err(Unusable {
                file: name,
                fault: KitSourceFault::NoMemory,
            });
        }
    }
    Ok(files)
}

/// Kit files that can be used.
#[derive(Debug, Drop)]
pub struct ReadKits<'f> {
    pub files: Vec<NamedFile<'f>>,
    /// A line for each slip in them.
    pub slips: String,
}

/// The kit files of these names.
pub fn read_kits<'f, Rt: AllocGlobal + Files>(
    rt: &Rt,
    names: &[&'f str],
) -> Result<ReadKits<'f>, Unusable<'f>>
    ensures names { IfOk result (λ read. AreNamed (map (λ n. n.now) names.now)
        (files_of read.files.items)) }
    ensures slips { IfOk result (λ read. GivesSlips slip_front
        (read_together (files_of read.files.items)) (string_bytes read.slips)) }
    ensures fault { IfErr result (λ u. MeetsFault (map (λ n. n.now) names.now)
        u.file.now u.fault) }
{
    let files = match read_all(rt, names) {
        Ok(files) => files,
        Err(unusable) => return Err(unusable),
    };
    match lint_files(rt.alloc(), "press: warning in ", &files) {
        Ok(slips) => Ok(ReadKits { files, slips }),
        Err(FilesFault::NoMemory) => Err(Unusable {
            file: "",
            fault: KitSourceFault::NoMemory,
        }),
        Err(FilesFault::Refused { file, number, text }) => Err(Unusable {
            file,
            fault: KitSourceFault::Refused { number, text },
        }),
    }
}

/// The line that reports a kit file's fault.
pub fn kit_line(alloc: Global, file: &str, fault: &KitSourceFault) -> Result<String, AllocError>
    ensures { IfOk result (λ t. string_bytes t ≡ kit_line file.now fault.now) }
{
    match fault {
        KitSourceFault::NoMemory => String::from_str(alloc, "press: fault 0\n"),
        KitSourceFault::ReadFault => format!(in alloc; "press: fault 40 in {file}\n"),
        KitSourceFault::TooLong => {
            format!(in alloc; "press: fault 73 in {file}: longer than 4194304 bytes\n")
        }
        KitSourceFault::Refused { number, text } => {
            format!(in alloc; "press: fault {number} in {file}: {text}\n")
        }
    }
}
