//! Several kit files, read one after the other.

ghost use Rattle.std.specs.Prelude.{◌≡◌, IfOk, IfErr, Ok, Err};
ghost use Rattle.press_lint.specs.Files.{RefusesBad, RefusesFiles};
ghost use Rattle.press_lint.specs.Joints as spec;

use crate::files::FilesFault;
use crate::joining::{join, no_parts};
use crate::linting::bad;
use press_kit::{KitFileFault, KitParts, Place, read_kit_file};
use std::alloc::{AllocError, Global};

/// A kit file's bytes, with its name.
#[derive(Debug, Drop)]
pub struct NamedFile<'f> {
    pub name: &'f str,
    pub bytes: Vec<u8>,
}

/// How many of the callbacks and the plugins of several files are those of one of them.
#[derive(Clone, Copy, Debug)]
pub struct Share<'f> {
    pub file: &'f str,
    pub callbacks: usize,
    pub plugins: usize,
}

/// The callbacks and plugins of several files, one behind the other, with the share of each.
#[derive(Debug, Drop)]
pub struct Joint<'f> {
    pub parts: KitParts,
    pub shares: Vec<Share<'f>>,
}

fn share_in<'f>(file: &NamedFile<'f>, parts: &KitParts) -> Share<'f>
    ensures { spec.share_of result ≡ spec.share_in (spec.file_of file.now) parts.now }
{
    Share {
        file: file.name,
        callbacks: parts.callbacks.as_slice().len(),
        plugins: parts.plugins.as_slice().len(),
    }
}

impl<'f> Joint<'f> {
    fn new(alloc: Global) -> Joint<'f>
        ensures { spec.joint_of result ≡ spec.empty_joint }
    {
        Joint {
            parts: no_parts(alloc),
            shares: Vec::new(alloc),
        }
    }

    // With what one more file gave.
    fn with_file(self, file: &NamedFile<'f>, parts: KitParts) -> Result<Joint<'f>, AllocError>
        ensures { IfOk result (λ joint. spec.joint_of joint
            ≡ spec.with_file (spec.joint_of self.entry) (spec.file_of file.now) parts) }
    {
        let Joint {
            parts: before,
            mut shares,
        } = self;
        shares.push(share_in(file, &parts))?;
        let parts = join(before, parts)?;
        Ok(Joint { parts, shares })
    }
}

// The fault of a file that is bad at a place.
fn refusal_at<'f>(alloc: Global, file: &NamedFile<'f>, at: Place) -> FilesFault<'f>
    ensures { RefusesFiles (Err (spec.file_of file.now, at)) result }
{
    match bad(alloc, &file.bytes, at) {
        Ok(text) => FilesFault::Refused {
            file: file.name,
            number: 73,
            text,
        },
        Err(_) => FilesFault::NoMemory,
    }
}

/// The callbacks and plugins of all these files, or the fault of the first one that is bad by
/// itself.
pub fn read_files<'f>(alloc: Global, files: &[NamedFile<'f>]) -> Result<Joint<'f>, FilesFault<'f>>
    ensures joint { IfOk result (λ joint. spec.read_together (spec.files_of files.now)
        ≡ Ok (spec.joint_of joint)) }
    ensures fault { IfErr result (λ f. RefusesFiles
        (spec.read_together (spec.files_of files.now)) f) }
    ensures bad { IfErr result (λ f. RefusesBad
        (spec.read_together (spec.files_of files.now)) f) }
{
    let mut joint = Joint::new(alloc);
    for i in 0..files.len() {
        let file = &files[i];
        match read_kit_file(alloc, &file.bytes) {
            Ok(parts) => joint = joint.with_file(file, parts)?,
            Err(KitFileFault::BadKitFile(at)) => return Err(refusal_at(alloc, file, at)),
            Err(KitFileFault::NoMemory) => return Err(FilesFault::NoMemory),
        }
    }
    Ok(joint)
}
