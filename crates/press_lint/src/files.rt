//! Several kit files, looked through as the one kit that they make.

ghost use Rattle.std.specs.Prelude.{◌≡◌, ℕ, List, [], IfErr, IfOk, Ok, map, string_bytes};
ghost use Rattle.press_lint.specs.Files as spec;
ghost use Rattle.press_kit.specs.declared.kit_parts.KitParts.{KitParts as KitRead};
ghost use Rattle.press_lint.specs.Joints.{File as FileRead, joint_of_one, files_of, joint_of, read_together, share_of};
ghost use Rattle.press_lint.specs.Mistakes.{tell_mistake};
ghost use Rattle.press_lint.specs.Slips.{slips as slips_of};
ghost use Rattle.press_lint.specs.declared.mistake.Mistake.{Mistake as Found};
ghost use Rattle.press_lint.specs.declared.files.FilesFault.TheVariants.{NoMemory as Lacks};

use crate::joint::{Joint, NamedFile, Share, read_files};
use crate::mistakes::mistake_in;
use crate::slipping::first_slips;
use crate::telling::{FileMessage, message_about};
use crate::turning::turn_parts;
use press_kit::KitParts;
use std::alloc::{AllocError, AllocFailed, Global};
use thiserror::Error;

/// Why several kit files are refused.
#[derive(Debug, Drop, Error)]
pub enum FilesFault<'f> {
    #[error("no memory")]
    NoMemory,
    /// The file, the number of its fault, and the message.
    #[error("fault {number} in {file}: {text}")]
    Refused {
        file: &'f str,
        number: u8,
        text: String,
    },
}

impl<'f> From<AllocError> for FilesFault<'f> {
    ghost from_gives = { λ _ e. e ≡ Lacks };

    fn from(_e: AllocError) -> FilesFault<'f> {
        FilesFault::NoMemory
    }
}

impl<'f, T: Drop> From<AllocFailed<T>> for FilesFault<'f> {
    ghost from_gives = { λ _ e. e ≡ Lacks };

    fn from(_e: AllocFailed<T>) -> FilesFault<'f> {
        FilesFault::NoMemory
    }
}

// The slips of the first share, behind a prefix and the name of its file.
fn file_slips(
    alloc: Global,
    before: &str,
    parts: &KitParts,
    share: &Share<'_>,
) -> Result<String, AllocError>
    ensures { IfOk result (λ t. string_bytes t
        ≡ spec.first_slips (spec.file_front before.now share.now.file.now)
        (share_of share.now) parts.now) }
{
    let file = share.file;
    let front = format!(in alloc; "{before}{file}: ")?;
    first_slips(alloc, front.as_str(), parts, share)
}

fn slips_from(
    alloc: Global,
    before: &str,
    shares: &[Share<'_>],
    parts: KitParts,
) -> Result<String, AllocError>
    ensures { IfOk result (λ t. string_bytes t
        ≡ spec.slips_from before.now (map share_of shares.now) parts) }
{
    let mut parts = parts;
    let mut out = String::new(alloc);
    for i in 0..shares.len() {
        let slips = file_slips(alloc, before, &parts, &shares[i])?;
        out.push_str(slips.as_str())?;
        parts = turn_parts(parts, &shares[i]);
    }
    Ok(out)
}

// A kit without a mistake gives its slips.
fn lint_joint<'f>(alloc: Global, before: &str, joint: Joint<'f>) -> Result<String, FilesFault<'f>>
    ensures slips { IfOk result (λ t. spec.GivesSlips before.now
        (Ok (joint_of joint.entry)) (string_bytes t)) }
    ensures fault { IfErr result (λ f. spec.RefusesFiles (Ok (joint_of joint.entry)) f) }
{
    let Joint { parts, shares } = joint;
    if let Some(mistake) = mistake_in(alloc, &parts)? {
        let number = mistake.why.number();
        return match message_about(alloc, &shares, parts, &mistake) {
            Ok(FileMessage { file, text }) => Err(FilesFault::Refused { file, number, text }),
            Err(_) => Err(FilesFault::NoMemory),
        };
    }
    Ok(slips_from(alloc, before, &shares, parts)?)
}

/// The slips in the kit that these files make together, a line for each after this prefix and the
/// name of its file. They are refused where one of them is no kit file, or else where no kit can be
/// built of all of them.
pub fn lint_files<'f>(
    alloc: Global,
    before: &str,
    files: &[NamedFile<'f>],
) -> Result<String, FilesFault<'f>>
    ensures slips { IfOk result (λ t. spec.GivesSlips before.now
        (read_together (files_of files.now)) (string_bytes t)) }
    ensures fault { IfErr result (λ f. spec.RefusesFiles
        (read_together (files_of files.now)) f) }
{
    match read_files(alloc, files) {
        Ok(joint) => lint_joint(alloc, before, joint),
        Err(fault) => Err(fault),
    }
}

/// One file is told as it is by itself: the message about each mistake is the same, and so are the
/// lines of the slips.
pub fn one_file_is_told_as_alone()
    ensures mistakes { (file : FileRead) → (kit : KitRead) → (m : Found)
        → spec.message_about (joint_of_one file kit) m
        ≡ record { file = file.name; text = tell_mistake kit m } }
    ensures slips { (before : List ℕ) → (file : FileRead) → (kit : KitRead)
        → spec.slips_from before (joint_of_one file kit).shares kit
        ≡ slips_of (spec.file_front before file.name) kit [] }
{}
