//! A kit as the file of a site keeps it: its kit files, one behind the other, and their digest.

ghost use Rattle.std.specs.Prelude.{◌≡◌, ℕ, ◌<◌, ◌^◌, ◌++◌, List, Err, IfOk, IfSome, MatchOption, codes, length, map, option_map};
ghost use Rattle.press_lint.specs.Joints.{File, files_of};
ghost use Rattle.press_wire.specs.Spelling.{number4};
ghost use Rattle.press_handover.specs.Kept as spec;
ghost use Rattle.press_handover.specs.declared.kept.KeptFault.TheVariants.{Damaged, NoMemory};

use press_callbacks::Script;
use press_demonstration::{DemonstrationParts, grow, parts};
use press_kit::{KitParts, Scripted};
use press_lint::{FilesFault, NamedFile, read_files};
use press_text::Items;
use sha2::{Digest, Sha256};
use std::alloc::{AllocError, AllocFailed, Global};
use thiserror::Error;

/// How many bytes the digest has, which stands first.
const DIGEST: usize = 32;

/// How many bytes the length of a file has, which stands before it.
const LENGTH: usize = 4;

/// Why what was kept gives no kit.
#[derive(Clone, Copy, Debug, PartialEq, Eq, Error)]
pub enum KeptFault {
    #[error("no memory")]
    NoMemory,
    #[error("what is kept of the kit is damaged")]
    Damaged,
}

impl From<AllocError> for KeptFault {
    ghost from_gives = { λ _ e. e ≡ NoMemory };

    fn from(_e: AllocError) -> KeptFault {
        KeptFault::NoMemory
    }
}

impl<T: Drop> From<AllocFailed<T>> for KeptFault {
    ghost from_gives = { λ _ e. e ≡ NoMemory };

    fn from(_e: AllocFailed<T>) -> KeptFault {
        KeptFault::NoMemory
    }
}

// A file behind its length.
#[tactic(auto, using(crate::proofs::Pieces::regroup), unfolding(press_wire::specs::Spelling::number4))]
fn put_file(kept: &mut Vec<u8>, bytes: &[u8]) -> Result<(), AllocError>
    requires { length bytes.now < 2 ^ 32 }
    ensures { IfOk result (λ _. kept.new.items ≡ spec.with_file kept.old.items bytes.now) }
{
    let long = bytes.len() as u32;
    kept.extend_from_slice(&long.to_be_bytes())?;
    kept.extend_from_slice(bytes)
}

fn all_files(alloc: Global, files: &[NamedFile<'_>]) -> Result<Vec<u8>, AllocError>
    requires { spec.AreShort (map (λ (f : File). f.bytes) (files_of files.now)) }
    ensures { IfOk result (λ kept. kept.items
        ≡ spec.files_bytes (map (λ (f : File). f.bytes) (files_of files.now))) }
{
    let mut kept = Vec::new(alloc);
    for file in files {
        put_file(&mut kept, &file.bytes)?;
    }
    Ok(kept)
}

/// What is kept of the kit of these files, or of the demonstration kit where there are none.
#[tactic(auto, unfolding(crate::specs::Kept::kept_kit))]
pub fn kept_kit(alloc: Global, files: &[NamedFile<'_>]) -> Result<Vec<u8>, AllocError>
    requires { spec.AreShort (map (λ (f : File). f.bytes) (files_of files.now)) }
    ensures { IfOk result (λ kept. kept.items
        ≡ spec.kept_kit (map (λ (f : File). f.bytes) (files_of files.now))) }
{
    let bytes = all_files(alloc, files)?;
    let digest: [u8; DIGEST] = Sha256::digest(bytes.as_slice());
    let mut kept = Vec::new(alloc);
    kept.extend_from_slice(&digest)?;
    kept.extend_from_slice(&bytes)?;
    Ok(kept)
}

// The bytes behind their digest, where it is theirs.
#[tactic(auto, unfolding(crate::specs::Kept::unsealed))]
fn unsealed(kept: &[u8]) -> Option<&[u8]>
    ensures { option_map (λ bytes. bytes.now) result ≡ spec.unsealed kept.now }
{
    if kept.len() < DIGEST {
        return None;
    }
    let (digest, bytes) = kept.split_at(DIGEST);
    let theirs: [u8; DIGEST] = Sha256::digest(bytes);
    if theirs.as_slice() == digest {
        Some(bytes)
    } else {
        None
    }
}

// The first file, and what is behind it.
fn next_file(bytes: &[u8]) -> Option<(&[u8], &[u8])>
    ensures next { (file rest : List ℕ) → length file < 2 ^ 32
        → bytes.now ≡ number4 (length file) ++ (file ++ rest)
        → MatchOption result ⊥ (λ found. (found.0.now ≡ file) × (found.1.now ≡ rest)) }
    ensures shorter { IfSome result (λ found. length found.1.now < length bytes.now) }
{
    if bytes.len() < LENGTH {
        return None;
    }
    let (front, rest) = bytes.split_at(LENGTH);
    let long = u32::from_be_bytes([front[0], front[1], front[2], front[3]]) as usize;
    if rest.len() < long {
        return None;
    }
    Some(rest.split_at(long))
}

// The files that were kept; nobody knows their names any more.
fn files_in<'f>(alloc: Global, bytes: &[u8]) -> Result<Vec<NamedFile<'f>>, KeptFault>
    ensures { (files : _) → spec.AreShort files → bytes.now ≡ spec.files_bytes files
        → IfOk result (λ read. files_of read.items ≡ map spec.nameless files) }
{
    let mut files = Vec::new(alloc);
    let mut rest = bytes;
    while !rest.is_empty() {
        let Some((file, behind)) = next_file(rest) else {
            return Err(KeptFault::Damaged);
        };
        files.push(NamedFile {
            name: "",
            bytes: Vec::from_slice(alloc, file)?,
        })?;
        rest = behind;
    }
    Ok(files)
}

fn demonstration(alloc: Global) -> Result<KitParts, AllocError>
    ensures { IfOk result (λ kit. kit ≡ spec.demonstration_parts) }
{
    let DemonstrationParts {
        growing,
        played,
        plugins,
    } = parts(alloc)?;
    let mut callbacks = Vec::new(alloc);
    callbacks.push(scripted(growing))?;
    for one in played {
        callbacks.push(Scripted {
            id: one.id,
            script: one.script,
        })?;
    }
    Ok(KitParts {
        callbacks: Items::from_vec(callbacks),
        plugins: Items::from_vec(plugins),
    })
}

fn scripted(growing: Script) -> Scripted
    ensures name { result.id ≡ codes "grow" }
    ensures script { result.script ≡ growing }
{
    Scripted {
        id: grow(),
        script: growing,
    }
}

/// The callbacks and plugins of these files, or of the demonstration kit where there are none.
pub fn parts_of_files(alloc: Global, files: &[NamedFile<'_>]) -> Result<KitParts, KeptFault>
    ensures parts { IfOk result (λ kit. spec.IsOfFiles (files_of files.now) kit) }
    ensures damaged { result ≡ Err Damaged → spec.AreBad (files_of files.now) }
{
    if files.is_empty() {
        return Ok(demonstration(alloc)?);
    }
    match read_files(alloc, files) {
        Ok(joint) => Ok(joint.parts),
        Err(FilesFault::NoMemory) => Err(KeptFault::NoMemory),
        Err(FilesFault::Refused { .. }) => Err(KeptFault::Damaged),
    }
}

/// The callbacks and plugins of the kit that was kept.
pub fn parts_of_kept(alloc: Global, kept: &[u8]) -> Result<KitParts, KeptFault>
    ensures { (files : _) → spec.AreShort files → kept.now ≡ spec.kept_kit files
        → IfOk result (λ kit. spec.IsOfKept files kit) }
{
    let Some(bytes) = unsealed(kept) else {
        return Err(KeptFault::Damaged);
    };
    let files = files_in(alloc, bytes)?;
    parts_of_files(alloc, &files)
}
