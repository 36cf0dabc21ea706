//! Heads, numbers and messages, each appended to bytes.

ghost use Rattle.std.specs.Prelude.{◌≡◌, ◌<◌, ◌^◌, ◌++◌, false, length, IfOk, IfSome, MatchResult, OnOk, OnErr, if◌then◌else◌};
ghost use Rattle.press_wire.specs.Held.{IsBytes};
ghost use Rattle.press_wire.specs.Spelling.{number8, spelled_message, is_too_long_message};
ghost use Rattle.press_batch.specs.Held.{IsDigest, IsHead, IsMark, IsRecall, IsReport, ReadsBack};
ghost use Rattle.press_batch.specs.Spelling.{spelled_head, spelled_mark, spelled_optional_mark, spelled_piece, spelled_recall, spelled_report};

use crate::fault::BatchFault;
use crate::head::Head;
use crate::report::Report;
use press_starts::{Mark, Recall};
use press_wire::{Message, WireFault, encode_msg};
use std::alloc::{AllocError, Global};

/// The most bytes of a batch.
pub const MOST_BATCH_BYTES: usize = 1_048_576;

pub const VERSION: u8 = 2;

// The most bytes of a head.
const HEAD_BYTES: usize = 157;

#[tactic(auto, using(crate::proofs::Lengths::regroup), unfolding(crate::specs::Spelling::spelled_head))]
pub fn head_bytes(alloc: Global, head: &Head) -> Result<Vec<u8>, AllocError>
    ensures { IfOk result (λ bytes. bytes.items ≡ spelled_head head.now) }
{
    let mut bytes = Vec::with_capacity(alloc, HEAD_BYTES)?;
    bytes.push(VERSION)?;
    bytes.push(head.from.number())?;
    put_report(&mut bytes, &head.report)?;
    put_recall(&mut bytes, head.recall)?;
    Ok(bytes)
}

#[tactic(auto, using(crate::proofs::Lengths::regroup), unfolding(crate::specs::Spelling::spelled_report))]
fn put_report(bytes: &mut Vec<u8>, report: &Report) -> Result<(), AllocError>
    ensures { OnOk result (bytes.new.items ≡ bytes.old.items ++ spelled_report report.now) }
{
    put_number8(bytes, report.digests.peers)?;
    put_number8(bytes, report.digests.kit)?;
    put_number8(bytes, report.applied)?;
    put_number8(bytes, report.chosen)?;
    bytes.extend_from_slice(&report.digest)?;
    bytes.extend_from_slice(&report.block_digest)
}

#[tactic(auto, using(crate::proofs::Lengths::regroup), unfolding(crate::specs::Spelling::spelled_mark))]
fn put_mark(bytes: &mut Vec<u8>, mark: Mark) -> Result<(), AllocError>
    ensures { OnOk result (bytes.new.items ≡ bytes.old.items ++ spelled_mark mark) }
{
    put_number8(bytes, mark.start)?;
    put_number8(bytes, mark.saves)
}

#[tactic(auto, using(crate::proofs::Lengths::regroup), unfolding(crate::specs::Spelling::spelled_optional_mark))]
fn put_optional_mark(bytes: &mut Vec<u8>, mark: Option<Mark>) -> Result<(), AllocError>
    ensures { OnOk result (bytes.new.items ≡ bytes.old.items ++ spelled_optional_mark mark) }
{
    match mark {
        Some(mark) => {
            bytes.push(1)?;
            put_mark(bytes, mark)
        }
        None => {
            bytes.push(0)?;
            Ok(())
        }
    }
}

#[tactic(auto, using(crate::proofs::Lengths::regroup), unfolding(crate::specs::Spelling::spelled_recall))]
fn put_recall(bytes: &mut Vec<u8>, recall: Option<Recall>) -> Result<(), AllocError>
    ensures { OnOk result (bytes.new.items ≡ bytes.old.items ++ spelled_recall recall) }
{
    let Some(recall) = recall else {
        bytes.push(0)?;
        return Ok(());
    };
    bytes.push(1)?;
    put_mark(bytes, recall.mark)?;
    put_number8(bytes, recall.number)?;
    put_optional_mark(bytes, recall.heard)?;
    put_optional_mark(bytes, recall.answered)
}

#[tactic(auto, unfolding(press_wire::specs::Spelling::number8))]
fn put_number8(bytes: &mut Vec<u8>, n: u64) -> Result<(), AllocError>
    ensures { OnOk result (bytes.new.items ≡ bytes.old.items ++ number8 n) }
{
    bytes.extend_from_slice(&n.to_be_bytes())
}

/// Appends the piece behind its length, or leaves the bytes as they are.
#[tactic(auto, using(crate::proofs::Lengths::regroup), unfolding(crate::specs::Spelling::spelled_piece, press_wire::specs::Spelling::number4))]
pub fn put_piece(bytes: &mut Vec<u8>, piece: &[u8]) -> Result<(), AllocError>
    requires { length piece.now < 2 ^ 32 }
    ensures put { OnOk result (bytes.new.items ≡ bytes.old.items ++ spelled_piece piece.now) }
    ensures stays { OnErr result (bytes.new.items ≡ bytes.old.items) }
{
    bytes.reserve(4 + piece.len())?;
    let len = piece.len() as u32;
    let Ok(()) = bytes.extend_from_slice(&len.to_be_bytes()) else {
        unreachable!()
    };
    let Ok(()) = bytes.extend_from_slice(piece) else {
        unreachable!()
    };
    Ok(())
}

/// The bytes that spell the message.
pub fn message_bytes(alloc: Global, message: &Message) -> Result<Vec<u8>, BatchFault>
    ensures spelled { IfOk result (λ bytes. bytes.items ≡ spelled_message message.now) }
    ensures reads { IfOk result (λ _. ReadsBack message.now) }
    ensures fault { MatchResult result (λ _. is_too_long_message message.now ≡ false)
        (λ fault. fault ≡ (if is_too_long_message message.now then BatchFault.BadMessage
        else BatchFault.NoMemory)) }
{
    match encode_msg(alloc, message) {
        Ok(bytes) => Ok(bytes),
        Err(WireFault::TooLong) => Err(BatchFault::BadMessage),
        Err(_) => Err(BatchFault::NoMemory),
    }
}

fn hold_mark(mark: Mark)
    ensures { IsMark mark }
{
    let _start = mark.start;
    let _saves = mark.saves;
}

fn hold_optional_mark(mark: Option<Mark>)
    ensures { IfSome mark IsMark }
{
    if let Some(mark) = mark {
        hold_mark(mark);
    }
}

fn hold_bytes(bytes: &[u8])
    ensures { IsBytes bytes.now }
{
    let _len = bytes.len();
}

fn hold_digest(digest: &[u8; 32])
    ensures { IsDigest digest.now }
{
    let _len = digest.len();
    hold_bytes(digest);
}

fn hold_report(report: &Report)
    ensures { IsReport report.now }
{
    let _peers = report.digests.peers;
    let _kit = report.digests.kit;
    let _applied = report.applied;
    let _chosen = report.chosen;
    hold_digest(&report.digest);
    hold_digest(&report.block_digest);
}

fn hold_recall(recall: Option<Recall>)
    ensures { IfSome recall IsRecall }
{
    if let Some(recall) = recall {
        let _number = recall.number;
        hold_mark(recall.mark);
        hold_optional_mark(recall.heard);
        hold_optional_mark(recall.answered);
    }
}

/// What a head holds, for the law that batches are read back. It does nothing.
pub fn hold_head(head: &Head)
    ensures { IsHead head.now }
{
    let _from = head.from.number();
    hold_report(&head.report);
    hold_recall(head.recall);
}
