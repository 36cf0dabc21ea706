//! Fields, heads and messages, each read from the beginning of bytes.

ghost use Rattle.std.specs.Prelude.{◌≡◌, ◌≢◌, ◌<◌, ◌==◌, length, Err, Ok, IfOk};
ghost use Rattle.press_text.specs.Gives.{Gives};
ghost use Rattle.press_batch.specs.Fields.{byte_at, bytes_at, digest_at, flag_at, number4_at, number8_at, version_at, member_at, piece_at};
ghost use Rattle.press_batch.specs.Reading.{digests_at, head_at, mark_at, message_at, messages_in, optional_mark_at, recall_at, recall_fields_at, report_at};
ghost use Rattle.press_batch.specs.Refusals.{Refuses};

use crate::fault::BatchFault;
use crate::head::Head;
use crate::pieces::VERSION;
use crate::report::{Digests, Report};
use press_starts::{Mark, Recall};
use press_wire::{MemberId, Message, WireFault, decode_msg};
use std::alloc::Global;
use std::marker::Model;

/// The bytes that are still to be read.
#[derive(Drop)]
pub struct Reader<'a> {
    rest: &'a [u8],
}

impl<'a> Model for Reader<'a> {
    ghost use Rattle.std.specs.Prelude.{ℕ, List};

    ghost Value = { List ℕ };

    ghost view = { λ r. r.rest.now };
}

impl<'a> Reader<'a> {
    pub fn new(bytes: &'a [u8]) -> Reader<'a>
        ensures { result ≡ bytes.now }
    {
        Reader { rest: bytes }
    }

    pub fn is_at_end(&self) -> bool
        ensures { result ≡ (length self.now == 0) }
    {
        self.rest.is_empty()
    }

    fn byte(&mut self) -> Result<u8, BatchFault>
        ensures read { Gives Refuses (λ x. Ok (x, self.new)) result (byte_at self.old) }
        ensures memory { result ≢ Err BatchFault.NoMemory }
    {
        match self.rest {
            [] => Err(BatchFault::Short),
            [b, rest @ ..] => {
                self.rest = rest;
                Ok(*b)
            }
        }
    }

    fn cut(&mut self, len: usize) -> Result<&'a [u8], BatchFault>
        ensures read { Gives Refuses (λ front. Ok (front.now, self.new)) result
            (bytes_at len self.old) }
        ensures length { IfOk result (λ front. length front.now ≡ len) }
        ensures memory { result ≢ Err BatchFault.NoMemory }
    {
        if self.rest.len() < len {
            return Err(BatchFault::Short);
        }
        let (front, rest) = self.rest.split_at(len);
        self.rest = rest;
        Ok(front)
    }

    #[tactic(auto, unfolding(crate::specs::Fields::number4_at))]
    fn number4(&mut self) -> Result<u32, BatchFault>
        ensures read { Gives Refuses (λ x. Ok (x, self.new)) result (number4_at self.old) }
        ensures memory { result ≢ Err BatchFault.NoMemory }
    {
        let front = self.cut(4)?;
        Ok(u32::from_be_bytes([front[0], front[1], front[2], front[3]]))
    }

    #[tactic(auto, unfolding(crate::specs::Fields::number8_at))]
    fn number8(&mut self) -> Result<u64, BatchFault>
        ensures read { Gives Refuses (λ x. Ok (x, self.new)) result (number8_at self.old) }
        ensures memory { result ≢ Err BatchFault.NoMemory }
    {
        let front = self.cut(8)?;
        Ok(u64::from_be_bytes([
            front[0], front[1], front[2], front[3], front[4], front[5], front[6], front[7],
        ]))
    }

    #[tactic(auto, unfolding(crate::specs::Fields::version_at))]
    fn version(&mut self) -> Result<u8, BatchFault>
        ensures read { Gives Refuses (λ x. Ok (x, self.new)) result (version_at self.old) }
        ensures memory { result ≢ Err BatchFault.NoMemory }
    {
        let version = self.byte()?;
        if version != VERSION {
            return Err(BatchFault::BadVersion);
        }
        Ok(version)
    }

    #[tactic(auto, unfolding(crate::specs::Fields::member_at))]
    fn member(&mut self) -> Result<MemberId, BatchFault>
        ensures read { Gives Refuses (λ x. Ok (x, self.new)) result (member_at self.old) }
        ensures memory { result ≢ Err BatchFault.NoMemory }
    {
        match MemberId::new(self.byte()?) {
            Some(node) => Ok(node),
            None => Err(BatchFault::BadMember),
        }
    }

    // Whether there is something.
    #[tactic(auto, unfolding(crate::specs::Fields::flag_at))]
    fn flag(&mut self) -> Result<bool, BatchFault>
        ensures read { Gives Refuses (λ x. Ok (x, self.new)) result (flag_at self.old) }
        ensures memory { result ≢ Err BatchFault.NoMemory }
    {
        match self.byte()? {
            0 => Ok(false),
            1 => Ok(true),
            _ => Err(BatchFault::BadRecall),
        }
    }

    #[tactic(auto, unfolding(crate::specs::Fields::digest_at))]
    fn digest(&mut self) -> Result<[u8; 32], BatchFault>
        ensures read { Gives Refuses (λ x. Ok (x, self.new)) result (digest_at self.old) }
        ensures memory { result ≢ Err BatchFault.NoMemory }
    {
        let front = self.cut(32)?;
        let mut digest = [0; 32];
        digest.copy_from_slice(front);
        Ok(digest)
    }

    #[tactic(auto, unfolding(crate::specs::Reading::digests_at))]
    fn digests(&mut self) -> Result<Digests, BatchFault>
        ensures read { Gives Refuses (λ x. Ok (x, self.new)) result (digests_at self.old) }
        ensures memory { result ≢ Err BatchFault.NoMemory }
    {
        let peers = self.number8()?;
        let kit = self.number8()?;
        Ok(Digests { peers, kit })
    }

    #[tactic(auto, unfolding(crate::specs::Reading::report_at))]
    fn report(&mut self) -> Result<Report, BatchFault>
        ensures read { Gives Refuses (λ x. Ok (x, self.new)) result (report_at self.old) }
        ensures memory { result ≢ Err BatchFault.NoMemory }
    {
        let digests = self.digests()?;
        let applied = self.number8()?;
        let chosen = self.number8()?;
        let digest = self.digest()?;
        let block_digest = self.digest()?;
        Ok(Report {
            applied,
            chosen,
            digests,
            digest,
            block_digest,
        })
    }

    #[tactic(auto, unfolding(crate::specs::Reading::mark_at))]
    fn mark(&mut self) -> Result<Mark, BatchFault>
        ensures read { Gives Refuses (λ x. Ok (x, self.new)) result (mark_at self.old) }
        ensures memory { result ≢ Err BatchFault.NoMemory }
    {
        let start = self.number8()?;
        let saves = self.number8()?;
        Ok(Mark { start, saves })
    }

    #[tactic(auto, unfolding(crate::specs::Reading::optional_mark_at, crate::specs::Reading::mark_behind))]
    fn optional_mark(&mut self) -> Result<Option<Mark>, BatchFault>
        ensures read { Gives Refuses (λ x. Ok (x, self.new)) result (optional_mark_at self.old) }
        ensures memory { result ≢ Err BatchFault.NoMemory }
    {
        if !self.flag()? {
            return Ok(None);
        }
        let mark = self.mark()?;
        Ok(Some(mark))
    }

    #[tactic(auto, unfolding(crate::specs::Reading::recall_fields_at))]
    fn recall_fields(&mut self) -> Result<Recall, BatchFault>
        ensures read { Gives Refuses (λ x. Ok (x, self.new)) result (recall_fields_at self.old) }
        ensures memory { result ≢ Err BatchFault.NoMemory }
    {
        let mark = self.mark()?;
        let number = self.number8()?;
        let heard = self.optional_mark()?;
        let answered = self.optional_mark()?;
        Ok(Recall {
            mark,
            number,
            heard,
            answered,
        })
    }

    #[tactic(auto, unfolding(crate::specs::Reading::recall_at, crate::specs::Reading::recall_behind))]
    fn recall(&mut self) -> Result<Option<Recall>, BatchFault>
        ensures read { Gives Refuses (λ x. Ok (x, self.new)) result (recall_at self.old) }
        ensures memory { result ≢ Err BatchFault.NoMemory }
    {
        if !self.flag()? {
            return Ok(None);
        }
        let recall = self.recall_fields()?;
        Ok(Some(recall))
    }

    /// What stands before messages.
    #[tactic(auto, unfolding(crate::specs::Reading::head_at))]
    pub fn head(&mut self) -> Result<Head, BatchFault>
        ensures read { Gives Refuses (λ x. Ok (x, self.new)) result (head_at self.old) }
        ensures memory { result ≢ Err BatchFault.NoMemory }
    {
        let _version = self.version()?;
        let from = self.member()?;
        let report = self.report()?;
        let recall = self.recall()?;
        Ok(Head {
            from,
            report,
            recall,
        })
    }

    // Bytes behind their length.
    #[tactic(auto, unfolding(crate::specs::Fields::piece_at))]
    fn piece(&mut self) -> Result<&'a [u8], BatchFault>
        ensures read { Gives Refuses (λ front. Ok (front.now, self.new)) result
            (piece_at self.old) }
        ensures memory { result ≢ Err BatchFault.NoMemory }
    {
        let len = self.number4()?;
        self.cut(len as usize)
    }

    #[tactic(auto, unfolding(crate::specs::Reading::message_at))]
    fn message(&mut self, alloc: Global) -> Result<Message, BatchFault>
        ensures { Gives Refuses (λ x. Ok (x, self.new)) result (message_at self.old) }
    {
        match decode_msg(alloc, self.piece()?) {
            Ok(message) => Ok(message),
            Err(WireFault::NoMemory) => Err(BatchFault::NoMemory),
            Err(_) => Err(BatchFault::BadMessage),
        }
    }

    /// Messages up to the end.
    pub fn messages(&mut self, alloc: Global) -> Result<Vec<Message>, BatchFault>
        ensures read { Gives Refuses (λ found. Ok found.items) result (messages_in self.old) }
        // Where nothing is left no memory is taken.
        ensures memory { result ≡ Err BatchFault.NoMemory → 0 < length self.old }
    {
        let mut messages = Vec::new(alloc);
        while !self.is_at_end() {
            let message = self.message(alloc)?;
            messages.push(message)?;
        }
        Ok(messages)
    }
}
