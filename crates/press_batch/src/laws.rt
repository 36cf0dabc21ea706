ghost use Rattle.std.specs.Prelude.{◌≡◌, ◌≤◌, ◌++◌, ℕ, List, None, length, Ok};
ghost use Rattle.press_wire.specs.Held.{IsBytes};
ghost use Rattle.press_wire.specs.Spelling.{spelled_message};
ghost use Rattle.press_wire.specs.declared.message.Message.{Message};
ghost use Rattle.press_batch.specs.Carried.{BatchContent};
ghost use Rattle.press_batch.specs.Held.{AreShort, IsBatch, IsHead};
ghost use Rattle.press_batch.specs.Reading.{read_batch, read_head};
ghost use Rattle.press_batch.specs.Spelling.{most_bytes, refusal, spelled_batch, spelled_head, spelled_piece, with_last};
ghost use Rattle.press_batch.specs.declared.head.Head.{Head};

/// Each head is read from its spelling.
pub fn a_head_reads_back()
    ensures { (h : Head) → IsHead h → read_head (spelled_head h) ≡ Ok h }
{}

/// Each batch of messages in form that has at most 1,048,576 bytes is read from its spelling.
pub fn a_batch_reads_back()
    ensures { (b : BatchContent) → IsBatch b → length (spelled_batch b) ≤ most_bytes →
        read_batch (spelled_batch b) ≡ Ok b }
{}

/// Bytes that are read as a head are its spelling, so no two byte strings are read alike.
pub fn heads_have_one_spelling()
    ensures spelled { (bytes : List ℕ) (h : Head) → IsBytes bytes → read_head bytes ≡ Ok h →
        bytes ≡ spelled_head h }
    ensures alone { (a b : List ℕ) (h : Head) → IsBytes a → IsBytes b → read_head a ≡ Ok h →
        read_head b ≡ Ok h → a ≡ b }
{}

/// Bytes that are read as a batch are its spelling, so no two byte strings are read alike.
pub fn batches_have_one_spelling()
    ensures spelled { (bytes : List ℕ) (b : BatchContent) → IsBytes bytes →
        read_batch bytes ≡ Ok b →
        bytes ≡ spelled_batch b }
    ensures alone { (c d : List ℕ) (b : BatchContent) → IsBytes c → IsBytes d →
        read_batch c ≡ Ok b →
        read_batch d ≡ Ok b → c ≡ d }
{}

/// A batch is refused exactly where a message in it is too long in itself, or it has over 1,048,576
/// bytes.
pub fn what_is_refused_is_too_long()
    ensures not_refused { (b : BatchContent) → IsHead b.head → refusal b ≡ None →
        AreShort b.messages × (length (spelled_batch b) ≤ most_bytes) }
    ensures fitting { (b : BatchContent) → AreShort b.messages →
        length (spelled_batch b) ≤ most_bytes →
        refusal b ≡ None }
{}

/// One message more is spelled behind the others, so what a `BatchWriter` wrote is the spelling of
/// all that was put.
pub fn a_last_message_is_spelled_last()
    ensures { (b : BatchContent) (m : Message) → spelled_batch (with_last m b)
        ≡ spelled_batch b ++ spelled_piece (spelled_message m) }
{}
