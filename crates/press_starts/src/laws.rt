ghost use Rattle.std.specs.Prelude.{◌≡◌, ◌≢◌, ℕ, ◌-◌, ◌<◌, ◌≤◌, ◌++◌, false, true, List, IfSome, IsSome, Some, is_some, length};
ghost use Rattle.std.specs.List.{Contains};
ghost use Rattle.press_starts.specs.Files.{has_made, lacks, running};
ghost use Rattle.press_starts.specs.Hearings.{IsUnheard};
ghost use Rattle.press_starts.specs.Histories.{Deed, file_after, told_in};
ghost use Rattle.press_starts.specs.Peers.{hearing, is_stale, peer_after};
ghost use Rattle.press_starts.specs.Witnesses.{IsSound, WitnessView, after_recall, hearing_of, peer_of, recall_of};
ghost use Rattle.press_starts.specs.declared.hearing.Hearing.TheVariants.{Forgotten, Heard, Stale};
ghost use Rattle.press_starts.specs.declared.mark.Mark.{Mark};
ghost use Rattle.press_starts.specs.declared.peer.Peer.{Peer};
ghost use Rattle.press_starts.specs.declared.recall.Recall.{Recall};

/// Whatever a file goes through, it has each mark that it told, then and ever after. So a member
/// that keeps its file is never told to have forgotten, however late it is told what others heard.
pub fn an_honest_member_is_never_refused()
    ensures made { (deeds later : List Deed) (mark : Mark) → Contains (told_in deeds) mark →
        has_made (file_after (later ++ deeds)) mark ≡ true }
    ensures heard { (deeds later : List Deed) (peer : Peer) (recall : Recall) →
        IfSome recall.heard (Contains (told_in deeds)) →
        hearing (file_after (later ++ deeds)) peer recall ≢ Forgotten }
{}

/// The first recall that tells a member what its file lacks has it know, and it never hears again.
pub fn a_forgetful_member_is_told()
    ensures told { (witness : WitnessView) (from : ℕ) (recall : Recall) (mark : Mark) →
        recall.heard ≡ Some mark → has_made witness.file mark ≡ false →
        hearing_of witness from recall ≡ Forgotten }
    ensures knows { (witness : WitnessView) (from : ℕ) (recall : Recall) →
        hearing_of witness from recall ≡ Forgotten →
        IsSome (after_recall from recall witness).reminder }
    ensures stays { (witness : WitnessView) (from : ℕ) (recall : Recall) →
        IsSome witness.reminder → (hearing_of witness from recall ≡ Forgotten)
        × (after_recall from recall witness ≡ witness) }
{}

/// Whoever heard of a member what its file lacks hears nothing of a start that came since.
pub fn a_forgetful_member_is_not_heard()
    ensures { (forgetful other : WitnessView) (to from : ℕ) (mark : Mark) → IsSound forgetful →
        (peer_of other from).known ≡ Some mark → has_made forgetful.file mark ≡ false →
        (running forgetful.file).start ≢ mark.start →
        IsUnheard (hearing_of other from (recall_of forgetful to)) }
{}

/// A recall that isn't newer than what was heard of its start changes nothing.
pub fn a_stale_recall_changes_nothing()
    ensures { (witness : WitnessView) (from : ℕ) (recall : Recall) →
        hearing_of witness from recall ≡ Stale → after_recall from recall witness ≡ witness }
{}

/// A new start of a member whose file has what was heard of it is heard after one exchange: it
/// answers what it is told, and by that answer it is heard.
pub fn a_new_start_is_heard_once_it_answers()
    ensures answers { (witness : WitnessView) (from : ℕ) (recall : Recall) (mark : Mark) →
        from - 1 < length witness.peers → is_some witness.reminder ≡ false →
        recall.heard ≡ Some mark → has_made witness.file mark ≡ true →
        is_stale (peer_of witness from).known (peer_of witness from).number recall ≡ false →
        (recall_of (after_recall from recall witness) from).answered ≡ Some mark }
    ensures heard { (witness : WitnessView) (from : ℕ) (recall : Recall) (mark : Mark) →
        is_some witness.reminder ≡ false → lacks witness.file recall.heard ≡ false →
        (peer_of witness from).known ≡ Some mark → recall.answered ≡ Some mark →
        mark.start ≢ recall.mark.start → hearing_of witness from recall ≡ Heard }
{}

/// What was heard of a start never gets less.
pub fn what_is_known_of_a_start_rises()
    ensures { (file : List Mark) (peer : Peer) (recall : Recall) (before after : Mark) →
        peer.known ≡ Some before →
        (peer_after (hearing file peer recall) recall peer).known ≡ Some after →
        after.start ≡ before.start → before.saves ≤ after.saves }
{}
