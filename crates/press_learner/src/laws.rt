//! Laws of what is chosen.

ghost use Rattle.std.specs.Prelude.{ℕ, ◌≡◌, ◌↔◌, Some, None};
ghost use Rattle.press_apply.specs.declared.value.Value.{Value};
ghost use Rattle.press_wire.specs.declared.vote.Vote.{Vote};
ghost use Rattle.press_learner.specs.Chosen.{IsChosenByKept, chosen_next, with_chosen_applied};
ghost use Rattle.press_learner.specs.Kept.{KeptVotes, IsWindow, AddsNone, AddsOnly, new_learner, vote_at, with_vote, after_next_slot};

/// A value is chosen exactly where more than half of the members have kept votes of one ballot for
/// the next slot, and it is the value of the least of them.
pub fn chosen_by_majority()
    ensures { (k : KeptVotes) (value : Value) →
        (chosen_next k ≡ Some value ↔ IsChosenByKept k value) }
{}

/// Votes are kept for 64 slots and no more: once the chosen values of as many are applied, none is
/// chosen.
pub fn none_is_chosen_after_64()
    ensures { (k : KeptVotes) → IsWindow k → chosen_next (with_chosen_applied 64 k) ≡ None }
{}

/// A learner keeps only votes that came: none at first, after a vote came that one at most beside
/// those that it kept, and after a value was applied no other than before. Each stays with the slot
/// and the member that it came for.
pub fn only_votes_that_came_are_kept()
    ensures start { (n slot member : ℕ) → vote_at (new_learner n) slot member ≡ None }
    ensures vote { (k : KeptVotes) (m s : ℕ) (v : Vote) → AddsOnly m s v k (with_vote k m s v) }
    ensures advance { (k : KeptVotes) → AddsNone k (after_next_slot k) }
{}
