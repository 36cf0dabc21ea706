//! Laws of members.

ghost use Rattle.std.specs.Prelude.{ℕ, ◌≡◌, ◌≢◌, ◌+◌, ◌<◌, ◌++◌, [], IsTrue, List, Result};
ghost use Rattle.press_wire.specs.declared.message.Message.{Message};
ghost use Rattle.press_acceptor.specs.Trace.{Fact};
ghost use Rattle.press_acceptor.specs.Turned.{store_move};
ghost use Rattle.press_node.specs.Nodes.{node_move, state_of, store_of};
ghost use Rattle.press_node.specs.Plays.{Plays, state_move};
ghost use Rattle.press_node.specs.States.{NodeState, running_in};
ghost use Rattle.press_node.specs.declared.event.Event.{Event};
ghost use Rattle.press_node.specs.declared.fault.NodeFault.{NodeFault};
ghost use Rattle.press_member.specs.Acting.{ActsIn, IsSettled};
ghost use Rattle.press_member.specs.Acts.{View, node_in, view_of};
ghost use Rattle.press_member.specs.Among.{AreBy, IsAmong, Letters};
ghost use Rattle.press_member.specs.Holds.{Holds, HoldsOn, ShowsAlike};
ghost use Rattle.press_member.specs.Lives.{Lives, LivesAmong, Step};
ghost use Rattle.press_member.specs.Members.{AreMoves, Members, Move, WhileUp, after_all, new_members};

use crate::member::Member;
use press_acceptor::{PromiseStore, at_most_one_value_chosen};
use press_world::each_step_agrees;

/// An event over a store that is honest is the event of the definition, done or refused; or it
/// stops the node, and a stop then leaves the store of before its save or after it.
pub fn any_store_acts<S: PromiseStore>()
    ensures { (s t : S) (old new : NodeState) (event : Event)
        (outcome : Result (List Message) NodeFault) → IsSettled S.seen s (S.seen s).kept →
        (S.seen t).is_honest →
        Plays (store_move S.seen s t) (state_move old new) event outcome →
        ActsIn S.seen s t (S.seen s).kept old new event outcome }
{}

/// A store that is open while its node runs is so after each event, if it is honest then.
pub fn any_store_stays_open<S: PromiseStore>()
    ensures { (s t : S) (old new : NodeState) (event : Event)
        (outcome : Result (List Message) NodeFault) →
        WhileUp (running_in old) (IsTrue (S.seen s).is_open) → (S.seen t).is_honest →
        Plays (store_move S.seen s t) (state_move old new) event outcome →
        WhileUp (running_in new) (IsTrue (S.seen t).is_open) }
{}

/// After any moves of any number of members over stores of any kind that keep their word: there is
/// a legal trace that agrees with the stores, each applied value is chosen for its slot, no slot is
/// chosen two ways, at any two moments, and who has applied as many values has applied the same and
/// shows the same pages.
pub fn any_moves<S: PromiseStore>()
    ensures holds { (n : ℕ) (moves : List (Move S)) → AreMoves S.seen n (new_members n) moves →
        (trace : List Fact) × Holds S.seen n (after_all (new_members n) moves) trace }
    ensures once { (n : ℕ) (early late : List (Move S)) →
        AreMoves S.seen n (new_members n) early →
        AreMoves S.seen n (after_all (new_members n) early) late →
        HoldsOn S.seen n (after_all (new_members n) early)
        (after_all (after_all (new_members n) early) late) }
    ensures alike { (n : ℕ) (early late : List (Move S)) →
        AreMoves S.seen n (new_members n) early →
        AreMoves S.seen n (after_all (new_members n) early) late →
        ShowsAlike (after_all (new_members n) early)
        (after_all (after_all (new_members n) early) late) }
{
    each_step_agrees();
    at_most_one_value_chosen();
}

/// What one member does leaves any other where it is, with all that it has waiting sent; and moves
/// after moves are moves.
pub fn turns_interleave<S: PromiseStore>()
    ensures others { (n index other : ℕ) (w : Members S) (moves : List (Move S)) (store : S)
        (state : NodeState) (mail : Letters) → index ≢ other → AreBy other moves →
        IsAmong S.seen w index store state mail [] →
        IsAmong S.seen (after_all w moves) index store state mail [] }
    ensures joined { (n : ℕ) (w : Members S) (first last : List (Move S)) →
        AreMoves S.seen n w first → AreMoves S.seen n (after_all w first) last →
        AreMoves S.seen n w (first ++ last)
        × (after_all w (first ++ last) ≡ after_all (after_all w first) last) }
{}

/// A member's life is a chain of inputs, as each of them says what it does: none leaves it as it
/// is, and two lives after each other are one. Among others, whatever they do between its inputs,
/// all of it is moves.
pub fn lives_among<S: PromiseStore>(member: &Member<S>)
    ensures rests { Lives S.seen (λ a b. node_move S.seen a b) (λ node. store_of node)
        (λ node. state_of node) [] (view_of member.now) (view_of member.now) }
    ensures joined { (first last : List (Step _)) (mid new : View _) →
        Lives S.seen (λ a b. node_move S.seen a b) (λ node. store_of node)
        (λ node. state_of node) first (view_of member.now) mid →
        Lives S.seen (λ a b. node_move S.seen a b) (λ node. store_of node)
        (λ node. state_of node) last mid new →
        Lives S.seen (λ a b. node_move S.seen a b) (λ node. store_of node)
        (λ node. state_of node) (first ++ last) (view_of member.now) new }
    ensures among { (index : ℕ) (w : Members S) (steps : List (Step _)) (new : View _)
        (out : List Message) → (view_of member.now).id ≡ index + 1 →
        index < (view_of member.now).members →
        IsAmong S.seen w index (store_of (node_in (view_of member.now)))
        (state_of (node_in (view_of member.now)))
        (record { own = (view_of member.now).own; out = out }) [] →
        Lives S.seen (λ a b. node_move S.seen a b) (λ node. store_of node)
        (λ node. state_of node) steps (view_of member.now) new →
        LivesAmong S.seen (λ a b. node_move S.seen a b) (λ node. store_of node)
        (λ node. state_of node) (view_of member.now).members index steps w }
{}
