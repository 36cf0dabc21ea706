//! Whose file a store is, and what is answered to whoever asks for it.

ghost use Rattle.std.specs.Prelude.{◌≡◌};
ghost use Rattle.press_store.specs.Owned as spec;

use press_wire::MemberId;

/// The member whose file it is.
#[derive(Clone, Copy, Debug, PartialEq, Eq)]
pub struct Owner {
    pub number: MemberId,
    /// How many members its cluster counts.
    pub members: u8,
    /// The digest of the list of peers.
    pub peers: u64,
}

/// What a file is to whoever asks for it.
#[derive(Clone, Copy, Debug, PartialEq, Eq)]
pub enum Tie {
    Own,
    /// It was nobody's, and belongs to the member that asked from then on.
    Taken,
    Foreign,
}

fn is_same(a: Owner, b: Owner) -> bool
    ensures { result ≡ spec.is_same a b }
{
    a.number == b.number && a.members == b.members && a.peers == b.peers
}

/// The answer to this question of a file that says this; None where it is damaged.
pub fn tie_of(said: Option<Option<Owner>>, asked: Option<Owner>) -> Option<Tie>
    ensures { result ≡ spec.tie_of said asked }
{
    match (said?, asked) {
        (None, None) => Some(Tie::Own),
        (None, Some(_)) => Some(Tie::Taken),
        (Some(_), None) => Some(Tie::Foreign),
        (Some(owner), Some(asked)) if is_same(owner, asked) => Some(Tie::Own),
        (Some(_), Some(_)) => Some(Tie::Foreign),
    }
}
