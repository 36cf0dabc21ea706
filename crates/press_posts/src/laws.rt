ghost use Rattle.std.specs.Prelude.{List, Option, ℕ, IfOk, nat_eq};
ghost use Rattle.std.specs.List.{IsDistinct};
ghost use Rattle.press_posts.specs.declared.post.Post.{Post};
ghost use Rattle.press_posts.specs.Ids.{HaveIds};
ghost use Rattle.press_posts.specs.PostChange.{Change, post_change};
ghost use Rattle.press_posts.specs.Published.{IsInOrder, published};
ghost use Rattle.press_posts.specs.Restored.{IsTakenBack};

/// The list of published posts has each of them once, newest date first, then greatest id.
pub fn published_in_order()
    ensures { (posts : List (Option Post)) → IsInOrder posts }
{}

/// No id is published twice, where posts have the ids of their places.
pub fn published_once()
    ensures { (posts : List (Option Post)) → HaveIds posts → IsDistinct nat_eq (published posts) }
{}

/// A change leaves posts with the ids of their places.
pub fn changes_keep_ids()
    ensures { (posts : List (Option Post)) (change : Change) (now : ℕ) → HaveIds posts
        → IfOk (post_change posts change now) (λ c. HaveIds c.posts) }
{}

/// A change is undone by its id and the post that was there before it: by none after an insert.
pub fn changes_are_taken_back()
    ensures { (posts : List (Option Post)) (change : Change) (now : ℕ)
        → IfOk (post_change posts change now) (IsTakenBack change posts) }
{}
