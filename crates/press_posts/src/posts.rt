//! The posts of a site, each at the place of its id.

ghost use Rattle.std.specs.Prelude.{◌≡◌, ℕ, [], ◌∷◌, ◌++◌, ◌+◌, ◌-◌, ◌≤◌, length, map, option_map, IfOk, OnOk, OnErr, is_some, take, true, false, Some, None, ◌<◌};
ghost use Rattle.press_posts.specs.Kept.{keeps_order};
ghost use Rattle.press_posts.specs.PostChange.{Changes, post_change, post_at, put_at, with_status, is_full, insert_fault};
ghost use Rattle.press_posts.specs.Transitions.{transition};
ghost use Rattle.press_posts.specs.PostChange.Change.{Insert, Edit, Moves, Delete};
ghost use Rattle.press_posts.specs.Published.{published};
ghost use Rattle.press_posts.specs.Restored.{restore_post, IsGiven, IsRestorable};

use crate::draft::Draft;
use crate::fault::PostFault;
use crate::fire::{Fire, insert_fires, transition, update_fires};
use crate::in_order::{make_room, newest, put_in, take_out};
use crate::post::{Move, Post};
use crate::status::Status;
use press_text::{Copied, Items, Moment};
use std::alloc::{AllocError, Global};
use std::marker::Model;

const MOST_POSTS: usize = 10_000;

/// Posts with ids 1, 2, .., each at the place of its id. The place of a deleted post stays empty,
/// and its id is never given again.
#[derive(Debug)]
pub struct Posts {
    alloc: Global,
    places: Vec<Option<Post>>,
    // How many posts exist.
    count: usize,
    // The published ones, oldest date first, then least id; with room for one at each place.
    order: Vec<Dated>,
}

impl Drop for Posts {
    fn drop(self) {
        let Posts {
            alloc: _,
            places: _,
            count: _,
            order: _,
        } = self;
    }
}

impl Model for Posts {
    ghost use Rattle.std.specs.Prelude.{List, Option, vec_capacity};
    ghost use Rattle.press_posts.specs.declared.post.Post.{Post};
    ghost use Rattle.press_posts.specs.Kept.{IsKept};

    ghost Value = { List (Option Post) };

    ghost view = { λ p. p.places.items };

    ghost invariant = { λ p. IsKept p.places.items p.count p.order.items (vec_capacity p.order) };
}

/// The position of a published post among the others.
#[derive(Clone, Copy, Debug)]
pub struct Dated {
    pub date: Moment,
    pub id: u64,
}

impl Posts {
    /// No posts, which takes no memory.
    pub fn new(alloc: Global) -> Posts
        ensures { result ≡ [] }
    {
        Posts {
            alloc,
            places: Vec::new(alloc),
            count: 0,
            order: Vec::new(alloc),
        }
    }

    /// Adds a post with the next id; its title and content are stored as they are given.
    pub fn insert(&mut self, draft: Draft, now: Moment) -> Result<(u64, Items<Fire>), PostFault>
        ensures { Changes (λ c. (c.id, c.fires)) result
            (post_change self.old (Insert draft) now) self.old self.new }
    {
        if let Some(fault) = self.insert_fault(&draft) {
            return Err(fault);
        }
        let id = self.next_id();
        let post = draft.post(id, now);
        let fires = insert_fires(self.alloc, post.status, id)?;
        self.push(post)?;
        Ok((id, fires))
    }

    /// Gives a post another title, content, status and date.
    pub fn edit(&mut self, id: u64, draft: Draft, now: Moment) -> Result<Items<Fire>, PostFault>
        ensures { Changes (λ c. c.fires) result
            (post_change self.old (Edit id draft) now) self.old self.new }
    {
        let Some(old) = self.get(id) else {
            return Err(PostFault::NoSuchPost);
        };
        if let Some(fault) = old.edit_fault(&draft) {
            return Err(fault);
        }
        let old = old.status;
        let post = draft.post(id, now);
        let fires = update_fires(self.alloc, old, post.status, id)?;
        self.put(id, post);
        Ok(fires)
    }

    /// Gives a post another status. PublishDue changes nothing, and fires nothing, where the post
    /// isn't future and due.
    pub fn set_status(&mut self, id: u64, to: Move) -> Result<Items<Fire>, PostFault>
        ensures { (now : ℕ) → Changes (λ c. c.fires) result
            (post_change self.old (Moves id to) now) self.old self.new }
    {
        let Some(post) = self.get(id) else {
            return Err(PostFault::NoSuchPost);
        };
        let old = post.status;
        match post.status_after_move(to)? {
            Some(status) => Ok(self.turn(id, old, status)?),
            None => Ok(Items::new(self.alloc)),
        }
    }

    /// Deletes a post that is in the trash, for good.
    pub fn delete(&mut self, id: u64) -> Result<(), PostFault>
        ensures { (now : ℕ) → Changes (λ _. tt) result (post_change self.old (Delete id) now)
            self.old self.new }
    {
        let Some(post) = self.get(id) else {
            return Err(PostFault::NoSuchPost);
        };
        if !post.status.is_trash() {
            return Err(PostFault::NotTrashed);
        }
        drop(self.empty(id));
        Ok(())
    }

    /// The post with that id, found by its place.
    pub fn get(&self, id: u64) -> Option<&Post>
        ensures { option_map (λ p. p.now) result ≡ post_at self.now id }
    {
        if id == 0 {
            return None;
        }
        match self.places.get((id - 1) as usize) {
            Some(place) => place.as_ref(),
            None => None,
        }
    }

    /// Undoes a change: puts back what was at the place of an id. Without a post, the id has to be
    /// the last one given, and is given again. An insert is undone without a post, any other with
    /// the post as it was. Takes no memory.
    pub fn restore(&mut self, id: u64, post: Option<Post>)
        requires { IsRestorable id post self.old }
        ensures { self.new ≡ restore_post id post self.old }
    {
        match post {
            Some(post) => self.put(id, post),
            None => {
                drop(self.empty(id));
                self.give_back();
            }
        }
    }

    /// The published posts, newest date first, then greatest id. Where there is none, this takes no
    /// memory.
    pub fn published(&self) -> Result<Items<u64>, AllocError>
        ensures ids { IfOk result (λ ids. ids ≡ published self.now) }
        ensures memory { OnErr result (0 < length (published self.now)) }
    {
        self.newest(self.places.len())
    }

    /// The first `most` published posts. It looks at no others. Where there is none, this takes no
    /// memory.
    pub fn newest(&self, most: usize) -> Result<Items<u64>, AllocError>
        ensures ids { IfOk result (λ ids. ids ≡ take most (published self.now)) }
        ensures memory { OnErr result (0 < length (take most (published self.now))) }
    {
        let ids = newest(self.alloc, &self.order, most)?;
        Ok(Items::from_vec(ids))
    }

    /// A copy of the posts. Without a place this takes no memory.
    pub fn copy(&self) -> Result<Posts, AllocError>
        ensures same { IfOk result (λ p. p ≡ self.now) }
        ensures memory { OnErr result (0 < length self.now) }
    {
        if self.places.is_empty() {
            return Ok(Posts::new(self.alloc));
        }
        let mut order = Vec::with_capacity(self.alloc, self.places.len())?;
        order.extend_from_slice(&self.order)?;
        Ok(Posts {
            alloc: self.alloc,
            places: copy_places(self.alloc, self.places.as_slice())?,
            count: self.count,
            order,
        })
    }

    /// The greatest id that was given, of a post that is there or was deleted; 0 where none was.
    pub fn last_id(&self) -> u64
        ensures { result ≡ length self.now }
    {
        self.places.len() as u64
    }

    /// The id that the next post gets.
    pub fn next_id(&self) -> u64
        requires { is_full self.now ≡ false }
        ensures { result ≡ length self.now + 1 }
    {
        self.last_id() + 1
    }

    /// Why an insert is refused, if it is.
    pub fn insert_fault(&self, draft: &Draft) -> Option<PostFault>
        ensures { result ≡ insert_fault draft.now self.now }
    {
        if draft.status.is_trash() {
            return Some(PostFault::IsTrashed);
        }
        if draft.is_too_long() {
            return Some(PostFault::TooLong);
        }
        if self.is_full() {
            return Some(PostFault::TooManyPosts);
        }
        None
    }

    // Whether there is no room for another post.
    fn is_full(&self) -> bool
        ensures { result ≡ is_full self.now }
    {
        self.count >= MOST_POSTS || self.places.len() == usize::MAX
    }

    // Gives the post with the old status another one.
    fn turn(&mut self, id: u64, old: Status, status: Status) -> Result<Items<Fire>, AllocError>
        requires { is_some (post_at self.old id) ≡ true }
        ensures fires { IfOk result (λ fs. fs ≡ transition (Some old) status id) }
        ensures ok { OnOk result (self.new ≡ put_at self.old id
            (option_map (with_status status) (post_at self.old id))) }
        ensures err { OnErr result (self.new ≡ self.old) }
    {
        let fires = transition(self.alloc, Some(old), status, id)?;
        let Some(mut post) = self.empty(id) else {
            unreachable!()
        };
        post.status = status;
        self.fill(id, post);
        Ok(Items::from_vec(fires))
    }

    // Adds a post at a new place.
    fn push(&mut self, post: Post) -> Result<(), AllocError>
        requires { is_full self.old ≡ false }
        ensures ok { OnOk result (self.new ≡ self.old ++ Some post ∷ []) }
        ensures err { OnErr result (self.new ≡ self.old) }
    {
        self.add_place()?;
        let id = self.places.len() as u64;
        self.fill(id, post);
        Ok(())
    }

    // Puts a post at a place, in place of what was there.
    fn put(&mut self, id: u64, post: Post)
        requires { IsGiven id self.old }
        ensures { self.new ≡ put_at self.old id (Some post) }
    {
        if self.keeps_order(id, &post) {
            self.places[(id - 1) as usize] = Some(post);
            return;
        }
        drop(self.empty(id));
        self.fill(id, post);
    }

    // Whether a post in place of that one leaves the published ones in their order.
    fn keeps_order(&self, id: u64, post: &Post) -> bool
        ensures { result ≡ keeps_order (post_at self.now id) post.now }
    {
        match self.get(id) {
            Some(old) => old.keeps_order(post),
            None => false,
        }
    }

    // Adds an empty place.
    fn add_place(&mut self) -> Result<(), AllocError>
        requires { is_full self.old ≡ false }
        ensures ok { OnOk result (self.new ≡ self.old ++ None ∷ []) }
        ensures err { OnErr result (self.new ≡ self.old) }
    {
        make_room(&mut self.order, self.places.len() + 1)?;
        self.places.push(None)?;
        Ok(())
    }

    // Removes the last place, which is empty.
    fn give_back(&mut self)
        requires { (1 ≤ length self.old) × (post_at self.old (length self.old) ≡ None) }
        ensures { self.new ≡ take (length self.old - 1) self.old }
    {
        drop(self.places.pop());
    }

    // Empties a place; returns what was there.
    fn empty(&mut self, id: u64) -> Option<Post>
        requires { IsGiven id self.old }
        ensures post { result ≡ post_at self.old id }
        ensures after { self.new ≡ put_at self.old id None }
    {
        let post = self.places[(id - 1) as usize].take()?;
        self.count -= 1;
        take_out(&mut self.order, post.to_dated());
        Some(post)
    }

    // Puts a post at its place, which is empty.
    fn fill(&mut self, id: u64, post: Post)
        requires { IsGiven id self.old × (post_at self.old id ≡ None) }
        ensures { self.new ≡ put_at self.old id (Some post) }
    {
        put_in(&mut self.order, post.to_dated());
        self.count += 1;
        self.places[(id - 1) as usize] = Some(post);
    }
}

fn copy_places(alloc: Global, places: &[Option<Post>]) -> Result<Vec<Option<Post>>, AllocError>
    ensures { IfOk result (λ v. v.items ≡ places.now) }
{
    let mut copies = Vec::new(alloc);
    for place in places {
        copies.push(copy_place(alloc, place)?)?;
    }
    Ok(copies)
}

fn copy_place(alloc: Global, place: &Option<Post>) -> Result<Option<Post>, AllocError>
    ensures { IfOk result (λ p. p ≡ place.now) }
{
    match place {
        Some(post) => Ok(Some(post.copy_in(alloc)?)),
        None => Ok(None),
    }
}
