use press_posts::{Draft, PostFault, Posts, Status};
use press_text::{Moment, Text};
use std::alloc::Global;
use std::test::Fail;

// A published post, inserted at the first moment.
fn insert(alloc: Global, posts: &mut Posts) -> Result<(), PostFault> {
    let draft = Draft {
        title: Text::from_str(alloc, "x")?,
        content: Text::from_str(alloc, "y")?,
        status: Status::Publish,
        date: Moment::zero(),
    };
    posts.insert(draft, Moment::zero())?;
    Ok(())
}

// As many posts as there may be.
fn fill(alloc: Global) -> Result<Posts, PostFault> {
    let mut posts = Posts::new(alloc);
    for _ in 0..10_000 {
        insert(alloc, &mut posts)?;
    }
    Ok(posts)
}

#[test]
fn one_post_too_many_is_refused(rt: HostRuntime) -> Result<(), Fail> {
    let alloc = rt.alloc();
    let mut posts = fill(alloc)?;
    assert_eq!(rt;
        insert(alloc, &mut posts).err(),
        Some(PostFault::TooManyPosts)
    );
    Ok(())
}
