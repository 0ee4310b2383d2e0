//! What a process has beside its node.

ghost use Rattle.std.specs.Prelude.{◌≡◌, ◌≤◌, [], List, IfOk};
ghost use Rattle.wf_actor.specs.Sent.{AreQueued};
ghost use Rattle.wf_def.specs.Definition.{Definition};
ghost use Rattle.wf_wire.specs.Post.{AreAmong, logged};
ghost use Rattle.wf_wms.specs.CachedPictures.{AllCached};

use crate::backlog::Backlog;
use std::alloc::{AllocError, Global};
use wf_codec::Message;
use wf_past::Past;
use wf_wire::{Post, Target};
use wf_wms::Cache;

/// What a process has beside its node.
#[derive(Drop)]
pub(crate) struct ProcessParts {
    pub backlog: Backlog<Message>,
    pub posts: Backlog<Post>,
}

/// No messages, no posts and no pictures.
pub(crate) fn make_room(alloc: Global, pictures: usize) -> Result<(ProcessParts, Cache), AllocError>
    requires least { 1 ≤ pictures }
    requires most { pictures ≤ 64 }
    ensures backlog { IfOk result (λ made. made.0.backlog.messages.items ≡ []) }
    ensures posts { IfOk result (λ made. made.0.posts.messages.items ≡ []) }
    ensures cache { IfOk result (λ made. (history : List Definition) → AllCached history made.1) }
{
    let parts = ProcessParts {
        backlog: Backlog::new(alloc)?,
        posts: Backlog::new(alloc)?,
    };
    Ok((parts, Cache::new(alloc, pictures)?))
}

/// Posts messages that a node returned, of which the log has all by now. They wait behind the posts
/// before.
#[tactic(auto, using(crate::proofs::Dispatches::logged_same, crate::proofs::Dispatches::among_along, crate::proofs::Dispatches::posted_none, crate::proofs::Dispatches::posted_one))]
pub(crate) fn post(
    alloc: Global,
    posts: &mut Backlog<Post>,
    messages: Vec<Message>,
    target: Target,
    returned: &Past<Vec<Message>, usize>,
)
    requires { ∥ AreAmong messages.items (logged returned.now.items) ∥₁ }
    ensures { AreQueued messages.items target (logged returned.now.items)
        posts.old.messages.items posts.new.messages.items }
{
    if messages.is_empty() {
        drop(messages);
        return;
    }
    let none = Vec::new(alloc);
    let returned = returned.and(&none, &0);
    drop(none);
    posts.push(Post::new(messages, target, returned));
}
