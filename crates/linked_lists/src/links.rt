//! The links between the ids of a body: each id's neighbours in text order.
ghost use Rattle.std.specs.Prelude.{◌≡◌, ◌<◌, ◌≤◌, length, nat_eq, cond};
ghost use Rattle.std.specs.Vec.{vec_len, vec_capacity};
ghost use Rattle.linked_lists.specs.Ids.{put_at};
ghost use Rattle.linked_lists.specs.Links.{none, next_at, prev_at, is_live_at, with_next, with_prev, new_link, linked_in, linked_out};

/// What stands for no id.
pub const NONE: u32 = u32::MAX;

/// An id's neighbours in text order, NONE at an end. The link of a free id has the next free one.
#[derive(Clone, Copy)]
pub struct Link {
    pub prev: u32,
    pub next: u32,
    pub live: bool,
}

/// The id after this one.
#[inline]
pub fn next_of(links: &[Link], id: u32) -> u32
    ensures { result ≡ next_at links.now id }
{
    match links.get(id as usize) {
        Some(link) => link.next,
        None => NONE,
    }
}

/// The id before this one.
pub fn prev_of(links: &[Link], id: u32) -> u32
    ensures { result ≡ prev_at links.now id }
{
    match links.get(id as usize) {
        Some(link) => link.prev,
        None => NONE,
    }
}

/// Whether an id is live.
pub fn is_live(links: &[Link], id: u32) -> bool
    ensures { result ≡ is_live_at links.now id }
{
    match links.get(id as usize) {
        Some(link) => link.live,
        None => false,
    }
}

/// Puts `next` after an id, where it is one.
fn set_next(links: &mut Vec<Link>, id: u32, next: u32)
    ensures items { links.new.items ≡ with_next id next links.old.items }
    ensures len { vec_len links.new ≡ vec_len links.old }
    ensures capacity { vec_capacity links.new ≡ vec_capacity links.old }
{
    if (id as usize) < links.len() {
        links[id as usize].next = next;
    }
}

/// Puts `prev` before an id, where it is one.
fn set_prev(links: &mut Vec<Link>, id: u32, prev: u32)
    ensures items { links.new.items ≡ with_prev id prev links.old.items }
    ensures len { vec_len links.new ≡ vec_len links.old }
    ensures capacity { vec_capacity links.new ≡ vec_capacity links.old }
{
    if (id as usize) < links.len() {
        links[id as usize].prev = prev;
    }
}

/// Makes an id live between two others: the one after the last, where there is room for it, or one that is free.
fn put_link(links: &mut Vec<Link>, id: u32, prev: u32, next: u32)
    requires position { id ≤ length links.old.items }
    requires room { length links.old.items ≤ id → vec_len links.old < vec_capacity links.old }
    ensures items { links.new.items ≡ put_at id (new_link prev next) links.old.items }
    ensures capacity { vec_capacity links.new ≡ vec_capacity links.old }
{
    let link = Link {
        prev,
        next,
        live: true,
    };
    if id as usize == links.len() {
        links.push_reserved(link);
    } else {
        links[id as usize] = link;
    }
}

/// Puts an id in between two neighbours, in constant time.
pub fn link_in(links: &mut Vec<Link>, id: u32, prev: u32, next: u32)
    requires position { id ≤ length links.old.items }
    requires room { length links.old.items ≤ id → vec_len links.old < vec_capacity links.old }
    ensures items { links.new.items ≡ linked_in id prev next links.old.items }
    ensures capacity { vec_capacity links.new ≡ vec_capacity links.old }
{
    put_link(links, id, prev, next);
    set_next(links, prev, id);
    set_prev(links, next, id);
}

/// Makes two ids neighbours, and frees the one between them, in constant time.
pub fn link_out(links: &mut Vec<Link>, id: u32, prev: u32, next: u32, free: u32)
    requires position { id < length links.old.items }
    ensures items { links.new.items ≡ linked_out id prev next free links.old.items }
    ensures capacity { vec_capacity links.new ≡ vec_capacity links.old }
{
    set_next(links, prev, next);
    set_prev(links, next, prev);
    links[id as usize] = Link {
        prev: NONE,
        next: free,
        live: false,
    };
}

/// `other` where `end` is none, and else `kept`.
pub fn unless_none(end: u32, kept: u32, other: u32) -> u32
    ensures { result ≡ cond (nat_eq end none) other kept }
{
    if end == NONE { other } else { kept }
}
