//! Bytes in two buffers: those that are written out, and those behind them.

ghost use Rattle.std.specs.Prelude.{◌≡◌, ◌+◌, ◌<◌, ◌≤◌, ◌++◌, [], drop, length, IfOk, OnErr, IsErrOf, vec_capacity, vec_len};
ghost use Rattle.wf_codec.specs.Message.{view, IsMessage};
ghost use Rattle.wf_codec.specs.Encoding.{spelling};
ghost use Rattle.wf_mail.specs.Outbox.{waiting_in};

use crate::dropped::Dropped;
use std::mem;
use wf_codec::{Message, encode};

/// Appends the message's encoding if it is no longer than `room`, and returns its length.
pub fn append(queue: &mut Vec<u8>, message: &Message, room: usize) -> Result<usize, Dropped>
    ensures length { IfOk result (λ count. count ≡ length (spelling (view message.now))) }
    ensures items { IfOk result (λ _.
        queue.new.items ≡ queue.old.items ++ spelling (view message.now)) }
    ensures within { IfOk result (λ count. count ≤ room) }
    ensures is_message { IfOk result (λ _. IsMessage (view message.now)) }
    ensures unchanged { OnErr result (queue.new.items ≡ queue.old.items) }
    ensures no_room { IsErrOf result Dropped.NoRoom →
        room < length (spelling (view message.now)) }
    ensures memory { IsErrOf result Dropped.Memory →
        vec_capacity queue.old < vec_len queue.old + length (spelling (view message.now)) }
{
    let before = queue.len();
    encode(message, queue)?;
    let count = queue.len() - before;
    if count > room {
        queue.truncate(before);
        return Err(Dropped::NoRoom);
    }
    Ok(count)
}

/// Lets the queue take the place of a first buffer that is written out whole.
pub fn take_turn(front: &mut Vec<u8>, done: &mut usize, queue: &mut Vec<u8>)
    requires { done.old ≤ length front.old.items }
    ensures waiting { waiting_in front.new.items done.new queue.new.items ≡
        waiting_in front.old.items done.old queue.old.items }
    ensures within { done.new ≤ length front.new.items }
    ensures in_turn { done.new ≡ length front.new.items → queue.new.items ≡ [] }
{
    if *done == front.len() {
        front.clear();
        mem::swap(front, queue);
        *done = 0;
    }
}

/// Skips the first bytes that wait.
pub fn skip(front: &mut Vec<u8>, done: &mut usize, queue: &mut Vec<u8>, count: usize)
    requires within { done.old ≤ length front.old.items }
    requires count { count ≤ length (waiting_in front.old.items done.old queue.old.items) }
    ensures waiting { waiting_in front.new.items done.new queue.new.items ≡
        drop count (waiting_in front.old.items done.old queue.old.items) }
    ensures within { done.new ≤ length front.new.items }
    ensures in_turn { done.new ≡ length front.new.items → queue.new.items ≡ [] }
{
    let left = front.len() - *done;
    if count < left {
        *done += count;
    } else {
        front.clear();
        mem::swap(front, queue);
        *done = count - left;
    }
}
