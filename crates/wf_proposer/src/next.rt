ghost use Rattle.std.specs.Prelude.{◌≡◌, None, [], ◌∷◌, IfOk};
ghost use Rattle.std.specs.Option.{option_copied};

use crate::change::Change;
use std::alloc::{AllocError, Global};
use std::marker::Model;
use wf_codec::Message;
use wf_journal::Record;

/// A proposer's result: a record to store, messages to send once it is stored, and the change of
/// the volatile state.
pub struct Next {
    entry: Option<Record>,
    messages: Vec<Message>,
    change: Change,
}

// Written by hand: callers then prove one call where they drop a result, not one for each part.
impl Drop for Next {
    fn drop(self) {
        let Next {
            entry,
            messages,
            change,
        } = self;
        drop(entry);
        drop(messages);
        drop(change);
    }
}

impl Model for Next {
    ghost use Rattle.wf_proposer.specs.Next.{Next};

    ghost Value = { Next };

    ghost view = { λ n. record { entry = n.entry; messages = n.messages.items; change = n.change } };
}

impl Next {
    /// Nothing to store and nothing to send.
    pub(crate) fn quiet(alloc: Global, change: Change) -> Next
        ensures { result ≡ record { entry = None; messages = []; change = change } }
    {
        Next {
            entry: None,
            messages: Vec::new(alloc),
            change,
        }
    }

    /// One message to send, once the record, if any, is stored.
    pub(crate) fn only_sends(
        alloc: Global,
        entry: Option<Record>,
        message: Message,
        change: Change,
    ) -> Result<Next, AllocError>
        ensures { IfOk result (λ next. next ≡
            record { entry = entry; messages = message ∷ []; change = change }) }
    {
        // Without `?`: the proof of an exit that drops these treats each kind of record and change
        // separately.
        match only(alloc, message) {
            Ok(messages) => Ok(Next {
                entry,
                messages,
                change,
            }),
            Err(fault) => {
                drop(entry);
                drop(change);
                Err(fault)
            }
        }
    }

    /// The record to store before the commit, if there is one.
    pub fn entry(&self) -> Option<&Record>
        ensures { option_copied result ≡ self.now.entry }
    {
        self.entry.as_ref()
    }

    /// The messages to send once the record is stored.
    pub fn messages(&self) -> &[Message]
        ensures { result.now ≡ self.now.messages }
    {
        self.messages.as_slice()
    }

    /// The record, of a result that isn't committed.
    pub fn into_entry(self) -> Option<Record>
        ensures { result ≡ self.entry }
    {
        let (entry, messages, change) = self.into_parts();
        drop(messages);
        drop(change);
        entry
    }

    /// The record, the messages and the change of the volatile state.
    pub(crate) fn into_parts(self) -> (Option<Record>, Vec<Message>, Change)
        ensures entry { result.0 ≡ self.entry }
        ensures messages { result.1.items ≡ self.messages }
        ensures change { result.2 ≡ self.change }
    {
        let Next {
            entry,
            messages,
            change,
        } = self;
        (entry, messages, change)
    }
}

/// The one message.
fn only(alloc: Global, message: Message) -> Result<Vec<Message>, AllocError>
    ensures { IfOk result (λ messages. messages.items ≡ message ∷ []) }
{
    let mut messages = Vec::new(alloc);
    messages.push(message)?;
    Ok(messages)
}
