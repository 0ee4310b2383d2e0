//! The event of a farm that an order is, and what is written about its rejection.

ghost use Rattle.std.specs.Prelude.{◌≡◌, IfOk, OnOk, option_map, slice_get};
ghost use Rattle.wf_play.specs.Report.{IsAppended, step_rejection_line};

use crate::session::Session;
use std::alloc::AllocError;
use std::fmt::Write;
use wf_canon::Canon;
use wf_farm::{Event, Rejection};
use wf_model::Action;
use wf_script::Order;

impl<'s> Session<'s> {
    ghost use Rattle.wf_farm.specs.Event.{view as event_view};
    ghost use Rattle.wf_model.specs.Action.{numbered};
    ghost use Rattle.wf_play.specs.OrderEffect.{action_of, event_at};
    ghost use Rattle.wf_script.specs.Order.{view};

    /// The event that the order is; None if it is none, or several.
    pub(crate) fn event_of(&self, order: &Order) -> Result<Option<Event>, AllocError>
        ensures { IfOk result (λ event.
            option_map event_view event ≡ event_at self.now.script.maps (view order.now)) }
    {
        match order {
            Order::Step(node, action) => match self.action_of(*action) {
                Ok(Some(action)) => Ok(Some(Event::Act(*node, action))),
                Ok(None) => Ok(None),
                Err(error) => Err(error),
            },
            Order::Stop(node) => Ok(Some(Event::Stop(*node))),
            Order::Restart(node) => Ok(Some(Event::Restart(*node))),
            Order::Torn(node, action, kept) => match self.action_of(*action) {
                Ok(Some(action)) => Ok(Some(Event::Torn(*node, action, *kept))),
                Ok(None) => Ok(None),
                Err(error) => Err(error),
            },
            _ => Ok(None),
        }
    }

    /// The step on the farm, with a copy of the map that it names; None if the script doesn't have
    /// that.
    fn action_of(
        &self,
        action: Action<usize, usize>,
    ) -> Result<Option<Action<Canon, usize>>, AllocError>
        ensures { IfOk result (λ copied.
            option_map numbered copied ≡ action_of self.now.script.maps action) }
    {
        match action {
            Action::Propose(map) => match self.copy_of(map) {
                Ok(Some(canon)) => Ok(Some(Action::Propose(canon))),
                Ok(None) => Ok(None),
                Err(error) => Err(error),
            },
            Action::Retry => Ok(Some(Action::Retry)),
            Action::CatchUp => Ok(Some(Action::CatchUp)),
            Action::Deliver(message) => Ok(Some(Action::Deliver(message))),
        }
    }

    /// The definition of the map of this number. An order names a map of its own script, so there
    /// is one.
    fn copy_of(&self, map: usize) -> Result<Option<Canon>, AllocError>
        ensures { IfOk result (λ copy. copy ≡ slice_get self.now.script.maps map) }
    {
        let script = self.script;
        match script.map(map) {
            Some(canon) => Ok(Some(canon.copy()?)),
            None => Ok(None),
        }
    }
}

/// Appends the line about a rejected event, if it was rejected.
pub(crate) fn write_rejected(refused: Option<Rejection>, out: &mut String) -> Result<(), AllocError>
    ensures { OnOk result (IsAppended (step_rejection_line refused) out.old out.new) }
{
    match refused {
        Some(rejection) => {
            let number = rejection.number();
            writeln!(out, "refused N{number}")
        }
        None => Ok(()),
    }
}
