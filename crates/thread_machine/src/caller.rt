//! A frame that waits for the result of a call.
use crate::frame::Frame;
use std::marker::Model;
use thread_parts::Owned;

/// A frame with what it must give up at its return.
#[derive(Drop)]
pub struct Caller<'p> {
    pub frame: Frame<'p>,
    pub owned: Owned,
}

impl<'p> Model for Caller<'p> {
    ghost use Rattle.thread_machine.specs.Thread.{TargetFrame};

    ghost Value = { TargetFrame };

    ghost view = { λ c. record c.frame { owned = c.owned.owned } };
}
