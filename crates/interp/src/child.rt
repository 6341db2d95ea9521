//! A child that was started, until it is joined.
ghost use Rattle.std.specs.Prelude.{◌≡◌};

use alloc_space::Desk;
use bsan_ids::{Limits, ThreadNo};
use instr_sound::Thread;
use ir_ast::HostTable;
use run_record::ThreadTree;
use std::snapshot::Snapshot;
use std::thread::{Promise, PromisedHandle};

/// What a child was started with: the promise of what it answers.
#[derive(Drop)]
pub struct TreeOf<T> {
    pub limits: Limits,
    pub hosts: Snapshot<HostTable>,
    pub number: ThreadNo,
    pub parent: ThreadNo,
    pub function: u32,
    pub machine: Snapshot<T>,
    pub desk: Snapshot<Desk>,
}

impl<T: Thread> Promise<(ThreadTree, Desk)> for TreeOf<T> {
    ghost use Rattle.std.specs.Prelude.{Some};
    ghost use Rattle.interp.specs.Answers.{IsAnswer};

    ghost kept_by = { λ p r. IsAnswer p.limits p.hosts.value p.number (Some p.parent) p.function (record { setting = T.setting p.machine.value; state = T.state p.machine.value }) p.desk.value r.0 r.1 };
}

/// A child that is to be started: its number, its function, its machine and its desk.
#[derive(Drop)]
pub struct Begun<T> {
    pub number: ThreadNo,
    pub function: u32,
    pub machine: T,
    pub desk: Desk,
}

/// A child that was started: its number, and the handle of its thread.
#[derive(Drop)]
pub struct Child<T: Thread> {
    pub number: ThreadNo,
    pub handle: PromisedHandle<(ThreadTree, Desk), TreeOf<T>>,
    ghost named: { number ≡ handle.promise.number },
}

impl<T: Thread> Child<T> {
    /// The handle of its thread.
    pub(crate) fn into_handle(self) -> PromisedHandle<(ThreadTree, Desk), TreeOf<T>>
        ensures handle { result.promise ≡ self.handle.promise }
        ensures number { result.promise.number ≡ self.number }
    {
        let Child { number: _, handle } = self;
        handle
    }
}
