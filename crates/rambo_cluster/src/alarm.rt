//! What wakes a thread that waits for sockets.

use mio::{Registry, Token, Waker};
use std::io;
use std::sync::atomic::{AtomicBool, Ordering};

/// Wakes a thread that waits for sockets. A ring says only that there may be something to do.
#[derive(Drop)]
pub(crate) struct Alarm {
    rung: AtomicBool,
    sleeps: AtomicBool,
    waker: Waker,
}

impl Alarm {
    /// An alarm for the thread that waits by the poll of this registry.
    pub(crate) fn new(registry: &Registry, token: Token) -> io::Result<Alarm> {
        Ok(Alarm {
            rung: AtomicBool::new(false),
            sleeps: AtomicBool::new(false),
            waker: Waker::new(registry, token)?,
        })
    }

    /// Rings it. Its thread wakes if it sleeps, and else looks once more before it sleeps.
    pub(crate) fn ring(&self) {
        if !self.rung.swap(true, Ordering::SeqCst) && self.sleeps.load(Ordering::SeqCst) {
            let _ = self.waker.wake();
        }
    }

    /// Whether it rang since `forget` was last called.
    pub(crate) fn has_rung(&self) -> bool {
        self.rung.load(Ordering::SeqCst)
    }

    /// Forgets that it rang, as its thread is about to look. Returns whether it rang.
    pub(crate) fn forget(&self) -> bool {
        self.rung.swap(false, Ordering::SeqCst)
    }

    /// Notes that its thread is about to sleep. Returns whether it may: it hasn't rung.
    pub(crate) fn lie_down(&self) -> bool {
        self.sleeps.store(true, Ordering::SeqCst);
        !self.has_rung()
    }

    /// Notes that its thread is awake.
    pub(crate) fn get_up(&self) {
        self.sleeps.store(false, Ordering::SeqCst);
    }
}
