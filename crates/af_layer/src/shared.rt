//! A value that threads share behind one lock, without a log.
use crate::backoff;
use std::sync::{Mutex, MutexGuard, Wait};

/// A value behind one lock, for many threads: an `Engine`, say. All calls are made on the guard.
///
/// It is for values of any type. So no body here can change the value, or hand out another one.
#[derive(Drop)]
pub struct Shared<T: Drop> {
    value: Mutex<T>,
}

impl<T: Drop> Shared<T> {
    /// Shares `value`.
    pub fn of(value: T) -> Shared<T> {
        Shared {
            value: Mutex::new(value),
        }
    }

    /// Waits for the lock, and lends the value until the guard is dropped. A call on the guard
    /// ensures what it does on the value itself. No other thread comes between the calls on one
    /// guard.
    pub fn lock<R: Wait>(&self, rt: &R) -> MutexGuard<'_, T> {
        backoff::lock(&self.value, rt)
    }

    /// Ends the sharing, and gives the value back. It waits for nobody.
    pub fn into_inner(self) -> T {
        let Shared { value } = self;
        value.into_inner()
    }
}
