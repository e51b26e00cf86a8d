//! A test allocator that fails chosen allocations.
use std::alloc::{AllocError, Allocator};
use std::cell::Cell;

/// Passes allocations on to `inner`, except those that a test makes fail.
///
/// A reference to it is an allocator that can be cloned.
#[derive(Drop)]
pub struct Refusing<B: Allocator> {
    inner: B,
    meter: Meter,
}

#[derive(Drop)]
struct Meter {
    passed: Cell<u64>,
    refused: Cell<u64>,
}

impl<B: Allocator> Refusing<B> {
    /// Creates an allocator that fails no allocation at first.
    pub fn new(inner: B) -> Refusing<B> {
        Refusing {
            inner,
            meter: Meter {
                passed: Cell::new(0),
                refused: Cell::new(0),
            },
        }
    }

    /// Passes the next `passed` allocations on, and fails the `refused` ones after them.
    pub fn refuse(&self, passed: u64, refused: u64) {
        self.meter.passed.set(passed);
        self.meter.refused.set(refused);
    }

    /// Returns the number of allocations still to fail.
    pub fn left(&self) -> u64 {
        self.meter.refused.get()
    }
}

impl<B: Allocator + Copy> Refusing<B> {
    /// Returns the inner allocator.
    pub fn inner(&self) -> B {
        self.inner
    }
}

fn took_one(left: &Cell<u64>) -> bool {
    match left.get().checked_sub(1) {
        Some(rest) => {
            left.set(rest);
            true
        }
        None => false,
    }
}

fn refuses(meter: &Meter) -> bool {
    !took_one(&meter.passed) && took_one(&meter.refused)
}

unsafe impl<B: Allocator> Allocator for Refusing<B> {
    ghost dealloc_token = { λ heap ty ptr. B.dealloc_token heap.inner ty ptr };

    fn allocate(&self, size: usize, align: usize) -> Result<*mut u8, AllocError> {
        if refuses(&self.meter) {
            return Err(AllocError);
        }
        self.inner.allocate(size, align)
    }

    unsafe fn deallocate(&self, ptr: *mut u8, size: usize, align: usize) {
        self.inner.deallocate(ptr, size, align);
    }
}
