//! Which groups are free.
ghost use Rattle.std.specs.Prelude.{◌≡◌, ◌+◌, ◌<◌, ◌≤◌, ◌++◌, ◌∷◌, [], OnOk, vec_len, vec_capacity};

use std::alloc::{AllocError, Allocator};

/// The number of groups, and those of them that are free. There is capacity for all, so giving one back does not allocate.
#[derive(Drop)]
pub(crate) struct Groups<A: Allocator> {
    pub(super) made: usize,
    pub(super) free: Vec<u32, A>,
    ghost room: { made ≤ vec_capacity free },
}

impl<A: Allocator> Groups<A> {
    /// Returns no groups.
    pub(super) fn new(alloc: A) -> Self
        ensures made { result.made ≡ 0 }
        ensures free { result.free.items ≡ [] }
    {
        Groups {
            made: 0,
            free: Vec::new(alloc),
        }
    }

    /// Takes a free group into use and returns it.
    pub(super) fn take(&mut self) -> u32
        requires { 0 < vec_len self.old.free }
        ensures free { self.old.free.items ≡ self.new.free.items ++ result ∷ [] }
        ensures made { self.new.made ≡ self.old.made }
    {
        self.free.take_last()
    }

    /// Gives a group back.
    pub(super) fn give(&mut self, group: u32)
        requires { vec_len self.old.free < self.old.made }
        ensures free { self.new.free.items ≡ self.old.free.items ++ group ∷ [] }
        ensures made { self.new.made ≡ self.old.made }
    {
        self.free.push_reserved(group);
    }

    /// Forgets all groups.
    pub(super) fn clear(&mut self)
        ensures made { self.new.made ≡ 0 }
        ensures free { self.new.free.items ≡ [] }
    {
        self.made = 0;
        self.free.clear();
    }

    /// Reserves capacity for one more group.
    pub(super) fn reserve(&mut self) -> Result<(), AllocError>
        ensures room { OnOk result (self.new.made + 1 ≤ vec_capacity self.new.free) }
        ensures free { self.new.free.items ≡ self.old.free.items }
        ensures made { self.new.made ≡ self.old.made }
    {
        let places = (self.made + 1).saturating_sub(self.free.len());
        self.free.reserve(places)
    }

    /// Adds the next group, as a free one.
    pub(super) fn add(&mut self)
        requires room { self.old.made + 1 ≤ vec_capacity self.old.free }
        requires few { self.old.made < 2147483648 }
        requires within { vec_len self.old.free ≤ self.old.made }
        ensures free { self.new.free.items ≡ self.old.free.items ++ self.old.made ∷ [] }
        ensures made { self.new.made ≡ self.old.made + 1 }
    {
        self.free.push_reserved(self.made as u32);
        self.made += 1;
    }
}
