//! A hash table with chaining over the indexes of a list: a search walks along the chain of one bucket.

ghost use Rattle.std.specs.Prelude.{◌≡◌, ℕ, ◌+◌, ◌<◌, ◌≤◌, List, [], OnOk, OnErr, Some, length, map, slice_get};
ghost use Rattle.std.specs.Fn.{FnReturnsAt};
ghost use Rattle.sabr_plan.specs.Gathering.{AreChained};

use std::alloc::{AllocError, Allocator};

/// The first indexes of a list, in chains by buckets.
#[derive(Drop)]
pub struct Chains<A: Allocator + Copy> {
    /// For each bucket, one more than its last index, or 0 if it has none. Empty at first.
    pub lasts: Vec<usize, A>,
    /// For each index, one more than the last index before it in its bucket, or 0 if there is none.
    pub befores: Vec<usize, A>,
}

impl<A: Allocator + Copy> Chains<A> {
    /// Makes a table of no index. It doesn't allocate.
    pub fn new(alloc: A) -> Chains<A>
        ensures lasts { result.lasts.items ≡ [] }
        ensures befores { result.befores.items ≡ [] }
    {
        Chains {
            lasts: Vec::new(alloc),
            befores: Vec::new(alloc),
        }
    }

    /// Adds the indexes of a list that aren't in the table, by the buckets of its elements.
    pub fn add_all<X, F: Fn(&X) -> usize>(
        &mut self,
        buckets: usize,
        list: &[X],
        bucket_of: F,
    ) -> Result<(), AllocError>
        requires within { length self.old.befores.items ≤ length list.now }
        requires calls { F.IsAlwaysCallable bucket_of }
        requires limit { (x : X) (b : ℕ) → FnReturnsAt F.Fn bucket_of x b → b < buckets }
        ensures sized { OnOk result (buckets ≤ length self.new.lasts.items) }
        ensures chained { (of : X → ℕ) → ((x : X) (b : ℕ) → FnReturnsAt F.Fn bucket_of x b → b ≡ of x) → AreChained (map of list.now) self.old.befores.items self.old.lasts.items → AreChained (map of list.now) self.new.befores.items self.new.lasts.items }
        ensures all { OnOk result (length self.new.befores.items ≡ length list.now) }
    {
        self.size(buckets)?;
        while self.befores.len() < list.len() {
            let bucket = bucket_of(&list[self.befores.len()]);
            self.push(bucket)?;
        }
        Ok(())
    }

    /// Makes a table of this number of buckets, unless there is one.
    fn size(&mut self, buckets: usize) -> Result<(), AllocError>
        ensures sized { OnOk result (buckets ≤ length self.new.lasts.items) }

        // The indexes stay in their chains.
        ensures chained { (of : List ℕ) → AreChained of self.old.befores.items self.old.lasts.items → AreChained of self.new.befores.items self.new.lasts.items }
        ensures same { self.new.befores.items ≡ self.old.befores.items }
    {
        if self.lasts.len() < buckets {
            self.lasts.resize(buckets, 0)?;
        }
        Ok(())
    }

    /// Adds the next index to the chain of its bucket.
    fn push(&mut self, bucket: usize) -> Result<(), AllocError>
        requires { bucket < length self.old.lasts.items }
        ensures ok { (of : List ℕ) → AreChained of self.old.befores.items self.old.lasts.items → slice_get of (length self.old.befores.items) ≡ Some bucket → OnOk result (AreChained of self.new.befores.items self.new.lasts.items) }
        ensures longer { OnOk result (length self.new.befores.items ≡ length self.old.befores.items + 1) }
        ensures sized { length self.new.lasts.items ≡ length self.old.lasts.items }

        // An error changes nothing.
        ensures err_lasts { OnErr result (self.new.lasts.items ≡ self.old.lasts.items) }
        ensures err_befores { OnErr result (self.new.befores.items ≡ self.old.befores.items) }
    {
        let before = self.lasts[bucket];
        self.befores.push(before)?;
        self.lasts[bucket] = self.befores.len();
        Ok(())
    }
}
