//! A value on the heap with several owners, in one thread.
//!
//! The count of owners saturates: at `usize::MAX` it stays, an owner that comes then is not counted, and the
//! value is never freed. So one more owner can always be had.
ghost use Rattle.std.specs.Prelude.{◌≡◌, IfSome, IfOk};
ghost use Rattle.shared_text.specs.Ownership.{shared_lends, shared_owns};

use std::alloc::{AllocFailed, Allocator};
use std::marker::Model;
use std_alloc::room::Vacant;

/// The block behind each owner: how many owners are counted, the allocator that frees it, and the value.
pub(crate) struct Node<T, A> {
    count: usize,
    alloc: A,
    value: T,
}

/// One of the owners of `value`.
pub struct Shared<T, A: Allocator> {
    ptr: *const Node<T, A>,
    pub ghost value: { T },
}

impl<T, A: Allocator> Model for Shared<T, A> {
    ghost also_owns = { λ s. shared_owns A.row T.row A.dealloc_token s.ptr s.value };

    ghost also_shares = { λ s _ κ. shared_lends A.row T.row A.dealloc_token s.ptr s.value κ };
}

impl<T, A: Allocator> Shared<T, A> {
    /// The first owner, in a block of `alloc`. The only error is a failed allocation, and hands the value back.
    pub(crate) fn new(alloc: A, value: T) -> Result<Shared<T, A>, AllocFailed<T>>
        ensures { IfOk result (λ s. s.value ≡ value) }
    {
        match Vacant::take(alloc) {
            Ok(block) => Ok(Shared::from_parts(block, value)),
            Err(_heap) => Err(AllocFailed { value }),
        }
    }

    /// The first owner, in a block that holds no value yet.
    pub(crate) fn from_parts(block: Vacant<Node<T, A>, A>, value: T) -> Shared<T, A>
        ensures { result.value ≡ value }
    {
        let Vacant { ptr, alloc } = block;
        unsafe {
            ptr.write(Node {
                count: 1,
                alloc,
                value,
            });
        }
        Shared { ptr }
    }

    /// The value, which every owner sees.
    pub(crate) fn value(&self) -> &T
        ensures { result.now ≡ self.now.value }
    {
        unsafe { &(*self.ptr).value }
    }

    /// One more owner. At a full count it is not counted.
    pub(crate) fn again(&self) -> Shared<T, A>
        ensures { result.value ≡ self.now.value }
    {
        let ptr = self.ptr.cast_mut();
        unsafe {
            let owners = (*ptr).count;
            if owners == usize::MAX {
                return Shared { ptr };
            }
            (*ptr).count = owners + 1;
        }
        Shared { ptr }
    }

    /// Gives this owner up. The last one gets the value and the empty block, unless the count was ever full.
    pub(crate) fn release(self) -> Option<(T, Vacant<Node<T, A>, A>)>
        ensures { IfSome result (λ p. p.0 ≡ self.value) }
    {
        let Shared { ptr } = self;
        let ptr = ptr.cast_mut();
        unsafe {
            let n = (*ptr).count;
            if n == usize::MAX {
                return None;
            }
            if n != 1 {
                (*ptr).count = n - 1;
                return None;
            }
            let alloc = (&raw const (*ptr).alloc).read();
            let value = (&raw const (*ptr).value).read();
            Some((value, Vacant { ptr, alloc }))
        }
    }
}

impl<T: Drop, A: Allocator> Drop for Shared<T, A> {
    fn drop(self) {
        if let Some((value, block)) = self.release() {
            let alloc = block.free();
            drop(value);
            drop(alloc);
        }
    }
}
