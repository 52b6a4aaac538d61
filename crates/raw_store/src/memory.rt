// The two places where the crate touches a pointer: a row of places is made of a block of memory, and given back.
ghost use Rattle.std.specs.Prelude.{◌≡◌, ℕ, false, replicate, IfOk};
ghost use Rattle.std.specs.Vec.Ownership.{FitsInBlock};
ghost use Rattle.core.specs.Mem.Slots.{slots_ptr, slots_len, slots_filled};
ghost use denote.RawPtr.{Ptr};
ghost use Rattle.raw_store.specs.Memory.{deed_owns};

use core::slots::Slots;
use std::alloc::{AllocError, Allocator};
use std::marker::{Model, PhantomData};
use std::mem::{align_of, size_of};

/// The right to give the memory of `len` places at `at` back to its allocator. It takes no memory itself.
pub(crate) struct Deed<T, A: Allocator> {
    mark: PhantomData<*const (T, A)>,
    ghost at: { Ptr },
    ghost len: { ℕ },
    ghost alloc: { A },
}

impl<T, A: Allocator> Model for Deed<T, A> {
    ghost also_owns = { λ d. deed_owns T.row (A.dealloc_token d.alloc) d.at d.len };
}

/// Places for `len` values, none of which is there yet.
pub(crate) fn reserve<T, A: Allocator>(
    alloc: &A,
    len: usize,
) -> Result<(Slots<T>, Deed<T, A>), AllocError>
    requires { FitsInBlock T.row len × T }
    ensures { IfOk result (λ r. (slots_len r.0 ≡ len) × (r.1.at ≡ slots_ptr r.0) × (r.1.len ≡ len) × (r.1.alloc ≡ alloc.now)) }
{
    match alloc.allocate(len * size_of::<T>(), align_of::<T>()) {
        Ok(block) => Ok((
            unsafe { Slots::from_raw_parts(block as *mut T, len) },
            Deed { mark: PhantomData },
        )),
        Err(error) => Err(error),
    }
}

/// Gives the memory of the places back. What they hold is forgotten.
pub(crate) fn release<T, A: Allocator>(alloc: &A, places: Slots<T>, deed: Deed<T, A>)
    requires { (deed.at ≡ slots_ptr places) × (deed.len ≡ slots_len places) × (deed.alloc ≡ alloc.now) }
{
    let Deed { mark: _ } = deed;
    unsafe {
        let (at, len) = places.into_raw_parts();
        alloc.deallocate(at as *mut u8, len * size_of::<T>(), align_of::<T>());
    }
}
