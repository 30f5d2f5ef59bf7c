//! A box by its pointer.

ghost use Rattle.std.specs.Prelude.{◌≡◌};
ghost use Rattle.nit_c.specs.Terms.{box_owns, heap_token};

use std::alloc::Global;
use std::marker::Model;

/// The pointer of a box. It owns what the box does.
pub(crate) struct RawBox<T> {
    pub(crate) at: *mut T,
    pub(crate) ghost value: { T },
}

impl<T> Model for RawBox<T> {
    ghost also_owns = { λ b. box_owns heap_token T.row b.at b.value };
}

impl<T> RawBox<T> {
    /// A box by its pointer.
    pub(crate) fn of(boxed: Box<T, Global>) -> RawBox<T>
    where
        T: Drop,
        ensures { result.value ≡ boxed.value }
    {
        let at = Box::into_raw(boxed);
        RawBox { at }
    }

    /// The box again.
    pub(crate) fn into_box(self, alloc: Global) -> Box<T, Global>
        ensures { result.value ≡ self.value }
    {
        let RawBox { at } = self;
        unsafe { Box::from_raw(alloc, at) }
    }
}
