//! A hart as C has it: the pointer to its seat.
ghost use Rattle.std.specs.Prelude.{◌≡◌};
ghost use Rattle.lithe_c.specs.declared.lent.Lent.{Lent};
ghost use Rattle.lithe_c.specs.Hart.{lent_coded, hart_owns};

use crate::lent::Lent;
use crate::parts::Parts;
use std::alloc::Global;
use std::marker::Model;

/// A hart as C has it: one pointer, to a block that the library made. Contracts see the contents of the block.
#[repr(C)]
pub struct LitheHart {
    ptr: *mut u8,
    alloc: Global,
    pub ghost lent: { Lent } by { lent_coded },
}

impl Model for LitheHart {
    ghost also_owns = { λ h. hart_owns h.alloc h.ptr h.lent };
}

impl LitheHart {
    pub(crate) fn of_box(lent: Box<Lent, Global>) -> LitheHart
        ensures { result.lent ≡ lent.value }
    {
        LitheHart::of_parts(Parts::of(lent))
    }

    pub(crate) fn into_box(self) -> Box<Lent, Global>
        ensures { result.value ≡ self.lent }
    {
        self.into_parts().into_box()
    }

    fn of_parts(parts: Parts<Lent, Global>) -> LitheHart
        ensures { result.lent ≡ parts.value }
    {
        let Parts { ptr, alloc } = parts;
        LitheHart {
            ptr: ptr as *mut u8,
            alloc,
        }
    }

    fn into_parts(self) -> Parts<Lent, Global>
        ensures { result.value ≡ self.lent }
    {
        let LitheHart { ptr, alloc } = self;
        Parts {
            ptr: ptr as *mut Lent,
            alloc,
        }
    }
}
