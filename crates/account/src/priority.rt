//! The order in which the currencies of an account are gone through.
ghost use Rattle.std.specs.Prelude.{◌≡◌, true};
ghost use Rattle.account.specs.Priorities.{names_each_once};

use money::currency::{COUNT, Currency};

mod calls;

/// An order of all currencies, each once; no other can be made.
#[derive(Clone, Copy)]
pub struct Priority {
    order: [Currency; COUNT],
    ghost once: { names_each_once order ≡ true },
}

impl Priority {
    /// The currencies in their order.
    pub fn order(self) -> [Currency; COUNT]
        ensures { result ≡ self.order }
    {
        self.order
    }
}
