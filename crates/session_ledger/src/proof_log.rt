// What was, one time after the other. Only proofs read it: it takes no memory, and its methods do nothing at run time.
ghost use Rattle.std.specs.Prelude.{◌≡◌, List, [], ◌∷◌, ◌++◌};
ghost use Rattle.std.specs.Borrow.{ftrue};

use std::marker::{Model, PhantomData};

/// A clause reads the pairs as `items`.
pub(crate) struct ProofLog<A, B> {
    of: PhantomData<(A, B)>,
    pub(crate) ghost items: { List (A × B) },
}

impl<A, B> Model for ProofLog<A, B> {
    ghost also_owns = { λ _. ftrue };
}

impl<A, B> ProofLog<A, B> {
    /// Nothing was yet.
    pub(crate) fn new() -> ProofLog<A, B>
        ensures { result.items ≡ [] }
    {
        ProofLog { of: PhantomData }
    }

    /// And then this.
    pub(crate) fn and(&self, first: &A, second: &B) -> ProofLog<A, B>
        ensures { result.items ≡ self.now.items ++ (first.now, second.now) ∷ [] }
    {
        ProofLog { of: PhantomData }
    }
}

impl<A, B> Drop for ProofLog<A, B> {
    fn drop(self) {
        let Self { of: _ } = self;
    }
}
