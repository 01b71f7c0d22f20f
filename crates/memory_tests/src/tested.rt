//! A memory under test.

/// A memory, and what it is called where a test fails.
#[derive(Drop)]
pub(crate) struct Tested<'a, R, M> {
    pub(crate) rt: &'a R,
    pub(crate) name: &'a str,
    pub(crate) memory: M,
}

impl<'a, R, M> Tested<'a, R, M> {
    pub(crate) fn new(rt: &'a R, name: &'a str, memory: M) -> Self {
        Tested { rt, name, memory }
    }
}
