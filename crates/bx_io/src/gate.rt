//! Where each process passes before it is run.

/// Where a worker passes on its way to a pip. It has no meaning for a build, and may hold its caller: a
/// test can make two runs meet there.
pub trait Gate: Sync {
    /// Called before the pip with this number is worked on.
    fn pass(&self, pip: u32);
}

/// The gate that holds nobody.
#[derive(Clone, Copy, Debug)]
pub struct OpenGate;

impl Gate for OpenGate {
    fn pass(&self, _pip: u32) {}
}
