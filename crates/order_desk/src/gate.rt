/// What the serving side of a desk passes before each command, so that a test can hold it there.
pub trait Gate: Send + Drop {
    fn pass(&mut self);
}

// How a gate is passed, without a word on whether it may be sent to a thread: what a thread does can't rest on that.
pub(crate) trait Passes<G>: Drop {
    fn pass(gate: &mut G);
}

/// A gate is passed by its own call.
#[derive(Clone, Copy)]
pub(crate) struct Itself;

impl<G: Gate> Passes<G> for Itself {
    fn pass(gate: &mut G) {
        gate.pass()
    }
}

/// A gate that is always open.
#[derive(Clone, Copy)]
pub struct NoGate;

impl Gate for NoGate {
    fn pass(&mut self) {}
}
