//! Where threads that share work are held, and whose start is refused.

ghost use Rattle.std.specs.Prelude.{◌≡◌, true};

/// Holds a thread before a piece of its work.
pub trait Gate {
    /// Called by a thread before the piece of work with this number, from 1 on, which it begins once this returns.
    fn enter(&self, thread: u32, number: u32);
}

/// A gate that holds nobody.
#[derive(Clone, Copy)]
pub struct Open;

impl Gate for Open {
    fn enter(&self, _thread: u32, _number: u32) {}
}

/// Refuses the start of a thread.
pub trait Starts {
    /// Asked by the calling thread before the thread is started, which is refused where this is false.
    fn allow(&self, thread: u32) -> bool;
}

/// Refuses no start.
#[derive(Clone, Copy)]
pub struct Always;

impl Starts for Always {
    fn allow(&self, _thread: u32) -> bool
        ensures { result ≡ true }
    {
        true
    }
}
