//! Which of the signals 1 to 128 a process ignores.

ghost use Rattle.std.specs.Prelude.{◌≡◌, ◌≤◌};
ghost use Rattle.kq_model.specs.Limits.{most_signal};
ghost use Rattle.kq_model.specs.Processes.{ignores_none, disposed};

/// One more than the largest signal: signals are 1 to 128.
const NUMBERS: usize = 129;

/// The signals that a process ignores.
#[derive(Clone, Copy, Drop)]
pub struct Ignored {
    by_number: [bool; NUMBERS],
}

impl Ignored {
    ghost use Rattle.kq_process.specs.Processes.{ignored_in};

    /// No signals, as in a process that starts.
    pub fn nothing() -> Self
        ensures { ignored_in result ≡ ignores_none }
    {
        Ignored {
            by_number: [false; NUMBERS],
        }
    }

    pub fn contains(&self, signal: u32) -> bool
        ensures { result ≡ ignored_in self.now signal }
    {
        match self.by_number.get(signal as usize) {
            Some(ignored) => *ignored,
            None => false,
        }
    }

    /// The signal is ignored from now on, or no longer; the others as before.
    pub fn set(&mut self, signal: u32, ignore: bool)
        requires { signal ≤ most_signal }
        ensures { ignored_in self.new ≡ disposed signal ignore (ignored_in self.old) }
    {
        self.by_number[signal as usize] = ignore;
    }
}
