//! How many threads may replay a trace, and how many may run one on a live system.

ghost use Rattle.std.specs.Prelude.{◌↔◌, IsTrue};
ghost use Rattle.kq_run.specs.Workers.{IsThreadCount, IsWorkerCount};

/// How many threads may replay at most.
pub const MOST_WORKERS: u32 = 256;

/// How many threads may run a trace on a live system at most.
pub const MOST_THREADS: u32 = 64;

/// Whether so many threads may replay: 1 to 256.
pub fn is_worker_count(workers: u32) -> bool
    ensures { IsTrue result ↔ IsWorkerCount workers }
{
    1 <= workers && workers <= MOST_WORKERS
}

/// Whether so many threads may run a trace on a live system: 1 to 64.
pub fn is_thread_count(threads: u32) -> bool
    ensures { IsTrue result ↔ IsThreadCount threads }
{
    1 <= threads && threads <= MOST_THREADS
}
