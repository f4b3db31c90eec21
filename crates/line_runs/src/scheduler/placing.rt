use std::thread;
use std::thread::Threads;

/// Begins a thread that does nothing, and leaves it to itself.
///
/// A system may place the first thread of a process on the processor of the thread that begins it, where it waits until
/// that one gives way, and the later ones on idle processors: Linux 6.18 let it wait for one to four milliseconds, in
/// which a whole line fires. So before the threads of workers are begun, an empty one takes that place. Where it is
/// refused, nothing is lost.
pub(crate) fn begin_empty_thread<R: Threads>(rt: &R) {
    match thread::spawn(rt, || {}) {
        Ok(thread) => drop(thread),
        Err(refused) => drop(refused),
    }
}
