//! Telling how far long work has come, on standard error where that is a terminal.

use racf_files::{Phase, Progress};
use std::alloc::{AllocError, Global};
use std::sync::atomic::{AtomicU64, Ordering};
use std::sync::{Arc, Wait};
use std::thread;
use std::thread::{JoinHandle, Threads};
use std::time::Duration;

/// How many milliseconds lie between two lines.
const PAUSE: u64 = 500;

/// Who watches: a thread, and the word that ends it.
pub(crate) struct Watcher {
    /// 1 once there is nothing more to watch.
    ended: Arc<AtomicU64, Global>,
    /// The thread.
    thread: JoinHandle<()>,
}

/// Watches in a thread of its own, where one can be made.
pub(crate) fn watch<T>(alloc: Global, rt: &T, progress: Progress) -> Option<Watcher>
where
    T: Wait + Threads + Eprint + Clone + Drop + Send + 'static,
{
    let (ended, theirs) = match shared_word(alloc) {
        Ok(words) => words,
        Err(AllocError) => return None,
    };
    let Ok(terminal) = rt.clone() else {
        return None;
    };
    match thread::spawn(rt, move || tell_until(&terminal, &theirs, &progress)) {
        Ok(thread) => Some(Watcher { ended, thread }),
        Err(_) => None,
    }
}

/// The word that ends the watching, for both sides.
fn shared_word(
    alloc: Global,
) -> Result<(Arc<AtomicU64, Global>, Arc<AtomicU64, Global>), AllocError> {
    let ended = Arc::new(alloc, AtomicU64::new(0))?;
    let theirs = Arc::try_clone(&ended)?;
    Ok((ended, theirs))
}

/// Ends the watching.
pub(crate) fn end<T: Threads>(rt: &T, watcher: Option<Watcher>) {
    let Some(watcher) = watcher else {
        return;
    };
    let Watcher { ended, thread } = watcher;
    ended.store(1, Ordering::SeqCst);
    ended.wake_all();
    thread.join(rt);
}

/// Tells how far the work has come, twice a second, until it ends; then the line is emptied.
fn tell_until<T: Wait + Eprint>(rt: &T, ended: &AtomicU64, progress: &Progress) {
    let mut has_told = false;
    for count in 1..u64::MAX {
        ended.park_timeout(rt, 0, Duration::from_millis(PAUSE));
        if ended.load(Ordering::SeqCst) != 0 {
            break;
        }
        has_told = tell(rt, count, progress) || has_told;
    }
    if has_told {
        let _ = eprint!(rt; "\r\x1b[K");
    }
}

/// Tells how far the work has come, in the line where it told that before. Whether there was anything to tell.
fn tell<T: Eprint>(rt: &T, count: u64, progress: &Progress) -> bool {
    let seconds = count / 2;
    let _ = match progress.phase() {
        Phase::Quiet => return false,
        Phase::Opening => eprint!(rt; "\rracf: opening the database, {seconds} s\x1b[K"),
        Phase::Writing => eprint!(rt; "\rracf: writing a checkpoint, {seconds} s\x1b[K"),
        Phase::Reading => {
            let (read, whole) = progress.bytes();
            if read < whole {
                eprint!(rt; "\rracf: {read} of {whole} bytes read, {seconds} s\x1b[K")
            } else {
                eprint!(rt; "\rracf: {read} bytes read, {seconds} s\x1b[K")
            }
        }
    };
    true
}
