//! A line on a terminal that says how far a run is.
ghost use Rattle.std.specs.Prelude.{◌≡◌};

use git_base::{Failed, Sink};
use git_crew::Gate;
use std::io::Eprint;
use std::sync::atomic::{AtomicU64, Ordering};
use std::time::{Clock, Instant};

/// A gate that counts the signatures which enter it, and writes their number to standard error, at most
/// once a second. The line stands until it is cleared.
#[derive(Drop)]
pub struct Progress<'a, R: Clock + Eprint> {
    rt: &'a R,
    /// When the run began, and nothing where no line is wanted.
    start: Option<Instant>,
    entered: AtomicU64,
    /// The second in which the line was written, 0 where none stands.
    shown: AtomicU64,
}

impl<'a, R: Clock + Eprint> Progress<'a, R> {
    /// A gate that nothing has entered. It writes its line only where it is to be shown.
    pub fn new(rt: &'a R, is_shown: bool) -> Self {
        let start = if is_shown {
            Instant::now(rt).ok()
        } else {
            None
        };
        Progress {
            rt,
            start,
            entered: AtomicU64::new(0),
            shown: AtomicU64::new(0),
        }
    }

    /// Writes the line, but once a second.
    fn show(&self, start: Instant, entered: u64) {
        let Ok(elapsed) = start.elapsed(self.rt) else {
            return;
        };
        let second = elapsed.as_secs();
        if self.shown.fetch_max(second, Ordering::SeqCst) < second {
            let _ = eprint!(self.rt; "\rsignatures expanded: {entered}, {second} s");
        }
    }

    /// Takes the line away where one stands.
    pub fn clear(&self) {
        if self.shown.swap(0, Ordering::SeqCst) != 0 {
            let _ = eprint!(self.rt; "\r\x1b[K");
        }
    }
}

impl<R: Clock + Eprint> Gate for Progress<'_, R> {
    fn enter(&self, _worker: u64, _id: u64) {
        if let Some(start) = self.start {
            let entered = self.entered.fetch_add(1, Ordering::SeqCst);
            self.show(start, entered);
        }
    }
}

/// A sink that takes the line away before each write.
#[derive(Drop)]
pub struct Cleared<'a, K: Sink, R: Clock + Eprint> {
    sink: K,
    progress: &'a Progress<'a, R>,
}

impl<'a, K: Sink, R: Clock + Eprint> Cleared<'a, K, R> {
    /// A sink over this one.
    pub fn new(sink: K, progress: &'a Progress<'a, R>) -> Self
        ensures written { ⟦<Cleared<'a, K, R> as Sink>⟧.written result ≡ K.written sink }
        ensures faults { ⟦<Cleared<'a, K, R> as Sink>⟧.faults result ≡ K.faults sink }
    {
        Cleared { sink, progress }
    }
}

impl<K: Sink, R: Clock + Eprint> Sink for Cleared<'_, K, R> {
    ghost written = { λ s. K.written s.sink };

    ghost faults = { λ s. K.faults s.sink };

    fn write(&mut self, piece: &[u8]) -> Result<usize, Failed> {
        self.progress.clear();
        self.sink.write(piece)
    }
}
