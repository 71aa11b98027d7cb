//! The standard output.
ghost use Rattle.std.specs.Prelude.{None};

use crate::sink::Sink;
use crate::store::Failed;

/// The standard output of a runtime, or what stands for it. It does not tell what it holds.
#[derive(Drop)]
pub struct OutSink<P: Print> {
    out: P,
    faults: u64,
}

impl<P: Print> OutSink<P> {
    pub fn new(out: P) -> OutSink<P> {
        OutSink { out, faults: 0 }
    }
}

impl<P: Print> Sink for OutSink<P> {
    ghost held = { λ _. None };

    ghost faults = { λ k. k.faults };

    fn write(&mut self, b: &[u8]) -> Result<usize, Failed> {
        let answer = self.out.write_some(b).map_err(|_| Failed);
        match answer {
            Ok(n) if n > 0 || b.is_empty() => {}
            _ => self.faults = self.faults.saturating_add(1),
        }
        answer
    }
}
