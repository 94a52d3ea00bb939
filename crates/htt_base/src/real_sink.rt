//! Standard output of the runtime, as a sink that tells nothing of its content.

ghost use Rattle.std.specs.Prelude.{◌≡◌, None};
ghost use Rattle.htt_base.specs.Outside.{CountsPut, put_faults_after};

use crate::outside::{PutStop, Sink};
use std::alloc::Global;
use std::io;
use std::io::Write;
use std::rt::Runtime;

/// Standard output, with the count of its failures.
#[derive(Drop)]
pub struct RealSink<R: Runtime> {
    rt: R,
    faults: u64,
}

impl<R: Runtime> RealSink<R> {
    /// Standard output of this runtime, with no failure so far.
    pub fn new(rt: R) -> RealSink<R>
        ensures written { ⟦<RealSink<R> as Sink>⟧.written result ≡ None }
        ensures faults { ⟦<RealSink<R> as Sink>⟧.faults result ≡ 0 }
    {
        RealSink { rt, faults: 0 }
    }
}

impl<R: Runtime> Sink for RealSink<R> {
    ghost written = { λ _. None };

    ghost faults = { λ s. s.faults };

    fn put(&mut self, _alloc: Global, bytes: &[u8]) -> Result<(), PutStop>
        ensures counts { CountsPut
            (⟦<RealSink<R> as Sink>⟧.faults self.old)
            (⟦<RealSink<R> as Sink>⟧.faults self.new) result }
        ensures faults { ⟦<RealSink<R> as Sink>⟧.faults self.new
            ≡ put_faults_after (⟦<RealSink<R> as Sink>⟧.faults self.old) result }
    {
        if io::writer(&self.rt).write_all(bytes).is_ok() {
            return Ok(());
        }
        self.faults = self.faults.saturating_add(1);
        Err(PutStop::Failed)
    }
}

#[cfg(test)]
mod tests {
    use super::*;
    use std::test::Fail;

    #[test]
    fn a_put_is_written(rt: HostRuntime) -> Result<(), Fail> {
        let mut sink = RealSink::new(rt.clone()?);
        assert_eq!(rt; sink.put(rt.alloc(), b"put\n"), Ok(()));
        assert_eq!(rt; sink.faults, 0);
        Ok(())
    }
}
