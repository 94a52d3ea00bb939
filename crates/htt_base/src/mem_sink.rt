//! A sink in memory, for tests: its calls fail by their numbers.

ghost use Rattle.std.specs.Prelude.{◌≡◌, ◌+◌, ◌↔◌, [], Some, IsErrOf, IsTrue, OnErr, Contains, length};
ghost use Rattle.htt_base.specs.Outside.{IsPut, CountsPut, one_more, put_faults_after};
ghost use Rattle.htt_base.specs.MemSink.{sink_bytes, fault_count, next_put, failing_puts, FailsNextPut};

use crate::outside::{PutStop, Sink};
use std::alloc::Global;

/// A sink that keeps all that is put into it. The call with number k, counted from 0, fails where
/// k is one of the failing numbers. The count of calls stays at 2^64-1, so that all calls from
/// there on have this number.
#[derive(Drop)]
pub struct MemSink {
    bytes: Vec<u8>,
    failing: Vec<u64>,
    calls: u64,
    faults: u64,
}

impl MemSink {
    /// An empty sink whose calls with these numbers fail.
    pub fn new(alloc: Global, failing: Vec<u64>) -> MemSink
        ensures written { ⟦<MemSink as Sink>⟧.written result ≡ Some [] }
        ensures faults { ⟦<MemSink as Sink>⟧.faults result ≡ 0 }
        ensures failing { failing_puts result ≡ failing.items }
        ensures next { next_put result ≡ 0 }
    {
        MemSink {
            bytes: Vec::new(alloc),
            failing,
            calls: 0,
            faults: 0,
        }
    }

    /// All bytes that were put.
    pub fn bytes(&self) -> &[u8]
        ensures { Some result.now ≡ ⟦<MemSink as Sink>⟧.written self.now }
    {
        &self.bytes
    }
}

impl Sink for MemSink {
    ghost written = { λ s. Some (sink_bytes s) };

    ghost faults = { fault_count };

    fn put(&mut self, _alloc: Global, bytes: &[u8]) -> Result<(), PutStop>
        ensures gives { IsPut (sink_bytes self.old) (sink_bytes self.new) bytes.now result }
        ensures failed { IsErrOf result PutStop.Failed ↔ FailsNextPut self.old }
        ensures unchanged { OnErr result (sink_bytes self.new ≡ sink_bytes self.old) }
        ensures counts { CountsPut (fault_count self.old) (fault_count self.new) result }
        ensures faults { fault_count self.new ≡ put_faults_after (fault_count self.old) result }
        ensures next { next_put self.new ≡ one_more (next_put self.old) }
        ensures failing { failing_puts self.new ≡ failing_puts self.old }
    {
        let call = self.calls;
        self.calls = call.saturating_add(1);
        if self.failing.contains(&call) {
            self.faults = self.faults.saturating_add(1);
            return Err(PutStop::Failed);
        }
        match self.bytes.extend_from_slice(bytes) {
            Ok(()) => Ok(()),
            Err(_) => Err(PutStop::NoMemory),
        }
    }
}

#[cfg(test)]
mod tests {
    use super::*;
    use std::test::Fail;

    #[test]
    fn puts_are_appended_but_for_the_failing_one(rt: HostRuntime) -> Result<(), Fail> {
        let alloc = rt.alloc();
        let mut sink = MemSink::new(alloc, vec![in alloc; 1]?);
        assert_eq!(rt; sink.put(alloc, b"one"), Ok(()));
        assert_eq!(rt; sink.put(alloc, b"two"), Err(PutStop::Failed));
        assert_eq!(rt; sink.put(alloc, b"three"), Ok(()));
        assert_eq!(rt; sink.bytes(), b"onethree".as_slice());
        Ok(())
    }
}
