//! Files of the runtime, which tell nothing of their content. A read takes at most one byte more
//! than is asked for: that byte shows that the file is too long.

ghost use Rattle.std.specs.Prelude.{◌≡◌, ◌≢◌, ◌<◌, ◌≤◌, None, IfOk, IfSome, IsErrOf, length};
ghost use Rattle.htt_base.specs.Outside.{CountsRead, CountsWrite, read_faults_after, write_faults_after};

use crate::outside::{Files, ReadStop, WriteStop};
use std::alloc::Global;
use std::fs;
use std::io::{self, ErrorKind, Read, Write};
use std::rt::Runtime;

/// The files of a runtime, with the counts of their failures.
#[derive(Drop)]
pub struct RealFiles<R: Runtime> {
    rt: R,
    read_faults: u64,
    write_faults: u64,
}

impl<R: Runtime> RealFiles<R> {
    /// The files of this runtime, with no failure so far.
    pub fn new(rt: R) -> RealFiles<R>
        ensures held { ⟦<RealFiles<R> as Files>⟧.held result ≡ None }
        ensures reads { ⟦<RealFiles<R> as Files>⟧.reads result ≡ None }
        ensures read_faults { ⟦<RealFiles<R> as Files>⟧.read_faults result ≡ 0 }
        ensures write_faults { ⟦<RealFiles<R> as Files>⟧.write_faults result ≡ 0 }
    {
        RealFiles {
            rt,
            read_faults: 0,
            write_faults: 0,
        }
    }
}

/// All that the reader has left, of which it takes at most `max` + 1 bytes.
fn read_up_to<F: Read + Drop>(file: F, alloc: Global, max: u64) -> Result<Vec<u8>, ReadStop>
    ensures whole { IfOk result (λ v. IfSome (F.remaining file) (λ bytes. v.items ≡ bytes)) }
    ensures within { IfOk result (λ v. length v.items ≤ max) }
    ensures long { IsErrOf result ReadStop.TooLong → IfSome (F.remaining file) (λ bytes. max < length bytes) }
{
    let mut bytes = Vec::new(alloc);
    match file.take(max.saturating_add(1)).read_to_end(&mut bytes) {
        Ok(_) if bytes.len() as u64 > max => Err(ReadStop::TooLong),
        Ok(_) => Ok(bytes),
        Err(error) => Err(stop_of(&error)),
    }
}

fn stop_of(error: &io::Error) -> ReadStop
    ensures { result ≢ ReadStop.TooLong }
{
    match error.kind() {
        ErrorKind::OutOfMemory => ReadStop::NoMemory,
        _ => ReadStop::Failed,
    }
}

impl<R: Runtime> Files for RealFiles<R> {
    ghost held = { λ _. None };

    ghost reads = { λ _. None };

    ghost read_faults = { λ f. f.read_faults };

    ghost write_faults = { λ f. f.write_faults };

    fn read(&mut self, alloc: Global, name: &str, max: u64) -> Result<Vec<u8>, ReadStop>
        ensures within { IfOk result (λ v. length v.items ≤ max) }
        ensures counts { CountsRead
            (⟦<RealFiles<R> as Files>⟧.read_faults self.old)
            (⟦<RealFiles<R> as Files>⟧.read_faults self.new) result }
        ensures read_faults { ⟦<RealFiles<R> as Files>⟧.read_faults self.new
            ≡ read_faults_after (⟦<RealFiles<R> as Files>⟧.read_faults self.old) result }
        ensures write_faults { ⟦<RealFiles<R> as Files>⟧.write_faults self.new
            ≡ ⟦<RealFiles<R> as Files>⟧.write_faults self.old }
    {
        let result = match fs::open(&self.rt, name) {
            Ok(file) => read_up_to(file, alloc, max),
            Err(_) => Err(ReadStop::Failed),
        };
        if let Err(ReadStop::Failed) = &result {
            self.read_faults = self.read_faults.saturating_add(1);
        }
        result
    }

    fn write(&mut self, _alloc: Global, name: &str, bytes: &[u8]) -> Result<(), WriteStop>
        ensures counts { CountsWrite
            (⟦<RealFiles<R> as Files>⟧.write_faults self.old)
            (⟦<RealFiles<R> as Files>⟧.write_faults self.new) result }
        ensures write_faults { ⟦<RealFiles<R> as Files>⟧.write_faults self.new
            ≡ write_faults_after (⟦<RealFiles<R> as Files>⟧.write_faults self.old) result }
        ensures read_faults { ⟦<RealFiles<R> as Files>⟧.read_faults self.new
            ≡ ⟦<RealFiles<R> as Files>⟧.read_faults self.old }
    {
        let done = match fs::create(&self.rt, name) {
            Ok(mut file) => file.write_all(bytes).is_ok(),
            Err(_) => false,
        };
        if done {
            return Ok(());
        }
        self.write_faults = self.write_faults.saturating_add(1);
        Err(WriteStop::Failed)
    }
}

#[cfg(test)]
mod tests {
    use super::*;
    use std::test::Fail;

    /// Gives a byte, and then fails.
    #[derive(Drop)]
    struct Broken(bool);

    impl Read for Broken {
        fn read(&mut self, buf: &mut [u8]) -> io::Result<usize> {
            if self.0 || buf.is_empty() {
                return Err(io::Error::from(ErrorKind::Other));
            }
            self.0 = true;
            buf[0] = b'x';
            Ok(1)
        }
    }

    #[test]
    fn a_read_that_breaks_off_fails(rt: HostRuntime) {
        let result = read_up_to(Broken(false), rt.alloc(), 9);
        assert_eq!(rt; result.err(), Some(ReadStop::Failed));
    }

    #[test]
    fn a_written_file_is_read_back(rt: HostRuntime) -> Result<(), Fail> {
        let alloc = rt.alloc();
        let mut files = RealFiles::new(rt.clone()?);
        files.write(alloc, "written.txt", b"one two")?;
        let bytes = files.read(alloc, "written.txt", 7)?;
        assert_eq!(rt; bytes.as_slice(), b"one two".as_slice());
        assert_eq!(rt;
            files.read(alloc, "written.txt", 6).err(),
            Some(ReadStop::TooLong)
        );
        assert_eq!(rt; files.read_faults, 0);
        assert_eq!(rt;
            files.read(alloc, "missing.txt", 7).err(),
            Some(ReadStop::Failed)
        );
        assert_eq!(rt; files.read_faults, 1);
        let no_folder = files.write(alloc, "missing/file.txt", b"one");
        assert_eq!(rt; no_folder.err(), Some(WriteStop::Failed));
        assert_eq!(rt; files.write_faults, 1);
        fs::remove_file(&rt, "written.txt")?;
        Ok(())
    }
}
