//! Files in memory, for tests: their calls fail by their numbers. A read decides its answer first
//! and then notes its name, since noting takes memory, and a name that isn't noted wasn't read.

ghost use Rattle.std.specs.Prelude.{◌≡◌, ◌≤◌, ◌++◌, ◌∷◌, ◌⊎◌, ◌↔◌, [], Some, None, map, string_bytes, option_copied, IfOk, OnOk, OnErr, IsErrOf, IsTrue, find, reverse, length, Contains};
ghost use Rattle.htt_base.specs.Outside.{IsRead, IsWritten, one_more, names_after, read_faults_after, write_faults_after, ReadGives, NotesName, CountsRead, CountsWrite};
ghost use Rattle.htt_base.specs.MemFiles.{contents_of, has_name, file_contents, read_names, read_fault_count, write_fault_count, next_call, failing_calls, FailsNextCall, Appends};

use crate::outside::{Files, ReadStop, WriteStop};
use std::alloc::{AllocError, Global};

/// Files that are kept in memory. The call with number k, counted from 0 over all reads and
/// writes, fails where k is one of the failing numbers, and a failed write leaves what was held.
/// The count of calls stays at 2^64-1, so that all calls from there on have this number.
#[derive(Drop)]
pub struct MemFiles {
    entries: Vec<(String, Vec<u8>)>,
    failing: Vec<u64>,
    reads: Vec<String>,
    calls: u64,
    read_faults: u64,
    write_faults: u64,
}

impl MemFiles {
    /// Files with these names and bytes, of which nothing was read, and whose calls with these
    /// numbers fail. Of several entries with one name the last counts.
    pub fn new(alloc: Global, files: Vec<(String, Vec<u8>)>, failing: Vec<u64>) -> MemFiles
        ensures held { ⟦<MemFiles as Files>⟧.held result ≡ Some (contents_of files.items) }
        ensures reads { ⟦<MemFiles as Files>⟧.reads result ≡ Some [] }
        ensures read_faults { ⟦<MemFiles as Files>⟧.read_faults result ≡ 0 }
        ensures write_faults { ⟦<MemFiles as Files>⟧.write_faults result ≡ 0 }
        ensures failing { failing_calls result ≡ failing.items }
        ensures next { next_call result ≡ 0 }
    {
        MemFiles {
            entries: files,
            failing,
            reads: Vec::new(alloc),
            calls: 0,
            read_faults: 0,
            write_faults: 0,
        }
    }

    /// The bytes that the name holds, if any.
    pub fn file(&self, name: &str) -> Option<&[u8]>
        ensures { option_copied result ≡ file_contents self.now name.now }
    {
        match latest(&self.entries, name) {
            Some(entry) => Some(entry.1.as_slice()),
            None => None,
        }
    }

    /// Counts a call, and says whether it fails.
    fn fails(&mut self) -> bool
        ensures fails { IsTrue result ↔ FailsNextCall self.old }
        ensures counted { self.new ≡ record self.old { calls = one_more self.old.calls } }
    {
        let call = self.calls;
        self.calls = call.saturating_add(1);
        self.failing.contains(&call)
    }
}

fn latest<'a>(entries: &'a [(String, Vec<u8>)], name: &str) -> Option<&'a (String, Vec<u8>)>
    ensures { option_copied result ≡ find (has_name name.now) (reverse entries.now) }
{
    entries.iter().rev().find(|entry| entry.0.as_str() == name)
}

fn entry_of(alloc: Global, name: &str, bytes: &[u8]) -> Result<(String, Vec<u8>), AllocError>
    ensures name { IfOk result (λ entry. string_bytes entry.0 ≡ name.now) }
    ensures bytes { IfOk result (λ entry. entry.1.items ≡ bytes.now) }
{
    Ok((String::from_str(alloc, name)?, bytes.to_vec(alloc)?))
}

fn store(
    alloc: Global,
    entries: &mut Vec<(String, Vec<u8>)>,
    name: &str,
    bytes: &[u8],
) -> Result<(), AllocError>
    ensures ok { OnOk result (Appends entries.old.items entries.new.items name.now bytes.now) }
    ensures err { OnErr result (entries.new.items ≡ entries.old.items) }
{
    let entry = entry_of(alloc, name, bytes)?;
    entries.push(entry)?;
    Ok(())
}

fn note(alloc: Global, reads: &mut Vec<String>, name: &str) -> Result<(), AllocError>
    ensures ok { OnOk result (map string_bytes reads.new.items
        ≡ map string_bytes reads.old.items ++ name.now ∷ []) }
    ensures err { OnErr result (reads.new.items ≡ reads.old.items) }
{
    reads.push(String::from_str(alloc, name)?)?;
    Ok(())
}

fn content(
    alloc: Global,
    entries: &[(String, Vec<u8>)],
    name: &str,
    max: u64,
) -> Result<Vec<u8>, ReadStop>
    ensures gives { IsRead (contents_of entries.now) name.now max result }
    ensures within { IfOk result (λ v. length v.items ≤ max) }
    ensures failed { IsErrOf result ReadStop.Failed → contents_of entries.now name.now ≡ None }
{
    match latest(entries, name) {
        Some(entry) => {
            if entry.1.len() as u64 > max {
                return Err(ReadStop::TooLong);
            }
            match entry.1.to_vec(alloc) {
                Ok(bytes) => Ok(bytes),
                Err(_) => Err(ReadStop::NoMemory),
            }
        }
        None => Err(ReadStop::Failed),
    }
}

impl Files for MemFiles {
    ghost held = { λ f. Some (file_contents f) };

    ghost reads = { λ f. Some (read_names f) };

    ghost read_faults = { read_fault_count };

    ghost write_faults = { write_fault_count };

    fn read(&mut self, alloc: Global, name: &str, max: u64) -> Result<Vec<u8>, ReadStop>
        ensures gives { IsRead (file_contents self.old) name.now max result }
        ensures within { IfOk result (λ v. length v.items ≤ max) }
        ensures fails { FailsNextCall self.old
            → IsErrOf result ReadStop.Failed ⊎ IsErrOf result ReadStop.NoMemory }
        ensures failed { IsErrOf result ReadStop.Failed
            → FailsNextCall self.old ⊎ (file_contents self.old name.now ≡ None) }
        ensures notes { read_names self.new ≡ names_after (read_names self.old) name.now result }
        ensures counts { CountsRead (read_fault_count self.old) (read_fault_count self.new) result }
        ensures read_faults { read_fault_count self.new
            ≡ read_faults_after (read_fault_count self.old) result }
        ensures write_faults { write_fault_count self.new ≡ write_fault_count self.old }
        ensures held { file_contents self.new ≡ file_contents self.old }
        ensures next { next_call self.new ≡ one_more (next_call self.old) }
        ensures failing { failing_calls self.new ≡ failing_calls self.old }
    {
        let result = if self.fails() {
            Err(ReadStop::Failed)
        } else {
            content(alloc, &self.entries, name, max)
        };
        if let Err(ReadStop::NoMemory) = &result {
            return result;
        }
        if note(alloc, &mut self.reads, name).is_err() {
            return Err(ReadStop::NoMemory);
        }
        if let Err(ReadStop::Failed) = &result {
            self.read_faults = self.read_faults.saturating_add(1);
        }
        result
    }

    fn write(&mut self, alloc: Global, name: &str, bytes: &[u8]) -> Result<(), WriteStop>
        ensures gives { IsWritten (file_contents self.old) (file_contents self.new) name.now bytes.now result }
        ensures unchanged { OnErr result (file_contents self.new ≡ file_contents self.old) }
        ensures failed { IsErrOf result WriteStop.Failed ↔ FailsNextCall self.old }
        ensures counts { CountsWrite (write_fault_count self.old) (write_fault_count self.new) result }
        ensures write_faults { write_fault_count self.new
            ≡ write_faults_after (write_fault_count self.old) result }
        ensures read_faults { read_fault_count self.new ≡ read_fault_count self.old }
        ensures reads { read_names self.new ≡ read_names self.old }
        ensures next { next_call self.new ≡ one_more (next_call self.old) }
        ensures failing { failing_calls self.new ≡ failing_calls self.old }
    {
        if self.fails() {
            self.write_faults = self.write_faults.saturating_add(1);
            return Err(WriteStop::Failed);
        }
        match store(alloc, &mut self.entries, name, bytes) {
            Ok(()) => Ok(()),
            Err(_) => Err(WriteStop::NoMemory),
        }
    }
}

#[cfg(test)]
mod tests {
    use super::*;
    use std::test::Fail;

    fn two_entries(alloc: Global) -> Result<Vec<(String, Vec<u8>)>, AllocError> {
        let mut entries = Vec::new(alloc);
        entries.push(entry_of(alloc, "a", b"old")?)?;
        entries.push(entry_of(alloc, "a", b"newer")?)?;
        Ok(entries)
    }

    #[test]
    fn what_was_written_last_is_read(rt: HostRuntime) -> Result<(), Fail> {
        let alloc = rt.alloc();
        let mut files = MemFiles::new(alloc, two_entries(alloc)?, Vec::new(alloc));
        assert_eq!(rt; files.read(alloc, "a", 5)?.as_slice(), b"newer".as_slice());
        assert_eq!(rt; files.read(alloc, "a", 4).err(), Some(ReadStop::TooLong));
        assert_eq!(rt; files.read(alloc, "b", 4).err(), Some(ReadStop::Failed));
        files.write(alloc, "b", b"x")?;
        assert_eq!(rt; files.read(alloc, "b", 4)?.as_slice(), b"x".as_slice());
        assert_eq!(rt; files.file("c"), None);
        Ok(())
    }

    #[test]
    fn reads_and_writes_are_counted_together(rt: HostRuntime) -> Result<(), Fail> {
        let alloc = rt.alloc();
        let mut files = MemFiles::new(alloc, two_entries(alloc)?, vec![in alloc; 1, 2]?);
        assert_eq!(rt; files.read(alloc, "a", 5)?.len(), 5);
        assert_eq!(rt;
            files.write(alloc, "a", b"x").err(),
            Some(WriteStop::Failed)
        );
        assert_eq!(rt; files.read(alloc, "a", 5).err(), Some(ReadStop::Failed));
        assert_eq!(rt; files.file("a"), Some(b"newer".as_slice()));
        Ok(())
    }
}
