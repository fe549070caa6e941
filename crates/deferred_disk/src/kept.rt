// What is kept in memory of a file.
ghost use Rattle.std.specs.Prelude.{◌≡◌, ◌∷◌, [], ◌+◌, ◌<◌, ◌≤◌, ◌^◌, List, ℕ, IfSome, IsSome, length, take, drop};
ghost use Rattle.disk_trait.specs.Disk.{written};
ghost use Rattle.deferred_disk.specs.KeptFiles.{IsKeptOf, IsKeptWhole, StandFrom};

use std::alloc::Global;

// So many bytes are kept of what was written at the end of a file.
const TAIL: usize = 65_536;

// All bytes of a file, as they were read, or its bytes from some place on, or none of them; its first byte, if it has one; and its length.
// After the first change these are what stood behind it, or the last bytes that were written at the end of the file.
#[derive(Drop)]
pub(crate) struct KeptBytes {
    bytes: Vec<u8>,
    from: u64,
    first: u8,
    len: u64,
}

// The first byte of a file that is written.
fn first_after(first: u8, at: u64, bytes: &[u8]) -> u8
    ensures { (file : List ℕ) → at ≤ length file → take 1 file ≡ take (length file) (first ∷ [])
        → take 1 (written at bytes.now file) ≡ take (length (written at bytes.now file)) (result ∷ []) }
{
    if at == 0 && !bytes.is_empty() {
        return bytes[0];
    }
    first
}

impl KeptBytes {
    /// Keeps the bytes of a file, all of them.
    pub(crate) fn new(bytes: Vec<u8>) -> KeptBytes
        ensures kept { IsKeptOf result bytes.items }
        ensures whole { IsKeptWhole result }
    {
        let first = match bytes.first() {
            Some(byte) => *byte,
            None => 0,
        };
        let len = bytes.len() as u64;
        let from = 0;
        KeptBytes {
            bytes,
            from,
            first,
            len,
        }
    }

    /// How many bytes the file has.
    pub(crate) fn len(&self) -> u64
        ensures { (file : List ℕ) → IsKeptOf self.now file → result ≡ length file }
    {
        self.len
    }

    // Copies what the file has from there on, up to the buffer's length, and tells how much. None where it is not kept.
    pub(crate) fn read(&self, at: u64, buffer: &mut [u8]) -> Option<usize>
        ensures bytes { (file : List ℕ) → IsKeptOf self.now file
            → IfSome result (λ count. (count ≤ length buffer.old)
            × (take count buffer.new ≡ take (length buffer.old) (drop at file))) }
        ensures whole { IsKeptWhole self.now → IsSome result }
        ensures first { at ≡ 0 → length buffer.old ≡ 1 → IsSome result }
    {
        if at >= self.len || buffer.is_empty() {
            return Some(0);
        }
        let count = (buffer.len() as u64).min(self.len - at) as usize;
        if at >= self.from && at - self.from + count as u64 <= self.bytes.len() as u64 {
            let start = (at - self.from) as usize;
            buffer[..count].copy_from_slice(&self.bytes[start..start + count]);
            return Some(count);
        }
        if at == 0 && count == 1 {
            buffer[0] = self.first;
            return Some(1);
        }
        None
    }

    // Its bytes are let go, if it was not changed since it was read.
    pub(crate) fn let_go(&mut self, alloc: Global)
        ensures { (file : List ℕ) → IsKeptOf self.old file → IsKeptOf self.new file }
    {
        if self.from == 0 {
            self.bytes = Vec::new(alloc);
        }
    }

    // The file is written, up to this end or its own.
    pub(crate) fn write(&mut self, alloc: Global, at: u64, bytes: &[u8], end: u64)
        requires within { at ≤ self.old.len }
        requires end { end ≡ at + length bytes.now }
        ensures { (file : List ℕ) → IsKeptOf self.old file
            → IsKeptOf self.new (written at bytes.now file) }
    {
        self.first = first_after(self.first, at, bytes);
        let len = self.len;
        self.len = len.max(end);
        if end >= len {
            self.keep_end(alloc, at, bytes);
        } else {
            self.keep_within(alloc, at, bytes, end);
        }
    }

    // The last bytes of a write that ends with the file are kept.
    fn keep_end(&mut self, alloc: Global, at: u64, bytes: &[u8])
        requires { at + length bytes.now < 2 ^ 64 }
        ensures len { self.new.len ≡ self.old.len }
        ensures first { self.new.first ≡ self.old.first }
        ensures kept { (file : List ℕ) → at ≤ length file
            → StandFrom self.new.from self.new.bytes.items (written at bytes.now file) }
    {
        let skipped = bytes.len().saturating_sub(TAIL);
        self.from = at + skipped as u64;
        self.bytes = Vec::new(alloc);
        if self.bytes.extend_from_slice(&bytes[skipped..]).is_err() {
            self.bytes = Vec::new(alloc);
        }
    }

    // What was read before this place is let go.
    fn let_go_before(&mut self, alloc: Global, at: u64)
        ensures len { self.new.len ≡ self.old.len }
        ensures first { self.new.first ≡ self.old.first }
        ensures kept { (file : List ℕ) → StandFrom self.old.from self.old.bytes.items file
            → StandFrom self.new.from self.new.bytes.items file }
    {
        if self.from > 0 {
            return;
        }
        let passed = at.min(self.bytes.len() as u64) as usize;
        let mut rest = Vec::new(alloc);
        if rest.extend_from_slice(&self.bytes[passed..]).is_err() {
            rest = Vec::new(alloc);
        }
        self.bytes = rest;
        self.from = at;
    }

    // A write within the file: what is kept behind it stays, and what was read before it is let go.
    fn keep_within(&mut self, alloc: Global, at: u64, bytes: &[u8], end: u64)
        requires end { end ≡ at + length bytes.now }
        ensures len { self.new.len ≡ self.old.len }
        ensures first { self.new.first ≡ self.old.first }
        ensures kept { (file : List ℕ) → at ≤ length file → StandFrom self.old.from self.old.bytes.items file
            → StandFrom self.new.from self.new.bytes.items (written at bytes.now file) }
    {
        if end <= self.from {
            return;
        }
        self.let_go_before(alloc, at);
        if at >= self.from && end - self.from <= self.bytes.len() as u64 {
            let start = (at - self.from) as usize;
            self.bytes[start..start + bytes.len()].copy_from_slice(bytes);
            return;
        }
        self.bytes = Vec::new(alloc);
    }

    // The file is cut to this length.
    pub(crate) fn cut(&mut self, alloc: Global, len: u64)
        requires { len ≤ self.old.len }
        ensures { (file : List ℕ) → IsKeptOf self.old file → IsKeptOf self.new (take len file) }
    {
        self.len = len;
        self.bytes = Vec::new(alloc);
    }
}
