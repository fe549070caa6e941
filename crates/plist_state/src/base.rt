//! The base in which tokens are read as numbers.
ghost use Rattle.std.specs.Prelude.{◌≡◌, ◌≤◌, OnOk, OnErr};
ghost use Rattle.plist_state.specs.Changes.{with_base};

use crate::World;
use crate::journal::{push_note, reserve_note};
use crate::note::Note;
use std::alloc::AllocError;

impl World {
    /// The base in which tokens are read as numbers, from 2 to 36 (standard 23.1.2, `*read-base*`). Takes no memory.
    pub fn read_base(&self) -> u8
        ensures base { result ≡ self.now.0.read_base }
        ensures lowest_base { 2 ≤ result }
        ensures highest_base { result ≤ 36 }
    {
        self.stored.read_base
    }

    /// Makes another base the one in which tokens are read as numbers. After out of memory nothing has changed.
    pub fn set_read_base(&mut self, base: u8) -> Result<(), AllocError>
        requires lowest_base { 2 ≤ base }
        requires highest_base { base ≤ 36 }
        ensures ok { OnOk result (self.new ≡ (with_base self.old.0 base, self.old.1)) }
        ensures err { OnErr result (self.new ≡ self.old) }
    {
        reserve_note(&mut self.marks)?;
        let before = self.stored.read_base;
        self.stored.read_base = base;
        push_note(&mut self.marks, Note::InBase(before));
        Ok(())
    }
}
