// The disk.
ghost use Rattle.std.specs.Prelude.{◌≡◌, ◌↔◌, ◌+◌, ◌-◌, ◌<◌, ◌≤◌, ◌^◌, [], false, IsOk, IsTrue, OnErr, OnOk, length};
ghost use Rattle.std.proofs.Props.{props};
ghost use Rattle.disk_trait.specs.Disk.{HoldsBytes};
ghost use Rattle.deferred_disk.specs.Bytes.{orders_bytes};
ghost use Rattle.deferred_disk.specs.DiskRequests.{all_of};
ghost use Rattle.deferred_disk.specs.KeptFiles.{IsKeptOf, IsKeptWhole};
ghost use Rattle.deferred_disk.specs.State.{AllAreWithin, AllWriteBytes, all_within-prop, all_write-prop, holds-prop, state_after_orders, reads_by};
ghost use Rattle.deferred_disk.specs.Sound.{sound_ordered};

use crate::kept::KeptBytes;
use crate::order::{Order, push};
use crate::past::Past;
use disk_trait::{DeviceFault, Disk, Half};
use gate_log::DefersCalls;
use std::alloc::{AllocError, Global};

// So much room is kept for the next orders; what a snapshot took is let go.
const KEPT: usize = 65_536;

/// Two files whose changes are orders, which somebody else does later.
///
/// It answers each call at once, as an honest disk does that has done all its orders. Who holds the orders does them on two files,
/// one after the other, and then reports it.
#[derive(Drop)]
pub struct DeferredDisk {
    alloc: Global,
    mixes: bool,
    a: KeptBytes,
    b: KeptBytes,
    orders: Vec<u8>,
    failures: u64,
    past: Past,
    ghost a_kept: { IsKeptOf a (reads_by past.calls.start (all_of past.calls)).a } by { Prim.hlevel props },
    ghost b_kept: { IsKeptOf b (reads_by past.calls.start (all_of past.calls)).b } by { Prim.hlevel props },
    ghost orders_are: { orders.items ≡ orders_bytes past.calls.pending } by { Prim.hlevel props },
    ghost began: { HoldsBytes past.calls.start } by { holds-prop past.calls.start },
    ghost wrote: { AllWriteBytes (all_of past.calls) } by { all_write-prop (all_of past.calls) },
    ghost within: { AllAreWithin past.calls.start (all_of past.calls) } by { all_within-prop past.calls.start (all_of past.calls) },
}

impl DeferredDisk {
    ghost use Rattle.disk_trait.specs.Disk.{file_of};
    ghost use Rattle.deferred_disk.specs.DiskRequests.{with_order, first_calls, after_report};
    ghost use Rattle.deferred_disk.specs.Disk.{Asks, KeepsAll, calls_of, pending_of, state_by_calls};
    ghost use Rattle.disk_trait.specs.Orders.{writes, cuts, syncs};

    /// Two files that hold these bytes now, of which a crash leaves just that: they were synced before they were read. A crash may leave any
    /// bytes of a write that was not synced.
    pub fn new(alloc: Global, a: Vec<u8>, b: Vec<u8>) -> DeferredDisk
        ensures calls { calls_of result ≡ first_calls a.items b.items }
        ensures tears { (state_by_calls result).mixes ≡ false }
        ensures all { KeepsAll result }
        ensures failures { (state_by_calls result).failures ≡ 0 }
    {
        DeferredDisk::holding(alloc, false, a, b)
    }

    /// Two such files of a disk that mixes, or does not. That it mixes is said by whoever does its orders: then of a write that was not synced a
    /// crash leaves of each byte the old one or the new one.
    pub fn holding(alloc: Global, mixes: bool, a: Vec<u8>, b: Vec<u8>) -> DeferredDisk
        ensures calls { calls_of result ≡ first_calls a.items b.items }
        ensures mixes { (state_by_calls result).mixes ≡ mixes }
        ensures all { KeepsAll result }
        ensures failures { (state_by_calls result).failures ≡ 0 }
    {
        let past = Past::of(&a, &b);
        DeferredDisk {
            alloc,
            mixes,
            a: KeptBytes::new(a),
            b: KeptBytes::new(b),
            orders: Vec::new(alloc),
            failures: 0,
            past,
        }
    }

    /// The bytes of the orders that were not reported done, in the order in which they are to be done.
    pub fn orders(&self) -> &[u8]
        ensures { result.now ≡ orders_bytes (pending_of self.now) }
    {
        &self.orders
    }

    /// Whether all orders were reported done.
    pub fn is_done(&self) -> bool
        ensures { IsTrue result ↔ (pending_of self.now ≡ []) }
    {
        self.orders().is_empty()
    }

    /// Says that all orders were done, as a report does. What is in memory of the files stays there, for whoever does each order at once
    /// and reads on.
    pub fn note_done(&mut self)
        ensures calls { calls_of self.new ≡ after_report (calls_of self.old) }
        ensures failures { (state_by_calls self.new).failures ≡ (state_by_calls self.old).failures }
        ensures mixes { (state_by_calls self.new).mixes ≡ (state_by_calls self.old).mixes }
        ensures all { KeepsAll self.old → KeepsAll self.new }
    {
        self.past = self.past.reported();
        if self.orders.capacity() > KEPT {
            self.orders = Vec::new(self.alloc);
        } else {
            self.orders.clear();
        }
    }

    fn kept(&self, half: Half) -> &KeptBytes
        ensures kept { IsKeptOf result.now (file_of half (state_by_calls self.now).reads) }
        ensures whole { KeepsAll self.now → IsKeptWhole result.now }
    {
        match half {
            Half::A => &self.a,
            Half::B => &self.b,
        }
    }

    fn try_write(&mut self, half: Half, at: u64, bytes: &[u8]) -> Result<(), AllocError>
        requires { at ≤ length (file_of half (state_by_calls self.old).reads) }
        ensures asks { Asks (writes half at bytes.now) self.old self.new result }
        ensures failures { self.new.failures ≡ self.old.failures }
        ensures mixes { self.new.mixes ≡ self.old.mixes }
    {
        let Some(end) = at.checked_add(bytes.len() as u64) else {
            return Err(AllocError);
        };
        let order = Order::Write { half, at, bytes };
        push(&mut self.orders, &order)?;
        self.past = self.past.then(&order);
        match half {
            Half::A => self.a.write(self.alloc, at, bytes, end),
            Half::B => self.b.write(self.alloc, at, bytes, end),
        }
        Ok(())
    }

    fn try_cut(&mut self, half: Half, len: u64) -> Result<(), AllocError>
        requires { len ≤ length (file_of half (state_by_calls self.old).reads) }
        ensures asks { Asks (cuts half len) self.old self.new result }
        ensures failures { self.new.failures ≡ self.old.failures }
        ensures mixes { self.new.mixes ≡ self.old.mixes }
    {
        let order = Order::Cut { half, len };
        push(&mut self.orders, &order)?;
        self.past = self.past.then(&order);
        match half {
            Half::A => self.a.cut(self.alloc, len),
            Half::B => self.b.cut(self.alloc, len),
        }
        Ok(())
    }

    fn try_sync(&mut self, half: Half) -> Result<(), AllocError>
        ensures asks { Asks (syncs half) self.old self.new result }
        ensures all { KeepsAll self.old → KeepsAll self.new }
        ensures failures { self.new.failures ≡ self.old.failures }
        ensures mixes { self.new.mixes ≡ self.old.mixes }
    {
        let order = Order::Sync { half };
        push(&mut self.orders, &order)?;
        self.past = self.past.then(&order);
        Ok(())
    }
}

fn counted(failures: &mut u64) -> DeviceFault
    requires { failures.old < 2 ^ 64 - 1 }
    ensures { failures.new ≡ failures.old + 1 }
{
    *failures += 1;
    DeviceFault
}

impl Disk for DeferredDisk {
    ghost use Rattle.disk_trait.specs.Calls.{CutsFile, GivesBytes, GivesLength, IsWithinFile, SyncsFile, WritesBytes};
    ghost use Rattle.deferred_disk.specs.Disk.{Asks, KeepsAll, calls_of, state_by_calls};
    ghost use Rattle.disk_trait.specs.Orders.{writes, cuts, syncs};

    ghost state = { λ d. state_after_orders d.mixes d.past.calls d.failures };

    ghost sound = { λ d honest. sound_ordered d.mixes d.past.calls d.failures d.began d.wrote d.within };

    fn failures(&self) -> u64 {
        self.failures
    }

    fn mixes(&self) -> bool {
        self.mixes
    }

    fn len(&mut self, half: Half) -> Result<u64, DeviceFault>
        requires { (state_by_calls self.old).failures < 2 ^ 64 - 1 }
        ensures disk { GivesLength half (state_by_calls self.old) (state_by_calls self.new) result }
        ensures calls { calls_of self.new ≡ calls_of self.old }
        ensures all { KeepsAll self.old → KeepsAll self.new }
        ensures given { IsOk result }
    {
        Ok(self.kept(half).len())
    }

    fn read(&mut self, half: Half, at: u64, buffer: &mut [u8]) -> Result<usize, DeviceFault>
        requires { (state_by_calls self.old).failures < 2 ^ 64 - 1 }
        ensures disk { GivesBytes half at buffer.old buffer.new
            (state_by_calls self.old) (state_by_calls self.new) result }
        ensures calls { calls_of self.new ≡ calls_of self.old }
        ensures all { KeepsAll self.old → KeepsAll self.new }
        ensures given { KeepsAll self.old → IsOk result }
        ensures first { at ≡ 0 → length buffer.old ≡ 1 → IsOk result }
    {
        match self.kept(half).read(at, buffer) {
            Some(count) => Ok(count),
            None => Err(counted(&mut self.failures)),
        }
    }

    fn write_at(&mut self, half: Half, at: u64, bytes: &[u8]) -> Result<(), DeviceFault>
        requires count { (state_by_calls self.old).failures < 2 ^ 64 - 1 }
        requires within { IsWithinFile half at (state_by_calls self.old) }
        ensures disk { WritesBytes half at bytes.now
            (state_by_calls self.old) (state_by_calls self.new) result }
        ensures asks { Asks (writes half at bytes.now) self.old self.new result }
    {
        match self.try_write(half, at, bytes) {
            Ok(()) => Ok(()),
            Err(_) => Err(counted(&mut self.failures)),
        }
    }

    fn cut(&mut self, half: Half, len: u64) -> Result<(), DeviceFault>
        requires count { (state_by_calls self.old).failures < 2 ^ 64 - 1 }
        requires within { IsWithinFile half len (state_by_calls self.old) }
        ensures disk { CutsFile half len (state_by_calls self.old) (state_by_calls self.new) result }
        ensures asks { Asks (cuts half len) self.old self.new result }
    {
        match self.try_cut(half, len) {
            Ok(()) => Ok(()),
            Err(_) => Err(counted(&mut self.failures)),
        }
    }

    fn sync(&mut self, half: Half) -> Result<(), DeviceFault>
        requires { (state_by_calls self.old).failures < 2 ^ 64 - 1 }
        ensures disk { SyncsFile half (state_by_calls self.old) (state_by_calls self.new) result }
        ensures asks { Asks (syncs half) self.old self.new result }
        ensures all { KeepsAll self.old → KeepsAll self.new }
    {
        match self.try_sync(half) {
            Ok(()) => Ok(()),
            Err(_) => Err(counted(&mut self.failures)),
        }
    }
}

impl DefersCalls for DeferredDisk {
    ghost use Rattle.deferred_disk.specs.Disk.{ReportsOrdersDone};

    ghost reports = { λ count old new. ReportsOrdersDone count old new };

    // orders that were made since the bytes were taken are not done
    fn report_done(&mut self, count: usize) {
        if count != self.orders.len() {
            return;
        }
        self.note_done();
        self.a.let_go(self.alloc);
        self.b.let_go(self.alloc);
    }
}
