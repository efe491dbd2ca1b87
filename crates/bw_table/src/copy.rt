//! A page's chain, copied for work outside the table, and the page that it stands for, made anew.

ghost use Rattle.std.specs.Prelude.{◌≡◌, ◌≢◌, ◌↔◌, Some, Err, IfOk, IfSome};
ghost use Rattle.bw_delta.specs.Sound.{IsSound, page_for};
ghost use Rattle.bw_law.specs.Tables.{slot_at};
ghost use Rattle.bw_table.specs.Views.{IsAbsent, IsStale};

use crate::table::Table;
use bw_chain::consolidate;
use bw_delta::{Base, Chain, NoMemory};
use bw_keys::{Pid, Version};
use bw_step::CopyFault;
use std::alloc::Allocator;

impl<A: Allocator + Copy> Table<A> {
    /// Copies the page's chain into `alloc`, if the page is in a row and still has the version that
    /// was seen.
    #[inline(always)]
    pub fn copy_page(&self, alloc: A, pid: Pid, seen: Version) -> Result<Chain<A>, CopyFault>
        ensures absent { (result ≡ Err CopyFault.Absent) ↔ IsAbsent self.now pid }
        ensures stale { (result ≡ Err CopyFault.Stale) ↔ IsStale self.now pid seen.0 }
        ensures copied { IfOk result (λ chain. (slot_at self.now pid.0).chain ≡ Some chain) }
        ensures sound { IfOk result IsSound }
    {
        match self.chain_seen(pid, seen) {
            Ok(chain) => match chain.copy_in(alloc) {
                Ok(copy) => Ok(copy),
                Err(NoMemory) => Err(CopyFault::NoMemory),
            },
            Err(fault) => Err(fault),
        }
    }

    /// Makes anew in `alloc` the page that the chain stands for, if the page is in a row and still has
    /// the version that was seen. The chain itself isn't copied.
    #[inline(always)]
    pub fn consolidated_page(&self, alloc: A, pid: Pid, seen: Version) -> Result<Base<A>, CopyFault>
        ensures absent { (result ≡ Err CopyFault.Absent) ↔ IsAbsent self.now pid }
        ensures stale { (result ≡ Err CopyFault.Stale) ↔ IsStale self.now pid seen.0 }
        ensures made { IfOk result (λ base.
            IfSome (slot_at self.now pid.0).chain (λ chain. base ≡ page_for chain)) }
    {
        match self.chain_seen(pid, seen) {
            Ok(chain) => match consolidate(alloc, chain) {
                Ok(base) => Ok(base),
                Err(NoMemory) => Err(CopyFault::NoMemory),
            },
            Err(fault) => Err(fault),
        }
    }

    /// The page's chain, if the page is in a row and still has the version that was seen.
    #[inline(always)]
    fn chain_seen(&self, pid: Pid, seen: Version) -> Result<&Chain<A>, CopyFault>
        ensures absent { (result ≡ Err CopyFault.Absent) ↔ IsAbsent self.now pid }
        ensures stale { (result ≡ Err CopyFault.Stale) ↔ IsStale self.now pid seen.0 }
        ensures memory { result ≢ Err CopyFault.NoMemory }
        ensures chain { IfOk result (λ chain. (slot_at self.now pid.0).chain ≡ Some chain.now) }
        ensures sound { IfOk result (λ chain. IsSound chain.now) }
    {
        let Some(slot) = self.slot(pid) else {
            return Err(CopyFault::Absent);
        };
        let Some(chain) = slot.chain() else {
            return Err(CopyFault::Absent);
        };
        if slot.version != seen.0 {
            return Err(CopyFault::Stale);
        }
        Ok(chain)
    }
}
