//! A file that stops, or whose disk is full, at a write.

ghost use Rattle.std.specs.Prelude.{◌≡◌, ◌+◌, ◌&&◌, not, true, false, IsErr};
ghost use Rattle.sqlite_disk.specs.Disk.{CountsFault};
ghost use Rattle.sqlite_disk.specs.Refusal.{finds_no_room};

use sqlite_disk::{Crash, Disk, Tally};
use std::io;

/// What a file may take.
#[derive(Clone, Copy, Drop)]
pub struct Budget {
    writes: u64,
    // Whether it stops behind them, and can't be read any more.
    is_stopping: bool,
}

impl Budget {
    pub fn endless() -> Budget {
        Budget::fills(u64::MAX)
    }

    /// So many writes; then it stops.
    pub fn stops(writes: u64) -> Budget {
        Budget {
            writes,
            is_stopping: true,
        }
    }

    /// So many writes; then it is full.
    pub fn fills(writes: u64) -> Budget {
        Budget {
            writes,
            is_stopping: false,
        }
    }
}

/// A file that takes so many writes.
#[derive(Drop)]
pub struct Limited<D: Disk> {
    inner: D,
    budget: Budget,
    refused: u64,
    is_stopped: bool,
    sync_refused: bool,
}

impl<D: Disk> Limited<D> {
    pub fn new(inner: D, budget: Budget) -> Limited<D> {
        Limited {
            inner,
            budget,
            refused: 0,
            is_stopped: false,
            sync_refused: false,
        }
    }

    pub fn inner(&self) -> &D {
        &self.inner
    }
}

fn refuse(refused: &mut u64) -> io::Result<()>
    ensures faults { CountsFault result refused.old refused.new }
    ensures kind { finds_no_room result ≡ false }
    ensures refused { IsErr result }
{
    *refused = refused.saturating_add(1);
    Err(io::Error::other("the disk stopped, or is full"))
}

// A call that reads comes.
fn pass(is_stopped: bool, refused: &mut u64) -> io::Result<()>
    ensures faults { CountsFault result refused.old refused.new }
    ensures kind { finds_no_room result ≡ false }
    ensures stopped { is_stopped ≡ true → IsErr result }
{
    if is_stopped {
        return refuse(refused);
    }
    Ok(())
}

// A call that writes comes.
fn spend(budget: &mut Budget, is_stopped: &mut bool, refused: &mut u64) -> io::Result<()>
    ensures faults { CountsFault result refused.old refused.new }
    ensures kind { finds_no_room result ≡ false }
    ensures stopped { is_stopped.old ≡ true → IsErr result × (is_stopped.new ≡ true) }
{
    if *is_stopped || budget.writes == 0 {
        *is_stopped |= budget.is_stopping;
        return refuse(refused);
    }
    budget.writes = budget.writes.saturating_sub(1);
    Ok(())
}

impl<D: Disk> Disk for Limited<D> {
    ghost seen = { λ f. D.Disk.seen f.inner };

    ghost may_leave = { λ f. D.Disk.may_leave f.inner };

    ghost is_usable = { λ f. D.Disk.is_usable f.inner && not f.sync_refused };

    ghost faults = { λ f. D.Disk.faults f.inner + f.refused };

    ghost tally_of = { λ f. D.Disk.tally_of f.inner };

    ghost is_rotten = { λ f. D.Disk.is_rotten f.inner };

    ghost key_of = { λ f. D.Disk.key_of f.inner };

    ghost is_frozen = { λ f. f.is_stopped };

    ghost is_clean = { λ f. D.Disk.is_clean f.inner };

    ghost is_fair = { λ f. D.Disk.is_fair f.inner };

    ghost fair_if_clean = { λ f. D.Disk.fair_if_clean f.inner };

    ghost seen_may_stay = { λ f. D.Disk.seen_may_stay f.inner };

    ghost is_mixing = { λ f. D.Disk.is_mixing f.inner };

    fn mixes(&self) -> bool {
        self.inner.mixes()
    }

    fn key(&self) -> u64 {
        self.inner.key()
    }

    fn tally(&self) -> Tally {
        self.inner.tally()
    }

    fn may_be_used(&self) -> bool {
        self.inner.may_be_used() && !self.sync_refused
    }

    fn len(&mut self) -> io::Result<usize> {
        pass(self.is_stopped, &mut self.refused)?;
        self.inner.len()
    }

    fn read_at(&mut self, at: usize, buf: &mut [u8]) -> io::Result<()> {
        pass(self.is_stopped, &mut self.refused)?;
        self.inner.read_at(at, buf)
    }

    fn read_checked(&mut self, key: u64, want: u64, at: usize, buf: &mut [u8]) -> io::Result<()> {
        pass(self.is_stopped, &mut self.refused)?;
        self.inner.read_checked(key, want, at, buf)
    }

    fn write_at(&mut self, at: usize, bytes: &[u8]) -> io::Result<()> {
        spend(&mut self.budget, &mut self.is_stopped, &mut self.refused)?;
        self.inner.write_at(at, bytes)
    }

    fn set_len(&mut self, len: usize) -> io::Result<()> {
        spend(&mut self.budget, &mut self.is_stopped, &mut self.refused)?;
        self.inner.set_len(len)
    }

    fn sync(&mut self) -> io::Result<()> {
        if let Err(error) = spend(&mut self.budget, &mut self.is_stopped, &mut self.refused) {
            self.sync_refused = true;
            return Err(error);
        }
        self.inner.sync()
    }
}

/// The machine comes back with a disk that takes any writes.
impl<D: Crash> Crash for Limited<D> {
    fn crash(&mut self) {
        self.inner.crash();
        self.budget = Budget::endless();
        self.is_stopped = false;
        self.sync_refused = false;
    }
}
