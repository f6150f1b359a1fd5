// A device in memory that tells its callers nothing of what it holds, as one over files does.
use page_device::{Device, Failed, MemDevice, Which};

#[derive(Drop)]
pub struct Quiet {
    pub device: MemDevice,
}

impl Device for Quiet {
    ghost use Rattle.std.specs.Prelude.{None};
    ghost use Rattle.page_device.specs.MemDevice.{faults_of};

    ghost contents = { λ _. None };

    ghost may_leave = { λ _ _. ⊥ };

    ghost moment = { λ _. 0 };

    ghost left_since = { λ _ _ _. ⊥ };

    ghost failures = { λ q. faults_of q.device };

    ghost told_now = { λ _ c is. Prim.cc is };

    ghost counts_now = { λ _ t c le now. absurd now };

    ghost only_now = { λ _ c left. absurd left };

    ghost later_less = { λ _ t u c le left. left };

    ghost bounded = { λ _ t c left. absurd left };

    fn read(&mut self, file: Which, at: u64, into: &mut [u8]) -> Result<usize, Failed> {
        self.device.read(file, at, into)
    }

    fn write_at(&mut self, file: Which, at: u64, bytes: &[u8]) -> Result<(), Failed> {
        self.device.write_at(file, at, bytes)
    }

    fn sync(&mut self, file: Which) -> Result<(), Failed> {
        self.device.sync(file)
    }

    fn len(&mut self, file: Which) -> Result<u64, Failed> {
        self.device.len(file)
    }

    fn faults(&self) -> u64 {
        self.device.faults()
    }
}
