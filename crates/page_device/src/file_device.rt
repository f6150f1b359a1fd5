// The device over three files of a folder. It tells nothing of what they hold.
ghost use Rattle.std.specs.Prelude.{◌≡◌, ◌≤◌, ◌+◌, length, IfOk};
ghost use Rattle.page_device.specs.Device.{Rose};

use crate::device::{Device, Failed, LONGEST, Which};
use crate::text::Str;
use std::alloc::Global;
use std::fs::{File, OpenOptions};
use std::io::{self, ErrorKind};
use std::marker::Model;
use std::os::unix::fs::FileExt;
use std::path::Path;
use std::rt::Files;

const SLOTS: &str = "slots.xdb";

const LOG_A: &str = "loga.xdb";

const LOG_B: &str = "logb.xdb";

// An open file, and whether a sync of it has failed.
#[derive(Drop)]
struct OpenFile {
    file: File,
    is_lost: bool,
}

impl OpenFile {
    // Opens a file of the folder, and makes it where it is missing.
    fn open<R: Files<File = File>>(
        rt: &R,
        alloc: Global,
        folder: Path<'_>,
        name: &str,
    ) -> io::Result<OpenFile> {
        let path = folder.join(alloc, name)?;
        let file = OpenOptions::new()
            .read(true)
            .write(true)
            .create(true)
            .open(rt, path.as_path())?;
        Ok(OpenFile {
            file,
            is_lost: false,
        })
    }

    // Reads until the buffer is full or the file ends.
    fn read(&self, at: u64, into: &mut [u8]) -> io::Result<usize>
        requires { at + length into.old ≤ LONGEST }
        ensures { IfOk result (λ n. n ≤ length into.old) }
    {
        let mut count = 0;
        for _ in 0..u64::MAX {
            if count == into.len() {
                return Ok(count);
            }
            match self.file.read_at(&mut into[count..], at + count as u64) {
                Ok(0) => return Ok(count),
                Ok(n) => count += n,
                Err(error) if error.kind() == ErrorKind::Interrupted => {}
                Err(error) => return Err(error),
            }
        }
        Err(ErrorKind::Interrupted.into())
    }

    // A failed sync may have lost writes that a later one would not try again, so it fails from then on.
    fn sync(&mut self) -> io::Result<()> {
        if self.is_lost {
            return Err(ErrorKind::Other.into());
        }
        let synced = self.file.sync_all();
        self.is_lost = synced.is_err();
        synced
    }

    fn len(&self) -> io::Result<u64>
        ensures { IfOk result (λ n. n ≤ LONGEST) }
    {
        let long = self.file.metadata()?.len();
        if long > LONGEST {
            return Err(ErrorKind::FileTooLarge.into());
        }
        Ok(long)
    }
}

// The three open files. The lock on the first keeps a second device from the folder.
#[derive(Drop)]
struct OpenFiles {
    slots: OpenFile,
    log_a: OpenFile,
    log_b: OpenFile,
}

impl OpenFiles {
    // Opens the files, and syncs the folder, so that a file that was made is still there after a crash.
    fn open<R: Files<File = File>>(rt: &R, alloc: Global, folder: &Str) -> io::Result<OpenFiles> {
        let path = Path::new(folder.as_str());
        let opened = File::open(rt, path)?;
        let slots = OpenFile::open(rt, alloc, path, SLOTS)?;
        slots.file.try_lock()?;
        let log_a = OpenFile::open(rt, alloc, path, LOG_A)?;
        let log_b = OpenFile::open(rt, alloc, path, LOG_B)?;
        opened.sync_all()?;
        Ok(OpenFiles {
            slots,
            log_a,
            log_b,
        })
    }

    fn file(&self, which: Which) -> &OpenFile {
        match which {
            Which::Slots => &self.slots,
            Which::LogA => &self.log_a,
            Which::LogB => &self.log_b,
        }
    }

    fn sync(&mut self, which: Which) -> io::Result<()> {
        match which {
            Which::Slots => self.slots.sync(),
            Which::LogA => self.log_a.sync(),
            Which::LogB => self.log_b.sync(),
        }
    }
}

/// The files `slots.xdb`, `loga.xdb` and `logb.xdb` of a folder. Contracts see its count of faults.
#[derive(Drop)]
pub struct FileDevice<R> {
    rt: R,
    alloc: Global,
    folder: Str,
    open: Option<OpenFiles>,
    failed: u64,
}

impl<R> Model for FileDevice<R> {
    ghost use Rattle.std.specs.Prelude.{ℕ};

    ghost Value = { ℕ };

    ghost view = { λ d. d.failed };
}

impl<R: Files<File = File> + Send + Drop> FileDevice<R> {
    /// A device over this folder, which must be there. Its first call opens the files, and makes those that are missing.
    pub fn of(rt: R, alloc: Global, folder: Str) -> FileDevice<R>
        ensures { result ≡ 0 }
    {
        FileDevice {
            rt,
            alloc,
            folder,
            open: None,
            failed: 0,
        }
    }
}

impl<R: Files<File = File> + Drop> FileDevice<R> {
    // The files, which are put back after the call.
    fn take(&mut self) -> io::Result<OpenFiles>
        ensures { self.new ≡ self.old }
    {
        match self.open.take() {
            Some(files) => Ok(files),
            None => OpenFiles::open(&self.rt, self.alloc, &self.folder),
        }
    }

    // Counts a fault.
    fn fail(&mut self) -> Failed
        ensures later { self.old ≤ self.new }
        ensures rose { Rose self.old self.new }
    {
        self.failed = self.failed.saturating_add(1);
        Failed
    }
}

impl<R: Files<File = File> + Drop> FileDevice<R> {
    fn try_read(&mut self, file: Which, at: u64, into: &mut [u8]) -> io::Result<usize>
        requires { at + length into.old ≤ LONGEST }
        ensures same { self.new ≡ self.old }
        ensures within { IfOk result (λ n. n ≤ length into.old) }
    {
        let files = self.take()?;
        let answer = files.file(file).read(at, into);
        self.open = Some(files);
        answer
    }

    fn try_write(&mut self, file: Which, at: u64, bytes: &[u8]) -> io::Result<()>
        ensures { self.new ≡ self.old }
    {
        let files = self.take()?;
        let answer = files.file(file).file.write_all_at(bytes, at);
        self.open = Some(files);
        answer
    }

    fn try_sync(&mut self, file: Which) -> io::Result<()>
        ensures { self.new ≡ self.old }
    {
        let mut files = self.take()?;
        let answer = files.sync(file);
        self.open = Some(files);
        answer
    }

    fn try_len(&mut self, file: Which) -> io::Result<u64>
        ensures same { self.new ≡ self.old }
        ensures within { IfOk result (λ n. n ≤ LONGEST) }
    {
        let files = self.take()?;
        let answer = files.file(file).len();
        self.open = Some(files);
        answer
    }
}

impl<R: Files<File = File> + Drop> Device for FileDevice<R> {
    ghost use Rattle.std.specs.Prelude.{None};

    ghost contents = { λ _. None };

    ghost may_leave = { λ _ _. ⊥ };

    ghost moment = { λ _. 0 };

    ghost left_since = { λ _ _ _. ⊥ };

    ghost failures = { λ d. d };

    ghost told_now = { λ _ c is. Prim.cc is };

    ghost counts_now = { λ _ t c le now. absurd now };

    ghost only_now = { λ _ c left. absurd left };

    ghost later_less = { λ _ t u c le left. left };

    ghost bounded = { λ _ t c left. absurd left };

    fn read(&mut self, file: Which, at: u64, into: &mut [u8]) -> Result<usize, Failed> {
        let Ok(count) = self.try_read(file, at, into) else {
            return Err(self.fail());
        };
        Ok(count)
    }

    fn write_at(&mut self, file: Which, at: u64, bytes: &[u8]) -> Result<(), Failed> {
        let Ok(()) = self.try_write(file, at, bytes) else {
            return Err(self.fail());
        };
        Ok(())
    }

    fn sync(&mut self, file: Which) -> Result<(), Failed> {
        let Ok(()) = self.try_sync(file) else {
            return Err(self.fail());
        };
        Ok(())
    }

    fn len(&mut self, file: Which) -> Result<u64, Failed> {
        let Ok(long) = self.try_len(file) else {
            return Err(self.fail());
        };
        Ok(long)
    }

    fn faults(&self) -> u64 {
        self.failed
    }
}
