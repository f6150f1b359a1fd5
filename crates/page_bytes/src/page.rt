//! Pages, which never change and are shared, and drafts, which a call may write to.
ghost use Rattle.std.specs.Prelude.{◌≡◌, IfOk, replicate, length};

use crate::end::NoMemory;
use std::alloc::{AllocError, Global};
use std::marker::Model;
use std::sync::Arc;

/// How many bytes a page has.
pub const PAGE_BYTES: usize = 4096;

/// A page: 4,096 bytes that never change. Copies share them.
#[derive(Drop)]
pub struct Page {
    bytes: Arc<Draft>,
}

impl Model for Page {
    ghost use Rattle.std.specs.Prelude.{ℕ, List};

    ghost Value = { List ℕ };

    ghost use Rattle.std.specs.Arc.{arc_value};

    ghost view = { λ p. arc_value p.bytes };
}

/// A page that is being written: 4,096 bytes of its own.
#[derive(Drop)]
pub struct Draft {
    bytes: Box<[u8; 4096]>,
}

impl Model for Draft {
    ghost use Rattle.std.specs.Prelude.{ℕ, List};

    ghost Value = { List ℕ };

    ghost view = { λ d. d.bytes.value };
}

impl Page {
    ghost use Rattle.std.specs.Borrow.{sem};
    ghost use Rattle.page_bytes.specs.LendsDraft.{lends_draft};

    /// The page with the draft's bytes.
    pub fn of(alloc: Global, draft: Draft) -> Result<Page, NoMemory>
        ensures bytes { IfOk result (λ p. p ≡ draft) }
        ensures long { IfOk result (λ p. length p ≡ 4096) }
    {
        tell_length(draft.bytes());
        match Arc::new(alloc, draft) {
            Ok(bytes) => Ok(Page { bytes }),
            Err(_) => Err(NoMemory),
        }
    }

    /// The page with these bytes, which are copied.
    pub(crate) fn with_bytes(alloc: Global, bytes: &[u8; 4096]) -> Result<Page, NoMemory>
        ensures bytes { IfOk result (λ p. p ≡ bytes.now) }
        ensures long { IfOk result (λ p. length p ≡ 4096) }
    {
        Page::of(alloc, Draft::copy_of(alloc, bytes)?)
    }

    /// The bytes.
    pub fn bytes(&self) -> &[u8; 4096]
        ensures { result.now ≡ self.now }
    {
        let draft: &Draft = &self.bytes;
        draft.bytes()
    }

    /// The same page. Its bytes are shared, and not copied.
    pub fn copy(&self) -> Result<Page, NoMemory>
        ensures { IfOk result (λ p. p ≡ self.now) }
    {
        match Arc::try_clone(&self.bytes) {
            Ok(bytes) => Ok(Page { bytes }),
            Err(_) => Err(NoMemory),
        }
    }

    // The bytes, to write to. They are copied first where another page shares them, so no other page sees what is written.
    pub(crate) fn own(&mut self) -> Result<&mut Draft, NoMemory>
        ensures* writes_back { sem 𝓛 (lends_draft self.entry result) }
        ensures value { IfOk result (λ draft. draft.now ≡ self.old) }
    {
        match Arc::make_mut(&mut self.bytes) {
            Ok(draft) => Ok(draft),
            Err(_) => Err(NoMemory),
        }
    }

    // Says how long a page is.
    pub(crate) fn tell_length(&self)
        ensures { length self.now ≡ 4096 }
    {
        tell_length(self.bytes());
    }
}

impl Clone for Page {
    ghost is_clone = { λ page copy. copy ≡ page };

    // The bytes are shared.
    fn clone(&self) -> Result<Page, AllocError> {
        let bytes = Arc::try_clone(&self.bytes)?;
        Ok(Page { bytes })
    }
}

impl Clone for Draft {
    ghost is_clone = { λ draft copy. copy ≡ draft };

    // The bytes are copied.
    fn clone(&self) -> Result<Draft, AllocError> {
        let bytes = self.bytes.clone()?;
        Ok(Draft { bytes })
    }
}

impl Draft {
    ghost use Rattle.std.specs.Borrow.{sem};
    ghost use Rattle.page_bytes.specs.LendsBytes.{lends_bytes};

    /// A draft of zeros.
    pub fn zero(alloc: Global) -> Result<Draft, NoMemory>
        ensures { IfOk result (λ d. d ≡ replicate 4096 0) }
    {
        Draft::copy_of(alloc, &[0; 4096])
    }

    /// A draft with these bytes, which are copied.
    pub fn copy_of(alloc: Global, bytes: &[u8; 4096]) -> Result<Draft, NoMemory>
        ensures { IfOk result (λ d. d ≡ bytes.now) }
    {
        match Box::new(alloc, *bytes) {
            Ok(bytes) => Ok(Draft { bytes }),
            Err(_) => Err(NoMemory),
        }
    }

    /// The bytes.
    pub fn bytes(&self) -> &[u8; 4096]
        ensures { result.now ≡ self.now }
    {
        &self.bytes
    }

    pub(crate) fn bytes_mut(&mut self) -> &mut [u8; 4096]
        ensures* writes_back { sem 𝓛 (lends_bytes self.entry result) }
        ensures value { result.now ≡ self.old }
    {
        &mut self.bytes
    }
}

fn tell_length(bytes: &[u8; 4096])
    ensures { length bytes.now ≡ 4096 }
{
    let _first = bytes[0];
}
