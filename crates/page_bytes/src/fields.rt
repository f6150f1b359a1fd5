//! Fields of a page: numbers, the highest byte first, and ranges of bytes. A reader's or writer's condition is that
//! the field lies inside the page; a writer changes the field's bytes and no other.
ghost use Rattle.std.specs.Prelude.{◌≡◌, ℕ, ◌≤◌, ◌+◌, ◌^◌, ◌<◌, List, length, replicate, slice_index, [], ◌∷◌};
ghost use Rattle.page_bytes.specs.Fields.{bytes_at, with_bytes, field, with_field};
ghost use Rattle.byteorder.specs.Endian.{big_bytes};

use crate::page::Draft;
use byteorder::{BigEndian, ByteOrder};

/// The byte at a place.
pub fn read_u8(page: &[u8; 4096], at: usize) -> u8
    requires { at + 1 ≤ 4096 }
    ensures { result ≡ slice_index page.now at }
{
    page[at]
}

/// The number of two bytes at a place.
#[tactic(auto, unfolding(crate::specs::Fields::field))]
pub fn read_u16(page: &[u8; 4096], at: usize) -> u16
    requires { at + 2 ≤ 4096 }
    ensures { result ≡ field 2 at page.now }
{
    BigEndian::read_u16(read_bytes(page, at, 2))
}

/// The number of four bytes at a place.
#[tactic(auto, unfolding(crate::specs::Fields::field))]
pub fn read_u32(page: &[u8; 4096], at: usize) -> u32
    requires { at + 4 ≤ 4096 }
    ensures { result ≡ field 4 at page.now }
{
    BigEndian::read_u32(read_bytes(page, at, 4))
}

/// The number of eight bytes at a place.
#[tactic(auto, unfolding(crate::specs::Fields::field))]
pub fn read_u64(page: &[u8; 4096], at: usize) -> u64
    requires { at + 8 ≤ 4096 }
    ensures { result ≡ field 8 at page.now }
{
    BigEndian::read_u64(read_bytes(page, at, 8))
}

/// The `len` bytes at a place.
pub fn read_bytes(page: &[u8; 4096], at: usize, len: usize) -> &[u8]
    requires { at + len ≤ 4096 }
    ensures { result.now ≡ bytes_at at len page.now }
{
    &page[at..at + len]
}

/// The laws of fields. What was written is read back, what stands before or behind a write stays, and a write keeps the
/// length.
pub fn field_laws()
    ensures read_back { (n at x : ℕ) (page : List ℕ) → x < 256 ^ n → at ≤ length page → field n at (with_field n page at x) ≡ x }
    ensures bytes_back { (page : List ℕ) (to : ℕ) (bytes : List ℕ) → to ≤ length page → bytes_at to (length bytes) (with_bytes page to bytes) ≡ bytes }
    ensures before { (page : List ℕ) (at n to : ℕ) (bytes : List ℕ) → at + n ≤ to → to ≤ length page → bytes_at at n (with_bytes page to bytes) ≡ bytes_at at n page }
    ensures behind { (page : List ℕ) (at n to : ℕ) (bytes : List ℕ) → to + length bytes ≤ at → to ≤ length page → bytes_at at n (with_bytes page to bytes) ≡ bytes_at at n page }
    ensures kept { (n at : ℕ) (page new : List ℕ) → bytes_at at n new ≡ bytes_at at n page → field n at new ≡ field n at page }
    ensures written { (n at x : ℕ) (page : List ℕ) → with_field n page at x ≡ with_bytes page at (big_bytes n x) }
    ensures count { (n x : ℕ) → length (big_bytes n x) ≡ n }
    ensures byte { (page : List ℕ) (at : ℕ) → slice_index (bytes_at at 1 page) 0 ≡ slice_index page at }
    ensures same_length { (page : List ℕ) (to : ℕ) (bytes : List ℕ) → to + length bytes ≤ length page → length (with_bytes page to bytes) ≡ length page }
{}

fn fill_range(page: &mut [u8], at: usize, len: usize, value: u8)
    requires { at + len ≤ length page.old }
    ensures { page.new ≡ with_bytes page.old at (replicate len value) }
{
    page[at..at + len].fill(value);
}

fn copy_into(page: &mut [u8], at: usize, bytes: &[u8])
    requires { at + length bytes.now ≤ length page.old }
    ensures { page.new ≡ with_bytes page.old at bytes.now }
{
    page[at..at + bytes.len()].copy_from_slice(bytes);
}

impl Draft {
    /// Writes the byte at a place.
    pub fn write_u8(&mut self, at: usize, value: u8)
        requires { at + 1 ≤ 4096 }
        ensures { self.new ≡ with_bytes self.old at (value ∷ []) }
    {
        self.write_bytes(at, &[value]);
    }

    /// Writes the number of two bytes at a place.
    #[tactic(auto, unfolding(crate::specs::Fields::with_field))]
    pub fn write_u16(&mut self, at: usize, value: u16)
        requires { at + 2 ≤ 4096 }
        ensures { self.new ≡ with_field 2 self.old at value }
    {
        let mut bytes = [0; 2];
        BigEndian::write_u16(&mut bytes, value);
        self.write_bytes(at, &bytes);
    }

    /// Writes the number of four bytes at a place.
    #[tactic(auto, unfolding(crate::specs::Fields::with_field))]
    pub fn write_u32(&mut self, at: usize, value: u32)
        requires { at + 4 ≤ 4096 }
        ensures { self.new ≡ with_field 4 self.old at value }
    {
        let mut bytes = [0; 4];
        BigEndian::write_u32(&mut bytes, value);
        self.write_bytes(at, &bytes);
    }

    /// Writes the number of eight bytes at a place.
    #[tactic(auto, unfolding(crate::specs::Fields::with_field))]
    pub fn write_u64(&mut self, at: usize, value: u64)
        requires { at + 8 ≤ 4096 }
        ensures { self.new ≡ with_field 8 self.old at value }
    {
        let mut bytes = [0; 8];
        BigEndian::write_u64(&mut bytes, value);
        self.write_bytes(at, &bytes);
    }

    /// Writes bytes at a place.
    pub fn write_bytes(&mut self, at: usize, bytes: &[u8])
        requires { at + length bytes.now ≤ 4096 }
        ensures { self.new ≡ with_bytes self.old at bytes.now }
    {
        copy_into(self.bytes_mut(), at, bytes);
    }

    /// Writes one byte to `len` places.
    pub fn fill(&mut self, at: usize, len: usize, value: u8)
        requires { at + len ≤ 4096 }
        ensures { self.new ≡ with_bytes self.old at (replicate len value) }
    {
        fill_range(self.bytes_mut(), at, len, value);
    }

    /// Writes the `len` bytes at a place to another place.
    pub fn move_bytes(&mut self, from: usize, to: usize, len: usize)
        requires source { from + len ≤ 4096 }
        requires target { to + len ≤ 4096 }
        ensures { self.new ≡ with_bytes self.old to (bytes_at from len self.old) }
    {
        let old = *self.bytes();
        self.write_bytes(to, read_bytes(&old, from, len));
    }
}
