//! The set of the names in a list of attributes, as places in the list: no name is copied.
ghost use Rattle.std.specs.Prelude.{◌≡◌, ◌+◌, ◌-◌, ◌/◌, ◌%◌, ◌<◌, ◌≤◌, ◌++◌, ◌∷◌, [], true, false, OnOk, OnErr, IfErr, IfOk, IfSome, is_none, length};
ghost use Rattle.xml_model.specs.Trees.{has_attribute};
ghost use Rattle.pyx_text.specs.declared.places.TheConstants.{NUMBERS};
ghost use Rattle.pyx_text.specs.Ways.{hash_of, half_of, way_of, name_at, HoldsName, Tied, IsFree, IsWord};

use crate::fault::PyxFault;
use std::alloc::Global;
use xml_model::Attr;

// From each place so many ways lead on, one for each value of a bit of a name.
const WAYS: usize = 2;

// With so many names a head the heads are made anew, as many as there are names and these.
const NAMES_A_HEAD: usize = 4;

const SPARE_HEADS: usize = 16;

// A cell's word is a place's number, which is below this, and above it the mark of the name there. So most names
// are told apart by their marks, and are not looked at where they stand.
const NUMBERS: u32 = 8_388_608;

// A name's hash is a polynomial at this point, modulo this prime.
const HASH_POINT: u64 = 16_777_619;

const HASH_PRIME: u64 = 4_294_967_291;

/// The places of a list's names. A name's hash gives a head, and the bits of the name the ways from there: each
/// cell of a head or a way holds the number of a later place, from 1, or else is free. So names meet only where
/// their hashes do, and whatever the names are, one is compared at most with as many others as it has bits.
#[derive(Drop)]
pub(crate) struct Places {
    heads: usize,
    cells: Vec<u32>,
}

fn hash(name: &[u8]) -> u32
    ensures { result ≡ hash_of name.now }
{
    let mut hash = 0;
    for byte in name {
        hash = (hash * HASH_POINT + *byte as u64) % HASH_PRIME;
    }
    hash as u32
}

// The number of the place in a word, from 1, or 0.
fn number_in(word: u32) -> usize
    ensures { result ≡ word % NUMBERS }
{
    (word % NUMBERS) as usize
}

// The word of a place with this number, whose name has this hash.
fn word_of(hash: u32, number: u32) -> u32
    requires { number < NUMBERS }
    ensures { IsWord result hash number }
{
    hash / NUMBERS * NUMBERS + number
}

// Whether the place in a word has the name.
fn is_at(attrs: &[Attr], word: u32, hash: u32, name: &str) -> bool
    requires some { 0 < word % NUMBERS }
    requires within { word % NUMBERS ≤ length attrs.now }
    requires marked { word / NUMBERS ≡ hash_of (name_at attrs.now (word % NUMBERS - 1)) / NUMBERS }
    requires hash { hash ≡ hash_of name.now }
    ensures { HoldsName result attrs.now (word % NUMBERS - 1) name.now }
{
    word / NUMBERS == hash / NUMBERS && attrs[number_in(word) - 1].name.as_str() == name
}

// A half of one of the name's bytes, the last byte first: the lower halves of all bytes, and then the upper ones,
// since names differ most at their ends and in the lower halves.
fn half(name: &[u8], index: usize) -> u8
    ensures { result ≡ half_of name.now index }
{
    if index < name.len() {
        return name[name.len() - 1 - index];
    }
    match name.get(index - name.len()) {
        Some(byte) => *byte / 16,
        None => 0,
    }
}

// The way that a name takes at a depth.
fn way(name: &str, depth: usize) -> usize
    ensures same { result ≡ way_of name.now depth }
    ensures within { result < 2 }
{
    let half = half(name.as_bytes(), depth / 4);
    let bits = match depth % 4 {
        0 => half,
        1 => half / 2,
        2 => half / 4,
        _ => half / 8,
    };
    (bits % 2) as usize
}

impl Places {
    /// The places of no names. Takes no memory.
    pub(crate) fn new(alloc: Global) -> Places
        ensures { Tied [] result.heads result.cells.items }
    {
        Places {
            heads: 0,
            cells: Vec::new(alloc),
        }
    }

    // The cell of a name's place, which is free, or `None` where one of the attributes has the name.
    fn free_cell(&self, attrs: &[Attr], name: &str) -> Option<usize>
        requires tied { Tied attrs.now self.now.heads self.now.cells.items }
        requires headed { 0 < self.now.heads }
        ensures has { is_none result ≡ has_attribute name.now attrs.now }
        ensures free { IfSome result (λ cell. IsFree attrs.now self.now.heads self.now.cells.items name.now cell) }
    {
        let hash = hash(name.as_bytes());
        let mut cell = hash as usize % self.heads;
        let mut from = 0;
        let mut depth = 0;
        let mut next = number_in(self.cells[cell]);
        while from < next {
            if is_at(attrs, self.cells[cell], hash, name) {
                return None;
            }
            cell = self.heads + (next - 1) * WAYS + way(name, depth);
            from = next;
            depth += 1;
            next = number_in(self.cells[cell]);
        }
        Some(cell)
    }

    /// Whether one of the attributes has the name.
    pub(crate) fn has(&self, attrs: &[Attr], name: &str) -> bool
        requires { Tied attrs.now self.now.heads self.now.cells.items }
        ensures { result ≡ has_attribute name.now attrs.now }
    {
        self.heads > 0 && self.free_cell(attrs, name).is_none()
    }

    // Adds the place of an attribute of this name at the list's end. After an error nothing has changed.
    fn put(&mut self, attrs: &[Attr], name: &str) -> Result<(), PyxFault>
        requires tied { Tied attrs.now self.old.heads self.old.cells.items }
        requires headed { 0 < self.old.heads }
        ensures ok { OnOk result ((a : Attr) → a.name ≡ name.now → Tied (attrs.now ++ a ∷ []) self.new.heads self.new.cells.items) }
        ensures err { OnErr result (self.new.cells.items ≡ self.old.cells.items) }
        ensures heads { self.new.heads ≡ self.old.heads }
        ensures memory { IfErr result (λ e. e ≡ PyxFault.NoMemory) }
    {
        if attrs.len() + 1 >= NUMBERS as usize {
            return Err(PyxFault::NoMemory);
        }
        let word = word_of(hash(name.as_bytes()), (attrs.len() + 1) as u32);
        let free = self.free_cell(attrs, name);
        self.cells.extend_from_slice(&[0; WAYS])?;
        if let Some(cell) = free {
            self.cells[cell] = word;
        }
        Ok(())
    }

    // The places of these attributes' names, with so many heads.
    fn of(alloc: Global, attrs: &[Attr], heads: usize) -> Result<Places, PyxFault>
        requires { 0 < heads }
        ensures tied { IfOk result (λ p. Tied attrs.now p.heads p.cells.items) }
        ensures heads { IfOk result (λ p. p.heads ≡ heads) }
        ensures memory { IfErr result (λ e. e ≡ PyxFault.NoMemory) }
    {
        let mut places = Places {
            heads,
            cells: vec![in alloc; 0; heads]?,
        };
        for (index, attr) in attrs.iter().enumerate() {
            places.put(&attrs[..index], attr.name.as_str())?;
        }
        Ok(places)
    }

    /// Adds the place of an attribute of this name at the list's end. After an error all is as it was.
    pub(crate) fn add(&mut self, alloc: Global, attrs: &[Attr], name: &str) -> Result<(), PyxFault>
        requires { Tied attrs.now self.old.heads self.old.cells.items }
        ensures ok { OnOk result ((a : Attr) → a.name ≡ name.now → Tied (attrs.now ++ a ∷ []) self.new.heads self.new.cells.items) }
        ensures err { OnErr result (Tied attrs.now self.new.heads self.new.cells.items) }
        ensures memory { IfErr result (λ e. e ≡ PyxFault.NoMemory) }
    {
        if attrs.len() / NAMES_A_HEAD >= self.heads {
            *self = Places::of(alloc, attrs, attrs.len() + SPARE_HEADS)?;
        }
        self.put(attrs, name)
    }
}
