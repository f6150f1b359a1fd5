//! One text page: its slots, and pieces that are put in and taken out.
ghost use Rattle.text_pages.specs.Putting as limits;
ghost use Rattle.std.specs.Prelude.{◌≡◌, ◌<◌, ◌≤◌, ◌+◌, length, IsTrue, IfSome};
ghost use Rattle.page_bytes.specs.Texts.{slot_at, slot_count, piece_at, piece_length, has_piece, next_piece};
ghost use Rattle.text_pages.specs.Slots as form;
ghost use Rattle.text_pages.specs.Inside.{IsHole};

use crate::forms::{Hole, LOWEST_AT, Place, SLOTS_AT, TEXT_KIND};
use page_bytes::{Draft, TextRef, read_u8, read_u16, read_u64};

/// Where a slot stands.
fn place_of_slot(slot: u16) -> usize
    ensures { result ≡ slot_at slot }
{
    8 + slot as usize * 4
}

/// Whether a page passes the test of a text page.
pub fn tests_slots(page: &[u8; 4096]) -> bool
    ensures test { result ≡ form.is_writable page.now }
    ensures long { length page.now ≡ 4096 }
{
    let slots_end = place_of_slot(read_u16(page, SLOTS_AT));
    let lowest = read_u16(page, LOWEST_AT) as usize;
    read_u8(page, 0) == TEXT_KIND && slots_end <= lowest && lowest <= 4096
}

/// The room between the slots and the lowest piece.
pub fn room_of(page: &[u8; 4096]) -> u16
    requires { IsTrue (form.is_writable page.now) }
    ensures room { result ≡ form.room page.now }
    ensures fits { result ≤ 4088 }
{
    let slots_end = 8 + read_u16(page, SLOTS_AT) * 4;
    read_u16(page, LOWEST_AT) - slots_end
}

/// Where the piece of a slot begins; 0 where the slot is free.
fn piece_start(page: &[u8; 4096], slot: u16) -> u16
    requires { slot < 1022 }
    ensures { result ≡ piece_at slot page.now }
{
    read_u16(page, place_of_slot(slot))
}

/// How long the piece of a slot is.
fn piece_size(page: &[u8; 4096], slot: u16) -> u16
    requires { slot < 1022 }
    ensures { result ≡ piece_length slot page.now }
{
    read_u16(page, place_of_slot(slot) + 2)
}

/// The slot that a new piece gets: the first free one, or else the one behind the last.
fn free_slot(page: &[u8; 4096]) -> u16
    requires { IsTrue (form.is_writable page.now) }
    ensures slot { result ≡ form.free_slot page.now }
    ensures bound { result ≤ slot_count page.now }
{
    let count = read_u16(page, SLOTS_AT);
    for slot in 0..count {
        if piece_start(page, slot) == 0 {
            return slot;
        }
    }
    count
}

/// The place for a piece of so many bytes, if the page has one.
pub fn place_on(page: &[u8; 4096], size: usize) -> Option<Place>
    requires slotted { IsTrue (form.is_writable page.now) }
    requires size { size ≤ limits.MOST_SIZE }
    ensures place { result ≡ form.place_for size page.now }
    ensures slot { IfSome result (λ place. place.slot < 1022) }
    ensures inside { IfSome result (λ place. place.at + size ≤ 4096) }
{
    let slots = read_u16(page, SLOTS_AT);
    let slot = free_slot(page);
    let count = if slot == slots { slots + 1 } else { slots };
    let lowest = read_u16(page, LOWEST_AT);
    if place_of_slot(count) + size > lowest as usize {
        return None;
    }
    let at = lowest - size as u16;
    Some(Place { slot, count, at })
}

/// Writes a slot.
fn write_slot(draft: &mut Draft, slot: u16, at: u16, length: u16)
    requires { slot < 1022 }
    ensures { draft.new ≡ form.with_slot slot at length draft.old }
{
    let place = place_of_slot(slot);
    draft.write_u16(place, at);
    draft.write_u16(place + 2, length);
}

/// Writes a piece: the reference to the next one, and its bytes of text.
fn write_content(draft: &mut Draft, at: u16, next: TextRef, text: &[u8])
    requires { at + (10 + length text.now) ≤ 4096 }
    ensures { draft.new ≡ form.with_content at next text.now draft.old }
{
    let at = at as usize;
    draft.write_u64(at, next.page);
    draft.write_u16(at + 8, next.slot);
    draft.write_bytes(at + 10, text);
}

/// Puts a piece in at a place.
pub fn put_in_place(draft: &mut Draft, place: Place, next: TextRef, text: &[u8])
    requires slot { place.slot < 1022 }
    requires inside { place.at + (10 + length text.now) ≤ 4096 }
    ensures { draft.new ≡ form.with_piece place next text.now draft.old }
{
    write_content(draft, place.at, next, text);
    write_slot(draft, place.slot, place.at, 10 + text.len() as u16);
    draft.write_u16(SLOTS_AT, place.count);
    draft.write_u16(LOWEST_AT, place.at);
}

/// Whether a text page has a piece in a slot.
pub fn tests_slot(page: &[u8; 4096], slot: u16) -> bool
    requires { IsTrue (form.is_writable page.now) }
    ensures { result ≡ has_piece slot page.now }
{
    if slot >= read_u16(page, SLOTS_AT) {
        return false;
    }
    piece_start(page, slot) != 0
}

/// Whether the piece of a slot may be taken out.
pub fn tests_piece(page: &[u8; 4096], slot: u16) -> bool
    requires slotted { IsTrue (form.is_writable page.now) }
    requires slot { IsTrue (has_piece slot page.now) }
    ensures { result ≡ form.may_go slot page.now }
{
    let slots_end = place_of_slot(read_u16(page, SLOTS_AT));
    let at = piece_start(page, slot) as usize;
    let size = piece_size(page, slot) as usize;
    slots_end <= at && size >= 11 && at + size <= 4096 && read_u16(page, LOWEST_AT) as usize <= at
}

/// The reference to the piece behind a slot's piece.
pub fn reference_behind(page: &[u8; 4096], slot: u16) -> TextRef
    requires slotted { IsTrue (form.is_writable page.now) }
    requires slot { IsTrue (has_piece slot page.now) }
    requires piece { IsTrue (form.may_go slot page.now) }
    ensures { result ≡ next_piece slot page.now }
{
    let at = piece_start(page, slot) as usize;
    TextRef {
        page: read_u64(page, at),
        slot: read_u16(page, at + 8),
    }
}

/// The hole that a slot's piece leaves.
pub fn hole_of(page: &[u8; 4096], slot: u16) -> Hole
    requires slotted { IsTrue (form.is_writable page.now) }
    requires slot { IsTrue (has_piece slot page.now) }
    requires piece { IsTrue (form.may_go slot page.now) }
    ensures hole { result ≡ form.hole_of slot page.now }
    ensures inside { IsHole result }
{
    Hole {
        slot,
        at: piece_start(page, slot),
        length: piece_size(page, slot),
        count: read_u16(page, SLOTS_AT),
        lowest: read_u16(page, LOWEST_AT),
    }
}

/// Whether a slot's piece is the only one of the page.
pub fn is_only_piece(page: &[u8; 4096], slot: u16) -> bool
    requires { IsTrue (form.is_writable page.now) }
    ensures { result ≡ form.is_only slot page.now }
{
    let count = read_u16(page, SLOTS_AT);
    let mut only = true;
    for other in 0..count {
        only = only && (other == slot || piece_start(page, other) == 0);
    }
    only
}

/// A slot follows its piece where that is below the hole.
fn move_slot(draft: &mut Draft, hole: &Hole, slot: u16)
    requires slot { slot < 1022 }
    requires inside { hole.now.at + hole.now.length ≤ 4096 }
    ensures { draft.new ≡ form.moved_slot hole.now slot draft.old }
{
    let at = piece_start(draft.bytes(), slot);
    if at != 0 && at < hole.at {
        draft.write_u16(place_of_slot(slot), at + hole.length);
    }
}

/// The slots follow the pieces that move.
fn move_slots(draft: &mut Draft, hole: &Hole)
    requires count { hole.now.count ≤ 1022 }
    requires inside { hole.now.at + hole.now.length ≤ 4096 }
    ensures { draft.new ≡ form.moved_slots hole.now hole.now.count draft.old }
{
    for slot in 0..hole.count {
        move_slot(draft, hole, slot);
    }
}

/// The pieces below the hole move up by its length.
fn move_pieces(draft: &mut Draft, hole: &Hole)
    requires lowest { hole.now.lowest ≤ hole.now.at }
    requires inside { hole.now.at + hole.now.length ≤ 4096 }
    ensures { draft.new ≡ form.moved_pieces hole.now draft.old }
{
    let lowest = hole.lowest as usize;
    let moved = hole.at as usize - lowest;
    draft.move_bytes(lowest, lowest + hole.length as usize, moved);
}

/// Takes a piece out.
pub fn close_hole(draft: &mut Draft, hole: &Hole)
    requires { IsHole hole.now }
    ensures { draft.new ≡ form.closed hole.now draft.old }
{
    move_pieces(draft, hole);
    move_slots(draft, hole);
    write_slot(draft, hole.slot, 0, 0);
    draft.write_u16(LOWEST_AT, hole.lowest + hole.length);
}
