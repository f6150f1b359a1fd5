//! What calls that keep to their own leave of node numbers.
ghost use Rattle.page_bytes.specs.Frames.{Call, before, behind};
ghost use Rattle.indirection.specs.Meaning.{NodeNumbers, MeansNumbers};
ghost use Rattle.indirection.specs.Sparing.{SparesNumbers};

/// The law of calls of other structures: where a call keeps to its own, and that has no page of kind 6 or 7, no field in
/// such a page, and nothing of node numbers' fields of the head, the pages mean the same numbers after it.
pub fn frame_law()
    ensures { (c : Call) (numbers : NodeNumbers) → SparesNumbers c → MeansNumbers (before c) numbers → MeansNumbers (behind c) numbers }
{}
