//! The laws between the bytes of a record and its reading, and those by which a store that was read is carried on.
ghost use Rattle.std.specs.Prelude.{◌≡◌, ◌≤◌, ℕ, List, All, [], ◌++◌, ◌∷◌, Ok, drop, length};
ghost use Rattle.std.specs.List.{flat_map};
ghost use Rattle.xq_ast.specs.declared.limits.TheConstants.{DOCUMENT_NAME_BYTES_MAX};
ghost use Rattle.page_bytes.specs.Known.{PageIds, PageMap};
ghost use Rattle.redo_log.specs.declared.change.Change.{Change};
ghost use Rattle.redo_log.specs.declared.store.Store.{Store};
ghost use Rattle.redo_log.specs.Record.{record_of};
ghost use Rattle.redo_log.specs.Store.{after, after_all, pages_after, HaveSameKeys, no_image, whole_image};
ghost use Rattle.redo_log.specs.Names.{Names};
ghost use Rattle.redo_log.specs.Taken.{AreOwn, IsTaken, AreTaken};
ghost use Rattle.redo_log.specs.Reading.{IsBytes, IsClosed, AreRecords, IsRefused, record_at};

/// What is read is spelled so, each byte of it. What is spelled is read again, where the store takes it; so are the
/// records of commits that follow each other, up to a closed gate.
#[tactic(auto, using(crate::proofs::Takes::record_spelled, crate::proofs::Again::record_again, crate::proofs::Again::records_again))]
pub fn record_laws()
    ensures spelled { (s : Store) (bytes : List ℕ) (c : Change) (rest : List ℕ) → IsBytes bytes → record_at s bytes ≡ Ok (c, rest) → 1 ∷ bytes ≡ record_of c ++ rest }
    ensures again { (s : Store) (c : Change) (gate : ℕ) (rest : List ℕ) → IsTaken s c → record_at s (drop 1 (record_of c) ++ gate ∷ rest) ≡ Ok (c, gate ∷ rest) }
    ensures all { (cs : List Change) (s : Store) (end : List ℕ) → AreTaken s cs → IsClosed end → AreRecords s cs (flat_map record_of cs ++ end) end }
{}

/// A store takes the records that it reads, and one more after them if it takes that one then. What bytes are records of
/// is one list of changes with one end, and they are refused nowhere. A name that is taken is as short as `build` asks.
pub fn scan_laws()
    ensures taken { (cs : List Change) (s : Store) (bytes end : List ℕ) → IsBytes bytes → AreRecords s cs bytes end → AreTaken s cs }
    ensures goes_on { (cs : List Change) (s : Store) (c : Change) → AreTaken s cs → IsTaken (after_all cs s) c → AreTaken s (cs ++ c ∷ []) }
    ensures one { (cs ds : List Change) (s : Store) (bytes end fin : List ℕ) → AreRecords s cs bytes end → AreRecords s ds bytes fin → (cs ≡ ds) × (end ≡ fin) }
    ensures sure { (cs ds : List Change) (s : Store) (bytes end : List ℕ) (left : ℕ) → AreRecords s cs bytes end → IsRefused s ds bytes left → ⊥ }
    ensures short { (s : Store) (c : Change) → IsTaken s c → All (λ n. length n.name ≤ DOCUMENT_NAME_BYTES_MAX) c.names }
{}

/// The pages that are there, and the images of pages, are two maps of which a record makes the same: the pages that are
/// there stay those of which there is an image. The spaces that are in use stay those of the documents, one each.
pub fn page_laws()
    ensures store { (c : Change) (s : Store) → (after c s).pages ≡ pages_after no_image c s.names s.pages }
    ensures keys { (c : Change) (names : Names) (ids : PageIds) (images : PageMap) → HaveSameKeys ids images → HaveSameKeys (pages_after no_image c names ids) (pages_after whole_image c names images) }
    ensures own { (s : Store) (c : Change) → AreOwn s.names s.spaces → IsTaken s c → AreOwn (after c s).names (after c s).spaces }
{}
