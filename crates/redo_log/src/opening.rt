//! The law between what three files spell and what they open to.
// This function does nothing. Its contract is a law, proved over the definitions alone.

ghost use Rattle.std.specs.Prelude.{◌≡◌, ◌≤◌, ℕ, List, All, length, Ok};
ghost use Rattle.xq_ast.specs.declared.limits.TheConstants.{DOCUMENT_NAME_BYTES_MAX};
ghost use Rattle.page_device.specs.declared.device.Which.{Which};
ghost use Rattle.page_device.specs.Image.{Image};
ghost use Rattle.redo_log.specs.Reading.{IsBytes};
ghost use Rattle.redo_log.specs.Head.{Head, head_at};
ghost use Rattle.redo_log.specs.HeadBytes.{SpellHead};
ghost use Rattle.redo_log.specs.Opened.{Opened, opened};
ghost use Rattle.redo_log.specs.Opens.{HoldBytes, OpensBy, Opens};

/// Contents that spell a head that is taken, and records behind it, in the log that counts, open to its store. Contents that
/// open do so by such a head and such records. A head that is read is spelled so, each byte of it, and is taken.
/// The names of a head in a file of bytes are as short as a store's names are.
pub fn opening_laws()
    ensures opens { (c : Image) (file : Which) (o : Opened) → OpensBy c file o → opened c ≡ Ok o }
    ensures opened_by { (c : Image) (o : Opened) → HoldBytes c → opened c ≡ Ok o → Opens c o }
    ensures head { (held : ℕ) (bytes : List ℕ) (h : Head) (rest : List ℕ) → IsBytes bytes → head_at held bytes ≡ Ok (h, rest) → SpellHead held h bytes rest }
    ensures short { (c : Image) (file : Which) (o : Opened) → HoldBytes c → (by : OpensBy c file o) → All (λ n. length n.name ≤ DOCUMENT_NAME_BYTES_MAX) by.log.head.entries }
{}
