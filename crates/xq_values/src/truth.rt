//! The effective boolean value.
ghost use Rattle.std.specs.Prelude.{◌≡◌, map};
ghost use Rattle.xml_model.specs.Atoms as spec;
ghost use Rattle.xml_model.specs.Nav.{Stored};
ghost use Rattle.xml_model.specs.declared.nav.Id.{Id};
ghost use Rattle.xq_values.specs.Seen.{item_seen};

use crate::item::Item;
use xq_ast::Code;

/// The effective boolean value of a list. Takes no memory.
pub fn effective_boolean(items: &[Item]) -> Result<bool, Code>
    ensures { (place : Id → Stored) → result ≡ spec.effective_boolean (map (item_seen place) items.now) }
{
    match items {
        [] => Ok(false),
        [Item::Node { .. }, ..] => Ok(true),
        [Item::Text { text }] => Ok(!text.as_str().is_empty()),
        [Item::Int { value }] => Ok(*value != 0),
        [Item::Truth { value }] => Ok(*value),
        _ => Err(Code::FORG0006),
    }
}
