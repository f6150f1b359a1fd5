// The order of bytes.
ghost use Rattle.std.specs.Prelude.{◌≡◌};
ghost use Rattle.order_labels.specs.LabelOrder.{byte_order};

use std::cmp::Ordering;

/// The order of bytes, a prefix before what it begins.
pub(crate) fn compare(a: &[u8], b: &[u8]) -> Ordering
    ensures { result ≡ byte_order a.now b.now }
{
    a.cmp(b)
}
