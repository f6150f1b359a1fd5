//! Arguments by their number.
ghost use Rattle.std.specs.Prelude.{◌≡◌, map};
ghost use Rattle.xml_model.specs.FunctionAnswers as spec;
ghost use Rattle.xq_values.specs.Seen.{item_seen};

use xml_model::Nav;
use xq_values::{Item, SharedItems};

/// The first argument; where there is none it has no items. The `Nav` is that of the items' nodes.
pub(crate) fn first_of<'a, N: Nav>(_nav: &N, args: &'a [SharedItems]) -> &'a [Item]
    ensures { map (item_seen (N.place _nav.now)) result.now ≡ spec.first_of (map (map (item_seen (N.place _nav.now))) args.now) }
{
    match args {
        [] => &[],
        [value, ..] => value.as_slice(),
    }
}

/// The second argument; where there is none it has no items. The `Nav` is that of the items' nodes.
pub(crate) fn second_of<'a, N: Nav>(_nav: &N, args: &'a [SharedItems]) -> &'a [Item]
    ensures { map (item_seen (N.place _nav.now)) result.now ≡ spec.second_of (map (map (item_seen (N.place _nav.now))) args.now) }
{
    match args {
        [] => &[],
        [_] => &[],
        [_, value, ..] => value.as_slice(),
    }
}
