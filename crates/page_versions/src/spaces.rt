//! A list of spaces. Contracts see it as a list.
ghost use Rattle.std.specs.Prelude.{◌≡◌};
ghost use Rattle.page_versions.specs.Staging.{is_dropped};

use page_bytes::Space;
use std::marker::Model;

/// A list of spaces.
#[derive(Drop)]
pub struct SpaceList {
    items: Vec<Space>,
}

impl Model for SpaceList {
    ghost use Rattle.std.specs.Prelude.{List};
    ghost use Rattle.page_bytes.specs.declared.ids.Space.{Space};

    ghost Value = { List Space };

    ghost view = { λ l. l.items.items };
}

impl SpaceList {
    /// The list of these spaces.
    pub fn of(items: Vec<Space>) -> SpaceList
        ensures { result ≡ items.items }
    {
        SpaceList { items }
    }

    /// The spaces.
    pub fn as_slice(&self) -> &[Space]
        ensures { result.now ≡ self.now }
    {
        self.items.as_slice()
    }

    /// The spaces, given back.
    pub fn into_vec(self) -> Vec<Space>
        ensures { result.items ≡ self }
    {
        let SpaceList { items } = self;
        items
    }
}

/// Whether the space is one of these.
pub fn has_space(spaces: &[Space], space: Space) -> bool
    ensures { result ≡ is_dropped spaces.now space }
{
    spaces.iter().any(|other| *other == space)
}
