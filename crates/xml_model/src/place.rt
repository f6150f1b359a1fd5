//! Places and document order.
ghost use Rattle.std.specs.Prelude.{◌≡◌, []};
ghost use Rattle.xml_model.specs.Place.{place_cmp, step_cmp};

use std::cmp::Ordering;
use xq_ast::Sequence;

/// A step from a node to one of its attributes or children, each counted from 0.
#[derive(Clone, Copy, Debug, PartialEq, Eq)]
pub enum PlaceStep {
    Attr(u32),
    Kid(u32),
}

/// Where a node stands: the steps to it from the document.
pub type Place = Sequence<PlaceStep>;

fn step_order(a: &PlaceStep, b: &PlaceStep) -> Ordering
    ensures { result ≡ step_cmp a.now b.now }
{
    match (a, b) {
        (PlaceStep::Attr(i), PlaceStep::Attr(j)) => i.cmp(j),
        (PlaceStep::Attr(_), PlaceStep::Kid(_)) => Ordering::Less,
        (PlaceStep::Kid(_), PlaceStep::Attr(_)) => Ordering::Greater,
        (PlaceStep::Kid(i), PlaceStep::Kid(j)) => i.cmp(j),
    }
}

fn steps_order(a: &[PlaceStep], b: &[PlaceStep]) -> Ordering
    ensures { result ≡ place_cmp a.now b.now }
{
    match a {
        [] => empty_order(b),
        [s, p @ ..] => match b {
            [] => Ordering::Greater,
            [t, q @ ..] => match step_order(s, t) {
                Ordering::Equal => steps_order(p, q),
                different => different,
            },
        },
    }
}

fn empty_order(b: &[PlaceStep]) -> Ordering
    ensures { result ≡ place_cmp [] b.now }
{
    match b {
        [] => Ordering::Equal,
        [_, ..] => Ordering::Less,
    }
}

/// The order of two places of one document: document order.
pub fn place_order(a: &Place, b: &Place) -> Ordering
    ensures { result ≡ place_cmp a.now b.now }
{
    steps_order(a.as_slice(), b.as_slice())
}
