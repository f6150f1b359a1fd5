//! Lists of nodes in document order.
ghost use Rattle.std.specs.Prelude.{◌≡◌, ◌++◌, map, IfOk, IfErr, OnOk};
ghost use Rattle.xml_model.specs.DocumentOrder.{node_cmp, union};
ghost use Rattle.xml_model.specs.NavFaults.{Passes};

use crate::calls::order_of;
use crate::walks::IdList;
use std::alloc::Global;
use std::cmp::Ordering;
use xml_model::{Id, Nav, NavEnd};
use xq_ast::{NoMemory, Sequence};

fn add_all(all: &mut IdList, more: &[Id]) -> Result<(), NoMemory>
    ensures { OnOk result (all.new ≡ all.old ++ more.now) }
{
    for n in more {
        all.push(*n)?;
    }
    Ok(())
}

/// Two lists in document order as one, without duplicates.
pub fn merge<N: Nav>(alloc: Global, nav: &N, a: &[Id], b: &[Id]) -> Result<IdList, NavEnd<N::Fault>>
    ensures gives { IfOk result (λ all. N.honest nav.now → map (N.place nav.now) all ≡ union node_cmp (map (N.place nav.now) a.now) (map (N.place nav.now) b.now)) }
    ensures fault { IfErr result (Passes (N.passes nav.now)) }
{
    let mut all = Sequence::new(alloc);
    let mut left = a;
    let mut right = b;
    while let [x, xs @ ..] = left {
        let [y, ys @ ..] = right else {
            add_all(&mut all, left)?;
            return Ok(all);
        };
        let order = order_of(nav, *x, *y)?;
        match order {
            Ordering::Less => {
                all.push(*x)?;
                left = xs;
            }
            Ordering::Equal => {
                all.push(*x)?;
                left = xs;
                right = ys;
            }
            Ordering::Greater => {
                all.push(*y)?;
                right = ys;
            }
        }
    }
    add_all(&mut all, right)?;
    Ok(all)
}
