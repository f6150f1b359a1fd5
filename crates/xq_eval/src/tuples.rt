//! Tuples of FLWOR expressions, and their keys.
ghost use Rattle.std.specs.Prelude.{◌≡◌, [], ◌∷◌, ◌++◌, map, drop, IfOk, OnOk};
ghost use Rattle.xml_model.specs.Nav.{Stored};
ghost use Rattle.xml_model.specs.Tuples as spec;
ghost use Rattle.xml_model.specs.declared.nav.Id.{Id};
ghost use Rattle.xq_eval.specs.Scopes.{variables_seen};
ghost use Rattle.xq_eval.specs.TuplesSeen.{keyed_seen, tuples_seen};

use std::alloc::Global;
use xml_model::{Key, KeyType};
use xq_ast::{NoMemory, Sequence};
use xq_values::{Bindings, Row, Variable};

/// The keys of a tuple, and the types at their places.
#[derive(Debug, Drop)]
pub(crate) struct Keyed {
    pub(crate) keys: Sequence<Key>,
    pub(crate) types: Sequence<KeyType>,
}

/// The tuples so far, and the types of their keys.
#[derive(Debug, Drop)]
pub(crate) struct Tuples {
    pub(crate) types: Sequence<KeyType>,
    pub(crate) rows: Sequence<Row>,
}

/// Copies of variables. Their names and values are shared.
pub(crate) fn copies(alloc: Global, variables: &[Variable]) -> Result<Bindings, NoMemory>
    ensures { IfOk result (λ all. all ≡ variables.now) }
{
    let mut all = Sequence::new(alloc);
    for variable in variables {
        all.push(variable.copy()?)?;
    }
    Ok(all)
}

/// Binds more variables.
pub(crate) fn bind_more(env: &mut Bindings, more: &[Variable]) -> Result<(), NoMemory>
    ensures { OnOk result (env.new ≡ env.old ++ more.now) }
{
    for variable in more {
        env.push(variable.copy()?)?;
    }
    Ok(())
}

/// No tuples.
pub(crate) fn no_tuples(alloc: Global) -> Tuples
    ensures { (place : Id → Stored) → tuples_seen place result ≡ spec.no_tuples }
{
    Tuples {
        types: Sequence::new(alloc),
        rows: Sequence::new(alloc),
    }
}

/// No keys.
pub(crate) fn no_keys(alloc: Global) -> Keyed
    ensures { keyed_seen result ≡ spec.no_keys }
{
    Keyed {
        keys: Sequence::new(alloc),
        types: Sequence::new(alloc),
    }
}

/// The type of the keys at a place.
pub(crate) fn type_at(types: &[KeyType], place: usize) -> KeyType
    ensures { result ≡ spec.first_type (drop place types.now) }
{
    match types.get(place) {
        Some(key_type) => *key_type,
        None => KeyType::Unknown,
    }
}

/// One key more.
pub(crate) fn add_key(all: &mut Keyed, key: Key, key_type: KeyType) -> Result<(), NoMemory>
    ensures { OnOk result (keyed_seen all.new ≡ spec.with_key (keyed_seen all.old) key key_type) }
{
    all.keys.push(key)?;
    all.types.push(key_type)?;
    Ok(())
}

/// One tuple more.
pub(crate) fn with_row(found: Tuples, bindings: Bindings, keyed: Keyed) -> Result<Tuples, NoMemory>
    ensures { (place : Id → Stored) → IfOk result (λ all. tuples_seen place all ≡ spec.with_row (tuples_seen place found) (variables_seen place bindings) (keyed_seen keyed)) }
{
    let Tuples { types: _, mut rows } = found;
    let Keyed { keys, types } = keyed;
    rows.push(Row { keys, bindings })?;
    Ok(Tuples { types, rows })
}
