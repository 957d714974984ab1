//! Keys of groups.
ghost use Rattle.std.specs.Prelude.{◌≡◌, map, IfOk, OnOk};
ghost use Rattle.query_model.specs.Answer as spec;

use crate::cells::Cells;
use crate::text::Text;
use std::alloc::{AllocError, Global};
use std::cmp::Ordering;

/// The keys of rows, each once, in order of bytes.
pub(crate) fn keys_of(alloc: Global, column: usize, rows: &[Cells]) -> Result<Vec<Text>, AllocError>
    ensures { IfOk result (λ keys. keys.items ≡ spec.distinct (map (spec.key_of column) rows.now)) }
{
    let mut keys = Vec::new(alloc);
    for row in rows {
        put_key(&mut keys, row.cell_at(alloc, column)?.printed(alloc)?)?;
    }
    Ok(keys)
}

// Puts a key among keys in order, unless it is there.
fn put_key(keys: &mut Vec<Text>, key: Text) -> Result<(), AllocError>
    ensures { OnOk result (keys.new.items ≡ spec.with_key key keys.old.items) }
{
    let mut place = 0;
    while place < keys.len() {
        match key.as_str().cmp(keys[place].as_str()) {
            Ordering::Less => {
                keys.insert(place, key)?;
                return Ok(());
            }
            Ordering::Equal => return Ok(()),
            Ordering::Greater => place += 1,
        }
    }
    keys.push(key)?;
    Ok(())
}
