//! How one allocator's count changes in a list of ledgers that is in order of number.
ghost use Rattle.std.specs.Prelude.{◌≡◌, ◌+◌, ◌-◌, ◌^◌, ◌<◌, ◌≤◌, IfNone, OnSome, length};
ghost use Rattle.std.specs.Option.{SomeIff};
ghost use Rattle.smallvec.specs.SmallVec.{HasRoomFor};
ghost use Rattle.mem_model.specs.Ledgers.{AreInOrder, count_of, with_count};

use crate::place::place_of;
use mem_model::Ledger;
use mem_num::AllocId;
use smallvec::SmallVec;

/// Most chunks have one ledger, or two while a charge moves: these lie in the value itself, without memory.
pub(crate) type Entries = SmallVec<Ledger, 2>;

/// Adds one reference of an allocator, on a new ledger where it has none.
pub(crate) fn add_one(entries: &mut Entries, at: AllocId)
    requires order { AreInOrder entries.old.items }
    requires fits { count_of entries.old.items at.0 + 1 < 2 ^ 64 }
    requires within { length entries.old.items ≤ entries.old.capacity }
    requires room { count_of entries.old.items at.0 ≡ 0 → HasRoomFor entries.old 1 }
    ensures items { entries.new.items
        ≡ with_count entries.old.items at.0 (count_of entries.old.items at.0 + 1) }
    ensures capacity { entries.new.capacity ≡ entries.old.capacity }
    ensures within { length entries.new.items ≤ entries.new.capacity }
{
    match place_of(entries.as_slice(), at) {
        Ok(place) => entries[place].count += 1,
        Err(place) => entries.insert(place, Ledger { at, count: 1 }).unwrap(),
    }
}

/// Takes one reference of an allocator away, and tells how many are left; `None` where there was none.
pub(crate) fn take_one(entries: &mut Entries, at: AllocId) -> Option<u64>
    requires order { AreInOrder entries.old.items }
    requires within { length entries.old.items ≤ entries.old.capacity }
    ensures left { SomeIff result (1 ≤ count_of entries.old.items at.0) (count_of entries.old.items at.0 - 1) }
    ensures items { OnSome result (entries.new.items
        ≡ with_count entries.old.items at.0 (count_of entries.old.items at.0 - 1)) }
    ensures none { IfNone result (entries.new ≡ entries.old) }
    ensures capacity { entries.new.capacity ≡ entries.old.capacity }
    ensures within { length entries.new.items ≤ entries.new.capacity }
{
    let Ok(place) = place_of(entries.as_slice(), at) else {
        return None;
    };
    let left = entries[place].count - 1;
    if left == 0 {
        entries.remove(place);
    } else {
        entries[place].count = left;
    }
    Some(left)
}
