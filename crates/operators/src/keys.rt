//! The keys of groups.
ghost use Rattle.std.specs.Prelude.{◌≡◌, ◌<◌, All, Some, [], get_or, length, map, slice_get, nat_eq, if◌then◌else◌, IsUtf8, IfOk, OnOk};
ghost use Rattle.std.specs.Cmp.Lexicographic.{pointwise};
ghost use Rattle.csv.specs.Records.{Rising, cut_from};
ghost use Rattle.indexmap.specs.IndexSet.{insert_key};
ghost use Rattle.query_model.specs.Answer.{distinct};
ghost use Rattle.query_model.specs.Cells.{IsOfKind, printed};
ghost use Rattle.query_model.specs.declared.cell.Cell.TheVariants as cell;
ghost use Rattle.query_model.specs.declared.kind.Kind.TheVariants as kind;
ghost use Rattle.row_text.specs.Slices.{IsSlice, cells_of_slice, kind_of};
ghost use Rattle.operators.specs.Groups.{keys_seen, marked_texts};

use crate::texts::{Texts, text_at};
use indexmap::IndexSet;
use itoa::{Buffer, Integer};
use row_text::ColumnSlice;
use std::alloc::{AllocError, Global};
use std::marker::Model;

/// Different keys, each as the bytes that are printed of it, in order of their first rows: seen as a list.
#[derive(Debug, Drop)]
pub(crate) struct Keys {
    keys: IndexSet<Vec<u8>>,
}

impl Model for Keys {
    ghost use Rattle.std.specs.Prelude.{ℕ, List, All, IsUtf8, map};

    ghost Value = { List (List ℕ) };

    ghost view = { λ a. map (λ key. key.items) a.keys.keys };

    ghost invariant = { λ a. All IsUtf8 (map (λ key. key.items) a.keys.keys) };
}

impl Keys {
    /// No keys. Takes no memory.
    pub(crate) fn new(alloc: Global) -> Keys
        ensures value { result ≡ [] }
    {
        Keys {
            keys: IndexSet::new(alloc),
        }
    }

    /// How many keys there are. Takes no memory.
    pub(crate) fn len(&self) -> usize
        ensures value { result ≡ length self.now }
        ensures utf8 { All IsUtf8 self.now }
    {
        self.keys.len()
    }

    /// The place of a key, which goes last where it is new.
    pub(crate) fn place_of(&mut self, key: &[u8]) -> Result<usize, AllocError>
        requires utf8 { IsUtf8 key.now }
        ensures keys { OnOk result (self.new ≡ insert_key (pointwise nat_eq) self.old key.now) }
        ensures place { IfOk result (λ place. slice_get self.new place ≡ Some key.now) }
    {
        if let Some(place) = self.keys.get_index_of(key) {
            return Ok(place);
        }
        let alloc = *self.keys.allocator();
        let copy = key.to_vec(alloc)?;
        let Ok((place, _)) = self.keys.insert_full(copy) else {
            return Err(AllocError);
        };
        Ok(place)
    }

    /// The place of the key of each cell of a column.
    pub(crate) fn places_of(
        &mut self,
        alloc: Global,
        column: &ColumnSlice<'_>,
    ) -> Result<Vec<usize>, AllocError>
        requires slices { IsSlice column.now }
        requires typed { All (IsOfKind (kind_of column.now)) (cells_of_slice column.now) }
        ensures keys { OnOk result (self.new ≡ keys_seen self.old (map printed (cells_of_slice column.now))) }
        ensures places { IfOk result (λ places.
            map (slice_get self.new) places.items ≡ map Some (map printed (cells_of_slice column.now))) }
    {
        match column {
            ColumnSlice::Ints { values, known } => self.places_of_numbers(alloc, values, known),
            ColumnSlice::Sums { values, known } => self.places_of_numbers(alloc, values, known),
            ColumnSlice::Texts { start, ends, bytes } => {
                self.places_of_texts(alloc, *start, ends, bytes)
            }
        }
    }

    // The places of numbers, each beside a mark that says whether it is known.
    fn places_of_numbers<I: Integer>(
        &mut self,
        alloc: Global,
        values: &[I],
        known: &[bool],
    ) -> Result<Vec<usize>, AllocError>
        requires marked { length values.now ≡ length known.now }
        ensures keys { OnOk result (self.new ≡ keys_seen self.old (marked_texts I.text values.now known.now)) }
        ensures places { IfOk result (λ places.
            map (slice_get self.new) places.items ≡ map Some (marked_texts I.text values.now known.now)) }
    {
        let mut places = Vec::with_capacity(alloc, values.len())?;
        'rows: for row in 0..values.len() {
            places.push_reserved(self.place_of_number(values[row], known[row])?);
        }
        Ok(places)
    }

    // The place of a number, and of no bytes where it isn't known.
    fn place_of_number<I: Integer>(&mut self, value: I, is_known: bool) -> Result<usize, AllocError>
        ensures keys { OnOk result (self.new ≡ insert_key (pointwise nat_eq) self.old (if is_known then I.text value else [])) }
        ensures place { IfOk result (λ place. slice_get self.new place ≡ Some (if is_known then I.text value else [])) }
    {
        if !is_known {
            return self.place_of(b"");
        }
        let mut buffer = Buffer::new();
        self.place_of(buffer.format(value).as_bytes())
    }

    // The places of texts that lie one after another.
    fn places_of_texts(
        &mut self,
        alloc: Global,
        start: u32,
        ends: &[u32],
        bytes: &[u8],
    ) -> Result<Vec<usize>, AllocError>
        requires rising { Rising start ends.now (length bytes.now) }
        requires typed { All (IsOfKind kind.Text) (map cell.Text (cut_from start ends.now bytes.now)) }
        ensures keys { OnOk result (self.new ≡ keys_seen self.old (cut_from start ends.now bytes.now)) }
        ensures places { IfOk result (λ places. map (slice_get self.new) places.items ≡ map Some (cut_from start ends.now bytes.now)) }
    {
        let mut places = Vec::with_capacity(alloc, ends.len())?;
        'rows: for row in 0..ends.len() {
            places.push_reserved(self.place_of(text_at(start, ends, bytes, row))?);
        }
        Ok(places)
    }

    /// The places of the keys in order of their bytes.
    pub(crate) fn order(&self, alloc: Global) -> Result<Vec<usize>, AllocError>
        ensures within { IfOk result (λ order. All (λ place. place < length self.now) order.items) }
        ensures order { IfOk result (λ order. map (λ place. get_or self.now place []) order.items ≡ distinct self.now) }
    {
        let keys = self.keys.as_slice();
        let mut named = Vec::with_capacity(alloc, keys.len())?;
        'keys: for place in 0..keys.len() {
            named.push_reserved((keys[place].as_slice(), place));
        }
        named.sort_unstable();
        let mut order = Vec::with_capacity(alloc, named.len())?;
        'named: for one in &named {
            order.push_reserved(one.1);
        }
        Ok(order)
    }

    /// The keys of some places as texts.
    pub(crate) fn texts(&self, alloc: Global, places: &[usize]) -> Result<Texts, AllocError>
        requires within { All (λ place. place < length self.now) places.now }
        ensures value { IfOk result (λ texts. texts ≡ map (λ place. cell.Text (get_or self.now place [])) places.now) }
    {
        let keys = self.keys.as_slice();
        let mut texts = Texts::with_capacity(alloc, places.len())?;
        'places: for place in places {
            texts.push(keys[*place].as_slice())?;
        }
        Ok(texts)
    }
}
