//! The buffers of a trace, by name.
ghost use Rattle.std.specs.Prelude.{◌≡◌, ◌+◌, ◌^◌, ◌<◌, false, OnOk, IfSome, length, is_some};
ghost use Rattle.script.specs.Bound.{IsWithin};
ghost use Rattle.script.specs.Buffers.{buffer_of, source_of, no_buffers, with_part, with_reference, with_given_back};

use crate::buffer::{Buffer, GivenRef};
use indexmap::IndexMap;
use mem_num::{NameText, Ref};
use std::alloc::{AllocError, Global};
use std::marker::Model;

/// Which name is bound to which buffer, in order of binding, and the references that were given. The names stand in the script.
#[derive(Drop)]
pub(crate) struct Buffers<'a> {
    bound: IndexMap<&'a str, Buffer>,
    given: Vec<GivenRef>,
}

impl<'a> Model for Buffers<'a> {
    ghost use Rattle.script.specs.Buffers.{BufferNames};
    ghost use Rattle.script.specs.Bound.{AreWithin, buffer_bindings};

    ghost Value = { BufferNames };

    ghost view = { λ buffers. record { bound = buffer_bindings buffers.bound.entries; given = buffers.given.items } };

    ghost invariant = { λ buffers. AreWithin (buffer_bindings buffers.bound.entries) };
}

impl<'a> Buffers<'a> {
    /// No names. Takes no memory.
    pub(crate) fn new(alloc: Global) -> Buffers<'a>
        ensures { result ≡ no_buffers }
    {
        Buffers {
            bound: IndexMap::new(alloc),
            given: Vec::new(alloc),
        }
    }

    /// Whether a name is bound. Takes no memory.
    pub(crate) fn is_bound(&self, name: &NameText) -> bool
        ensures { result ≡ is_some (buffer_of self.now.bound name.now) }
    {
        self.find(name).is_some()
    }

    fn find(&self, name: &NameText) -> Option<Buffer>
        ensures value { result ≡ buffer_of self.now.bound name.now }
        ensures fits { IfSome result IsWithin }
    {
        self.bound.get(name.as_str()).copied()
    }

    /// The buffer that a name is bound to, with its reference. Takes no memory.
    pub(crate) fn source(&self, name: &NameText) -> Option<(Buffer, GivenRef)>
        ensures value { result ≡ source_of self.now name.now }
        ensures within { IfSome result (λ source. source.0.place < length self.now.given) }
        ensures fits { IfSome result (λ source. IsWithin source.0) }
    {
        let buffer = self.find(name)?;
        let given = self.given.get(buffer.place)?;
        Some((buffer, *given))
    }

    /// Binds a free name to some bytes of a reference that was given before.
    pub(crate) fn share(&mut self, name: &NameText<'a>, buffer: Buffer) -> Result<(), AllocError>
        requires free { is_some (buffer_of self.old.bound name.now) ≡ false }
        requires fits { IsWithin buffer }
        ensures { OnOk result (self.new ≡ with_part self.old name.now buffer) }
    {
        self.bound.insert(name.as_str(), buffer)?;
        Ok(())
    }

    /// Binds a free name to some bytes of a new reference.
    pub(crate) fn give(
        &mut self,
        name: &NameText<'a>,
        reference: Ref,
        start: u64,
        len: u64,
    ) -> Result<(), AllocError>
        requires free { is_some (buffer_of self.old.bound name.now) ≡ false }
        requires fits { start + len < 2 ^ 63 }
        ensures { OnOk result (self.new ≡ with_reference self.old name.now reference start len) }
    {
        let place = self.given.len();
        self.given.push(GivenRef {
            reference,
            given_back: false,
        })?;
        self.share(name, Buffer { place, start, len })
    }

    /// The reference at a place was given back. Takes no memory.
    pub(crate) fn give_back(&mut self, place: usize, given: GivenRef)
        requires { place < length self.old.given }
        ensures { self.new ≡ with_given_back self.old place given }
    {
        self.given[place] = GivenRef {
            given_back: true,
            ..given
        };
    }
}
