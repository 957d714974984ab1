//! The events that add a use of a node and give it back.
ghost use Rattle.std.specs.Prelude.{◌≡◌, ◌+◌, ◌^◌, ◌<◌, IfOk, OnErr};
ghost use Rattle.acct_core.specs.Effects.{enter_effect, leave_effect};
ghost use Rattle.acct_core.specs.Slots.{CanLeave, HasEffect, HasNoEffect};

use crate::not_now::NotNow;
use crate::row::Row;
use crate::slot::Slot;
use crate::stage::Stage;
use crate::told::Told;

impl Slot {
    /// Adds a use of the node.
    pub(super) fn enter(&mut self, node: u32, row: &mut Row) -> Result<Told, NotNow>
        requires { row.old.uses + 1 < 2 ^ 64 }
        ensures ok { IfOk result (λ told. HasEffect (enter_effect node) self.old row.old told self.new row.new) }
        ensures not_now { OnErr result (HasNoEffect (enter_effect node) self.old row.old) }
        ensures unchanged { OnErr result ((self.new ≡ self.old) × (row.new ≡ row.old)) }
    {
        if self.stage != Stage::Free || !row.shape.made {
            return Err(NotNow);
        }
        let uses = row.uses;
        row.uses = uses + 1;
        self.node = node;
        if row.shape.is_open {
            self.stage = Stage::In;
            Ok(Told::Entered)
        } else {
            self.stage = Stage::Bounced;
            Ok(Told::Bounced { uses })
        }
    }

    /// Gives the use of the node back, if the claim has no charge and no child stands on it.
    pub(super) fn leave(&mut self, row: &mut Row) -> Result<Told, NotNow>
        requires { CanLeave self.old.stage row.old }
        ensures ok { IfOk result (λ told. HasEffect leave_effect self.old row.old told self.new row.new) }
        ensures not_now { OnErr result (HasNoEffect leave_effect self.old row.old) }
        ensures unchanged { OnErr result ((self.new ≡ self.old) × (row.new ≡ row.old)) }
    {
        if self.under.is_some() {
            return Err(NotNow);
        }
        match self.stage {
            Stage::In | Stage::Bounced => {
                row.uses -= 1;
                self.stage = Stage::Free;
                Ok(Told::Left)
            }
            _ => Err(NotNow),
        }
    }
}
