//! The laws of numbers that are kept in place of sums. Each function does nothing: its contract is a law, which the check proves.
ghost use Rattle.std.specs.Prelude.{◌≡◌, ℕ, ◌+◌, ◌-◌, ◌<◌, ◌≤◌, min, false, List, Some};
ghost use Rattle.std.specs.List.{Contains};
ghost use Rattle.mem_model.specs.declared.charge.Charge.{Charge};
ghost use Rattle.mem_model.specs.declared.tree_node.TreeNode.{TreeNode};
ghost use Rattle.mem_model.specs.TreeNode.{IsAllocatorTree};
ghost use Rattle.mem_model.specs.Held.{held_of};
ghost use Rattle.mem_model.specs.Balance.{Balances, LacksAmount, ExceedsByAmount, raised, lowered};
ghost use Rattle.mem_model.specs.Reservation.{beyond_reservation};

/// Numbers that balance at every allocator are what is held.
pub fn numbers_that_balance_are_held()
    ensures { (nodes : List TreeNode) (charges : List Charge) (held : ℕ → ℕ) →
        IsAllocatorTree nodes → Balances nodes charges held → (n : ℕ) → held n ≡ held_of nodes charges n }
{}

/// What is held balances, at every number: the converse.
pub fn what_is_held_balances()
    ensures { (nodes : List TreeNode) (charges : List Charge) →
        IsAllocatorTree nodes → Balances nodes charges (held_of nodes charges) }
{}

/// Where anything is passed up, it is what is held beyond the reservation, or all that was added, whichever is less, as
/// `Accountant.allocate` of Arrow Java reckons it; within the reservation it is nothing.
pub fn what_is_passed_up_is_beyond_the_reservation()
    ensures beyond { (reservation low high : ℕ) → low ≤ high → 0 < beyond_reservation reservation low high →
        beyond_reservation reservation low high ≡ min (high - reservation) (high - low) }
    ensures within { (reservation low high : ℕ) → high ≤ reservation →
        beyond_reservation reservation low high ≡ 0 }
{}

/// What a level passes up is what its parent counts more: where an amount is still to be added at an open node, adding it there
/// leaves what is beyond the node's reservation to be added at its parent. After `Accountant.allocate` of Arrow Java.
pub fn a_rise_passes_on_what_is_beyond_the_reservation()
    ensures { (nodes : List TreeNode) (charges : List Charge) (held : ℕ → ℕ) (node : TreeNode) (amount : ℕ) →
        IsAllocatorTree nodes → Contains nodes node → node.closed ≡ false →
        LacksAmount nodes charges held (Some node.number) amount →
        LacksAmount nodes charges (raised held node.number.0 amount) node.parent
        (beyond_reservation node.reservation (held node.number.0) (held node.number.0 + amount)) }
{}

/// The same downwards: what a node subtracts leaves what was beyond its reservation to be subtracted at its parent. After
/// `Accountant.releaseBytes`.
pub fn a_fall_passes_on_what_was_beyond_the_reservation()
    ensures { (nodes : List TreeNode) (charges : List Charge) (held : ℕ → ℕ) (node : TreeNode) (amount : ℕ) →
        IsAllocatorTree nodes → Contains nodes node → node.closed ≡ false →
        ExceedsByAmount nodes charges held (Some node.number) amount →
        ExceedsByAmount nodes charges (lowered held node.number.0 amount) node.parent
        (beyond_reservation node.reservation (held node.number.0 - amount) (held node.number.0)) }
{}
