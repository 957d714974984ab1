//! The laws of headroom, level by level. Each function does nothing: its contract is a law, which the check proves.
ghost use Rattle.std.specs.Prelude.{◌≡◌, ◌||◌, true, pos, ◌+ℤ◌, ◌≤ℤ◌, Some, None};
ghost use Rattle.std.specs.Int.{int_min};
ghost use Rattle.std.specs.List.{Contains};
ghost use Rattle.mem_num.specs.declared.alloc_id.AllocId.{AllocId};
ghost use Rattle.mem_model.specs.declared.charge.Charge.{Charge};
ghost use Rattle.mem_model.specs.declared.tree_node.TreeNode.{TreeNode};
ghost use Rattle.mem_model.specs.TreeNode.{IsAllocatorTree};
ghost use Rattle.mem_model.specs.Request.{is_past_limit, refusing_level};
ghost use Rattle.mem_model.specs.Headroom.{headroom_of, free_at, unused_at, is_over_limit};
ghost use Rattle.mem_model.specs.TreeState.{TreeState, charges_in, held_at, is_open};

/// An allocator's headroom is the lesser of what its own limit leaves free and of its parent's headroom together with what of
/// its reservation it doesn't use; the root has no parent. After `BaseAllocator.getHeadroom` of Arrow Java.
pub fn a_parent_leaves_its_headroom_and_the_unused_reservation()
    ensures root { (state : TreeState) (node : TreeNode) →
        IsAllocatorTree state.nodes → Contains state.nodes node → node.parent ≡ None →
        headroom_of state node.number.0 ≡ free_at (held_at state) node }
    ensures child { (state : TreeState) (node : TreeNode) (parent : AllocId) →
        IsAllocatorTree state.nodes → Contains state.nodes node → node.parent ≡ Some parent →
        headroom_of state node.number.0 ≡ int_min (free_at (held_at state) node)
        (headroom_of state parent.0 +ℤ pos (unused_at (held_at state) node)) }
{}

/// An allocator is over a limit where it holds more than its own, or where its parent is over one. After
/// `BaseAllocator.isOverLimit`.
pub fn an_allocator_is_over_a_limit_where_its_parent_is()
    ensures root { (state : TreeState) (node : TreeNode) →
        IsAllocatorTree state.nodes → Contains state.nodes node → node.parent ≡ None →
        is_over_limit state node.number.0 ≡ is_past_limit state.nodes (charges_in state) node }
    ensures child { (state : TreeState) (node : TreeNode) (parent : AllocId) →
        IsAllocatorTree state.nodes → Contains state.nodes node → node.parent ≡ Some parent →
        is_over_limit state node.number.0
        ≡ (is_past_limit state.nodes (charges_in state) node || is_over_limit state parent.0) }
{}

/// A request within the headroom of an open allocator is refused by no level.
pub fn a_request_within_the_headroom_is_not_refused()
    ensures { (state : TreeState) (request : Charge) →
        IsAllocatorTree state.nodes → is_open state request.at.0 ≡ true →
        pos request.amount ≤ℤ headroom_of state request.at.0 →
        refusing_level state.nodes (charges_in state) request ≡ None }
{}
