//! The laws of a request's way to the root. Each function does nothing: its contract is a law, which the check proves.
ghost use Rattle.std.specs.Prelude.{◌≡◌, ◌<◌, ◌&&◌, List, ◌∷◌, filter, reverse, Some};
ghost use Rattle.std.specs.List.{Contains, find};
ghost use Rattle.mem_model.specs.declared.charge.Charge.{Charge};
ghost use Rattle.mem_model.specs.declared.tree_node.TreeNode.{TreeNode};
ghost use Rattle.mem_model.specs.Headroom.{path_of};
ghost use Rattle.mem_model.specs.Request.{is_level, is_past_limit, levels_of, lowest, refusing_level};
ghost use Rattle.mem_model.specs.TreeNode.{IsAllocatorTree};

/// The levels of a request are allocators on the path from its own to the root, the nearest to the root first. So the level that
/// refuses it is the first that is taken past its limit on the way up, where `Accountant.allocate` of Arrow Java stops.
pub fn levels_stand_on_the_path_to_the_root()
    ensures levels { (nodes : List TreeNode) (charges : List Charge) (request : Charge) →
        IsAllocatorTree nodes →
        levels_of nodes charges request ≡ reverse (filter (is_level nodes charges request) (path_of nodes request.at.0)) }
    ensures refusing { (nodes : List TreeNode) (charges : List Charge) (request : Charge) →
        IsAllocatorTree nodes →
        refusing_level nodes charges request
        ≡ find (λ node. is_level nodes charges request node && is_past_limit nodes (request ∷ charges) node) (path_of nodes request.at.0) }

    // A request of some bytes begins at its own allocator.
    ensures own { (nodes : List TreeNode) (charges : List Charge) (request : Charge) (node : TreeNode) →
        IsAllocatorTree nodes → Contains nodes node → node.number ≡ request.at → 0 < request.amount →
        lowest (levels_of nodes charges request) ≡ Some node }
{}
