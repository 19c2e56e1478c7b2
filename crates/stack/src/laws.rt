//! What is proved of every stack, on functions that have nothing to do but to say it.

ghost use Rattle.stack.specs.Laws.{EditsReachLayers};

/// An edit of a swapped or mirrored sheet, which is one of the sheet below, does to the layer's own links and free just what that edit is defined
/// to do: so operations on a layer and on the sheet below may be mixed in any order.
pub fn edits_reach_layers()
    ensures { EditsReachLayers }
{}
