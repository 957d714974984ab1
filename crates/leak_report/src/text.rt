//! The text of a tree: its open allocators, each below its parent. The numbers of all allocators are taken once, in order of
//! number; then each allocator's children are found among those behind it, since a child has a greater number than its parent.
ghost use Rattle.std.specs.Prelude.{◌≡◌, ◌+◌, ◌^◌, ◌<◌, ◌==◌, length, map, ◌++◌, All, IfOk, OnOk, string_bytes};
ghost use Rattle.std.specs.List.{find};
ghost use Rattle.mem_model.specs.LawfulState.{IsLawfulState};
ghost use Rattle.mem_model.specs.MeasuredTree.{peak_at};
ghost use Rattle.leak_report.specs.TreeText as spec;

use alloc_tree::{Names, SoloTree, every_tree_is_lawful};
use mem_num::{AllocId, MOST_ALLOCATORS, NoMemory, Node, Placed};
use std::alloc::{AllocError, Global};

/// The open allocators of a tree, a line for each, behind that of its parent and two spaces deeper; children come in order of
/// number. A line is that of `BaseAllocator.toString` of Arrow Java, with the number before it and with the name that the first
/// of `names` gives, or `?`. A tree whose root is closed has no lines.
pub fn tree_text(alloc: Global, tree: &SoloTree, names: &[Names]) -> Result<String, NoMemory>
    ensures { IfOk result (λ text. string_bytes text
        ≡ spec.tree_text (map (λ n. n.bindings) names.now) (peak_at tree.now) tree.now.state) }
{
    let Ok(nodes) = placed_nodes(alloc, tree) else {
        return Err(NoMemory);
    };
    match placed_text(alloc, &nodes, names) {
        Ok(text) => Ok(text),
        Err(_) => Err(NoMemory),
    }
}

/// The allocators of a tree with their numbers, in order of number. The tree is lawful, and peaks have 64 bits.
pub(crate) fn placed_nodes(alloc: Global, tree: &SoloTree) -> Result<Vec<Placed>, AllocError>
    ensures nodes { IfOk result (λ nodes. nodes.items ≡ spec.placed_nodes (peak_at tree.now) tree.now.state) }
    ensures lawful { IsLawfulState tree.now.state }
    ensures peaks { OnOk result (All (λ node. peak_at tree.now node.number.0 < 2 ^ 64) tree.now.state.nodes) }
{
    every_tree_is_lawful(tree);
    let mut nodes = Vec::new(alloc);
    // A number that was given isn't always one of an allocator: some were refused.
    for number in 0..tree.next().min(MOST_ALLOCATORS) {
        if let Some(node) = tree.node(AllocId(number)) {
            has_short_peak(&node);
            nodes.push(node)?;
        }
    }
    Ok(nodes)
}

// The peak of an allocator has 64 bits. It does nothing but read it.
fn has_short_peak(node: &Placed)
    ensures { node.now.node.peak < 2 ^ 64 }
{
    let _peak = node.node.peak;
}

/// The text of some allocators, which stand in order of number.
pub(crate) fn placed_text(
    alloc: Global,
    nodes: &[Placed],
    names: &[Names],
) -> Result<String, AllocError>
    ensures { IfOk result (λ text. string_bytes text ≡ spec.placed_text (map (λ n. n.bindings) names.now) nodes.now) }
{
    let Some(root) = root_of(nodes) else {
        return Ok(String::new(alloc));
    };
    if root.node.closed {
        return Ok(String::new(alloc));
    }
    let mut text = line_text(alloc, &root, names, 0)?;
    add_lines(alloc, &mut text, nodes, names, 1, root.at)?;
    Ok(text)
}

fn root_of(nodes: &[Placed]) -> Option<Placed>
    ensures { result ≡ find (λ node. node.at.0 == 0) nodes.now }
{
    nodes.iter().find(|node| node.at.0 == 0).copied()
}

// Adds the lines below an allocator, so many levels deep.
fn add_lines(
    alloc: Global,
    text: &mut String,
    nodes: &[Placed],
    names: &[Names],
    depth: usize,
    at: AllocId,
) -> Result<(), AllocError>
    requires { depth + length nodes.now < 2 ^ 64 }
    ensures { OnOk result (string_bytes text.new
        ≡ string_bytes text.old ++ spec.lines_under (map (λ n. n.bindings) names.now) nodes.now depth at.0) }
{
    let [node, later @ ..] = nodes else {
        return Ok(());
    };
    if is_open_under(node, at) {
        let line = line_text(alloc, node, names, depth)?;
        text.push_str(&line)?;
        add_lines(alloc, text, later, names, depth + 1, node.at)?;
    }
    add_lines(alloc, text, later, names, depth, at)
}

// Whether it is an open child of that allocator; the root, which is told as its own parent, is no child.
fn is_open_under(node: &Placed, at: AllocId) -> bool
    ensures { result ≡ spec.is_open_under at.0 node.now }
{
    node.parent == at && node.at != at && !node.node.closed
}

// An allocator's line, so many levels deep.
fn line_text(
    alloc: Global,
    node: &Placed,
    names: &[Names],
    depth: usize,
) -> Result<String, AllocError>
    ensures { IfOk result (λ text. string_bytes text ≡ spec.line_text (map (λ n. n.bindings) names.now) depth node.now) }
{
    let mut line = "  ".repeat(alloc, depth)?;
    let text = node_text(alloc, node, name_in(names, node.at))?;
    line.push_str(&text)?;
    Ok(line)
}

// An allocator, its name and its numbers, after `BaseAllocator.toString` of Arrow Java.
fn node_text(alloc: Global, node: &Placed, name: &str) -> Result<String, AllocError>
    ensures { IfOk result (λ text. string_bytes text ≡ spec.node_text node.now name.now) }
{
    let number = node.at;
    let Node {
        reservation,
        held,
        peak,
        limit,
        ..
    } = node.node;
    format!(in alloc;
        "{number} Allocator({name}) {reservation}/{held}/{peak}/{limit} (res/actual/peak/limit)\n"
    )
}

// What the first of some names that knows an allocator calls it.
fn name_in(names: &[Names], at: AllocId) -> &str
    ensures { result.now ≡ spec.name_in (map (λ n. n.bindings) names.now) at.0 }
{
    let [first, others @ ..] = names else {
        return "?";
    };
    match first.name_of(at) {
        Some(name) => name,
        None => name_in(others, at),
    }
}

#[cfg(test)]
mod tests;
