//! Graphs on numbers: floods and components.
ghost use Rattle.std.specs.Prelude.{◌≡◌, ℕ, ◌<◌, ◌↔◌, ◌⊎◌, IsTrue, IfOk, OnOk, length, map, Contains, []};
ghost use Rattle.std.specs.Option.{is_some};
ghost use Rattle.hall_grid.specs.Component.{AreComponents, IsLabelled, LabelsDiffer};
ghost use Rattle.hall_grid.specs.Flood.{Floods, HasComponents, Labels};
ghost use Rattle.hall_grid.specs.Reached.{IsReach};

use std::alloc::{AllocError, Global};

/// A graph on the numbers below `nodes`, of which some are members.
pub trait Graph {
    ghost nodes: { Self → ℕ };

    ghost IsMember: { Self → ℕ → Type 0 };

    ghost IsNext: { Self → ℕ → ℕ → Type 0 };

    fn nodes(&self) -> usize
        ensures { result ≡ nodes self.now };

    fn is_member(&self, node: usize) -> bool
        requires { node < nodes self.now }
        ensures { IsTrue result ↔ IsMember self.now node };

    /// The nodes next to a node, in any order. The members among them are all there, the node itself perhaps not.
    fn next_to(&self, node: usize) -> [Option<usize>; 6]
        requires { node < nodes self.now }
        ensures below { (other : ℕ) → Contains result (Some other) → other < nodes self.now }
        ensures next { (other : ℕ) → Contains result (Some other) → IsNext self.now node other }
        ensures all { (other : ℕ)
            → IsNext self.now node other
            → IsMember self.now other
            → (other ≡ node) ⊎ Contains result (Some other) };

    ghost member_below: { (graph : Self) (node : ℕ) → IsMember graph node → node < nodes graph };

    ghost symmetric: { (graph : Self) (a b : ℕ) → IsNext graph a b → IsNext graph b a };
}

/// Labels the node and puts it onto the stack, if it is a member without a label.
fn label_node<G: Graph>(
    graph: &G,
    labels: &mut [Option<usize>],
    stack: &mut Vec<usize>,
    node: usize,
    label: usize,
) -> Result<(), AllocError>
    requires exact { length labels.old ≡ G.nodes graph.now }
    requires node { node < G.nodes graph.now }
    ensures { OnOk result
        (Labels (λ x. x ≡ node) (G.IsMember graph.now) label labels.old labels.new stack.old.items stack.new.items) }
{
    if labels[node].is_none() && graph.is_member(node) {
        stack.push(node)?;
        labels[node] = Some(label);
    }
    Ok(())
}

/// Labels the nodes next to a node and puts them onto the stack, those that are members without a label.
fn label_around<G: Graph>(
    graph: &G,
    labels: &mut [Option<usize>],
    stack: &mut Vec<usize>,
    node: usize,
    label: usize,
) -> Result<(), AllocError>
    requires exact { length labels.old ≡ G.nodes graph.now }
    requires node { node < G.nodes graph.now }
    requires labelled { IsLabelled labels.old node label }
    ensures { OnOk result (Labels (G.IsNext graph.now node) (G.IsMember graph.now) label
        labels.old labels.new stack.old.items stack.new.items) }
{
    for place in graph.next_to(node) {
        if let Some(other) = place {
            label_node(graph, labels, stack, other, label)?;
        }
    }
    Ok(())
}

/// Labels what walks reach from the root with the root's number, unless it has a label.
fn flood<G: Graph>(
    graph: &G,
    labels: &mut [Option<usize>],
    stack: &mut Vec<usize>,
    root: usize,
) -> Result<(), AllocError>
    requires root { root < G.nodes graph.now }
    requires components { HasComponents (G.nodes graph.now) (G.IsNext graph.now) (G.IsMember graph.now) labels.old }
    requires empty { stack.old.items ≡ [] }
    ensures floods { OnOk result
        (Floods (G.nodes graph.now) (G.IsNext graph.now) (G.IsMember graph.now) root labels.old labels.new) }
    ensures empty { OnOk result (stack.new.items ≡ []) }
{
    label_node(graph, labels, stack, root, root)?;
    while let Some(node) = stack.pop() {
        label_around(graph, labels, stack, node, root)?;
    }
    Ok(())
}

/// Whether each node has a label.
fn labelled(alloc: Global, labels: &[Option<usize>]) -> Result<Vec<bool>, AllocError>
    ensures { IfOk result (λ marks. marks.items ≡ map is_some labels.now) }
{
    labels.iter().map(|label| label.is_some()).collect(alloc)
}

/// The nodes that a walk over members reaches from a node.
pub fn reached<G: Graph>(alloc: Global, graph: &G, from: usize) -> Result<Vec<bool>, AllocError>
    requires { from < G.nodes graph.now }
    ensures { IfOk result
        (λ marks. IsReach (G.nodes graph.now) (G.IsNext graph.now) (G.IsMember graph.now) from marks.items) }
{
    let mut labels = vec![in alloc; None; graph.nodes()]?;
    let mut stack = Vec::new(alloc);
    flood(graph, &mut labels, &mut stack, from)?;
    labelled(alloc, &labels)
}

/// The components of a graph: for each member the number of one member of its component, the same for all of them.
pub fn components<G: Graph>(alloc: Global, graph: &G) -> Result<Vec<Option<usize>>, AllocError>
    ensures { IfOk result
        (λ labels. AreComponents (G.nodes graph.now) (G.IsNext graph.now) (G.IsMember graph.now) labels.items) }
{
    let nodes = graph.nodes();
    let mut labels = vec![in alloc; None; nodes]?;
    let mut stack = Vec::new(alloc);
    for node in 0..nodes {
        flood(graph, &mut labels, &mut stack, node)?;
    }
    Ok(labels)
}

/// Whether two nodes have different labels.
pub fn labels_differ(labels: &[Option<usize>]) -> bool
    ensures { IsTrue result ↔ LabelsDiffer labels.now }
{
    let mut known = None;
    for place in labels {
        if let Some(label) = place {
            match known {
                Some(other) if other != *label => return true,
                _ => known = Some(*label),
            }
        }
    }
    false
}
