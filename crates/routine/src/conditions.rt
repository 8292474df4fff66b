// The nodes of epistemic formulas and the sets of their atoms. What is read stands in the sheet, so that no refusal is ever met.
ghost use Rattle.std.specs.Prelude.{◌<◌};
ghost use Rattle.routine.specs.Memory.{Small, node_most, set_most};
ghost use Rattle.routine.specs.Filling.{AtomFills, FormulaRoom, FormulaFills, PartsRoom, PartsFill};

use crate::limits::{NODE_CELLS, SET_WORDS};
use crate::memory::{Node, put_node, put_set};
use reader::{EpistemicNode, Packed, View};

// How far a sheet is written into the tables: the position in the sheet, and how many nodes, sets and action nodes there
// are so far. (The nodes and the sets are lent beside it: with a `&mut` in the struct every clause would say
// besides which memory it gives back.)
#[derive(Clone, Copy)]
pub(crate) struct Filled {
    pub at: usize,
    pub node: usize,
    pub set: usize,
    pub acts: usize,
}

// Writes the node of an atom whose objective formula stands at a position, and its set.
fn fill_atom(
    packed: &Packed,
    at: usize,
    n: usize,
    from: Filled,
    node: Node,
    nodes: &mut [u16; NODE_CELLS],
    sets: &mut [u64; SET_WORDS],
) -> Filled
    requires { (from.node < node_most) × (from.set < set_most) × Small node }
    ensures { AtomFills packed.now n at from node nodes.old nodes.new sets.old sets.new result }
{
    let Ok((set, end)) = packed.objective(at, n, View::States) else {
        return from;
    };
    put_node(nodes, from.node, node);
    put_set(sets, from.set, set);
    Filled {
        at: end,
        node: from.node + 1,
        set: from.set + 1,
        acts: from.acts,
    }
}

// Writes the nodes of an epistemic formula of at most `left` levels, in reading order, and the sets of its atoms.
#[cycle(fill_formula_fill_parts)]
pub(crate) fn fill_formula(
    packed: &Packed,
    from: Filled,
    n: usize,
    left: usize,
    nodes: &mut [u16; NODE_CELLS],
    sets: &mut [u64; SET_WORDS],
) -> Filled
    requires { FormulaRoom packed.now n left from }
    ensures { FormulaFills packed.now n left from nodes.old nodes.new sets.old sets.new result }
{
    let Ok((first, p)) = packed.epistemic_node(from.at) else {
        return from;
    };
    match first {
        EpistemicNode::Known => {
            fill_atom(packed, p, n, from, Node::Atom(true, from.set), nodes, sets)
        }
        EpistemicNode::NotKnown => {
            fill_atom(packed, p, n, from, Node::Atom(false, from.set), nodes, sets)
        }
        EpistemicNode::AllOf => fill_parts(packed, p, n, from, true, left, nodes, sets),
        EpistemicNode::AnyOf => fill_parts(packed, p, n, from, false, left, nodes, sets),
    }
}

// Writes "and" (`all`) or "or", a formula of at most `left` levels whose parts stand at a position: the parts behind the
// place of the node, and then the node, which tells how many nodes they have.
#[cycle(fill_formula_fill_parts)]
fn fill_parts(
    packed: &Packed,
    at: usize,
    n: usize,
    from: Filled,
    all: bool,
    left: usize,
    nodes: &mut [u16; NODE_CELLS],
    sets: &mut [u64; SET_WORDS],
) -> Filled
    requires { PartsRoom packed.now n left from at }
    ensures { PartsFill packed.now n left from at all nodes.old nodes.new sets.old sets.new result }
{
    let behind = Filled {
        at,
        node: from.node + 1,
        set: from.set,
        acts: from.acts,
    };
    let first = fill_formula(packed, behind, n, left - 1, nodes, sets);
    let second = fill_formula(packed, first, n, left - 1, nodes, sets);
    put_node(
        nodes,
        from.node,
        Node::Join(all, second.node - (from.node + 1)),
    );
    second
}
