// What stands in the lent memory: sets of states, four words each; nodes of a program and of its formulas, and heads of
// actions, three numbers each. (The three memories are parameters and no struct, here and above: C lends them apart,
// `recovery_step` no nodes, `recovery_settle` no heads, and a function takes those of them that it reads. Nodes have numbers
// for kinds and for places, and no boxes: the memory is fixed, and C holds it.)
ghost use Rattle.std.specs.Prelude.{◌≡◌, [], ◌∷◌, ◌*◌, ◌<◌};
ghost use Rattle.states.specs.Sets.{words};
ghost use Rattle.lists.specs.Lists.{write};
ghost use Rattle.routine.specs.Memory.{cells, Small, head_most, node_most, set_most, set_at, node_of, node_at, head_at};

use crate::limits::{ACTIONS, HEAD_CELLS, NODE_CELLS, NODES, SET_WORDS, SETS};
use states::States;

// A node. Of a program: an action by its number, and the node's own number among the action nodes in reading order; a
// branch, whose condition stands behind it, and how many nodes are skipped if that holds and if it doesn't; a jump over so
// many nodes; the end, and how many action nodes there are. Of an epistemic formula, in reading order: two parts joined by
// "and" (true) or "or" (false), with the number of the nodes of both, which stand behind the node, one part behind the
// other; an atom "known" (true) or "not known" (false), with the number of its set.
#[derive(Clone, Copy)]
pub enum Node {
    Act(usize, usize),
    Branch(usize, usize),
    Jump(usize),
    End(usize),
    Join(bool, usize),
    Atom(bool, usize),
}

// Where an action's sets stand: from `rows` on the states that may follow each state, if the action changes facts; from
// `replies` on the states in which each of its `count` replies is true. Without rows both are the same.
#[derive(Clone, Copy)]
pub struct Head {
    pub rows: usize,
    pub replies: usize,
    pub count: usize,
}

// Set k; past the last the empty one.
pub fn set_at(sets: &[u64; SET_WORDS], k: usize) -> States
    ensures { result ≡ set_at sets.now k }
{
    if SETS <= k {
        return States::empty();
    }
    States::at(sets, 4 * k)
}

// The node that three numbers are.
fn node_of(kind: usize, operand: usize, second: usize) -> Node
    ensures { result ≡ node_of kind operand second }
{
    match kind {
        0 => Node::Act(operand, second),
        1 => Node::Branch(operand, second),
        2 => Node::Jump(operand),
        3 => Node::Join(second == 1, operand),
        4 => Node::Atom(second == 1, operand),
        _ => Node::End(operand),
    }
}

// Node i; past the last an end. Its numbers fit 16 bits, whatever the memory holds.
pub fn node_at(nodes: &[u16; NODE_CELLS], i: usize) -> Node
    ensures { (result ≡ node_at nodes.now i) × Small result }
{
    if NODES <= i {
        return Node::End(0);
    }
    let kind = nodes[3 * i] as usize;
    let operand = nodes[3 * i + 1] as usize;
    let second = nodes[3 * i + 2] as usize;
    node_of(kind, operand, second)
}

// The head of action a; past the last one without replies. Its numbers fit 16 bits, whatever the memory holds.
pub fn head_at(heads: &[u16; HEAD_CELLS], a: usize) -> Head
    ensures { (result ≡ head_at heads.now a) × (result.rows < 65536) × (result.replies < 65536) × (result.count < 65536) }
{
    if ACTIONS <= a {
        return Head {
            rows: 0,
            replies: 0,
            count: 0,
        };
    }
    let rows = heads[3 * a] as usize;
    let replies = heads[3 * a + 1] as usize;
    let count = heads[3 * a + 2] as usize;
    Head {
        rows,
        replies,
        count,
    }
}

// Writes set k.
pub(crate) fn put_set(sets: &mut [u64; SET_WORDS], k: usize, set: States)
    requires { k < set_most }
    ensures { sets.new ≡ write sets.old (4 * k) (words set) }
{
    set.put(sets, 4 * k);
}

// Writes the three numbers of node i.
fn put_cells(nodes: &mut [u16; NODE_CELLS], i: usize, kind: u16, operand: usize, second: usize)
    requires { (i < node_most) × (operand < 65536) × (second < 65536) }
    ensures { nodes.new ≡ write nodes.old (3 * i) (kind ∷ operand ∷ second ∷ []) }
{
    nodes[3 * i] = kind;
    nodes[3 * i + 1] = operand as u16;
    nodes[3 * i + 2] = second as u16;
}

// Writes node i.
pub(crate) fn put_node(nodes: &mut [u16; NODE_CELLS], i: usize, node: Node)
    requires { (i < node_most) × Small node }
    ensures { nodes.new ≡ write nodes.old (3 * i) (cells node) }
{
    match node {
        Node::Act(a, number) => put_cells(nodes, i, 0, a, number),
        Node::Branch(met, unmet) => put_cells(nodes, i, 1, met, unmet),
        Node::Jump(skip) => put_cells(nodes, i, 2, skip, 0),
        Node::Join(all, size) => put_cells(nodes, i, 3, size, all as usize),
        Node::Atom(positive, k) => put_cells(nodes, i, 4, k, positive as usize),
        Node::End(count) => put_cells(nodes, i, 5, count, 0),
    }
}

// Writes the head of action a.
pub(crate) fn put_head(
    heads: &mut [u16; HEAD_CELLS],
    a: usize,
    rows: usize,
    replies: usize,
    count: usize,
)
    requires { (a < head_most) × (rows < 65536) × (replies < 65536) × (count < 65536) }
    ensures { heads.new ≡ write heads.old (3 * a) (rows ∷ replies ∷ count ∷ []) }
{
    heads[3 * a] = rows as u16;
    heads[3 * a + 1] = replies as u16;
    heads[3 * a + 2] = count as u16;
}
