// A sheet as tables.
ghost use Rattle.std.specs.Prelude.{◌≡◌};
ghost use Rattle.format.specs.Format.{reading};
ghost use Rattle.reader.specs.Answers.{answer_of};
ghost use Rattle.routine.specs.Tables.{start_of, TablesAfter};
ghost use Rattle.routine.specs.Filling.{RoutineRoom, RoutineFills, Acceptable};

use crate::actions::fill_actions;
use crate::conditions::{Filled, fill_formula};
use crate::limits::{GOAL, HEAD_CELLS, NODE_CELLS, SET_WORDS};
use crate::memory::{Node, put_node};
use crate::program::fill_program;
use reader::{DEPTH, Packed, Refusal, View, read};
use states::States;

// Writes the nodes of the goal and the program at a position, and their sets from set k on.
fn fill_routine(
    packed: &Packed,
    at: usize,
    n: usize,
    k: usize,
    nodes: &mut [u16; NODE_CELLS],
    sets: &mut [u64; SET_WORDS],
)
    requires { RoutineRoom packed.now n at k }
    ensures { RoutineFills packed.now n at k nodes.old nodes.new sets.old sets.new }
{
    let from = Filled {
        at,
        node: GOAL,
        set: k,
        acts: 0,
    };
    let goal = fill_formula(packed, from, n, DEPTH, nodes, sets);
    put_node(nodes, 0, Node::Jump(goal.node - GOAL));
    let program = fill_program(packed, goal, n, nodes, sets);
    put_node(nodes, program.node, Node::End(program.acts));
}

// Writes the tables of an accepted sheet. Its parts stand in it, so that no refusal is ever met.
fn fill(
    bytes: &[u8],
    heads: &mut [u16; HEAD_CELLS],
    nodes: &mut [u16; NODE_CELLS],
    sets: &mut [u64; SET_WORDS],
) -> Result<States, Refusal>
    requires { Acceptable bytes.now }
    ensures { (answer_of result ≡ start_of (reading bytes.now)) × TablesAfter (reading bytes.now) heads.old nodes.old sets.old heads.new nodes.new sets.new }
{
    let Ok(packed) = Packed::new(bytes) else {
        return Err(Refusal::Length);
    };
    let Ok(h) = packed.header() else {
        return Err(Refusal::Cut);
    };
    let n = h.facts;
    let space = h.space;
    let actions = fill_actions(&packed, h.at, n, space, h.actions, heads, sets);
    let Ok((start, goal_at)) = packed.objective(actions.at, n, View::States) else {
        return Err(Refusal::Cut);
    };
    fill_routine(&packed, goal_at, n, actions.set, nodes, sets);
    Ok(space.intersect(start))
}

// A sheet as tables in lent memory: where the sets of its actions stand, the nodes of its goal and of its program, and
// its sets of states. It gives the start set, or the refusal, which leaves the memory as it was.
pub fn prepare(
    bytes: &[u8],
    heads: &mut [u16; HEAD_CELLS],
    nodes: &mut [u16; NODE_CELLS],
    sets: &mut [u64; SET_WORDS],
) -> Result<States, Refusal>
    ensures { (answer_of result ≡ start_of (reading bytes.now)) × TablesAfter (reading bytes.now) heads.old nodes.old sets.old heads.new nodes.new sets.new }
{
    match read(bytes) {
        Ok(()) => fill(bytes, heads, nodes, sets),
        Err(refusal) => Err(refusal),
    }
}
