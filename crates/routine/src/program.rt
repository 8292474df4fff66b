// The nodes of a program and the sets of its conditions. What is read stands in the sheet, so that no refusal is ever met.
ghost use Rattle.routine.specs.Filling.{ProgramRoom, ProgramFills};

use crate::conditions::{Filled, fill_formula};
use crate::limits::{NODE_CELLS, SET_WORDS};
use crate::memory::{Node, put_node};
use reader::{DEPTH, Packed, ProgramNode};

// Writes the nodes of a program in reading order, and the sets of its conditions. A branch is written behind its
// then-program, and the jump over its else-program behind that, since they tell how far these reach.
pub(crate) fn fill_program(
    packed: &Packed,
    from: Filled,
    n: usize,
    nodes: &mut [u16; NODE_CELLS],
    sets: &mut [u64; SET_WORDS],
) -> Filled
    requires { ProgramRoom packed.now n from }
    ensures { ProgramFills packed.now n from nodes.old nodes.new sets.old sets.new result }
{
    let Ok((first, p)) = packed.first_program_node(from.at) else {
        return from;
    };
    match first {
        ProgramNode::End => Filled {
            at: p,
            node: from.node,
            set: from.set,
            acts: from.acts,
        },
        ProgramNode::Act(a) => {
            put_node(nodes, from.node, Node::Act(a, from.acts));
            let rest = Filled {
                at: p,
                node: from.node + 1,
                set: from.set,
                acts: from.acts + 1,
            };
            fill_program(packed, rest, n, nodes, sets)
        }
        ProgramNode::Branch => {
            let parts = Filled {
                at: p,
                node: from.node + 1,
                set: from.set,
                acts: from.acts,
            };
            let condition = fill_formula(packed, parts, n, DEPTH, nodes, sets);
            let yes = fill_program(packed, condition, n, nodes, sets);
            let met = condition.node - (from.node + 1);
            let unmet = yes.node - from.node;
            put_node(nodes, from.node, Node::Branch(met, unmet));
            let other = Filled {
                at: yes.at,
                node: yes.node + 1,
                set: yes.set,
                acts: yes.acts,
            };
            let no = fill_program(packed, other, n, nodes, sets);
            put_node(nodes, yes.node, Node::Jump(no.node - (yes.node + 1)));
            fill_program(packed, no, n, nodes, sets)
        }
    }
}
