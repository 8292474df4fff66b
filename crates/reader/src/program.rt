// Programs: reading them.
ghost use Rattle.std.specs.Prelude.{◌≡◌};
ghost use Rattle.format.specs.Format.{mapped, program_within};
ghost use Rattle.reader.specs.Method.{count_read, counts};

use crate::bits::Packed;
use crate::formula::read_epistemic;
use crate::limits::DEPTH;
use crate::nodes::ProgramNode;
use crate::refusal::Refusal;

// A position in a program, and the action nodes and branch nodes read before it.
#[derive(Clone, Copy)]
pub(crate) struct Cursor {
    pub at: usize,
    pub acts: usize,
    pub branches: usize,
}

// A program over n facts and k actions, with `left` levels left: the cursor behind it.
pub(crate) fn read_program(
    packed: &Packed,
    p: Cursor,
    n: usize,
    k: usize,
    left: usize,
) -> Result<Cursor, Refusal>
    ensures { count_read result ≡ mapped counts (program_within n k left p.acts p.branches packed.now p.at) }
{
    if left == 0 {
        return Err(Refusal::Nodes);
    }
    let acts = p.acts;
    let branches = p.branches;
    let (node, next) = attempt!(packed.program_node(p.at, acts, branches));
    match node {
        ProgramNode::End => Ok(Cursor {
            at: next,
            acts,
            branches,
        }),
        ProgramNode::Act(a) => {
            if k <= a {
                return Err(Refusal::ActionNumber);
            }
            let rest = Cursor {
                at: next,
                acts: acts + 1,
                branches,
            };
            read_program(packed, rest, n, k, left - 1)
        }
        ProgramNode::Branch => {
            let yes = Cursor {
                at: attempt!(read_epistemic(packed, next, DEPTH, n)),
                acts,
                branches: branches + 1,
            };
            let no = attempt!(read_program(packed, yes, n, k, left - 1));
            let rest = attempt!(read_program(packed, no, n, k, left - 1));
            read_program(packed, rest, n, k, left - 1)
        }
    }
}
