// Walking through a sheet: the first node at a position, in bytes that are few enough, or in any.
ghost use Rattle.std.specs.Prelude.{◌≡◌};
ghost use Rattle.format.specs.Format.{field, mapped, kind, reply_total, epistemic_node, program_node, of_sheet};
ghost use Rattle.reader.specs.Answers.{found, kind_of, epistemic_node_of, program_node_of};
ghost use Rattle.reader.specs.Method.{tag_of};

use crate::bits::Packed;
use crate::limits::{ACTION_NODES, BRANCH_NODES, REPLIES};
use crate::refusal::{Parsed, Refusal};

// The kind of an action.
#[derive(Clone, Copy)]
pub enum ActionKind {
    Change,
    Probe,
}

// The first node of an objective formula; of a formula of two parts, what joins them.
#[derive(Clone, Copy)]
pub(crate) enum ObjectiveNode {
    Constant(bool),
    Fact,
    NewFact,
    Not,
    Two(Connective),
}

#[derive(Clone, Copy)]
pub(crate) enum Connective {
    And,
    Or,
    Same,
}

// The first node of an epistemic formula.
#[derive(Clone, Copy)]
pub enum EpistemicNode {
    Known,
    NotKnown,
    AllOf,
    AnyOf,
}

// The first node of a program, an action with its number.
#[derive(Clone, Copy)]
pub enum ProgramNode {
    End,
    Act(usize),
    Branch,
}

// The kind of the action at a position.
pub fn action_kind(bytes: &[u8], at: usize) -> Parsed<ActionKind>
    ensures { mapped kind_of (found result) ≡ of_sheet kind bytes.now at }
{
    let packed = attempt!(Packed::new(bytes));
    let (bit, next) = attempt!(packed.field(at, 1));
    if bit == 0 {
        return Ok((ActionKind::Change, next));
    }
    Ok((ActionKind::Probe, next))
}

// The reply count at a position.
pub fn reply_total(bytes: &[u8], at: usize) -> Parsed<usize>
    ensures { found result ≡ of_sheet reply_total bytes.now at }
{
    let packed = attempt!(Packed::new(bytes));
    let (m, next) = attempt!(packed.field(at, 4));
    if m < 1 {
        return Err(Refusal::Replies);
    }
    if REPLIES < m {
        return Err(Refusal::Replies);
    }
    Ok((m, next))
}

// The first node of the epistemic formula at a position.
pub fn epistemic_node(bytes: &[u8], at: usize) -> Parsed<EpistemicNode>
    ensures { mapped epistemic_node_of (found result) ≡ of_sheet epistemic_node bytes.now at }
{
    let packed = attempt!(Packed::new(bytes));
    let (tag, next) = attempt!(packed.field(at, 2));
    match tag {
        0 => Ok((EpistemicNode::Known, next)),
        1 => Ok((EpistemicNode::NotKnown, next)),
        2 => Ok((EpistemicNode::AllOf, next)),
        _ => Ok((EpistemicNode::AnyOf, next)),
    }
}

// The first node of the program at a position, with no action nodes and branch nodes before it.
pub fn program_node(bytes: &[u8], at: usize) -> Parsed<ProgramNode>
    ensures { mapped program_node_of (found result) ≡ of_sheet (program_node 0 0) bytes.now at }
{
    let packed = attempt!(Packed::new(bytes));
    packed.program_node(at, 0, 0)
}

// Of packed bytes. What says the same is a call of the function over any bytes, so that what is linked goes through both.
impl<'a> Packed<'a> {
    pub fn kind(&self, at: usize) -> Parsed<ActionKind>
        ensures { mapped kind_of (found result) ≡ kind self.now at }
    {
        action_kind(self.bytes(), at)
    }

    pub fn reply_total(&self, at: usize) -> Parsed<usize>
        ensures { found result ≡ reply_total self.now at }
    {
        reply_total(self.bytes(), at)
    }

    // The first node of the objective formula at a position.
    pub(crate) fn objective_node(&self, at: usize) -> Parsed<ObjectiveNode>
        ensures { mapped tag_of (found result) ≡ field 3 self.now at }
    {
        let (tag, next) = attempt!(self.field(at, 3));
        match tag {
            0 => Ok((ObjectiveNode::Constant(false), next)),
            1 => Ok((ObjectiveNode::Constant(true), next)),
            2 => Ok((ObjectiveNode::Fact, next)),
            3 => Ok((ObjectiveNode::NewFact, next)),
            4 => Ok((ObjectiveNode::Not, next)),
            5 => Ok((ObjectiveNode::Two(Connective::And), next)),
            6 => Ok((ObjectiveNode::Two(Connective::Or), next)),
            _ => Ok((ObjectiveNode::Two(Connective::Same), next)),
        }
    }

    pub fn epistemic_node(&self, at: usize) -> Parsed<EpistemicNode>
        ensures { mapped epistemic_node_of (found result) ≡ epistemic_node self.now at }
    {
        epistemic_node(self.bytes(), at)
    }

    // With no action nodes and branch nodes before it.
    pub fn first_program_node(&self, at: usize) -> Parsed<ProgramNode>
        ensures { mapped program_node_of (found result) ≡ program_node 0 0 self.now at }
    {
        program_node(self.bytes(), at)
    }

    // The first node of the program at a position, where so many action nodes and branch nodes were read before it.
    pub fn program_node(&self, at: usize, acts: usize, branches: usize) -> Parsed<ProgramNode>
        ensures { mapped program_node_of (found result) ≡ program_node acts branches self.now at }
    {
        let (tag, next) = attempt!(self.field(at, 2));
        if tag == 0 {
            return Ok((ProgramNode::End, next));
        }
        if tag == 1 {
            if ACTION_NODES <= acts {
                return Err(Refusal::Nodes);
            }
            let (a, end) = attempt!(self.field(next, 5));
            return Ok((ProgramNode::Act(a), end));
        }
        if tag == 2 {
            if BRANCH_NODES <= branches {
                return Err(Refusal::Nodes);
            }
            return Ok((ProgramNode::Branch, next));
        }
        Err(Refusal::Loop)
    }
}
