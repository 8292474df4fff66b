// What holds where the states of a set are possible, and where the program stands: its next action, or its end.
ghost use Rattle.std.specs.Prelude.{◌≡◌, true, false, ◌-◌, min};
ghost use Rattle.states.specs.Sets.{of_words};
ghost use Rattle.progression.specs.Machine.{known_by, atom_holds, parts_hold, holds_at, settled, end_number, position_at, Inside};

use reader::DEPTH;
use routine::{GOAL, NODE_CELLS, NODES, Node, SET_WORDS, node_at, set_at};
use states::States;

// An action node with its action, or the end and whether the goal holds there.
#[derive(Clone, Copy)]
pub enum Place {
    Act(usize, usize),
    End(bool),
}

// Whether every state of a set is in set k.
pub fn known(sets: &[u64; SET_WORDS], k: usize, set: States) -> bool
    ensures { result ≡ known_by sets.now set k }
{
    set.difference(set_at(sets, k)).is_empty()
}

// Whether an atom, "known" or "not known" of set k, holds where the states of a set are possible, whose words are lent.
fn atom_holds(
    sets: &[u64; SET_WORDS],
    words: &[u64; States::WORDS],
    positive: bool,
    k: usize,
) -> bool
    ensures { result ≡ atom_holds (known_by sets.now (of_words words.now)) positive k }
{
    known(sets, k, States::of_words(words)) == positive
}

// The lesser of two numbers. (`min` of std is a function whose code is shut, and the closed theorem needs the code.)
pub fn lesser(a: usize, b: usize) -> usize
    ensures { result ≡ min a b }
{
    if a < b { a } else { b }
}

// Whether all parts hold that stand from node `at` on before node `end`, where the states of a set are possible, whose words
// are lent. A part joined by "or" takes one of the `left` levels; one joined by "and" stands for its parts, so that a chain
// or tree of one connective costs little more than its atoms. Behind a part that fails nothing is tested. Where no level is
// left nothing holds, nor at a node that is no part. No part goes on behind `end`, so that in any memory a formula meets each
// node at most once at each level. ("And" and "or" have a function each since the compiler then puts one into the other,
// which halves the calls. `own` is a copy that it can keep at hand. The times are in docs/PERFORMANCE.md.)
#[cycle(all_hold_one_holds)]
fn all_hold(
    nodes: &[u16; NODE_CELLS],
    sets: &[u64; SET_WORDS],
    words: &[u64; States::WORDS],
    at: usize,
    end: usize,
    left: usize,
) -> bool
    ensures { result ≡ parts_hold nodes.now (known_by sets.now (of_words words.now)) left true (end - at) at }
{
    let own = *words;
    if left == 0 {
        return false;
    }
    let mut i = at;
    // (No range: behind a part i goes on by as many nodes as the part takes.)
    while i < end {
        match node_at(nodes, i) {
            Node::Atom(positive, k) => {
                if !atom_holds(sets, &own, positive, k) {
                    return false;
                }
                i += 1;
            }
            Node::Join(all, size) => {
                i += 1;
                if !all {
                    let stop = lesser(i + size, end);
                    if !one_holds(nodes, sets, words, i, stop, left - 1) {
                        return false;
                    }
                    i += size;
                }
            }
            _ => {
                return false;
            }
        }
    }
    true
}

// Whether one of the parts holds that stand from node `at` on before node `end`, the set lent in the same way. A part joined
// by "and" takes a level, one joined by "or" stands for its parts, and behind a part that holds nothing is tested. Where no
// level is left nothing holds; a node that is no part is the end, and nothing behind it counts.
#[cycle(all_hold_one_holds)]
fn one_holds(
    nodes: &[u16; NODE_CELLS],
    sets: &[u64; SET_WORDS],
    words: &[u64; States::WORDS],
    at: usize,
    end: usize,
    left: usize,
) -> bool
    ensures { result ≡ parts_hold nodes.now (known_by sets.now (of_words words.now)) left false (end - at) at }
{
    if left == 0 {
        return false;
    }
    let mut i = at;
    // (No range: behind a part i goes on by as many nodes as the part takes.)
    while i < end {
        match node_at(nodes, i) {
            Node::Atom(positive, k) => {
                if atom_holds(sets, words, positive, k) {
                    return true;
                }
                i += 1;
            }
            Node::Join(all, size) => {
                i += 1;
                if all {
                    let stop = lesser(i + size, end);
                    if all_hold(nodes, sets, words, i, stop, left - 1) {
                        return true;
                    }
                    i += size;
                }
            }
            _ => {
                return false;
            }
        }
    }
    false
}

// Whether the formula at node `at` holds where the states of a set are possible, whose words are lent.
fn formula_holds(
    nodes: &[u16; NODE_CELLS],
    sets: &[u64; SET_WORDS],
    words: &[u64; States::WORDS],
    at: usize,
) -> bool
    ensures { result ≡ holds_at nodes.now (known_by sets.now (of_words words.now)) at }
{
    match node_at(nodes, at) {
        Node::Atom(positive, k) => atom_holds(sets, words, positive, k),
        Node::Join(all, size) => {
            if all {
                return all_hold(nodes, sets, words, at + 1, at + 1 + size, DEPTH - 1);
            }
            one_holds(nodes, sets, words, at + 1, at + 1 + size, DEPTH - 1)
        }
        _ => false,
    }
}

// The place that the program reaches from node `at` on, where the states of a set are possible. (A branch and the end ask
// for their formula at one place: the compiler then puts `formula_holds` into this function, and not this one into its
// callers, where the set would be stored word by word and loaded in pairs, which is slow. docs/PERFORMANCE.md.)
pub fn settle(nodes: &[u16; NODE_CELLS], sets: &[u64; SET_WORDS], set: States, at: usize) -> Place
    ensures { (result ≡ settled nodes.now sets.now set at) × Inside result }
{
    let words = set.words();
    let mut i = at;
    // (No range: i goes on behind what a jump or a branch leaves out.)
    while i < NODES {
        let node = node_at(nodes, i);
        match node {
            Node::Act(action, _) => {
                return Place::Act(i, action);
            }
            Node::Jump(skip) => {
                i = i + 1 + skip;
            }
            _ => {
                let mut asked = GOAL;
                if let Node::Branch(met, unmet) = node {
                    asked = i + 1;
                }
                let holds = formula_holds(nodes, sets, &words, asked);
                let Node::Branch(met, unmet) = node else {
                    return Place::End(holds);
                };
                if holds {
                    i = i + 1 + met;
                } else {
                    i = i + 1 + unmet;
                }
            }
        }
    }
    Place::End(false)
}

// How many action nodes there are, by the first end among the nodes; 0 without one.
fn end_number(nodes: &[u16; NODE_CELLS]) -> usize
    ensures { result ≡ end_number nodes.now }
{
    for i in 0..NODES {
        if let Node::End(count) = node_at(nodes, i) {
            return count;
        }
    }
    0
}

// The program position at a place: the number of its action node, in reading order, or at the end that of all action nodes.
pub fn position(nodes: &[u16; NODE_CELLS], place: Place) -> usize
    ensures { result ≡ position_at nodes.now place }
{
    match place {
        Place::End(_) => end_number(nodes),
        Place::Act(node, _) => match node_at(nodes, node) {
            Node::Act(_, number) => number,
            _ => 0,
        },
    }
}
