// The record, and the calls on it. Each call has a form over lent tables, whatever they hold. In the other "Next" and
// "Report" make the tables themselves, and loading needs none.
ghost use Rattle.std.specs.Prelude.{◌≡◌, ◌≤◌, length};
ghost use Rattle.format.specs.Format.{most_bytes, reading};
ghost use Rattle.reader.specs.Answers.{without_value, answer_of};
ghost use Rattle.routine.specs.Tables.{TablesAfter};
ghost use Rattle.runner.specs.Records.{padded, zeros, loaded, sheet_in, next_on, report_on, record_after};
ghost use Rattle.runner.specs.Answers.{told_of, reported_of};
ghost use Rattle.runner.specs.Walks.{walked_of, stands};

use crate::answer::{Rejection, Told};
use crate::walk::{Walked, acceptance, add, is_padded, tell, walk};
use reader::Refusal;
use routine::{HEAD_CELLS, NODE_CELLS, SET_WORDS};
use std::alloc::AllocError;

// A sheet, its length, the replies accepted so far and their count. Bytes past the lengths are 0. (Arrays with lengths, since
// document 01 asks for "a struct by value holding two arrays and their lengths".)
#[derive(Clone, Copy)]
pub struct Record {
    pub sheet: [u8; Record::SHEET],
    pub len: usize,
    pub replies: [u8; Record::REPLIES],
    pub count: usize,
}

// An answer, and the record to keep.
pub struct After<A> {
    pub answer: A,
    pub kept: Record,
}

// (Not derived: what is derived for a generic struct calls `clone` of std's types, whose code is shut.)
impl<A: Copy> Clone for After<A> {
    ghost is_clone = { λ v w. w ≡ v };

    ghost is_infallible = { λ v. Unit {0} };

    fn clone(&self) -> Result<After<A>, AllocError> {
        Ok(*self)
    }
}

impl<A: Copy> Copy for After<A> {}

// The bytes of a sheet and zeros behind them.
fn copied(bytes: &[u8]) -> [u8; Record::SHEET]
    requires { length bytes.now ≤ most_bytes }
    ensures { result ≡ padded most_bytes bytes.now }
{
    let mut to = [0u8; Record::SHEET];
    // (Without `copy_from_slice`, a function of std: the closed theorem needs the code of all that is called, and std's is shut.)
    for i in 0..bytes.len() {
        to[i] = bytes[i];
    }
    to
}

impl Record {
    // The most bytes of a sheet, and the most replies.
    pub const SHEET: usize = reader::BYTES;

    pub const REPLIES: usize = reader::ACTION_NODES;

    // The record of zeros.
    fn zero() -> Record
        ensures { result ≡ zeros }
    {
        Record {
            sheet: [0u8; Record::SHEET],
            len: 0,
            replies: [0u8; Record::REPLIES],
            count: 0,
        }
    }

    // A record of a sheet with no replies; of a refused sheet the record of zeros.
    fn begin(bytes: &[u8], answer: Result<(), Refusal>) -> After<Result<(), Refusal>>
        requires { answer_of answer ≡ without_value (reading bytes.now) }
        ensures { (answer_of result.answer ≡ without_value (reading bytes.now)) × (result.kept ≡ loaded bytes.now) }
    {
        let kept = match answer {
            Err(_) => Record::zero(),
            Ok(()) => Record {
                sheet: copied(bytes),
                len: bytes.len(),
                replies: [0u8; Record::REPLIES],
                count: 0,
            },
        };
        After { answer, kept }
    }

    // Loads a sheet. (It is only read: no tables are needed.)
    pub fn load(bytes: &[u8]) -> After<Result<(), Refusal>>
        ensures { (answer_of result.answer ≡ without_value (reading bytes.now)) × (result.kept ≡ loaded bytes.now) }
    {
        let answer = reader::read(bytes);
        Record::begin(bytes, answer)
    }

    // Loads a sheet and writes its tables.
    pub fn load_in(
        bytes: &[u8],
        heads: &mut [u16; HEAD_CELLS],
        nodes: &mut [u16; NODE_CELLS],
        sets: &mut [u64; SET_WORDS],
    ) -> After<Result<(), Refusal>>
        ensures { (answer_of result.answer ≡ without_value (reading bytes.now)) × (result.kept ≡ loaded bytes.now) × TablesAfter (reading bytes.now) heads.old nodes.old sets.old heads.new nodes.new sets.new }
    {
        let none = [0u8; Record::REPLIES];
        let walked = walk(bytes, &none, 0, heads, nodes, sets);
        let answer = acceptance(walked);
        Record::begin(bytes, answer)
    }

    // Where the record's replies lead, and the tables of its sheet.
    fn stand_in(
        self,
        heads: &mut [u16; HEAD_CELLS],
        nodes: &mut [u16; NODE_CELLS],
        sets: &mut [u64; SET_WORDS],
    ) -> Walked
        ensures { (walked_of result ≡ stands heads.new nodes.new sets.new self) × TablesAfter (sheet_in self) heads.old nodes.old sets.old heads.new nodes.new sets.new }
    {
        if !is_padded(&self.sheet, self.len) {
            return Ok(None);
        }
        let sheet = &self.sheet[..self.len];
        walk(sheet, &self.replies, self.count, heads, nodes, sets)
    }

    // Tells the action to do, or that the routine is at its end and whether the goal holds.
    pub fn next_in(
        self,
        heads: &mut [u16; HEAD_CELLS],
        nodes: &mut [u16; NODE_CELLS],
        sets: &mut [u64; SET_WORDS],
    ) -> After<Result<Told, Rejection>>
        ensures { (told_of result.answer ≡ next_on self) × (result.kept ≡ self) × TablesAfter (sheet_in self) heads.old nodes.old sets.old heads.new nodes.new sets.new }
    {
        let walked = self.stand_in(heads, nodes, sets);
        let answer = tell(walked);
        After { answer, kept: self }
    }

    pub fn next(self) -> After<Result<Told, Rejection>>
        ensures { (told_of result.answer ≡ next_on self) × (result.kept ≡ self) }
    {
        let mut heads = [0u16; HEAD_CELLS];
        let mut nodes = [0u16; NODE_CELLS];
        let mut sets = [0u64; SET_WORDS];
        self.next_in(&mut heads, &mut nodes, &mut sets)
    }

    // Adds the reply to the action that was told, or refuses it.
    pub fn report_in(
        self,
        reply: u8,
        heads: &mut [u16; HEAD_CELLS],
        nodes: &mut [u16; NODE_CELLS],
        sets: &mut [u64; SET_WORDS],
    ) -> After<Result<(), Rejection>>
        ensures { (reported_of result.answer ≡ without_value (report_on self reply)) × (result.kept ≡ record_after self reply) × TablesAfter (sheet_in self) heads.old nodes.old sets.old heads.new nodes.new sets.new }
    {
        let walked = self.stand_in(heads, nodes, sets);
        match add(heads, sets, walked, reply as usize) {
            Err(rejection) => After {
                answer: Err(rejection),
                kept: self,
            },
            Ok(_) => {
                let mut next = self;
                next.replies[next.count] = reply;
                next.count += 1;
                After {
                    answer: Ok(()),
                    kept: next,
                }
            }
        }
    }

    pub fn report(self, reply: u8) -> After<Result<(), Rejection>>
        ensures { (reported_of result.answer ≡ without_value (report_on self reply)) × (result.kept ≡ record_after self reply) }
    {
        let mut heads = [0u16; HEAD_CELLS];
        let mut nodes = [0u16; NODE_CELLS];
        let mut sets = [0u64; SET_WORDS];
        self.report_in(reply, &mut heads, &mut nodes, &mut sets)
    }
}
