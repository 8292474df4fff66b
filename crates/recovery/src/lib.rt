// The functions of the library that C and Rust programs link, under C's calling convention. A slice is a pointer and a length,
// an array of fixed length is a pointer to its first element. (The crate `recovery_c` exports them.)
#![tactic(auto)]

ghost use Rattle.std.specs.Prelude.{MatchResult, ◌≡◌, [], ◌∷◌, ◌≤◌, length};
ghost use Rattle.format.specs.Format.{reading};
ghost use Rattle.reader.specs.Answers.{answer_of, number_for};
ghost use Rattle.semantics.specs.Verdict.{admitted, verified};
ghost use Rattle.semantics.specs.Checker.{checked};
ghost use Rattle.semantics.specs.Printing.{most_lines, printed, numbers_line};
ghost use Rattle.states.specs.Sets.{words, of_words};
ghost use Rattle.lists.specs.Lists.{write};
ghost use Rattle.routine.specs.Tables.{TablesAfter};
ghost use Rattle.progression.specs.Machine.{stepped, passed_by, settled, known_by, Inside};
ghost use Rattle.verifier.specs.Answers.{answer_of as verdict_of, cleared};
ghost use Rattle.checker.specs.Answers.{answer_of as checked_of};
ghost use Rattle.runner.specs.Records.{loaded, sheet_in, next_on, report_on, record_after};
ghost use Rattle.runner.specs.Answers.{told_of, reported_of};
ghost use Rattle.semantics.specs.Figures.{figure_numbers};
ghost use Rattle.release.specs.Counting.{meant_by};
ghost use Rattle.release.specs.Feeding.{fed, is_done, ended, read_by, cleared_all, TablesAfterAll};
ghost use Rattle.recovery.specs.Numbers.{memory_after, start_words, place_number, flag_number, verdict_numbers, checked_number, lent_record, lengths_of, told_numbers, lent_release, release_numbers};

use checker::{check, check_in};
use printing::{LINES, print, print_figures};
use progression::{Place, known, pass, settle, step};
use reader::Refusal;
use release::{Begun, Figures, Release};
use routine::{HEAD_CELLS, NODE_CELLS, SET_WORDS, prepare};
use runner::{Record, Rejection, Told};
use states::States;
use verifier::{MEMO_WORDS, Verdict, VerifyError, verify, verify_in};

// The number of an answer without a value: 0, or that of its refusal.
fn code<E>(answer: Result<(), E>) -> u8
where
    u8: From<E>,
    ensures { MatchResult answer (λ _. result ≡ 0) (λ e. ⟦<u8 as From<E>>⟧.from_gives e result) }
{
    match answer {
        Ok(()) => 0,
        Err(error) => u8::from(error),
    }
}

// 0 for a sheet that is accepted, else document 01's number of its refusal.
#[unsafe(no_mangle)]
pub extern "C" fn recovery_read(bytes: &[u8]) -> u8
    ensures { result ≡ number_for (reading bytes.now) }
{
    code(reader::read(bytes))
}

// Writes the tables of an accepted sheet and the words of its start set, and gives 0. For a refused sheet it gives the
// number of the refusal, and every memory is left as it was.
#[unsafe(no_mangle)]
pub extern "C" fn recovery_prepare(
    bytes: &[u8],
    heads: &mut [u16; HEAD_CELLS],
    nodes: &mut [u16; NODE_CELLS],
    sets: &mut [u64; SET_WORDS],
    start: &mut [u64; States::WORDS],
) -> u8
    ensures { (result ≡ number_for (reading bytes.now)) × (start.new ≡ memory_after start_words (reading bytes.now) start.old) × TablesAfter (reading bytes.now) heads.old nodes.old sets.old heads.new nodes.new sets.new }
{
    match prepare(bytes, heads, nodes, sets) {
        Err(refusal) => u8::from(refusal),
        Ok(set) => {
            *start = set.words();
            0
        }
    }
}

// Replaces a set of states by the states possible after an action and its reply.
#[unsafe(no_mangle)]
pub extern "C" fn recovery_step(
    heads: &[u16; HEAD_CELLS],
    sets: &[u64; SET_WORDS],
    set: &mut [u64; States::WORDS],
    action: usize,
    reply: usize,
)
    ensures { set.new ≡ words (stepped heads.now sets.now (of_words set.old) action reply) }
{
    let before = States::of_words(set);
    let after = step(heads, sets, before, action, reply);
    *set = after.words();
}

// One pass over the states of a set when a reply to an action comes in: replaces the set by the states in which the reply is
// true, writes how often the reply was evaluated, which is once for each state of the set, and gives 1 if the reply is
// possible, 0 if no state is left. The reply is looked at after the action's effect, so the set is that of the states possible
// then.
#[unsafe(no_mangle)]
pub extern "C" fn recovery_pass(
    heads: &[u16; HEAD_CELLS],
    sets: &[u64; SET_WORDS],
    set: &mut [u64; States::WORDS],
    action: usize,
    reply: usize,
    evaluations: &mut [u64; 1],
) -> u8
    ensures { (result ≡ flag_number (passed_by heads.now sets.now (of_words set.old) action reply).possible) × (set.new ≡ words (passed_by heads.now sets.now (of_words set.old) action reply).kept) × (evaluations.new ≡ (passed_by heads.now sets.now (of_words set.old) action reply).evaluations ∷ []) }
{
    let before = States::of_words(set);
    let passed = pass(heads, sets, before, action, reply);
    *set = passed.kept.words();
    *evaluations = [passed.evaluations];
    passed.possible as u8
}

// Where the program settles from node `at` on: 0 for an end at which the goal fails, 1 for an end at which it holds, else
// 2 + 65536 * node + action; node and action fit 16 bits.
#[unsafe(no_mangle)]
pub extern "C" fn recovery_settle(
    nodes: &[u16; NODE_CELLS],
    sets: &[u64; SET_WORDS],
    set: &[u64; States::WORDS],
    at: usize,
) -> u64
    ensures { (result ≡ place_number (settled nodes.now sets.now (of_words set.now) at)) × Inside (settled nodes.now sets.now (of_words set.now) at) }
{
    match settle(nodes, sets, States::of_words(set), at) {
        Place::End(holds) => holds as u64,
        Place::Act(node, action) => 2 + 65536 * (node as u64) + (action as u64),
    }
}

// Whether a formula is known where the states of a set are possible: 1 if every one of them is in set k of the tables, else 0.
#[unsafe(no_mangle)]
pub extern "C" fn recovery_known(
    sets: &[u64; SET_WORDS],
    set: &[u64; States::WORDS],
    k: usize,
) -> u8
    ensures { result ≡ flag_number (known_by sets.now (of_words set.now) k) }
{
    known(sets, k, States::of_words(set)) as u8
}

// Writes a verdict as three numbers. A refusal leaves the memory as it was.
fn put_verdict(memory: &mut [u64; 3], answer: Result<Verdict, VerifyError>)
    ensures { memory.new ≡ memory_after verdict_numbers (verdict_of answer) memory.old }
{
    match answer {
        Ok(Verdict::Valid(c)) => {
            *memory = [0, c as u64, 0];
        }
        Ok(Verdict::Invalid(c, l)) => {
            *memory = [1, c as u64, l as u64];
        }
        Ok(Verdict::Stopped(b)) => {
            *memory = [2, b as u64, 0];
        }
        Err(error) => {}
    }
}

// Verifies a sheet with a budget and gives 0; the trace memory then begins with the least failing trace if the verdict is
// invalid. The verdict is written as three numbers: 0 and the count for "valid", 1, the count and the length for
// "invalid", 2 and the budget for "stopped". A refusal gives its number, 30 if the trace memory has under 129 bytes, and
// every memory is left as it was.
#[unsafe(no_mangle)]
pub extern "C" fn recovery_verify(
    bytes: &[u8],
    budget: u32,
    trace: &mut [u8],
    verdict: &mut [u64; 3],
) -> u8
    ensures { (result ≡ number_for (verified bytes.now budget trace.old).answer) × (trace.new ≡ (verified bytes.now budget trace.old).memory) × (verdict.new ≡ memory_after verdict_numbers (verified bytes.now budget trace.old).answer verdict.old) }
{
    let answer = verify(bytes, budget, trace);
    put_verdict(verdict, answer);
    verifier::number(answer)
}

// The same in lent tables and a lent memo, whatever they hold: for callers who count their stack, or who make many calls.
// The tables are then those of the sheet, and the memo is cleared; a refusal leaves them as they were.
#[unsafe(no_mangle)]
pub extern "C" fn recovery_verify_in(
    bytes: &[u8],
    budget: u32,
    trace: &mut [u8],
    verdict: &mut [u64; 3],
    heads: &mut [u16; HEAD_CELLS],
    nodes: &mut [u16; NODE_CELLS],
    sets: &mut [u64; SET_WORDS],
    memo: &mut [u64; MEMO_WORDS],
) -> u8
    ensures { (result ≡ number_for (verified bytes.now budget trace.old).answer) × (trace.new ≡ (verified bytes.now budget trace.old).memory) × (verdict.new ≡ memory_after verdict_numbers (verified bytes.now budget trace.old).answer verdict.old) × (memo.new ≡ cleared (admitted bytes.now trace.old) memo.old) × TablesAfter (admitted bytes.now trace.old) heads.old nodes.old sets.old heads.new nodes.new sets.new }
{
    let answer = verify_in(bytes, budget, trace, heads, nodes, sets, memo);
    put_verdict(verdict, answer);
    verifier::number(answer)
}

// The checker's answer as a number.
fn checked_number(answer: Result<bool, Refusal>) -> u8
    ensures { result ≡ checked_number (checked_of answer) }
{
    match answer {
        Ok(true) => 0,
        Ok(false) => 255,
        Err(refusal) => u8::from(refusal),
    }
}

// Whether a trace is one of a full run that fails the goal: 0 for yes, 255 for no, else the number of the sheet's refusal.
#[unsafe(no_mangle)]
pub extern "C" fn recovery_check(bytes: &[u8], trace: &[u8]) -> u8
    ensures { result ≡ checked_number (checked bytes.now trace.now) }
{
    checked_number(check(bytes, trace))
}

// The same in lent tables, whatever they hold. They are then those of the sheet; a refusal leaves them as they were.
#[unsafe(no_mangle)]
pub extern "C" fn recovery_check_in(
    bytes: &[u8],
    trace: &[u8],
    heads: &mut [u16; HEAD_CELLS],
    nodes: &mut [u16; NODE_CELLS],
    sets: &mut [u64; SET_WORDS],
) -> u8
    ensures { (result ≡ checked_number (checked bytes.now trace.now)) × TablesAfter (reading bytes.now) heads.old nodes.old sets.old heads.new nodes.new sets.new }
{
    checked_number(check_in(bytes, trace, heads, nodes, sets))
}

// Writes what planverify prints for a sheet from the first byte on, and gives its length.
#[unsafe(no_mangle)]
pub extern "C" fn recovery_print(bytes: &[u8], out: &mut [u8; LINES]) -> usize
    ensures { (result ≡ length (printed bytes.now)) × (out.new ≡ write out.old 0 (printed bytes.now)) × (result ≤ most_lines) }
{
    print(bytes, out)
}

// The record that lent memory holds.
fn lent_record(
    sheet: &[u8; Record::SHEET],
    replies: &[u8; Record::REPLIES],
    lengths: &[usize; 2],
) -> Record
    ensures { result ≡ lent_record sheet.now replies.now lengths.now }
{
    Record {
        sheet: *sheet,
        len: lengths[0],
        replies: *replies,
        count: lengths[1],
    }
}

// Writes the replies of a record and its lengths. (Here and below an array that is a field goes through a variable: without
// one the borrow checker doesn't cover the function.)
fn put_replies(kept: Record, replies: &mut [u8; Record::REPLIES], lengths: &mut [usize; 2])
    ensures { (replies.new ≡ kept.replies) × (lengths.new ≡ lengths_of kept) }
{
    let kept_replies = kept.replies;
    *replies = kept_replies;
    *lengths = [kept.len, kept.count];
}

// Writes the record of a sheet with no replies and gives 0. For a refused sheet it writes the record of zeros and gives
// the number of the refusal. The lengths are those of the sheet and of the replies.
#[unsafe(no_mangle)]
pub extern "C" fn recovery_load(
    bytes: &[u8],
    sheet: &mut [u8; Record::SHEET],
    replies: &mut [u8; Record::REPLIES],
    lengths: &mut [usize; 2],
) -> u8
    ensures { (result ≡ number_for (reading bytes.now)) × (sheet.new ≡ (loaded bytes.now).sheet) × (replies.new ≡ (loaded bytes.now).replies) × (lengths.new ≡ lengths_of (loaded bytes.now)) }
{
    let after = Record::load(bytes);
    let kept_sheet = after.kept.sheet;
    *sheet = kept_sheet;
    put_replies(after.kept, replies, lengths);
    code(after.answer)
}

// The same, and the tables of the sheet are written too, as `recovery_prepare` does it.
#[unsafe(no_mangle)]
pub extern "C" fn recovery_load_in(
    bytes: &[u8],
    sheet: &mut [u8; Record::SHEET],
    replies: &mut [u8; Record::REPLIES],
    lengths: &mut [usize; 2],
    heads: &mut [u16; HEAD_CELLS],
    nodes: &mut [u16; NODE_CELLS],
    sets: &mut [u64; SET_WORDS],
) -> u8
    ensures { (result ≡ number_for (reading bytes.now)) × (sheet.new ≡ (loaded bytes.now).sheet) × (replies.new ≡ (loaded bytes.now).replies) × (lengths.new ≡ lengths_of (loaded bytes.now)) × TablesAfter (reading bytes.now) heads.old nodes.old sets.old heads.new nodes.new sets.new }
{
    let after = Record::load_in(bytes, heads, nodes, sets);
    let kept_sheet = after.kept.sheet;
    *sheet = kept_sheet;
    put_replies(after.kept, replies, lengths);
    code(after.answer)
}

// Writes what is told and gives 0, or gives the number of the refusal. (Numbers, since C reads them.)
fn put_told(told: &mut [usize; 2], answer: Result<Told, Rejection>) -> u8
    ensures { (result ≡ number_for (told_of answer)) × (told.new ≡ memory_after told_numbers (told_of answer) told.old) }
{
    match answer {
        Ok(Told::Act(action)) => {
            *told = [0, action];
            0
        }
        Ok(Told::End(holds)) => {
            *told = [1, holds as usize];
            0
        }
        Err(rejection) => u8::from(rejection),
    }
}

// Tells what to do by two numbers and gives 0: 0 and the action, or at the end 1, and 1 if the goal holds, else 0. For a
// bad record it gives 31, and the two numbers are left as they were.
#[unsafe(no_mangle)]
pub extern "C" fn recovery_next(
    sheet: &[u8; Record::SHEET],
    replies: &[u8; Record::REPLIES],
    lengths: &[usize; 2],
    told: &mut [usize; 2],
) -> u8
    ensures { (result ≡ number_for (next_on (lent_record sheet.now replies.now lengths.now))) × (told.new ≡ memory_after told_numbers (next_on (lent_record sheet.now replies.now lengths.now)) told.old) }
{
    let record = lent_record(sheet, replies, lengths);
    let after = record.next();
    put_told(told, after.answer)
}

// The same in lent tables, which then hold those of the record's sheet; they are left as they were where it is refused.
#[unsafe(no_mangle)]
pub extern "C" fn recovery_next_in(
    sheet: &[u8; Record::SHEET],
    replies: &[u8; Record::REPLIES],
    lengths: &[usize; 2],
    told: &mut [usize; 2],
    heads: &mut [u16; HEAD_CELLS],
    nodes: &mut [u16; NODE_CELLS],
    sets: &mut [u64; SET_WORDS],
) -> u8
    ensures { (result ≡ number_for (next_on (lent_record sheet.now replies.now lengths.now))) × (told.new ≡ memory_after told_numbers (next_on (lent_record sheet.now replies.now lengths.now)) told.old) × TablesAfter (sheet_in (lent_record sheet.now replies.now lengths.now)) heads.old nodes.old sets.old heads.new nodes.new sets.new }
{
    let record = lent_record(sheet, replies, lengths);
    let after = record.next_in(heads, nodes, sets);
    put_told(told, after.answer)
}

// Adds a reply to the record and gives 0, or gives the number of the refusal, 31 to 34, and the record is left as it was.
#[unsafe(no_mangle)]
pub extern "C" fn recovery_report(
    sheet: &[u8; Record::SHEET],
    replies: &mut [u8; Record::REPLIES],
    lengths: &mut [usize; 2],
    reply: u8,
) -> u8
    ensures { (result ≡ number_for (report_on (lent_record sheet.now replies.old lengths.old) reply)) × (replies.new ≡ (record_after (lent_record sheet.now replies.old lengths.old) reply).replies) × (lengths.new ≡ lengths_of (record_after (lent_record sheet.now replies.old lengths.old) reply)) }
{
    let record = lent_record(sheet, replies, lengths);
    let after = record.report(reply);
    put_replies(after.kept, replies, lengths);
    code(after.answer)
}

// The same in lent tables, which then hold those of the record's sheet; they are left as they were where it is refused.
#[unsafe(no_mangle)]
pub extern "C" fn recovery_report_in(
    sheet: &[u8; Record::SHEET],
    replies: &mut [u8; Record::REPLIES],
    lengths: &mut [usize; 2],
    reply: u8,
    heads: &mut [u16; HEAD_CELLS],
    nodes: &mut [u16; NODE_CELLS],
    sets: &mut [u64; SET_WORDS],
) -> u8
    ensures { (result ≡ number_for (report_on (lent_record sheet.now replies.old lengths.old) reply)) × (replies.new ≡ (record_after (lent_record sheet.now replies.old lengths.old) reply).replies) × (lengths.new ≡ lengths_of (record_after (lent_record sheet.now replies.old lengths.old) reply)) × TablesAfter (sheet_in (lent_record sheet.now replies.old lengths.old)) heads.old nodes.old sets.old heads.new nodes.new sets.new }
{
    let record = lent_record(sheet, replies, lengths);
    let after = record.report_in(reply, heads, nodes, sets);
    put_replies(after.kept, replies, lengths);
    code(after.answer)
}

// The numbers of a stream's state: its figures, the lengths that are read with their sheets, and the bytes that are begun.
pub const STATE: usize = Figures::NUMBERS + 2;

// The state of a stream that lent memory holds.
fn lent_release(numbers: &[u64; STATE], begun: &[u8; Begun::BYTES]) -> Release
    ensures { result ≡ lent_release numbers.now begun.now }
{
    let figures = Figures {
        valid: numbers[0],
        invalid: numbers[1],
        stopped: numbers[2],
        refused: numbers[3],
        sum: numbers[4],
        greatest: numbers[5],
    };
    let held = numbers[7] as usize;
    Release {
        figures,
        lengths: numbers[6],
        begun: Begun {
            held,
            bytes: *begun,
        },
    }
}

// Writes the state of a stream.
fn put_release(state: Release, numbers: &mut [u64; STATE], begun: &mut [u8; Begun::BYTES])
    ensures { (numbers.new ≡ release_numbers state) × (begun.new ≡ state.begun.bytes) }
{
    let figures = state.figures;
    *numbers = [
        figures.valid,
        figures.invalid,
        figures.stopped,
        figures.refused,
        figures.sum,
        figures.greatest,
        state.lengths,
        state.begun.held as u64,
    ];
    let bytes = state.begun.bytes;
    *begun = bytes;
}

// Feeds a piece of a stream of sheets, each behind a 16-bit length, most significant byte first, to the state that the
// first two memories hold; zeros are the state of no bytes. Gives 1 if 65,535 lengths are read with their sheets, so that
// nothing more is looked at, else 0. The tables and the memo are as the last accepted sheet leaves them.
#[unsafe(no_mangle)]
pub extern "C" fn recovery_figures_feed(
    piece: &[u8],
    numbers: &mut [u64; STATE],
    begun: &mut [u8; Begun::BYTES],
    heads: &mut [u16; HEAD_CELLS],
    nodes: &mut [u16; NODE_CELLS],
    sets: &mut [u64; SET_WORDS],
    memo: &mut [u64; MEMO_WORDS],
) -> u8
    ensures { (result ≡ flag_number (is_done (fed (lent_release numbers.old begun.old) piece.now))) × (numbers.new ≡ release_numbers (fed (lent_release numbers.old begun.old) piece.now)) × (begun.new ≡ (fed (lent_release numbers.old begun.old) piece.now).begun.bytes) × (memo.new ≡ cleared_all (read_by (lent_release numbers.old begun.old) piece.now) memo.old) × TablesAfterAll (read_by (lent_release numbers.old begun.old) piece.now) heads.old nodes.old sets.old heads.new nodes.new sets.new }
{
    let state = lent_release(numbers, begun);
    let after = state.feed(piece, heads, nodes, sets, memo);
    put_release(after, numbers, begun);
    after.is_done() as u8
}

// Writes the six figures of a stream that ends where its state stands: what is begun then is cut, and refused.
#[unsafe(no_mangle)]
pub extern "C" fn recovery_figures_end(
    numbers: &[u64; STATE],
    begun: &[u8; Begun::BYTES],
    figures: &mut [u64; Figures::NUMBERS],
)
    ensures { figures.new ≡ figure_numbers (meant_by (ended (lent_release numbers.now begun.now))) }
{
    let state = lent_release(numbers, begun);
    let found = state.end();
    *figures = found.numbers();
}

// Writes the line of six figures, whatever they are, from the first byte on, and gives its length.
#[unsafe(no_mangle)]
pub extern "C" fn recovery_figures_print(
    figures: &[u64; Figures::NUMBERS],
    out: &mut [u8; LINES],
) -> usize
    ensures { (result ≡ length (numbers_line figures.now)) × (out.new ≡ write out.old 0 (numbers_line figures.now)) × (result ≤ most_lines) }
{
    print_figures(*figures, out)
}
