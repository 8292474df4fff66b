// The static library that C and Rust programs link, librecovery.a: the functions of `recovery` under the same names, each with
// its clauses. (A crate is a library, which others can rest on, or a static library.)
#![tactic(auto)]

ghost use Rattle.std.specs.Prelude.{◌≡◌, [], ◌∷◌, ◌≤◌, length};
ghost use Rattle.format.specs.Format.{reading};
ghost use Rattle.reader.specs.Answers.{number_for};
ghost use Rattle.semantics.specs.Verdict.{admitted, verified};
ghost use Rattle.semantics.specs.Checker.{checked};
ghost use Rattle.semantics.specs.Printing.{most_lines, printed, numbers_line};
ghost use Rattle.states.specs.Sets.{words, of_words};
ghost use Rattle.lists.specs.Lists.{write};
ghost use Rattle.routine.specs.Tables.{TablesAfter};
ghost use Rattle.progression.specs.Machine.{stepped, passed_by, settled, known_by, Inside};
ghost use Rattle.verifier.specs.Answers.{cleared};
ghost use Rattle.runner.specs.Records.{loaded, sheet_in, next_on, report_on, record_after};
ghost use Rattle.semantics.specs.Figures.{figure_numbers};
ghost use Rattle.release.specs.Counting.{meant_by};
ghost use Rattle.release.specs.Feeding.{fed, is_done, ended, read_by, cleared_all, TablesAfterAll};
ghost use Rattle.recovery.specs.Numbers.{memory_after, start_words, place_number, flag_number, verdict_numbers, checked_number, lent_record, lengths_of, told_numbers, lent_release, release_numbers};

use printing::LINES;
use recovery::STATE;
use release::{Begun, Figures};
use routine::{HEAD_CELLS, NODE_CELLS, SET_WORDS};
use runner::Record;
use states::States;
use verifier::MEMO_WORDS;

// 0 for a sheet that is accepted, else document 01's number of its refusal.
#[unsafe(no_mangle)]
pub extern "C" fn recovery_read(bytes: &[u8]) -> u8
    ensures { result ≡ number_for (reading bytes.now) }
{
    recovery::recovery_read(bytes)
}

// Writes the tables of an accepted sheet and the words of its start set, and gives 0. For a refused sheet it gives the
// number of the refusal, and every memory is left as it was.
#[unsafe(no_mangle)]
pub extern "C" fn recovery_prepare(
    bytes: &[u8],
    heads: &mut [u16; HEAD_CELLS],
    nodes: &mut [u16; NODE_CELLS],
    sets: &mut [u64; SET_WORDS],
    start: &mut [u64; States::WORDS],
) -> u8
    ensures { (result ≡ number_for (reading bytes.now)) × (start.new ≡ memory_after start_words (reading bytes.now) start.old) × TablesAfter (reading bytes.now) heads.old nodes.old sets.old heads.new nodes.new sets.new }
{
    recovery::recovery_prepare(bytes, heads, nodes, sets, start)
}

// Replaces a set of states by the states possible after an action and its reply.
#[unsafe(no_mangle)]
pub extern "C" fn recovery_step(
    heads: &[u16; HEAD_CELLS],
    sets: &[u64; SET_WORDS],
    set: &mut [u64; States::WORDS],
    action: usize,
    reply: usize,
)
    ensures { set.new ≡ words (stepped heads.now sets.now (of_words set.old) action reply) }
{
    recovery::recovery_step(heads, sets, set, action, reply)
}

// One pass over the states of a set when a reply to an action comes in: replaces the set by the states in which the reply is
// true, writes how often the reply was evaluated, which is once for each state of the set, and gives 1 if the reply is
// possible, 0 if no state is left. The reply is looked at after the action's effect, so the set is that of the states possible
// then.
#[unsafe(no_mangle)]
pub extern "C" fn recovery_pass(
    heads: &[u16; HEAD_CELLS],
    sets: &[u64; SET_WORDS],
    set: &mut [u64; States::WORDS],
    action: usize,
    reply: usize,
    evaluations: &mut [u64; 1],
) -> u8
    ensures { (result ≡ flag_number (passed_by heads.now sets.now (of_words set.old) action reply).possible) × (set.new ≡ words (passed_by heads.now sets.now (of_words set.old) action reply).kept) × (evaluations.new ≡ (passed_by heads.now sets.now (of_words set.old) action reply).evaluations ∷ []) }
{
    recovery::recovery_pass(heads, sets, set, action, reply, evaluations)
}

// Where the program settles from node `at` on: 0 for an end at which the goal fails, 1 for an end at which it holds, else
// 2 + 65536 * node + action; node and action fit 16 bits.
#[unsafe(no_mangle)]
pub extern "C" fn recovery_settle(
    nodes: &[u16; NODE_CELLS],
    sets: &[u64; SET_WORDS],
    set: &[u64; States::WORDS],
    at: usize,
) -> u64
    ensures { (result ≡ place_number (settled nodes.now sets.now (of_words set.now) at)) × Inside (settled nodes.now sets.now (of_words set.now) at) }
{
    recovery::recovery_settle(nodes, sets, set, at)
}

// Whether a formula is known where the states of a set are possible: 1 if every one of them is in set k of the tables, else 0.
#[unsafe(no_mangle)]
pub extern "C" fn recovery_known(
    sets: &[u64; SET_WORDS],
    set: &[u64; States::WORDS],
    k: usize,
) -> u8
    ensures { result ≡ flag_number (known_by sets.now (of_words set.now) k) }
{
    recovery::recovery_known(sets, set, k)
}

// Verifies a sheet with a budget and gives 0; the trace memory then begins with the least failing trace if the verdict is
// invalid. The verdict is written as three numbers: 0 and the count for "valid", 1, the count and the length for
// "invalid", 2 and the budget for "stopped". A refusal gives its number, 30 if the trace memory has under 129 bytes, and
// every memory is left as it was.
#[unsafe(no_mangle)]
pub extern "C" fn recovery_verify(
    bytes: &[u8],
    budget: u32,
    trace: &mut [u8],
    verdict: &mut [u64; 3],
) -> u8
    ensures { (result ≡ number_for (verified bytes.now budget trace.old).answer) × (trace.new ≡ (verified bytes.now budget trace.old).memory) × (verdict.new ≡ memory_after verdict_numbers (verified bytes.now budget trace.old).answer verdict.old) }
{
    recovery::recovery_verify(bytes, budget, trace, verdict)
}

// The same in lent tables and a lent memo, whatever they hold: for callers who count their stack, or who make many calls.
// The tables are then those of the sheet, and the memo is cleared; a refusal leaves them as they were.
#[unsafe(no_mangle)]
pub extern "C" fn recovery_verify_in(
    bytes: &[u8],
    budget: u32,
    trace: &mut [u8],
    verdict: &mut [u64; 3],
    heads: &mut [u16; HEAD_CELLS],
    nodes: &mut [u16; NODE_CELLS],
    sets: &mut [u64; SET_WORDS],
    memo: &mut [u64; MEMO_WORDS],
) -> u8
    ensures { (result ≡ number_for (verified bytes.now budget trace.old).answer) × (trace.new ≡ (verified bytes.now budget trace.old).memory) × (verdict.new ≡ memory_after verdict_numbers (verified bytes.now budget trace.old).answer verdict.old) × (memo.new ≡ cleared (admitted bytes.now trace.old) memo.old) × TablesAfter (admitted bytes.now trace.old) heads.old nodes.old sets.old heads.new nodes.new sets.new }
{
    recovery::recovery_verify_in(bytes, budget, trace, verdict, heads, nodes, sets, memo)
}

// Whether a trace is one of a full run that fails the goal: 0 for yes, 255 for no, else the number of the sheet's refusal.
#[unsafe(no_mangle)]
pub extern "C" fn recovery_check(bytes: &[u8], trace: &[u8]) -> u8
    ensures { result ≡ checked_number (checked bytes.now trace.now) }
{
    recovery::recovery_check(bytes, trace)
}

// The same in lent tables, whatever they hold. They are then those of the sheet; a refusal leaves them as they were.
#[unsafe(no_mangle)]
pub extern "C" fn recovery_check_in(
    bytes: &[u8],
    trace: &[u8],
    heads: &mut [u16; HEAD_CELLS],
    nodes: &mut [u16; NODE_CELLS],
    sets: &mut [u64; SET_WORDS],
) -> u8
    ensures { (result ≡ checked_number (checked bytes.now trace.now)) × TablesAfter (reading bytes.now) heads.old nodes.old sets.old heads.new nodes.new sets.new }
{
    recovery::recovery_check_in(bytes, trace, heads, nodes, sets)
}

// Writes what planverify prints for a sheet from the first byte on, and gives its length.
#[unsafe(no_mangle)]
pub extern "C" fn recovery_print(bytes: &[u8], out: &mut [u8; LINES]) -> usize
    ensures { (result ≡ length (printed bytes.now)) × (out.new ≡ write out.old 0 (printed bytes.now)) × (result ≤ most_lines) }
{
    recovery::recovery_print(bytes, out)
}

// Writes the record of a sheet with no replies and gives 0. For a refused sheet it writes the record of zeros and gives
// the number of the refusal. The lengths are those of the sheet and of the replies.
#[unsafe(no_mangle)]
pub extern "C" fn recovery_load(
    bytes: &[u8],
    sheet: &mut [u8; Record::SHEET],
    replies: &mut [u8; Record::REPLIES],
    lengths: &mut [usize; 2],
) -> u8
    ensures { (result ≡ number_for (reading bytes.now)) × (sheet.new ≡ (loaded bytes.now).sheet) × (replies.new ≡ (loaded bytes.now).replies) × (lengths.new ≡ lengths_of (loaded bytes.now)) }
{
    recovery::recovery_load(bytes, sheet, replies, lengths)
}

// The same, and the tables of the sheet are written too, as `recovery_prepare` does it.
#[unsafe(no_mangle)]
pub extern "C" fn recovery_load_in(
    bytes: &[u8],
    sheet: &mut [u8; Record::SHEET],
    replies: &mut [u8; Record::REPLIES],
    lengths: &mut [usize; 2],
    heads: &mut [u16; HEAD_CELLS],
    nodes: &mut [u16; NODE_CELLS],
    sets: &mut [u64; SET_WORDS],
) -> u8
    ensures { (result ≡ number_for (reading bytes.now)) × (sheet.new ≡ (loaded bytes.now).sheet) × (replies.new ≡ (loaded bytes.now).replies) × (lengths.new ≡ lengths_of (loaded bytes.now)) × TablesAfter (reading bytes.now) heads.old nodes.old sets.old heads.new nodes.new sets.new }
{
    recovery::recovery_load_in(bytes, sheet, replies, lengths, heads, nodes, sets)
}

// Tells what to do by two numbers and gives 0: 0 and the action, or at the end 1, and 1 if the goal holds, else 0. For a
// bad record it gives 31, and the two numbers are left as they were.
#[unsafe(no_mangle)]
pub extern "C" fn recovery_next(
    sheet: &[u8; Record::SHEET],
    replies: &[u8; Record::REPLIES],
    lengths: &[usize; 2],
    told: &mut [usize; 2],
) -> u8
    ensures { (result ≡ number_for (next_on (lent_record sheet.now replies.now lengths.now))) × (told.new ≡ memory_after told_numbers (next_on (lent_record sheet.now replies.now lengths.now)) told.old) }
{
    recovery::recovery_next(sheet, replies, lengths, told)
}

// The same in lent tables, which then hold those of the record's sheet; they are left as they were where it is refused.
#[unsafe(no_mangle)]
pub extern "C" fn recovery_next_in(
    sheet: &[u8; Record::SHEET],
    replies: &[u8; Record::REPLIES],
    lengths: &[usize; 2],
    told: &mut [usize; 2],
    heads: &mut [u16; HEAD_CELLS],
    nodes: &mut [u16; NODE_CELLS],
    sets: &mut [u64; SET_WORDS],
) -> u8
    ensures { (result ≡ number_for (next_on (lent_record sheet.now replies.now lengths.now))) × (told.new ≡ memory_after told_numbers (next_on (lent_record sheet.now replies.now lengths.now)) told.old) × TablesAfter (sheet_in (lent_record sheet.now replies.now lengths.now)) heads.old nodes.old sets.old heads.new nodes.new sets.new }
{
    recovery::recovery_next_in(sheet, replies, lengths, told, heads, nodes, sets)
}

// Adds a reply to the record and gives 0, or gives the number of the refusal, 31 to 34, and the record is left as it was.
#[unsafe(no_mangle)]
pub extern "C" fn recovery_report(
    sheet: &[u8; Record::SHEET],
    replies: &mut [u8; Record::REPLIES],
    lengths: &mut [usize; 2],
    reply: u8,
) -> u8
    ensures { (result ≡ number_for (report_on (lent_record sheet.now replies.old lengths.old) reply)) × (replies.new ≡ (record_after (lent_record sheet.now replies.old lengths.old) reply).replies) × (lengths.new ≡ lengths_of (record_after (lent_record sheet.now replies.old lengths.old) reply)) }
{
    recovery::recovery_report(sheet, replies, lengths, reply)
}

// The same in lent tables, which then hold those of the record's sheet; they are left as they were where it is refused.
#[unsafe(no_mangle)]
pub extern "C" fn recovery_report_in(
    sheet: &[u8; Record::SHEET],
    replies: &mut [u8; Record::REPLIES],
    lengths: &mut [usize; 2],
    reply: u8,
    heads: &mut [u16; HEAD_CELLS],
    nodes: &mut [u16; NODE_CELLS],
    sets: &mut [u64; SET_WORDS],
) -> u8
    ensures { (result ≡ number_for (report_on (lent_record sheet.now replies.old lengths.old) reply)) × (replies.new ≡ (record_after (lent_record sheet.now replies.old lengths.old) reply).replies) × (lengths.new ≡ lengths_of (record_after (lent_record sheet.now replies.old lengths.old) reply)) × TablesAfter (sheet_in (lent_record sheet.now replies.old lengths.old)) heads.old nodes.old sets.old heads.new nodes.new sets.new }
{
    recovery::recovery_report_in(sheet, replies, lengths, reply, heads, nodes, sets)
}

// Feeds a piece of a stream of sheets, each behind a 16-bit length, most significant byte first, to the state that the
// first two memories hold; zeros are the state of no bytes. Gives 1 if 65,535 lengths are read with their sheets, so that
// nothing more is looked at, else 0. The tables and the memo are as the last accepted sheet leaves them.
#[unsafe(no_mangle)]
pub extern "C" fn recovery_figures_feed(
    piece: &[u8],
    numbers: &mut [u64; STATE],
    begun: &mut [u8; Begun::BYTES],
    heads: &mut [u16; HEAD_CELLS],
    nodes: &mut [u16; NODE_CELLS],
    sets: &mut [u64; SET_WORDS],
    memo: &mut [u64; MEMO_WORDS],
) -> u8
    ensures { (result ≡ flag_number (is_done (fed (lent_release numbers.old begun.old) piece.now))) × (numbers.new ≡ release_numbers (fed (lent_release numbers.old begun.old) piece.now)) × (begun.new ≡ (fed (lent_release numbers.old begun.old) piece.now).begun.bytes) × (memo.new ≡ cleared_all (read_by (lent_release numbers.old begun.old) piece.now) memo.old) × TablesAfterAll (read_by (lent_release numbers.old begun.old) piece.now) heads.old nodes.old sets.old heads.new nodes.new sets.new }
{
    recovery::recovery_figures_feed(piece, numbers, begun, heads, nodes, sets, memo)
}

// Writes the six figures of a stream that ends where its state stands: what is begun then is cut, and refused.
#[unsafe(no_mangle)]
pub extern "C" fn recovery_figures_end(
    numbers: &[u64; STATE],
    begun: &[u8; Begun::BYTES],
    figures: &mut [u64; Figures::NUMBERS],
)
    ensures { figures.new ≡ figure_numbers (meant_by (ended (lent_release numbers.now begun.now))) }
{
    recovery::recovery_figures_end(numbers, begun, figures)
}

// Writes the line of six figures, whatever they are, from the first byte on, and gives its length.
#[unsafe(no_mangle)]
pub extern "C" fn recovery_figures_print(
    figures: &[u64; Figures::NUMBERS],
    out: &mut [u8; LINES],
) -> usize
    ensures { (result ≡ length (numbers_line figures.now)) × (out.new ≡ write out.old 0 (numbers_line figures.now)) × (result ≤ most_lines) }
{
    recovery::recovery_figures_print(figures, out)
}
