// Reading the header of a sheet.
ghost use Rattle.std.specs.Prelude.{◌≡◌};
ghost use Rattle.format.specs.Format.{mapped, constraint_over, header_behind, is_edition, header as header_fields, of_sheet};
ghost use Rattle.reader.specs.Answers.{found, edition_of, space_set, spaced, header_is_read};

use crate::bits::Packed;
use crate::formula::{View, evaluate};
use crate::layout::{Edition, Header};
use crate::limits::{DEPTH, FACTS};
use crate::refusal::{Parsed, Refusal};
use states::States;

// The states over n facts, in edition 2 those that satisfy the constraint at a position; and the position behind it.
fn space_at(packed: &Packed, at: usize, edition: Edition, n: usize) -> Parsed<States>
    ensures { found result ≡ mapped (space_set n) (constraint_over (edition_of edition) n packed.now at) }
{
    let all = States::all(n);
    match edition {
        Edition::First => Ok((all, at)),
        Edition::Second => {
            let (set, end) = attempt!(evaluate(packed, at, DEPTH, n, View::States));
            Ok((all.intersect(set), end))
        }
    }
}

// The header behind its edition and its number of facts.
fn header_behind(packed: &Packed, at: usize, edition: Edition, n: usize) -> Result<Header, Refusal>
    ensures { header_is_read result ≡ mapped spaced (header_behind (edition_of edition) n packed.now at) }
{
    let (space, actions_at) = attempt!(space_at(packed, at, edition, n));
    let (k, end) = attempt!(packed.field(actions_at, 5));
    Ok(Header {
        edition,
        facts: n,
        actions: k,
        space,
        at: end,
    })
}

// The header of a sheet.
pub fn header(bytes: &[u8]) -> Result<Header, Refusal>
    ensures { header_is_read result ≡ mapped spaced (of_sheet (header_fields is_edition) bytes.now 0) }
{
    let packed = attempt!(Packed::new(bytes));
    let (number, facts_at) = attempt!(packed.field(0, 4));
    let edition = attempt!(Edition::try_from(number));
    let (n, at) = attempt!(packed.field(facts_at, 4));
    if n < 1 {
        return Err(Refusal::Facts);
    }
    if FACTS < n {
        return Err(Refusal::Facts);
    }
    header_behind(&packed, at, edition, n)
}

// The same of packed bytes, by a call, so that what is linked goes through both.
impl<'a> Packed<'a> {
    pub fn header(&self) -> Result<Header, Refusal>
        ensures { header_is_read result ≡ mapped spaced (header_fields is_edition self.now 0) }
    {
        header(self.bytes())
    }
}
