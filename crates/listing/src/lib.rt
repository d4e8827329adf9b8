// The listing of a plan, and all that the program prints.
#![tactic(auto)]

ghost use Rattle.listing.specs.Listing.{Lists, Prints};

use answers::Refusal;
use plan_check::check;
use text_decimals::Text;
use text_lines::end_line;
use text_listing::write_listing;

// Room for all that is printed.
pub type Page = [u8; 2048];

// Writes the listing from the first byte; refused (up to 15), nothing changes.
pub fn listing(plan: &[u8], out: &mut [u8]) -> Result<usize, Refusal>
    ensures { Lists plan.now out.old result out.new }
{
    check(plan)?;
    if out.len() < 2048 {
        return Err(Refusal::NoRoom);
    }
    Ok(write_listing(plan, out))
}

// Writes all that the program prints for these bytes, and answers how long it is.
pub fn print(plan: &[u8], out: &mut Page) -> usize
    ensures { Prints plan.now out.old result out.new }
{
    match listing(plan, out) {
        Ok(length) => length,
        Err(refusal) => {
            let mut text = Text { out, at: 0 };
            text.write_bytes(b"REFUSED");
            end_line(&mut text, u32::from(refusal));
            text.at
        }
    }
}
