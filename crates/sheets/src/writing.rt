// Writing plan sheets.
ghost use Rattle.std.specs.Prelude.{◌≡◌, length, take, IfOk, Ok};
ghost use Rattle.parts.specs.Parts.{plan_of};
ghost use Rattle.sheets.specs.Grammar.{plan_sheet};
ghost use Rattle.parts.specs.Faults.{shown};
ghost use Rattle.sheets.specs.Refusals.{refusal_in, write_refusal};
ghost use Rattle.sheets.specs.Laws.{DifferentSheets};
ghost use Rattle.sheets.specs.Texts.{writable, unwritable, plan_text, written, left_in};
ghost use Rattle.tasks.specs.Searches.{first_where};

use crate::text::Text;
use parts::fault::PlanFault;
use parts::lists::Proposal;
use schedule::Part;
use tasks::set::methods::is_on_scale;

// Whether the part can be read back.
fn is_writable(part: &Part) -> bool
    ensures { result ≡ writable part.now }
{
    // the readers' limits again, as numbers: the test that `Limits` has is not public in `sheet`
    part.task <= 31 && part.processor <= 7 && is_on_scale(part.cost) && is_on_scale(part.window)
}

// The first part that could not be read back.
fn first_unwritable(parts: &[Part]) -> Option<usize>
    ensures { result ≡ first_where (unwritable parts.now) (length parts.now) }
{
    parts.iter().position(|part| !is_writable(part))
}

// Writes the plan sheet to the front of the buffer, and answers its length. What is written would be read back as the plan.
pub fn write_plan_sheet(plan: &Proposal, out: &mut [u8]) -> Result<usize, PlanFault>
    ensures answer { result ≡ written (plan_of plan.now) (length out.old) }
    ensures buffer { out.new ≡ left_in result (plan_text (plan_of plan.now)) out.old }
    ensures refusal { refusal_in shown result ≡ write_refusal (plan_of plan.now) (length out.old) }
    ensures read_back { IfOk result (λ n. plan_sheet (take n out.new) ≡ Ok (plan_of plan.now)) }
    ensures different { DifferentSheets }
{
    let parts = plan.parts();
    if let Some(part) = first_unwritable(parts) {
        return Err(PlanFault::OffScale { part });
    }
    let text = Text::of_plan(parts);
    let bytes = text.as_slice();
    let needed = bytes.len();
    if out.len() < needed {
        return Err(PlanFault::Cramped { needed });
    }
    out[0..needed].copy_from_slice(bytes);
    Ok(needed)
}
