// Reports of the optics and of the box.
ghost use Rattle.std.specs.Prelude.{◌≡◌, length};
ghost use Rattle.link.specs.Outcomes.{told};
ghost use Rattle.link.specs.Reports.{report_of, report_output};

use crate::Step;
use crate::concluding::{conclude, too_short};
use link_end::{End, News, Report};
use octets::Refusal;

// One report; `ShortOutput` for an output of under 60 octets.
#[tactic(auto, unfolding(crate::specs::Reports::report_of, crate::specs::Reports::report_output))]
pub fn take_report(end: &mut End, report: Report, out: &mut [u8]) -> Result<Step, Refusal>
    ensures { (told end.new result ≡ report_of report (length out.old) end.old) × (out.new ≡ report_output report end.old out.old) }
{
    if too_short(out.len()) {
        return Err(Refusal::ShortOutput);
    }
    end.report(report);
    Ok(conclude(end, News::Nothing, out))
}
