//! The text of a verdict.
ghost use Rattle.std.specs.Prelude.{◌≡◌, ◌++◌, ◌+◌, ◌≤◌, OnOk, IfOk, List, vec_len, length};
ghost use Rattle.std.specs.Fmt.{decimal};
ghost use Rattle.trace_check.specs.Text.{why_text, verdict_text};

use script_text::push_decimal;
use std::alloc::{AllocError, Global};
use trace_model::{Verdict, WrongWhy};

fn push_why(text: &mut Vec<u8>, why: WrongWhy) -> Result<(), AllocError>
    ensures text { OnOk result (text.new.items ≡ text.old.items ++ why_text why) }
    ensures short { OnOk result (vec_len text.new ≤ vec_len text.old + 9) }
{
    let name = match why {
        WrongWhy::Busy => b"busy".as_slice(),
        WrongWhy::Condition => b"condition".as_slice(),
        WrongWhy::Idle => b"idle".as_slice(),
        WrongWhy::Step => b"step".as_slice(),
        WrongWhy::Value => b"value".as_slice(),
    };
    text.extend_from_slice(name)?;
    Ok(())
}

// A text before a number.
fn push_named(text: &mut Vec<u8>, name: &[u8], number: u32) -> Result<(), AllocError>
    ensures text { OnOk result (text.new.items ≡ text.old.items ++ name.now ++ decimal number) }
    ensures short { OnOk result (vec_len text.new ≤ vec_len text.old + length name.now + 20) }
{
    text.extend_from_slice(name)?;
    push_decimal(text, u64::from(number))
}

/// `run steps N guest A B host C D`, with what each end sent and got; or `wrong LINE WHY`. It is one line.
#[tactic(auto, unfolding(crate::specs::Text::verdict_text))]
pub fn verdict_text(alloc: Global, verdict: Verdict) -> Result<Vec<u8>, AllocError>
    ensures text { IfOk result (λ text. text.items ≡ verdict_text verdict) }
    ensures short { IfOk result (λ text. length text.items ≤ 128) }
{
    let mut text = Vec::new(alloc);
    match verdict {
        Verdict::Run {
            steps,
            guest_sent,
            guest_got,
            host_sent,
            host_got,
        } => {
            push_named(&mut text, b"run steps ", steps)?;
            push_named(&mut text, b" guest ", guest_sent)?;
            push_named(&mut text, b" ", guest_got)?;
            push_named(&mut text, b" host ", host_sent)?;
            push_named(&mut text, b" ", host_got)?;
        }
        Verdict::Wrong { line, why } => {
            push_named(&mut text, b"wrong ", line)?;
            text.extend_from_slice(b" ")?;
            push_why(&mut text, why)?;
        }
    }
    text.extend_from_slice(b"\n")?;
    Ok(text)
}
