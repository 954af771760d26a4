//! A script, run on a plan.

ghost use Rattle.std.specs.Prelude.{◌≡◌, ◌∷◌, ◌<◌, ◌≤◌, [], ℕ, OnOk, OnErr, length, take, map};
ghost use Rattle.mcf_base.specs.Sink.{Wrote};
ghost use Rattle.text_lines.specs.Lines.{spelled};
ghost use Rattle.gap_fraction.specs.Decimals.{millionths_down, millionths_up};
ghost use Rattle.text_lines.specs.Spelling.{millionths_word};
ghost use Rattle.script.specs.Steps.{AreStepsOfCells};
ghost use Rattle.whatif.specs.Planned.{after_step, after_steps, evaluation_of};
ghost use Rattle.whatif.specs.Shown.{IsStopped, show_line, shown_text};

use crate::bounds::Bounds;
use crate::plan::Plan;
use gap_fraction::Frac;
use mcf_base::{Sink, WriteFault};
use script::{Script, Step};
use text_lines::{Word, write_line};
use unit_scale::LinkMode;

/// The value of a fraction with six digits behind the point, rounded down.
pub fn value_down(fraction: &Frac) -> Word
    ensures { result ≡ millionths_word (millionths_down fraction.now) }
{
    let shown = fraction.digits_down();
    Word::decimal(shown.whole, shown.micro)
}

/// The value of a fraction with six digits behind the point, rounded up.
pub fn value_up(fraction: &Frac) -> Word
    ensures { result ≡ millionths_word (millionths_up fraction.now) }
{
    let shown = fraction.digits_up();
    Word::decimal(shown.whole, shown.micro)
}

// Writes the line of what is shown.
fn write_bounds<K: Sink>(out: &mut K, bounds: &Bounds) -> Result<(), WriteFault>
    ensures { Wrote (K.seen out.old) (K.seen out.new) result (spelled (show_line (evaluation_of bounds.now))) }
{
    let lower = Word::fraction(bounds.lower.num(), bounds.lower.den());
    let lower_value = value_down(&bounds.lower);
    let upper = Word::fraction(bounds.upper.num(), bounds.upper.den());
    let upper_value = value_up(&bounds.upper);
    let words: [&[u8]; 6] = [
        b"lower",
        lower.bytes(),
        lower_value.bytes(),
        b"upper",
        upper.bytes(),
        upper_value.bytes(),
    ];
    write_line(out, b"show", &words)
}

// Takes one step, and writes a line where it is a `show`.
fn take_step<K: Sink>(
    plan: &mut Plan,
    mode: LinkMode,
    step: Step,
    out: &mut K,
) -> Result<(), WriteFault>
    requires { AreStepsOfCells mode (length plan.old.caps) (step ∷ []) }
    ensures wrote { Wrote (K.seen out.old) (K.seen out.new) result (shown_text mode plan.old (step ∷ [])) }
    ensures plan { plan.new ≡ after_step mode plan.old step }
    ensures stop { OnErr result (step ≡ Step.Show) }
{
    match step {
        Step::Edit { link, cap } => {
            plan.set_link(mode, link, cap);
            Ok(())
        }
        Step::Show => write_bounds(out, &plan.shown()),
    }
}

// Takes the steps one after the other.
fn take_steps<K: Sink>(
    plan: &mut Plan,
    mode: LinkMode,
    steps: &[Step],
    out: &mut K,
) -> Result<(), WriteFault>
    requires { AreStepsOfCells mode (length plan.old.caps) steps.now }
    ensures wrote { Wrote (K.seen out.old) (K.seen out.new) result (shown_text mode plan.old steps.now) }
    ensures all { OnOk result (plan.new ≡ after_steps mode plan.old steps.now) }
    ensures stopped { OnErr result (IsStopped mode plan.old steps.now plan.new (K.seen out.old) (K.seen out.new)) }
{
    for step in steps {
        match take_step(plan, mode, *step, out) {
            Ok(()) => {}
            Err(fault) => return Err(fault),
        }
    }
    Ok(())
}

/// Takes the steps of the script on the plan, and writes a line for each `show`, of what is shown then, before the next step is
/// taken. An edit gives each cell of its link the capacity, so the cells are to be those of links as the script's links are read.
/// After a fault the plan has the steps before the `show` that failed behind it, exactly; the lines before its own were
/// written whole, and a front of its own, and behind the write that failed there is no other. It takes no memory.
pub fn run_script<K: Sink>(plan: &mut Plan, script: &Script, out: &mut K) -> Result<(), WriteFault>
    requires { AreStepsOfCells script.now.mode (length plan.old.caps) script.now.steps }
    ensures wrote { Wrote (K.seen out.old) (K.seen out.new) result
        (shown_text script.now.mode plan.old script.now.steps) }
    ensures all { OnOk result (plan.new ≡ after_steps script.now.mode plan.old script.now.steps) }
    ensures stopped { OnErr result (IsStopped script.now.mode plan.old script.now.steps plan.new
        (K.seen out.old) (K.seen out.new)) }
{
    take_steps(plan, script.links(), script.steps(), out)
}
