//! From a valid certificate and a script's text to what the script shows.

ghost use Rattle.std.specs.Prelude.{◌≡◌, ◌≤◌, IfOk, OnOk, OnErr, length};
ghost use Rattle.mcf_base.specs.Sink.{Wrote};
ghost use Rattle.mcf_limits.specs.declared.TheConstants.{MAX_SCRIPT_BYTES};
ghost use Rattle.script.specs.Steps.{AreStepsOfCells};
ghost use Rattle.whatif.specs.Shown.{shown_text};
ghost use Rattle.cert_judge.specs.Certified.{IsCertificate};
ghost use Rattle.net_whatif.specs.Scripted.{CanRun, IsScriptedText};

use flow_paths::Proof;
use mcf_base::{Sink, WriteFault};
use script::{Script, ScriptEnd, ScriptRefusal};
use sndlib_rows::RawNet;
use std::alloc::{AllocError, Global};
use unit_scale::Scaled;
use whatif::{Plan, run_script};

/// What comes of a script's text.
#[derive(Drop)]
pub enum Scripted {
    /// The first refusal.
    Refused(ScriptRefusal),
    /// The plan of the certificate, and the steps of the script.
    Ready(Plan, Script),
}

/// Reads the whole script: its steps, with the plan of the certificate, or its first refusal. Running the steps needs no further memory.
pub fn read_script(
    alloc: Global,
    rows: &RawNet<'_>,
    net: &Scaled,
    proof: &Proof,
    text: &[u8],
) -> Result<Scripted, AllocError>
    requires certificate { IsCertificate rows.now net.now proof.now }
    requires text { length text.now ≤ MAX_SCRIPT_BYTES }
    ensures value { IfOk result (IsScriptedText rows.now net.now proof.now text.now) }
    ensures steps { IfOk result CanRun }
{
    let _facts = net.net();
    let script = match Script::read(alloc, rows, net, text) {
        Ok(script) => script,
        Err(ScriptEnd::Refused(refusal)) => return Ok(Scripted::Refused(refusal)),
        Err(ScriptEnd::Memory) => return Err(AllocError),
    };
    let plan = Plan::new(alloc, net.net(), proof)?;
    Ok(Scripted::Ready(plan, script))
}

/// Writes a line for each `show` of the steps. After a fault a front of these lines was written, and nothing behind the write
/// that failed. It takes no memory.
pub fn write_shown<K: Sink>(plan: Plan, script: &Script, out: &mut K) -> Result<(), WriteFault>
    requires { AreStepsOfCells script.now.mode (length plan.caps) script.now.steps }
    ensures { Wrote (K.seen out.old) (K.seen out.new) result
        (shown_text script.now.mode plan script.now.steps) }
{
    let mut plan = plan;
    run_script(&mut plan, script, out)
}
