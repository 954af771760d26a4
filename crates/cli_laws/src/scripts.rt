//! Refusals of scripts.

ghost use Rattle.std.specs.Prelude.{◌≡◌, ◌⊎◌, ◌<◌, ℕ, List, [], Err, length};
ghost use Rattle.sndlib_grammar.specs.Tokens.{Lexeme, lexemes};
ghost use Rattle.script.specs.declared.refusal.ScriptKind.{ScriptKind};
ghost use Rattle.script.specs.declared.refusal.ScriptRefusal.{ScriptRefusal};
ghost use Rattle.script.specs.declared.word.Expected.{Expected};
ghost use Rattle.script.specs.declared.word.Expected.TheVariants.{Command};
ghost use Rattle.script.specs.Reading.{Terms, at_start, end_of, scan, script_of, terms_of};
ghost use Rattle.cli_laws.specs.Scripts.{CanGoOn, IsStoppedAt};
ghost use Rattle.cli_laws.specs.ScriptKinds.{IsFault, IsOfToken, IsOfEnd};

use sndlib_rows::RawNet;
use unit_scale::Scaled;

/// Where tokens are refused, some script begins with the tokens before, and none with the one that
/// is refused too; or the tokens end within a script. A command must be able to go on: a word names
/// a link, and no capacity is above the limit.
pub fn scripts_stop_there()
    ensures { (terms : Terms) (end : ℕ) (caps : List ℕ) (tokens : List Lexeme) (r : ScriptRefusal)
        → CanGoOn terms caps
        → scan terms end (record { expected = Command; caps = caps; steps = [] }) tokens ≡ Err r
        → IsStoppedAt terms caps tokens end r.line }
{}

/// What the kind says of the token that is refused, behind commands and the words of one that has
/// begun; where the tokens end within a command, the kind is that of a syntax.
pub fn script_kinds_say_why()
    ensures { (terms : Terms) (end : ℕ) (caps : List ℕ) (tokens : List Lexeme) (r : ScriptRefusal)
        → scan terms end (record { expected = Command; caps = caps; steps = [] }) tokens ≡ Err r
        → IsOfToken terms caps tokens r ⊎ IsOfEnd terms caps tokens end r }
{}

/// And the other way: a script is refused so for each such reason. So it has no two, be it of another line or
/// of another kind.
pub fn script_reasons_refuse()
    ensures { (terms : Terms) (end : ℕ) (caps : List ℕ) (tokens : List Lexeme) (r : ScriptRefusal)
        → IsOfToken terms caps tokens r ⊎ IsOfEnd terms caps tokens end r
        → scan terms end (record { expected = Command; caps = caps; steps = [] }) tokens ≡ Err r }
{}

/// Two faults of one token, where the same has to stand and links have the same capacities, have one kind.
pub fn script_faults_are_one()
    ensures { (terms : Terms) (caps : List ℕ) (t : Lexeme) (next : Expected) (k l : ScriptKind)
        → IsFault terms caps t next k → IsFault terms caps t next l → k ≡ l }
{}

/// A script's text on a network that was read and has a link stops there to be one, too: there a command
/// can always go on.
pub fn script_texts_stop_there(rows: &RawNet<'_>, net: &Scaled)
    requires { 0 < length rows.now.links }
    ensures { (text : List ℕ) (r : ScriptRefusal) → script_of rows.now net.now text ≡ Err r
        → IsStoppedAt (terms_of rows.now net.now) (at_start rows.now net.now).caps
        (lexemes 0 text 0 1) (end_of text) r.line }
{
    let _links = rows.links();
    let _cells = net.net().cells();
}
