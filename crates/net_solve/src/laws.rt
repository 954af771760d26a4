//! Laws of what comes of rows, each proved for all rows and options.

ghost use Rattle.std.specs.Prelude.{◌≡◌, ◌*◌, length};
ghost use Rattle.unit_scale.specs.declared.options.NetOptions.{NetOptions};
ghost use Rattle.flow_model.specs.Network.{Network};
ghost use Rattle.sndlib_grammar.specs.Rows.{NetRows};
ghost use Rattle.unit_scale.specs.Scaling.{ScaledNet};
ghost use Rattle.solver_run.specs.declared.options.SolveOptions.{SolveOptions};
ghost use Rattle.solver_run.specs.History.{SolvedView};
ghost use Rattle.solver_run.specs.Headline.{IsSolved};
ghost use Rattle.cert_lines.specs.Sheet.{sheet_of};
ghost use Rattle.cert_writer.specs.Text.{certificate_text};
ghost use Rattle.cert_judge.specs.declared.judged.Judged.{Judged};
ghost use Rattle.cert_judge.specs.Judgement.{IsJudgement};
ghost use Rattle.cert_inverse.specs.Judging.{valid_of};
ghost use Rattle.net_solve.specs.declared.asked.Asked.{Asked};
ghost use Rattle.net_solve.specs.Solving.{IsDone};
ghost use Rattle.net_solve.specs.Tally.{total_of, routes_of, carried_of};

use crate::solved_is_judged_valid;

/// The certificate of a solve checks: its text is judged valid on the same rows, with its verdict
/// and its fractions, and nothing else is said of it.
pub fn solves_check()
    ensures valid { (rows : NetRows) (o : NetOptions) (asked : Asked) (net : ScaledNet)
        (s : SolvedView)
        → IsDone rows o asked net s
        → IsJudgement rows (certificate_text (sheet_of rows net) s.proof) (valid_of net s.proof) }
    ensures alone { (rows : NetRows) (o : NetOptions) (asked : Asked) (net : ScaledNet)
        (s : SolvedView) (judged : Judged)
        → IsDone rows o asked net s
        → IsJudgement rows (certificate_text (sheet_of rows net) s.proof) judged
        → judged ≡ valid_of net s.proof }
{
    solved_is_judged_valid();
}

/// Each phase routes each commodity once.
pub fn routes_are_of_phases()
    ensures { (net : Network) (o : SolveOptions) (s : SolvedView) → IsSolved net o s
        → routes_of s ≡ length net.commodities * length s.history }
{}

/// In the certificate's own number of phases: the history has as many, the routes are phases times
/// commodities, and all rows together carry phases times the total amount.
pub fn carried_is_of_phases()
    ensures phases { (net : Network) (o : SolveOptions) (s : SolvedView) → IsSolved net o s
        → length s.history ≡ s.proof.routing.phases }
    ensures routes { (net : Network) (o : SolveOptions) (s : SolvedView) → IsSolved net o s
        → routes_of s ≡ s.proof.routing.phases * length net.commodities }
    ensures carried { (net : Network) (o : SolveOptions) (s : SolvedView) → IsSolved net o s
        → carried_of s.proof.routing.paths ≡ s.proof.routing.phases * total_of net }
{}
