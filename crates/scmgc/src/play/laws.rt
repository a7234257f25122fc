//! The shown text of a script is a run of its readable lines.
ghost use Rattle.std.specs.Prelude.{ℕ, List};
ghost use Rattle.scmgc.specs.Played.{PlayText};
ghost use Rattle.scmgc.specs.declared.play.show.Style.{Style};
ghost use Rattle.scm_run.specs.Script.{Point, RunText};

/// The answers to the lines that can be read are those of a run of these lines alone, as
/// `scm_run::run_script` makes it, and lead to the same world.
pub fn what_is_played_is_a_run()
    ensures { (style : Style) (n : ℕ) (old : Point) (script read : List (List ℕ))
        (replies text : List ℕ) (new : Point)
        → PlayText style n old script read replies text new
        → (events : ℕ) × RunText old read events replies new }
{}
