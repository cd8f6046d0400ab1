//! The two definitions of what a script prints, over a worked script.
ghost use Rattle.std.specs.Prelude.{◌≡◌, []};
ghost use Rattle.ppq_engine.specs.Output.{output_of, load_of, crest_of};
ghost use Rattle.ppq_engine.specs.Deferred.{output_deferred, load_deferred, crest_deferred};
ghost use Rattle.ppq_engine.specs.Examples.{worked_commands, worked_output};

use ppq_engine::{Form, session_laws};
use ppq_record::{Fields, Pair};

// What was computed by hand of a worked script.
fn worked_row()
    ensures output { output_of ⟦<Pair as Fields>⟧ Form.Text (λ file. []) worked_commands ≡ worked_output }
    ensures load { load_of ⟦<Pair as Fields>⟧ (λ file. []) worked_commands ≡ 5 }
    ensures crest { crest_of ⟦<Pair as Fields>⟧ (λ file. []) worked_commands ≡ 4 }
    ensures output_deferred { output_deferred ⟦<Pair as Fields>⟧ Form.Text (λ file. []) worked_commands ≡ worked_output }
    ensures load_deferred { load_deferred ⟦<Pair as Fields>⟧ (λ file. []) worked_commands ≡ 5 }
    ensures crest_deferred { crest_deferred ⟦<Pair as Fields>⟧ (λ file. []) worked_commands ≡ 4 }
{}

#[test]
fn both_definitions_print_a_worked_script() {
    session_laws::<Pair>();
    worked_row();
}
