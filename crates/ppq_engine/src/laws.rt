//! Laws over every script, each the contract of a call that does nothing and costs nothing. They are for
//! the proof of whoever calls them, and for a reader.
ghost use Rattle.std.specs.Prelude.{◌≡◌, ℕ, List, take};
ghost use Rattle.std.specs.List.{AllByRecursion as Each};
ghost use Rattle.ppq_script.specs.declared.command.Command.{Command};
ghost use Rattle.ppq_script.specs.declared.form.Form.{Form};
ghost use Rattle.ppq_script.specs.declared.form.Form.TheVariants.{Bytes};
ghost use Rattle.ppq_engine.specs.Bounds.{HasLength, AreBounds};
ghost use Rattle.ppq_engine.specs.Output.{output_of, load_of, crest_of};
ghost use Rattle.ppq_engine.specs.Deferred.{output_deferred, load_deferred, crest_deferred, DefinitionsAgree, HoldsInPlace};
ghost use Rattle.ppq_engine.specs.Frames.{all_answers, framed, AreShort};
ghost use Rattle.ppq_engine.specs.Pops.{DrainsAsPops};

use ppq_record::record_laws;
use ppq_script::Fields;

/// If each command stands in its place, it makes no difference whether a record that is pushed in a
/// session joins the multiset at once or when the session ends: the script has the same output, load
/// and crest. So has each prefix of it, also one that ends within a session (`prefixes`).
#[inline]
pub fn session_laws<R: Fields>()
    ensures output { HoldsInPlace R.Fields (λ given commands. (form : Form) → output_deferred R.Fields form given commands ≡ output_of R.Fields form given commands) }
    ensures load { HoldsInPlace R.Fields (λ given commands. load_deferred R.Fields given commands ≡ load_of R.Fields given commands) }
    ensures crest { HoldsInPlace R.Fields (λ given commands. crest_deferred R.Fields given commands ≡ crest_of R.Fields given commands) }
    ensures prefixes { HoldsInPlace R.Fields (λ given commands. (k : ℕ) → DefinitionsAgree R.Fields given (take k commands)) }
{}

/// If each command stands in its place, and each file has as many records as its length says, a script's load
/// is no more than the greatest size that its commands can lead to, and its crest no less than the least; they
/// are these sizes if nothing is popped below a limit.
#[inline]
pub fn load_laws<R: Fields>()
    ensures { HoldsInPlace R.Fields (λ given commands. Each (HasLength R.Fields given) commands → AreBounds R.Fields given commands) }
{
    record_laws::<R>();
}

/// A drain removes the records that as many pops remove one by one, and its summary is that of these records.
/// As long as there are so many, these pops print what a bulk pop prints.
#[inline]
pub fn drain_laws<R: Fields>()
    ensures { (bag : List R) (n : ℕ) → DrainsAsPops R.Fields bag n }
{
    record_laws::<R>();
}

/// In the form `Bytes` a script's output is one frame for each answer, and the answers can be read back: no other
/// answers have frames with the same bytes, so scripts with the same output have the same answers.
#[inline]
pub fn frame_laws<R: Fields>()
    ensures frames { (given : ℕ → List R) (commands : List (Command R)) → output_of R.Fields Bytes given commands ≡ framed (all_answers R.Fields given commands) }
    ensures short { (given : ℕ → List R) (commands : List (Command R)) → AreShort (all_answers R.Fields given commands) }
    ensures apart { (one other : List (List ℕ)) → AreShort one → AreShort other → framed one ≡ framed other → one ≡ other }
{
    record_laws::<R>();
}
