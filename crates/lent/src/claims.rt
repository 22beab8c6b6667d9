//! What is proved of `lower_lent`, and of a default diagnostic: each claim is what a function ensures.

ghost use Rattle.std.specs.Prelude.{◌≡◌};
ghost use Rattle.lent.specs.Diagnostics.{no_diagnostic};
ghost use Rattle.lent.specs.Laws.{RecordFormIsByteForm, RunsAgree, BytesTellStructs, StructsAreLeft};

use crate::Diagnostic;

/// With the bytes of the structs lent, `lower_book` gives the same reply and results, and leaves the bytes of the
/// structs that are left.
#[tactic(auto, using(crate::proofs::Laws::record_form_is_byte_form))]
pub fn record_form_is_byte_form()
    ensures { RecordFormIsByteForm }
{}

/// What `lower_lent` answered and left agrees so with what `lower_book` did.
#[tactic(auto, using(crate::proofs::Laws::runs_agree))]
pub fn runs_agree()
    ensures { RunsAgree }
{}

/// No two lists of structs, their fields within their widths, have the same bytes.
#[tactic(auto, using(crate::proofs::Structs::bytes_tell_structs))]
pub fn bytes_tell_structs()
    ensures { BytesTellStructs }
{}

/// The counters and the structs that are left are what the reply says.
#[tactic(auto, using(crate::proofs::Laws::structs_are_left))]
pub fn structs_are_left()
    ensures { StructsAreLeft }
{}

/// The default diagnostic is the zero one, which is none.
pub fn default_is_none() -> Diagnostic
    ensures { result ≡ no_diagnostic }
{
    Diagnostic::default()
}
