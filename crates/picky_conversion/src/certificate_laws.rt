//! The laws of what is asked of a certificate, each as the contract of a function that does nothing.

ghost use Rattle.std.specs.Prelude.{◌≡◌, ◌↔◌, List, ℕ, Ok};
ghost use Rattle.picky_cert_builder.specs.Draft.{Unsigned};
ghost use Rattle.picky_key_text.specs.declared.meaning.Meaning.{Meaning as Meant};
ghost use Rattle.picky_conversion.specs.declared.request.CertRequest.{CertRequest as Request};
ghost use Rattle.picky_conversion.specs.Drafted.{IsDrafted, IsLineDrafted, drafted, line_drafted};

/// The order of refusals ends in a certificate that is to be signed exactly where the request comes to it.
pub fn requests_are_refused_as_they_come_to_nothing()
    ensures signed { (request : Request) (m : Meant) (fresh : List ℕ) (u : Unsigned)
        → (drafted request m fresh ≡ Ok u) ↔ IsDrafted request m fresh u }
    ensures line { (request : Request) (m : Meant) (fresh : List ℕ) (u : Unsigned)
        → (line_drafted request m fresh ≡ Ok u) ↔ IsLineDrafted request m fresh u }
{}
