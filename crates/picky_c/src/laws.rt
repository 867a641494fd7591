//! Laws of numbers and names, each as the contract of a function that does nothing.

ghost use Rattle.std.specs.Prelude.{◌≡◌, ◌++◌, [], ℕ, List, Result, Ok, Err, codes};
ghost use Rattle.picky_key_text.specs.Order.{reading};
ghost use Rattle.picky_key_text.specs.Reader.{Reader};
ghost use Rattle.picky_key_text.specs.declared.error.ReadError.{ReadError as ReadRefusal};
ghost use Rattle.picky_suite.specs.Meanings.{plain};
ghost use Rattle.picky_shown.specs.Shown.{shows};
ghost use Rattle.picky_changed.specs.Comment.{commented_text};
ghost use Rattle.picky_target.specs.declared.error.ConvertError.{ConvertError as Refusal};
ghost use Rattle.picky_target.specs.declared.error.ConvertError.TheVariants as refusals;
ghost use Rattle.picky_target.specs.declared.target.KeyTarget.{KeyTarget as To};
ghost use Rattle.picky_suite.specs.Asked.{GivesAsked};
ghost use Rattle.picky_suite.specs.Meanings.{Meanings};
ghost use Rattle.picky_ask.specs.Known.{Agrees, with_hmac};
ghost use Rattle.picky_conversion.specs.Convert.{IsConversion, conversion};
ghost use Rattle.picky_conversion.specs.Outside.{Outside};
ghost use Rattle.picky_convert.specs.Report.{name, path};
ghost use Rattle.picky_certify.specs.Certify.{Given as Texts, certified_in, draft_in};
ghost use Rattle.picky_certify.specs.declared.error.CertifyError.TheVariants as certify;
ghost use Rattle.picky_c.specs.declared.error.PickyError.TheVariants as errors;
ghost use Rattle.picky_c.specs.declared.error.PickyError.{PickyError as Reason};
ghost use Rattle.picky_c.specs.declared.round.Round.{Round as ARound};
ghost use Rattle.picky_c.specs.Calls.{IsConverted, converted, converted_with, converting_is_asked, entries_of};
ghost use Rattle.picky_c.specs.Given.{Given, outside};
ghost use Rattle.picky_c.specs.Name.{error_name};
ghost use Rattle.picky_c.specs.Number.{IsAnswered, error_number};
ghost use Rattle.picky_c.specs.Refusal.{refusal_of};
ghost use Rattle.picky_c.specs.Round.{GivesRound, IsNumbered, IsWithoutAnswers};

use picky_ask::laws::a_table_that_agrees_means_the_same;

/// The name of a refusal's number is what the program says of it, behind `refused: `.
pub fn names_are_the_programs()
    ensures { (e : Refusal) → IsAnswered e → codes "refused: " ++ error_name (error_number (errors.Refused e)) ≡ path e ++ name e }
{}

/// What is refused is answered as a refusal, also of a text that is shown or is to have another comment: the numbers of no memory
/// and of no cipher come for nothing else.
pub fn refusals_are_answered()
    ensures conversion { (o : Outside) (to : To) (input : List ℕ) (e : Refusal) → conversion o to input ≡ Err e → IsAnswered e }
    ensures reading { (r : Reader) (text : List ℕ) (e : ReadRefusal) → reading r text ≡ Err e → IsAnswered (refusals.Input e) }
    ensures shown { (text : List ℕ) (e : ReadRefusal) → shows plain text ≡ Err e → IsAnswered (refusals.Input e) }
    ensures comment { (comment text : List ℕ) (e : Refusal) → commented_text plain comment text ≡ Err e → IsAnswered e }
    ensures refusal { (e : Refusal) → IsAnswered e → refusal_of e ≡ errors.Refused e }
{}

/// What is refused of a certificate that is asked for is answered as a refusal, too, whether its signed bytes are asked for or its line.
pub fn refusals_of_certificates_are_answered()
    ensures draft { (g : Texts) (e : Refusal) → draft_in g ≡ Err (certify.Refused e) → IsAnswered e }
    ensures line { (g : Texts) (answers : List ℕ) (e : Refusal) → certified_in g answers ≡ Err (certify.Refused e) → IsAnswered e }
{}

/// Where each answer is what some meanings give, a conversion by the answers is one under these, with the library's MACs: its text,
/// its first reason, and what a text is read back as.
pub fn answers_that_agree_mean_the_same()
    ensures gives { (m : Meanings) (to : Result To Reason) (g : Given) → Agrees m (entries_of g)
        → converted m to g ≡ converted_with (with_hmac m) to g }
    ensures means { (m : Meanings) (to : To) (g : Given) (bytes : List ℕ) → Agrees m (entries_of g)
        → IsConverted m (Ok to) g bytes → IsConversion (outside (with_hmac m) g) to g.text bytes }
{
    a_table_that_agrees_means_the_same();
}

/// What a round by no answers comes to is what a conversion without answers does, where a question is the want of a cipher.
pub fn a_conversion_is_a_round_by_no_answers()
    ensures { (m : Meanings) (to : Result To Reason) (g : Given) (round : Result ARound Reason) (result : Result (List ℕ) Reason)
        → IsNumbered to → g.answers ≡ []
        → GivesRound (converted m to g) (converting_is_asked m to g) (entries_of g) round → IsWithoutAnswers round result
        → GivesAsked errors.NoMemory errors.NoCipher (λ bytes. bytes) result (converted m to g) (converting_is_asked m to g) (Unit {0}) }
{}
