//! What is read before anything is made: the request of the words and the issuer's text, and the key text.

ghost use Rattle.std.specs.Prelude.{[], Some};
ghost use Rattle.picky_wire_base.specs.Gives.{Gives};
ghost use Rattle.picky_wire_base.specs.Outcome.{map_err, map_ok};
ghost use Rattle.picky_key_text.specs.Order.{reading};
ghost use Rattle.picky_target.specs.declared.error.ConvertError.TheVariants as conversions;
ghost use Rattle.picky_conversion.specs.Issue.{issuer_read};
ghost use Rattle.picky_conversion.specs.Outside.{reader};
ghost use Rattle.picky_conversion.specs.Request.{request_by};
ghost use Rattle.picky_certify.specs.Certify.{plain_outside, request_as};
ghost use Rattle.picky_certify.specs.Refusal.{conversion_refusal};

use crate::error::CertifyError;
use picky_conversion::CertRequest;
use picky_issuing::{CertOptions, options_of};
use picky_key_text::{Key, Meaning, ReadError, read_text};
use picky_suite::PlainSuite;
use picky_target::ConvertError;
use picky_wire::{NoMemory, Text};
use std::alloc::Global;

/// What the words ask, of the issuer whose text this is. Refuses, in order: `Words`; `Refused(Issuer)`.
pub fn request_of(alloc: Global, words: &[Text], issuer: &str) -> Result<CertRequest, CertifyError>
    ensures { Gives CertifyError.NoMemory (λ request. request) result (request_as words.now issuer.now) }
{
    match options_of(alloc, words) {
        Ok(Some(options)) => request_with(alloc, options, issuer),
        Ok(None) => Err(CertifyError::Words),
        Err(NoMemory) => Err(CertifyError::NoMemory),
    }
}

/// The same of options.
fn request_with(
    alloc: Global,
    options: CertOptions,
    issuer: &str,
) -> Result<CertRequest, CertifyError>
    ensures { Gives CertifyError.NoMemory (λ request. request) result
        (map_ok (request_by options) (map_err conversion_refusal (issuer_read (plain_outside []) (Some issuer.now)))) }
{
    match issuer_of(alloc, issuer) {
        Ok(key) => Ok(CertRequest::of_options(options, Some(key))),
        Err(e) => {
            drop(options);
            Err(e)
        }
    }
}

/// The key that the issuer's text means. It is read without a passphrase, so that no suite is asked.
fn issuer_of(alloc: Global, issuer: &str) -> Result<Key, CertifyError>
    ensures { Gives CertifyError.NoMemory (λ key. Some key) result
        (map_err conversion_refusal (issuer_read (plain_outside []) (Some issuer.now))) }
{
    let mut suite = PlainSuite::new();
    match read_text(alloc, &mut suite, issuer, None) {
        Ok(meaning) => {
            let Meaning { key, .. } = meaning;
            Ok(key)
        }
        Err(e) => match e {
            ReadError::NoMemory => {
                drop(e);
                Err(CertifyError::NoMemory)
            }
            e => Err(CertifyError::Refused(ConvertError::Issuer(e))),
        },
    }
}

/// What the key text means, read as the issuer's.
pub fn meaning_of(alloc: Global, key: &str) -> Result<Meaning, CertifyError>
    ensures { Gives CertifyError.NoMemory (λ meaning. meaning) result
        (map_err conversion_refusal (map_err conversions.Input (reading (reader (plain_outside [])) key.now))) }
{
    let mut suite = PlainSuite::new();
    match read_text(alloc, &mut suite, key, None) {
        Ok(meaning) => Ok(meaning),
        Err(e) => match e {
            ReadError::NoMemory => {
                drop(e);
                Err(CertifyError::NoMemory)
            }
            e => Err(CertifyError::Refused(ConvertError::Input(e))),
        },
    }
}
