//! The fields of a certificate, moved from what is asked for, with a default where nothing is.

ghost use Rattle.std.specs.Prelude.{◌≡◌, IfOk};
ghost use Rattle.picky_cert_parts.specs.ExtensionType.{extension_name};
ghost use Rattle.picky_cert_parts.specs.CertNames.{option_name};
ghost use Rattle.picky_cert_builder.specs.ByName.{by_name};
ghost use Rattle.picky_cert_builder.specs.Draft.{or_empty, or_permits, or_zero as or_zero_of};

use crate::builder::SshCertificateBuilder;
use crate::permits::default_permits;
use crate::sort::{Named, sorted_by_name};
use picky_cert_parts::{SshCertType, SshCriticalOption, SshExtension};
use picky_wire::{List, NoMemory, Text, both};
use std::alloc::Global;

/// The number, or 0.
pub fn or_zero(number: Option<u64>) -> u64
    ensures { result ≡ or_zero_of number }
{
    match number {
        Some(number) => number,
        None => 0,
    }
}

/// The text, or the empty one.
fn text_or_empty(alloc: Global, text: Option<Text>) -> Text
    ensures { result ≡ or_empty text }
{
    match text {
        Some(text) => text,
        None => Text::from_string(String::new(alloc)),
    }
}

/// The list, or the empty one.
fn list_or_empty<T>(alloc: Global, list: Option<List<T>>) -> List<T>
    ensures { result ≡ or_empty list }
{
    match list {
        Some(list) => list,
        None => List::new(alloc),
    }
}

impl Named for SshCriticalOption {
    ghost use Rattle.picky_cert_parts.specs.CertNames.{option_name};

    ghost name = { λ o. option_name o.option_type };

    fn name(&self) -> &str {
        self.option_type.as_str()
    }
}

impl Named for SshExtension {
    ghost use Rattle.picky_cert_parts.specs.ExtensionType.{extension_name};

    ghost name = { λ x. extension_name x.extension_type };

    fn name(&self) -> &str {
        self.extension_type.as_str()
    }
}

/// The key id, the principals, the critical options and the extensions by name, and the comment; what else is there is dropped.
///
/// Refuses: `NoMemory`.
pub fn fields(
    alloc: Global,
    builder: SshCertificateBuilder,
    cert_type: SshCertType,
) -> Result<
    (
        Text,
        List<Text>,
        List<SshCriticalOption>,
        List<SshExtension>,
        Text,
    ),
    NoMemory,
>
    ensures { IfOk result (λ fields. fields ≡ (
      or_empty builder.key_id,
      or_empty builder.valid_principals,
      by_name (λ o. option_name o.option_type) (or_empty builder.critical_options),
      by_name (λ x. extension_name x.extension_type) (or_permits cert_type (or_empty builder.extensions)),
      or_empty builder.comment,
    )) }
{
    let SshCertificateBuilder {
        public_key,
        key_id,
        valid_principals,
        critical_options,
        extensions,
        issuer,
        comment,
        ..
    } = builder;
    drop(public_key);
    drop(issuer);
    let options = sorted_by_name(list_or_empty(alloc, critical_options));
    match both(options, extensions_by_name(alloc, cert_type, extensions)) {
        Ok((critical_options, extensions)) => {
            let key_id = text_or_empty(alloc, key_id);
            let valid_principals = list_or_empty(alloc, valid_principals);
            let comment = text_or_empty(alloc, comment);
            Ok((
                key_id,
                valid_principals,
                critical_options,
                extensions,
                comment,
            ))
        }
        Err(NoMemory) => {
            drop(key_id);
            drop(valid_principals);
            drop(comment);
            Err(NoMemory)
        }
    }
}

/// The extensions, or the permits of a user who asks for none, by name. Refuses: `NoMemory`.
fn extensions_by_name(
    alloc: Global,
    cert_type: SshCertType,
    extensions: Option<List<SshExtension>>,
) -> Result<List<SshExtension>, NoMemory>
    ensures { IfOk result (λ sorted.
        sorted ≡ by_name (λ x. extension_name x.extension_type) (or_permits cert_type (or_empty extensions))) }
{
    let granted = or_default(alloc, cert_type, list_or_empty(alloc, extensions))?;
    sorted_by_name(granted)
}

/// The extensions, or the permits of a user who asks for none. Refuses: `NoMemory`.
fn or_default(
    alloc: Global,
    cert_type: SshCertType,
    extensions: List<SshExtension>,
) -> Result<List<SshExtension>, NoMemory>
    ensures { IfOk result (λ granted. granted ≡ or_permits cert_type extensions) }
{
    match cert_type {
        SshCertType::Client => {
            if extensions.as_slice().is_empty() {
                default_permits(alloc)
            } else {
                Ok(extensions)
            }
        }
        SshCertType::Host => Ok(extensions),
    }
}
