//! The items of each list of a certificate.

ghost use Rattle.std.specs.Prelude.{⊤};
ghost use Rattle.picky_cert_blob.specs.Items.{principal_item, option_item, extension_item};
ghost use Rattle.picky_cert_blob.specs.carried.Items.{principal_item_solid, option_item_solid, extension_item_solid};
ghost use Rattle.picky_cert_blob.specs.CertSeen.{extension_seen, option_seen};
ghost use Rattle.picky_wire_base.specs.View.{SeenAt};

use crate::items::Item;
use crate::part::CertPart;
use picky_cert_parts::{SshCriticalOption, SshCriticalOptionType, SshExtension};
use picky_wire::{Part, Stopped, Stuck, Text, string_in, text_in, word_in};

/// A principal: a text.
pub struct Principals;

impl Item for Principals {
    type Value = Text;

    ghost item = { principal_item };

    ghost solid = { principal_item_solid };

    #[tactic(auto, unfolding(crate::specs::Items::principal_item))]
    fn pass<'a>(bytes: &'a [u8], from: usize) -> Result<usize, Stopped<'a, CertPart>> {
        match text_in(bytes, from, CertPart::Principals) {
            Ok((_, next)) => Ok(next),
            Err(stopped) => Err(stopped),
        }
    }
}

/// A critical option: its name and its data.
pub struct Options;

impl Item for Options {
    type Value = SshCriticalOption;

    ghost item = { option_item };

    ghost solid = { option_item_solid };

    fn pass<'a>(bytes: &'a [u8], from: usize) -> Result<usize, Stopped<'a, CertPart>> {
        match option_at(bytes, from) {
            Ok((_, next)) => Ok(next),
            Err(stopped) => Err(stopped),
        }
    }
}

/// A critical option, whose data is a part of the buffer.
#[derive(Clone, Copy)]
pub struct OptionView<'a> {
    pub option_type: SshCriticalOptionType,
    pub payload: Part<'a>,
}

#[tactic(auto, unfolding(crate::specs::Items::option_item, picky_cert_parts::specs::CriticalOption::critical_option, picky_cert_parts::specs::CriticalOption::option_type, picky_cert_parts::specs::CriticalOption::option_payload))]
fn option_at<'a>(
    bytes: &'a [u8],
    from: usize,
) -> Result<(OptionView<'a>, usize), Stopped<'a, CertPart>>
    ensures { SeenAt option_seen (λ _. ⊤) option_item bytes.now from result }
{
    let (name, next) = word_in(bytes, from, CertPart::Options)?;
    match SshCriticalOptionType::of_name(name.text) {
        Some(option_type) => {
            let (payload, next) = string_in(bytes, next, CertPart::Options)?;
            Ok((
                OptionView {
                    option_type,
                    payload,
                },
                next,
            ))
        }
        None => Err(Stopped {
            place: CertPart::Options,
            stuck: Stuck::Name(name.part),
        }),
    }
}

/// An extension: its name and its data.
pub struct Extensions;

impl Item for Extensions {
    type Value = SshExtension;

    ghost item = { extension_item };

    ghost solid = { extension_item_solid };

    #[tactic(auto, using(crate::proofs::RowLemmas::extension_passed))]
    fn pass<'a>(bytes: &'a [u8], from: usize) -> Result<usize, Stopped<'a, CertPart>> {
        match extension_at(bytes, from) {
            Ok((_, next)) => Ok(next),
            Err(stopped) => Err(stopped),
        }
    }
}

/// An extension whose name and data are parts of the buffer.
#[derive(Clone, Copy)]
pub struct ExtensionView<'a> {
    pub name: Part<'a>,
    pub payload: Part<'a>,
}

#[tactic(auto, unfolding(crate::specs::Items::extension_item, picky_cert_parts::specs::Extension::extension, picky_cert_parts::specs::Extension::extension_type, picky_cert_parts::specs::Extension::extension_payload))]
fn extension_at<'a>(
    bytes: &'a [u8],
    from: usize,
) -> Result<(ExtensionView<'a>, usize), Stopped<'a, CertPart>>
    ensures { SeenAt extension_seen (λ _. ⊤) extension_item bytes.now from result }
{
    let (name, next) = text_in(bytes, from, CertPart::Extensions)?;
    let (payload, next) = string_in(bytes, next, CertPart::Extensions)?;
    Ok((ExtensionView { name, payload }, next))
}
